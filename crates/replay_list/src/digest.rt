// The digest of what a call left (oracle/README.md, "The stored calls").
ghost use Rattle.std.specs.Prelude.{◌≡◌, ◌/◌, ◌%◌, ◌<◌, length};
ghost use Rattle.numbers.specs.Numbers.{at, nth};
ghost use Rattle.replay_list.specs.Digest.{lane as digest_lane, mix, over, pattern_of};

// A half of the digest, with a number more.
fn lane(h: u64, x: u64) -> u64
    requires { (h < 4294967296) × (x < 8589934592) }
    ensures { (result ≡ digest_lane h x) × (result < 4294967291) }
{
    (h * 1664525 + x) % 4294967291
}

// The digest with a word more.
fn mixed(d: u64, x: u64) -> u64
    ensures { result ≡ mix d x }
{
    lane(d / 4294967296, x / 4294967291) * 4294967296 + lane(d % 4294967296, x % 4294967291)
}

// The bits of a float, and one pattern for every NaN.
fn pattern(x: f64) -> u64
    ensures { result ≡ pattern_of x }
{
    if x != x {
        return 0x7ff8000000000000;
    }
    f64::to_bits(x)
}

// The digest with a float more.
pub fn mix_float(d: u64, x: f64) -> u64
    ensures { result ≡ mix d (pattern_of x) }
{
    mixed(d, pattern(x))
}

// The digest with every float of a slice.
pub fn mix_floats(digest: u64, xs: &[f64]) -> u64
    ensures { result ≡ over (length xs.now) digest (λ i. pattern_of (at xs.now i)) }
{
    let mut d = digest;
    for &x in xs {
        d = mix_float(d, x);
    }
    d
}

// The digest with a count more, its upper half first.
pub fn mix_count(d: u64, x: u64) -> u64
    ensures { result ≡ mix (mix d (x / 4294967296)) (x % 4294967296) }
{
    mixed(mixed(d, x / 4294967296), x % 4294967296)
}

// The digest with a u32 more.
pub fn mix_mark(d: u64, x: u32) -> u64
    ensures { result ≡ mix d x }
{
    mixed(d, u64::from(x))
}

// The digest with every u32 of a slice.
pub fn mix_marks(digest: u64, xs: &[u32]) -> u64
    ensures { result ≡ over (length xs.now) digest (nth xs.now) }
{
    let mut d = digest;
    for &x in xs {
        d = mix_mark(d, x);
    }
    d
}

// The digest with a byte more.
fn mix_kind(d: u64, x: u8) -> u64
    ensures { result ≡ mix d x }
{
    mixed(d, u64::from(x))
}

// The digest with a slice's length and then every byte of it.
pub fn mix_kinds(digest: u64, xs: &[u8]) -> u64
    ensures { result ≡ over (length xs.now) (mix digest (length xs.now)) (nth xs.now) }
{
    let mut d = mixed(digest, xs.len() as u64);
    for &x in xs {
        d = mix_kind(d, x);
    }
    d
}

// The digest of a number alone, with which a call's starts.
pub fn digest_of(number: u32) -> u64
    ensures { result ≡ mix 4294967297 number }
{
    mix_mark(4294967297, number)
}
