// An f64 as text with three decimals.
ghost use Rattle.std.specs.Prelude.{◌≡◌, ◌&&◌, ◌++◌, ◌+◌, ◌*◌, ◌^◌, ◌≤◌, ◌<◌, ltb, length, take};
ghost use Rattle.std.specs.Float.Ieee.Nearest.{closest};
ghost use Rattle.ascii.specs.Text.{padded};
ghost use Rattle.ascii.specs.inner.Work.{Wrote};
ghost use Rattle.decimals.specs.Decimal.{minus_text};
ghost use Rattle.decimals.specs.Fixed.{signed_text, tiny_text, is_tiny, small_text, fixed_text};
ghost use Rattle.decimals.specs.inner.Units.{units_of};

// v / 2^d to the nearest whole number, and of two as near the even one.
fn nearest(v: u64, d: u64) -> u64
    requires { (v < 2 ^ 63) × (d < 64) }
    ensures value { result ≡ closest v (2 ^ d) }
    ensures upper_bound { result ≤ v + 1 }
{
    let unit = 1u64 << d;
    let whole = v / unit;
    let twice = v % unit * 2;
    if twice < unit {
        return whole;
    }
    if unit < twice {
        return whole + 1;
    }
    whole + whole % 2
}

// The thousandths of q * 2^k units of 2^-1074. Where 64 places or more are dropped, none is left.
fn thousandths_at(q: u64, k: u64) -> u64
    requires { (q < 2 ^ 53) × (k ≤ 1074) }
    ensures value { result ≡ closest (1000 * (q * 2 ^ k)) (2 ^ 1074) }
    ensures upper_bound { result ≤ 9007199254740992000 }
{
    let d = 1074 - k;
    if 64 <= d {
        return 0;
    }
    nearest(1000 * q, d)
}

// The thousandths of a number below 2^53, by its bits with the sign's taken off.
fn thousandths(b: u64) -> u64
    requires { b < 1076 * 2 ^ 52 }
    ensures value { result ≡ closest (1000 * units_of b) (2 ^ 1074) }
    ensures upper_bound { result ≤ 9007199254740992000 }
{
    let e = b / 0x10_0000_0000_0000;
    let t = b % 0x10_0000_0000_0000;
    if e == 0 {
        return thousandths_at(t, 0);
    }
    thousandths_at(0x10_0000_0000_0000 + t, e - 1)
}

// Whether a number of thousandths has a minus: zero has none.
fn has_minus(negative: bool, t: u64) -> bool
    ensures { result ≡ (negative && ltb 0 t) }
{
    if negative {
        return 0 < t;
    }
    false
}

// A minus, or nothing.
fn put_minus(out: &mut [u8], at: usize, negative: bool) -> usize
    requires { at < length out.old }
    ensures wrote { Wrote out.old at (minus_text negative) out.new result }
    ensures upper_bound { result ≤ at + 1 }
{
    if negative {
        return ascii::put_byte(out, at, b'-');
    }
    at
}

// A number of thousandths with its sign.
fn put_thousandths(out: &mut [u8], negative: bool, t: u64) -> usize
    requires { (t ≤ 9007199254740992000) × (32 ≤ length out.old) }
    ensures wrote { Wrote out.old 0 (signed_text negative t) out.new result }
    ensures upper_bound { result ≤ 21 }
{
    let a = put_minus(out, 0, has_minus(negative, t));
    let b = ascii::put_decimal(out, a, t / 1000);
    let c = ascii::put_byte(out, b, b'.');
    ascii::put_three(out, c, t)
}

// Whether a number that is not zero would read as zero; its size is 0 for zero alone.
fn is_tiny(size: u64, t: u64) -> bool
    ensures { result ≡ is_tiny size t }
{
    if t == 0 {
        return 0 < size;
    }
    false
}

// That a number is nearer to zero than a thousandth.
fn put_tiny(out: &mut [u8], negative: bool) -> usize
    requires { 32 ≤ length out.old }
    ensures wrote { Wrote out.old 0 (tiny_text negative) out.new result }
    ensures upper_bound { result ≤ 21 }
{
    if negative {
        return ascii::put_text(out, 0, b">-0.001");
    }
    ascii::put_text(out, 0, b"<0.001")
}

// A number by its thousandths, and one that is not zero never as zero.
fn put_small(out: &mut [u8], negative: bool, size: u64, t: u64) -> usize
    requires { (t ≤ 9007199254740992000) × (32 ≤ length out.old) }
    ensures wrote { Wrote out.old 0 (small_text negative size t) out.new result }
    ensures upper_bound { result ≤ 21 }
{
    if is_tiny(size, t) {
        return put_tiny(out, negative);
    }
    put_thousandths(out, negative, t)
}

// A word with its sign.
fn put_word(out: &mut [u8], negative: bool, word: &[u8]) -> usize
    requires { (length word.now ≤ 20) × (32 ≤ length out.old) }
    ensures wrote { Wrote out.old 0 (minus_text negative ++ word.now) out.new result }
    ensures upper_bound { result ≤ 21 }
{
    let a = put_minus(out, 0, negative);
    ascii::put_text(out, a, word)
}

// The text of a float at the start of a buffer.
fn put_number(out: &mut [u8; 32], x: f64) -> usize
    ensures out_after { take result out.new ≡ fixed_text x }
    ensures upper_bound { (result ≤ 21) × (result ≤ length out.new) × (result ≡ length (take result out.new)) }
{
    if x != x {
        return ascii::put_text(out, 0, b"nan");
    }
    let b = f64::to_bits(x);
    let size = b % 0x8000_0000_0000_0000;
    let negative = 0x8000_0000_0000_0000 <= b;
    if size == 0x7ff0_0000_0000_0000 {
        return put_word(out, negative, b"inf");
    }
    if 0x4340_0000_0000_0000 <= size {
        return put_word(out, negative, b"large");
    }
    put_small(out, negative, size, thousandths(size))
}

// A float with three decimals, right-aligned in a width: at most 21 bytes.
pub fn put_fixed(out: &mut [u8], at: usize, width: usize, x: f64) -> usize
    requires { (width ≤ 21) × (at + 21 ≤ length out.old) }
    ensures wrote { Wrote out.old at (padded width (fixed_text x)) out.new result }
    ensures upper_bound { result ≤ at + 21 }
{
    let mut text = [0u8; 32];
    let n = put_number(&mut text, x);
    ascii::put_padded(out, at, width, &text[..n])
}
