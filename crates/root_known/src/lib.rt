// A root that was worked out before is tried first: it is checked in whole numbers, exactly, so that it may be
// any number whatever, and where it is not the root, the digits are worked out.
#![tactic(auto)]

ghost use Rattle.std.specs.Prelude.{◌≡◌, true, ◌+◌, ◌*◌, ◌<◌, ◌≤◌, ◌^◌};
ghost use Rattle.std.specs.Float.{binary64};
ghost use Rattle.std.specs.Float.Ieee.{of_bits};
ghost use Rattle.numbers.specs.Root.{sqrt_of};
ghost use Rattle.root_known.specs.inner.Places.{ROOT_PLACES};

// How many places there are for remembered roots: a prime, so that each digit of a number moves its place.
pub const ROOT_PLACES: usize = 509;

// Whether c is the root of m * 2^52 to the nearest: its square is high * 2^52 + rest, and is less than c above
// m * 2^52, or at most c below it. Two units of 2^52 are added to both sides, so that nothing is below zero.
fn is_nearest(m: u64, c: u64) -> bool
    requires { (m < 2 ^ 54) × (c < 2 ^ 53) }
    ensures { result ≡ true → (c * c < m * 2 ^ 52 + c) × (m * 2 ^ 52 ≤ c * c + c) }
{
    let head = c / 0x400_0000;
    let tail = c % 0x400_0000;
    let cross = head * tail;
    let high = head * head + cross / 0x200_0000;
    let rest = cross % 0x200_0000 * 0x800_0000 + tail * tail;
    if m + 2 < high {
        return false;
    }
    let ahead = m + 2 - high;
    if 8 < ahead {
        return false;
    }
    let mine = ahead * 0x10_0000_0000_0000;
    let square = rest + 0x20_0000_0000_0000;
    if mine + c <= square {
        return false;
    }
    mine <= square + c
}

// Whether the number of pattern d is the root of that of pattern b, a normal number above zero: of others it is
// not told. b is m * 2^(2 k) * 2^-2096, as in lines B2 and B3 of docs/ROOT.md, and d is c * 2^k units.
fn is_root_pattern(b: u64, d: u64) -> bool
    ensures { result ≡ true → of_bits binary64 d ≡ sqrt_of (of_bits binary64 b) }
{
    if b < 0x10_0000_0000_0000 {
        return false;
    }
    if 0x7ff0_0000_0000_0000 <= b {
        return false;
    }
    let p = b / 0x10_0000_0000_0000 + 1021;
    let m = (0x10_0000_0000_0000 + b % 0x10_0000_0000_0000) << (p % 2);
    let least = p / 2 * 0x10_0000_0000_0000;
    if d < least + 0x10_0000_0000_0000 {
        return false;
    }
    let c = d - least;
    if 0x20_0000_0000_0000 <= c {
        return false;
    }
    is_nearest(m, c)
}

// Whether y is the root of x, told for normal numbers above zero.
fn is_root(x: f64, y: f64) -> bool
    ensures { result ≡ true → y ≡ sqrt_of x }
{
    if x != x {
        return false;
    }
    if y != y {
        return false;
    }
    is_root_pattern(f64::to_bits(x), f64::to_bits(y))
}

// The root of x: the guess, where it is the root, and else its digits.
pub fn root_of(x: f64, guess: f64) -> f64
    ensures { result ≡ sqrt_of x }
{
    let known = is_root(x, guess);
    if known {
        return guess;
    }
    numbers::sqrt(x)
}

// The place at which the root of x is remembered.
pub fn place_of(x: f64) -> usize
    ensures { result < ROOT_PLACES }
{
    if x != x {
        return 0;
    }
    (f64::to_bits(x) % (ROOT_PLACES as u64)) as usize
}
