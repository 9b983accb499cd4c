// Decimal numbers in a text, read to the nearest f64; and f64s written with three decimals.
#![tactic(auto)]

mod print;

ghost use Rattle.std.specs.Prelude.{◌≡◌, false, ◌+◌, ◌-◌, ◌*◌, ◌^◌, ◌≤◌, ◌<◌, get_or};
ghost use Rattle.std.specs.Float.{binary64};
ghost use Rattle.std.specs.Float.Ieee.{round};
ghost use Rattle.decimals.specs.Decimal.{is_digit, value_of, within as decimal_within, unsigned_at, decimal_at};
ghost use Rattle.decimals.specs.inner.Work.{capped, run_from};

pub use print::put_fixed;

// A number with the place after it.
#[derive(Clone, Copy)]
pub struct Decimal {
    pub value: f64,
    pub end: usize,
}

// The value of digits, and the place after them.
#[derive(Clone, Copy)]
pub struct Run {
    pub value: u64,
    pub end: usize,
}

// The powers of ten that are f64s exactly.
const POWERS: [f64; 23] = [
    1.0,
    10.0,
    100.0,
    1000.0,
    10000.0,
    100000.0,
    1000000.0,
    10000000.0,
    100000000.0,
    1000000000.0,
    10000000000.0,
    100000000000.0,
    1000000000000.0,
    10000000000000.0,
    100000000000000.0,
    1000000000000000.0,
    10000000000000000.0,
    1e17,
    1e18,
    1e19,
    1e20,
    1e21,
    1e22,
];

// The byte at a place, and 0 past the end.
fn byte_at(bytes: &[u8], i: usize) -> u8
    ensures { result ≡ get_or bytes.now i 0 }
{
    bytes.get(i).copied().unwrap_or(0)
}

// Whether a byte is a digit.
fn is_digit(c: u8) -> bool
    ensures { result ≡ is_digit c }
{
    if 48 <= c {
        return c <= 57;
    }
    false
}

// One digit more, as long as the number is below 10^15.
fn more(value: u64, c: u8) -> u64
    requires { (value ≤ 1000000000000000) × (c < 58) }
    ensures { result ≡ capped (10 * value + (c - 48)) }
{
    let next = 10 * value + u64::from(c.saturating_sub(b'0'));
    next.min(1000000000000000)
}

// The digits from a place on, after digits that stand for `value`.
pub fn digits(bytes: &[u8], from: usize, value: u64) -> Run
    requires { value ≤ 1000000000000000 }
    ensures { result ≡ run_from bytes.now from value }
{
    let mut v = value;
    for i in from..bytes.len() {
        let c = bytes[i];
        if !is_digit(c) {
            return Run { value: v, end: i };
        }
        v = more(v, c);
    }
    Run {
        value: v,
        end: from.max(bytes.len()),
    }
}

// 10^k.
fn power(k: usize) -> f64
    requires { k ≤ 22 }
    ensures { result ≡ round binary64 false (10 ^ k) 1 }
{
    POWERS[k]
}

// The f64 nearest to a / 10^k, with a sign: one division of two f64s that are exact.
fn quotient(negative: bool, a: u64, k: usize) -> f64
    requires { (a < 1000000000000000) × (k ≤ 22) }
    ensures { result ≡ value_of negative a k }
{
    let q = a as f64 / power(k);
    if negative {
        return -q;
    }
    q
}

// The number that was read, if it has not too many digits or places; else the place of its first byte.
fn within(negative: bool, a: u64, k: usize, at: usize, next: usize) -> Result<Decimal, usize>
    ensures { result ≡ decimal_within negative a k at next }
{
    if 1000000000000000 <= a {
        return Err(at);
    }
    if 22 < k {
        return Err(at);
    }
    Ok(Decimal {
        value: quotient(negative, a, k),
        end: next,
    })
}

// A number that starts at `at`, by its digits from `start` on.
fn unsigned(bytes: &[u8], negative: bool, at: usize, start: usize) -> Result<Decimal, usize>
    ensures { result ≡ unsigned_at bytes.now negative at start }
{
    let whole = digits(bytes, start, 0);
    let end = whole.end;
    if end == start {
        return Err(start);
    }
    if byte_at(bytes, end) != b'.' {
        return within(negative, whole.value, 0, at, end);
    }
    let first = end + 1;
    let all = digits(bytes, first, whole.value);
    let next = all.end;
    if next == first {
        return Err(first);
    }
    within(negative, all.value, next - first, at, next)
}

// Reads the decimal number `[-]digits[.digits]` at a place of a text, to the nearest f64. An error is the place of what is no number.
pub fn read(bytes: &[u8], at: usize) -> Result<Decimal, usize>
    ensures { result ≡ decimal_at bytes.now at }
{
    if byte_at(bytes, at) == b'-' {
        return unsigned(bytes, true, at, at + 1);
    }
    unsigned(bytes, false, at, at)
}
