// The norm of a slice: the root of the sum of its squares, taken of entries that a power of two has brought
// near 1, so that small units lose no square and large ones overflow in none.
#![tactic(auto)]

ghost use Rattle.std.specs.Prelude.{◌≡◌, ℕ, ◌≤◌, ◌+◌, ◌-◌, ◌*◌, ◌<◌, ◌^◌, max, length, true, T};
ghost use Rattle.std.specs.Float.{binary64};
ghost use Rattle.std.specs.Float.Ieee.{size, fits, le};
ghost use Rattle.numbers.specs.Numbers.{+0, at, dot};
ghost use Rattle.numbers.specs.Rounded.{IsUnits};
ghost use Rattle.norms.specs.Norm.{scaled, magnitude, reduced, norm};
ghost use Rattle.norms.specs.inner.Sums.{faint_sum, most_sum};
ghost use Rattle.norms.specs.inner.Patterns.{units_of, PatternOf, LargestPattern};

// 2^j units of 2^-1074.
fn power(j: u64) -> f64
    requires { j ≤ 2097 }
    ensures { IsUnits result (2 ^ j) }
{
    if j < 52 {
        return f64::from_bits(1u64 << j);
    }
    f64::from_bits((j - 51) * 0x10_0000_0000_0000)
}

// x * 2^1075 / 2^z, rounded once. Below 2^52 units 2^1075 / 2^z is no f64, and the first of the two products is exact.
fn scale(x: f64, z: u64) -> f64
    requires { (z ≤ 2098) × (magnitude x < 2 ^ z) }
    ensures { result ≡ scaled 1075 z x }
{
    if z < 52 {
        let p = power(2097 - z);
        return x * 4503599627370496.0 * p;
    }
    let p = power(2149 - z);
    x * p
}

// x * 2^z / 2^1075, rounded once.
fn scale_back(x: f64, z: u64) -> f64
    requires { (0 < z) × (z ≤ 2098) }
    ensures { result ≡ scaled z 1075 x }
{
    let back = power(z - 1);
    x * back
}

// The bit pattern of x without its sign; a NaN's is above the infinity's.
fn pattern(x: f64) -> u64
    ensures { PatternOf x result }
{
    if x != x {
        return 0x7ff8_0000_0000_0000;
    }
    f64::to_bits(x) % 0x8000_0000_0000_0000
}

// The largest of the entries' patterns.
fn largest_pattern(xs: &[f64]) -> u64
    ensures { LargestPattern (length xs.now) xs.now result }
{
    let mut most: u64 = 0;
    for x in xs {
        most = most.max(pattern(*x));
    }
    most
}

// How many binary digits the units have that a pattern stands for.
fn unit_digits(b: u64) -> u64
    requires { (0 < b) × (b < 9218868437227405312) }
    ensures { (result ≡ size (units_of b)) × (0 < result) × (result ≤ 2098) }
{
    let e = b / 0x10_0000_0000_0000;
    if e == 0 {
        return 64 - u64::leading_zeros(b) as u64;
    }
    52 + e
}

// The sum of the squares of the entries times 2^1075 / 2^z.
fn scaled_squares(xs: &[f64], z: u64) -> f64
    requires z_bound { z ≤ 2098 }
    requires by_index { (i : ℕ) → i < length xs.now → magnitude (at xs.now i) < 2 ^ z }
    ensures { result ≡ dot (length xs.now) (reduced z xs.now) (reduced z xs.now) }
{
    let mut t = -0.0;
    for x in xs {
        let y = scale(*x, z);
        t = t + y * y;
    }
    t
}

// The norm of a slice, by scaling.
pub fn scaled_norm(xs: &[f64]) -> f64
    ensures { result ≡ norm xs.now }
{
    let b = largest_pattern(xs);
    if b == 0 {
        return 0.0;
    }
    if 0x7ff0_0000_0000_0000 < b {
        return 0.0 / 0.0;
    }
    if b == 0x7ff0_0000_0000_0000 {
        return 1.0 / 0.0;
    }
    let z = unit_digits(b);
    let s = scaled_squares(xs, z);
    let r = numbers::sqrt(s);
    scale_back(r, z)
}

// That each of the n numbers from p on is an f64. It compiles to nothing.
pub fn known_within(l: &[f64], p: usize, n: usize)
    requires { p + n ≤ length l.now }
    ensures { (i : ℕ) → i < n → T (fits binary64 (at l.now (p + i))) }
{}

// Where a sum of at most 18 squares settles the norm alone.
#[derive(Clone, Copy)]
pub struct Deciding {}

impl Deciding {
    // 2^-80
    const FAINT: f64 = 8.271806125530277e-25;
    // 2^1000
    const MOST: f64 = 1.0715086071862673e301;

    // 2^(55 n - 1075), for n squares.
    pub fn least(n: usize) -> f64
        requires { (0 < n) × (n ≤ 18) }
        ensures { IsUnits result (2 ^ (55 * n - 1)) }
    {
        power(55 * (n as u64) - 1)
    }

    // s lies between the least sum that decides and 2^1000: then the norm is its root.
    pub fn holds(least: f64, s: f64) -> bool
        ensures { result ≡ true → (le least s ≡ true) × (le s most_sum ≡ true) }
    {
        s >= least && s <= Deciding::MOST
    }

    // s is at most 2^-80, and not below zero: then the norm is at most 2^-30.
    pub fn bounds(s: f64) -> bool
        ensures { result ≡ true → (le +0 s ≡ true) × (le s faint_sum ≡ true) }
    {
        s >= 0.0 && s <= Deciding::FAINT
    }
}

// The norm of a slice: the plain one where the sum of the squares decides it, so that scaling is seldom needed.
pub fn norm(xs: &[f64]) -> f64
    ensures { result ≡ norm xs.now }
{
    let n = xs.len();
    if 0 < n {
        if n <= 18 {
            known_within(xs, 0, n);
            let least = Deciding::least(n);
            let s = numbers::dot(n, xs, xs);
            let sure = Deciding::holds(least, s);
            if sure {
                return numbers::sqrt(s);
            }
        }
    }
    scaled_norm(xs)
}
