// The numeric leaves: sums of f64s, left to right from -0, and the square root.
#![tactic(auto)]

ghost use Rattle.std.specs.Prelude.{◌≡◌, ℕ, ◌≤◌, ◌+◌, ◌*◌, ◌<◌, ◌^◌, length};
ghost use Rattle.numbers.specs.Numbers.{Σ, at, dot, ◌⊗◌};
ghost use Rattle.numbers.specs.Root.{floor_root, root_of, sqrt_of, sum_of};

// The f64 type's own numbers.
#[derive(Clone, Copy)]
pub struct Binary64 {}

impl Binary64 {
    // 2^-52, the spacing of the numbers from 1 on.
    pub const EPSILON: f64 = 2.220446049250313e-16;
}

// The sum of a slice: -0 where it is empty.
pub fn sum(xs: &[f64]) -> f64
    ensures { result ≡ sum_of xs.now }
{
    let mut total = -0.0;
    for x in xs {
        total = total + *x;
    }
    total
}

// The sum of a[k] * b[k] over k < n, from -0.
pub fn dot(n: usize, a: &[f64], b: &[f64]) -> f64
    requires { (n ≤ length a.now) × (n ≤ length b.now) }
    ensures { result ≡ dot n a.now b.now }
{
    let mut t = -0.0;
    for k in 0..n {
        t = t + a[k] * b[k];
    }
    t
}

// The sum of l[p + k] * l[q + k] over k < n, from -0.
pub fn dot_within(l: &[f64], p: usize, q: usize, n: usize) -> f64
    requires { (p + n ≤ length l.now) × (q + n ≤ length l.now) }
    ensures { result ≡ Σ n (λ k. at l.now (p + k) ⊗ at l.now (q + k)) }
{
    let mut t = -0.0;
    for k in 0..n {
        t = t + l[p + k] * l[q + k];
    }
    t
}

// The sum of n products of entries of two slices, each at its own start and stride: so of parts of
// rows or columns of matrices. Each entry that is read lies in its slice.
pub fn dot_strided(xs: &[f64], a: usize, s: usize, ys: &[f64], b: usize, t: usize, n: usize) -> f64
    requires by_index { (i : ℕ) → i < n → a + i * s < length xs.now }
    requires by_index_2 { (i : ℕ) → i < n → b + i * t < length ys.now }
    ensures { result ≡ Σ n (λ i. at xs.now (a + i * s) ⊗ at ys.now (b + i * t)) }
{
    let mut part = -0.0;
    for i in 0..n {
        part = part + xs[a + i * s] * ys[b + i * t];
    }
    part
}

// The root of m * 2^54, rounded down, one binary digit a pass, as docs/ROOT.md works it on paper: `trial`
// is four times the root so far, plus one; `rest` is what the square of that root leaves of the digits
// that have come down, and `below` holds the others. The sign of `left` chooses the digit, so that the
// subtraction is the comparison too.
fn floor_root(m: u64) -> u64
    requires { m < 2 ^ 54 }
    ensures { result ≡ floor_root 54 (m * 2 ^ 54) }
{
    let mut trial: i64 = 1;
    let mut rest: i64 = 0;
    let mut below = m;
    for _ in 0u64..54 {
        rest = 4 * rest + (below / 0x10_0000_0000_0000) as i64;
        below = 4 * (below % 0x10_0000_0000_0000);
        let left = rest - trial;
        trial = 2 * trial - 1;
        if left >= 0 {
            rest = left;
            trial += 4;
        }
    }
    (trial / 4) as u64
}

// The root of m * 2^j units of 2^-1074, to the nearest f64. g zeros stand above m's 53 places; p / 2
// digits of the root are dropped, and s has one digit more than the 53 that are kept.
fn root_at(m: u64, j: u64) -> f64
    requires m_nonzero { 0 < m }
    requires m_bound { m < 2 ^ 53 }
    requires j_bound { j ≤ 2045 }
    ensures { result ≡ root_of (m * 2 ^ j) }
{
    let g = u64::leading_zeros(m) as u64 - 11;
    let p = j + 1022 - g;
    let s = floor_root((m << g) << (p % 2));
    f64::from_bits(p / 2 * 0x10_0000_0000_0000 + (s + 1) / 2)
}

// The square root of IEEE 754, to the nearest, on every f64.
pub fn sqrt(x: f64) -> f64
    ensures { result ≡ sqrt_of x }
{
    if x != x {
        return x;
    }
    let b = f64::to_bits(x);
    let size = b % 0x8000_0000_0000_0000;
    if size == 0 {
        return x;
    }
    if b == 0x7ff0_0000_0000_0000 {
        return x;
    }
    if 0x8000_0000_0000_0000 < b {
        return 0.0 / 0.0;
    }
    let e = b / 0x10_0000_0000_0000;
    let t = b % 0x10_0000_0000_0000;
    if e == 0 {
        return root_at(t, 0);
    }
    root_at(0x10_0000_0000_0000 + t, e - 1)
}
