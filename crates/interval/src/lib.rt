// Interval arithmetic over f64: each end is rounded to the nearest and then moved one float outward, so no rounding
// mode is needed. Every contract is an equation with a definition; that an interval holds the exact number is a claim
// of `specs/Claims.antt`.
#![tactic(auto)]

ghost use Rattle.std.specs.Prelude.{◌≡◌, ℕ, ◌+◌, ◌*◌, ◌<◌, ◌≤◌, length};
ghost use Rattle.numbers.specs.Numbers.{at};
ghost use Rattle.interval.specs.Next.{next_up, next_down};
ghost use Rattle.interval.specs.Intervals as Definition;

#[derive(Clone, Copy)]
pub struct Interval {
    pub lo: f64,
    pub hi: f64,
}

// ---- ends

// +infinity for itself and for a NaN.
pub fn next_up(x: f64) -> f64
    ensures { result ≡ next_up x }
{
    if x != x {
        return 1.0 / 0.0;
    }
    let b = f64::to_bits(x);
    if b == 0x7ff0_0000_0000_0000 {
        return x;
    }
    if b < 0x8000_0000_0000_0000 {
        return f64::from_bits(b + 1);
    }
    if b == 0x8000_0000_0000_0000 {
        return f64::from_bits(1);
    }
    f64::from_bits(b - 1)
}

// -infinity for itself and for a NaN.
pub fn next_down(x: f64) -> f64
    ensures { result ≡ next_down x }
{
    -next_up(-x)
}

pub fn is_finite(x: f64) -> bool
    ensures { result ≡ Definition.is_finite x }
{
    x < 1.0 / 0.0 && -1.0 / 0.0 < x
}

pub fn is_positive(x: f64) -> bool
    ensures { result ≡ Definition.is_positive x }
{
    0.0 < x && x < 1.0 / 0.0
}

pub fn larger(x: f64, y: f64) -> f64
    ensures { result ≡ Definition.larger x y }
{
    if x < y {
        return y;
    }
    if y <= x {
        return x;
    }
    1.0 / 0.0
}

fn smaller(x: f64, y: f64) -> f64
    ensures { result ≡ Definition.smaller x y }
{
    -larger(-x, -y)
}

pub fn add_up(x: f64, y: f64) -> f64
    ensures { result ≡ Definition.add_up x y }
{
    next_up(x + y)
}

fn add_down(x: f64, y: f64) -> f64
    ensures { result ≡ Definition.add_down x y }
{
    next_down(x + y)
}

pub fn mul_up(x: f64, y: f64) -> f64
    ensures { result ≡ Definition.mul_up x y }
{
    next_up(x * y)
}

pub fn div_up(x: f64, d: f64) -> f64
    ensures { result ≡ Definition.div_up x d }
{
    if is_positive(d) {
        return next_up(x / d);
    }
    1.0 / 0.0
}

pub fn root_up(x: f64) -> f64
    ensures { result ≡ Definition.root_up x }
{
    next_up(numbers::sqrt(x))
}

fn are_zero(x: f64, y: f64) -> bool
    ensures { result ≡ Definition.are_zero x y }
{
    x == 0.0 && y == 0.0
}

// ---- intervals

impl Interval {
    fn line() -> Interval
        ensures { result ≡ Definition.line }
    {
        Interval {
            lo: -1.0 / 0.0,
            hi: 1.0 / 0.0,
        }
    }

    pub fn of(x: f64) -> Interval
        ensures { result ≡ Definition.point x }
    {
        if is_finite(x) {
            return Interval { lo: x, hi: x };
        }
        Interval::line()
    }

    pub fn add(self, other: Interval) -> Interval
        ensures { result ≡ Definition.plus self other }
    {
        if are_zero(self.lo, self.hi) {
            return other;
        }
        if are_zero(other.lo, other.hi) {
            return self;
        }
        Interval {
            lo: add_down(self.lo, other.lo),
            hi: add_up(self.hi, other.hi),
        }
    }

    pub fn sub(self, other: Interval) -> Interval
        ensures { result ≡ Definition.minus self other }
    {
        Interval {
            lo: add_down(self.lo, -other.hi),
            hi: add_up(self.hi, -other.lo),
        }
    }

    pub fn mul(self, other: Interval) -> Interval
        ensures { result ≡ Definition.times self other }
    {
        let a = self.lo * other.lo;
        let b = self.lo * other.hi;
        let c = self.hi * other.lo;
        let d = self.hi * other.hi;
        Interval {
            lo: next_down(smaller(smaller(a, b), smaller(c, d))),
            hi: next_up(larger(larger(a, b), larger(c, d))),
        }
    }

    pub fn magnitude(self) -> f64
        ensures { result ≡ Definition.magnitude self }
    {
        larger(-self.lo, self.hi)
    }

    // Of two floats, which need not be made intervals first.
    pub fn product(x: f64, y: f64) -> Interval
        ensures { result ≡ Definition.product x y }
    {
        let p = x * y;
        if !is_finite(p) {
            return Interval::line();
        }
        if x == 0.0 {
            return Interval { lo: 0.0, hi: 0.0 };
        }
        if y == 0.0 {
            return Interval { lo: 0.0, hi: 0.0 };
        }
        if x == 1.0 {
            return Interval { lo: y, hi: y };
        }
        if x == -1.0 {
            return Interval { lo: -y, hi: -y };
        }
        Interval {
            lo: next_down(p),
            hi: next_up(p),
        }
    }
}

// ---- sums of products

pub fn dot(n: usize, a: &[f64], b: &[f64]) -> Interval
    requires { (n ≤ length a.now) × (n ≤ length b.now) }
    ensures { result ≡ Definition.sum_within n (λ i. Definition.product (at a.now i) (at b.now i)) }
{
    let mut sum = Interval::of(0.0);
    for i in 0..n {
        sum = sum.add(Interval::product(a[i], b[i]));
    }
    sum
}

// Each slice at its own start and stride: so of rows and columns.
pub fn dot_strided(
    xs: &[f64],
    a: usize,
    s: usize,
    ys: &[f64],
    b: usize,
    t: usize,
    n: usize,
) -> Interval
    requires by_index { (i : ℕ) → i < n → a + i * s < length xs.now }
    requires by_index_2 { (i : ℕ) → i < n → b + i * t < length ys.now }
    ensures { result ≡ Definition.sum_within n (λ i. Definition.product (at xs.now (a + i * s)) (at ys.now (b + i * t))) }
{
    let mut sum = Interval::of(0.0);
    for i in 0..n {
        let x = xs[a + i * s];
        let y = ys[b + i * t];
        sum = sum.add(Interval::product(x, y));
    }
    sum
}
