// The tests of numbers before a bound is worked out.
ghost use Rattle.std.specs.Prelude.{◌≡◌, ◌*◌, ◌≤◌, length};
ghost use Rattle.certain.specs.Bound as Definition;

pub fn all_finite(v: &[f64], n: usize) -> bool
    requires { n ≤ length v.now }
    ensures { result ≡ Definition.are_finite n v.now }
{
    for i in 0..n {
        if !interval::is_finite(v[i]) {
            return false;
        }
    }
    true
}

pub fn all_positive(v: &[f64], n: usize) -> bool
    requires { n ≤ length v.now }
    ensures { result ≡ Definition.are_positive n v.now }
{
    for i in 0..n {
        if !interval::is_positive(v[i]) {
            return false;
        }
    }
    true
}

pub fn none_negative(v: &[f64], n: usize) -> bool
    requires { n ≤ length v.now }
    ensures { result ≡ Definition.none_negative n v.now }
{
    for i in 0..n {
        if !(0.0 <= v[i]) {
            return false;
        }
    }
    true
}

pub fn day_finite(
    n: usize,
    m: usize,
    p: usize,
    values: &[f64],
    balances: &[f64],
    limits: &[f64],
    least: &[f64],
) -> bool
    requires { (n ≤ length values.now) × (m * n ≤ length balances.now) × (p * n ≤ length limits.now) × (p ≤ length least.now) }
    ensures { result ≡ Definition.day_finite n m p values.now balances.now limits.now least.now }
{
    if !all_finite(values, n) {
        return false;
    }
    if !all_finite(balances, m * n) {
        return false;
    }
    if !all_finite(limits, p * n) {
        return false;
    }
    all_finite(least, p)
}

pub fn report_finite(n: usize, m: usize, p: usize, x: &[f64], y: &[f64], z: &[f64]) -> bool
    requires { (n ≤ length x.now) × (m ≤ length y.now) × (p ≤ length z.now) }
    ensures { result ≡ Definition.report_finite n m p x.now y.now z.now }
{
    if !all_finite(x, n) {
        return false;
    }
    if !all_finite(y, m) {
        return false;
    }
    all_finite(z, p)
}
