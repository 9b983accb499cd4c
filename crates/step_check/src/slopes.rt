// The first test: stationarity.
ghost use Rattle.std.specs.Prelude.{◌≡◌, [], ◌∷◌, ◌*◌, ◌≤◌, ◌<◌, length};
ghost use Rattle.numbers.specs.Numbers.{+0};
ghost use Rattle.step_check.specs.declared.Test.TheVariants.{Stationarity};
ghost use Rattle.step_check.specs.declared.Part.TheVariants.{Variable};
ghost use Rattle.step_check.specs.Check.{halfway, curved, terms, less_lower, plus_upper, slope, margin_of, slopes, first_failed};
ghost use Rattle.step_check.specs.Lent.{problem_in, pasted_in};

use crate::{Part, Posed, Test, Verdict};

// Entry k of L'd, from the lower triangle.
fn halfway_at(factor: &[f64], d: &[f64], n: usize, k: usize) -> f64
    requires { (k < n) × (length factor.now ≡ n * n) × (length d.now ≡ n) }
    ensures { result ≡ halfway n factor.now d.now k }
{
    let p = k * n;
    numbers::dot_strided(factor, p + k, n, d, k, 1, n - k)
}

// Entry i of L L'd; each entry of L'd is worked out where it is needed, so that no room is.
fn curved_at(factor: &[f64], d: &[f64], n: usize, i: usize) -> f64
    requires { (i < n) × (n ≤ 16) × (length factor.now ≡ n * n) × (length d.now ≡ n) }
    ensures { result ≡ curved n factor.now d.now i }
{
    let p = i * n;
    let mut t = -0.0;
    for k in 0..i + 1 {
        t += factor[p + k] * halfway_at(factor, d, n, k);
    }
    t
}

// The sum of the constraints' terms of variable i.
fn terms_at(jacobian: &[f64], multipliers: &[f64], n: usize, m: usize, i: usize) -> f64
    requires { (i < n) × (length jacobian.now ≡ m * n) × (length multipliers.now ≡ m) }
    ensures { result ≡ terms n m jacobian.now multipliers.now i }
{
    numbers::dot_strided(jacobian, i, n, multipliers, 0, 1, m)
}

// Less a lower side's multiplier, where that side is closed.
fn less_lower(side: Option<f64>, multiplier: f64, v: f64) -> f64
    ensures { result ≡ less_lower side multiplier v }
{
    match side {
        None => v,
        Some(_) => v - multiplier,
    }
}

// Plus an upper side's multiplier, where that side is closed.
fn plus_upper(side: Option<f64>, multiplier: f64, v: f64) -> f64
    ensures { result ≡ plus_upper side multiplier v }
{
    match side {
        None => v,
        Some(_) => v + multiplier,
    }
}

// The slope of variable i.
fn slope_at(s: &Posed, i: usize) -> f64
    requires { i < s.now.problem.n }
    ensures { result ≡ slope s.now.problem.n s.now.problem.m s.now.problem.factor.now s.now.problem.gradient.now s.now.problem.jacobian.now s.now.problem.lower.now s.now.problem.upper.now s.now.d.now s.now.multipliers.now s.now.lowers.now s.now.uppers.now i }
{
    let p = &s.problem;
    let bent = curved_at(p.factor, s.d, p.n, i);
    let held = terms_at(p.jacobian, s.multipliers, p.n, p.m, i);
    let v = bent + p.gradient[i] - held;
    let u = less_lower(step_rows::side_of(p.lower[i]), s.lowers[i], v);
    plus_upper(step_rows::side_of(p.upper[i]), s.uppers[i], u)
}

// The verdict on the slope along variable i.
fn judge_slope(tolerance: f64, i: usize, slope: f64) -> Verdict
    requires { i ≤ 16 }
    ensures { result ≡ first_failed Stationarity tolerance (margin_of Variable i +0 slope ∷ []) }
{
    crate::judge(
        Test::Stationarity,
        tolerance,
        Part::Variable,
        i as u32,
        0.0,
        slope,
    )
}

// Stationarity of each variable.
pub fn check_slopes(s: &Posed, tolerance: f64) -> Verdict
    ensures { result ≡ first_failed Stationarity tolerance (slopes (problem_in s.now) (pasted_in s.now)) }
{
    for i in 0..s.problem.n {
        let v = slope_at(s, i);
        judge_slope(tolerance, i, v)?;
    }
    Ok(())
}
