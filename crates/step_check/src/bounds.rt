// The rows of bounds: per variable lower, upper.
ghost use Rattle.std.specs.Prelude.{◌≡◌, ◌++◌, ◌<◌};
ghost use Rattle.numbers.specs.Numbers.{at};
ghost use Rattle.step_rows.specs.Problem.{each, side_of};
ghost use Rattle.step_check.specs.Check.{lower_row, upper_row, first_failed};

use crate::{Part, Posed, Test, Verdict};

// The lower side of variable i, where it is closed.
fn check_lower(test: Test, side: Option<f64>, s: &Posed, i: usize, tolerance: f64) -> Verdict
    requires { i < s.now.problem.n }
    ensures { result ≡ first_failed test tolerance (lower_row side s.now.d.now s.now.lowers.now i) }
{
    match side {
        None => Ok(()),
        Some(bound) => crate::judge(
            test,
            tolerance,
            Part::Lower,
            i as u32,
            s.lowers[i],
            s.d[i] - bound,
        ),
    }
}

// The upper side of variable i, where it is closed.
fn check_upper(test: Test, side: Option<f64>, s: &Posed, i: usize, tolerance: f64) -> Verdict
    requires { i < s.now.problem.n }
    ensures { result ≡ first_failed test tolerance (upper_row side s.now.d.now s.now.uppers.now i) }
{
    match side {
        None => Ok(()),
        Some(bound) => crate::judge(
            test,
            tolerance,
            Part::Upper,
            i as u32,
            s.uppers[i],
            bound - s.d[i],
        ),
    }
}

// Both sides of variable i.
fn check_sides(test: Test, s: &Posed, i: usize, tolerance: f64) -> Verdict
    requires { i < s.now.problem.n }
    ensures { result ≡ first_failed test tolerance (lower_row (side_of (at s.now.problem.lower.now i)) s.now.d.now s.now.lowers.now i ++ upper_row (side_of (at s.now.problem.upper.now i)) s.now.d.now s.now.uppers.now i) }
{
    let lower = step_rows::side_of(s.problem.lower[i]);
    check_lower(test, lower, s, i, tolerance)?;
    let upper = step_rows::side_of(s.problem.upper[i]);
    check_upper(test, upper, s, i, tolerance)
}

// A test of both sides of each variable.
pub fn check_bounds(test: Test, s: &Posed, tolerance: f64) -> Verdict
    ensures { result ≡ first_failed test tolerance (each s.now.problem.n (λ i. lower_row (side_of (at s.now.problem.lower.now i)) s.now.d.now s.now.lowers.now i ++ upper_row (side_of (at s.now.problem.upper.now i)) s.now.d.now s.now.uppers.now i)) }
{
    for i in 0..s.problem.n {
        check_sides(test, s, i, tolerance)?;
    }
    Ok(())
}
