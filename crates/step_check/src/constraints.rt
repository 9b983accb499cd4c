// The rows of constraints: equalities, and floors and bands.
ghost use Rattle.std.specs.Prelude.{◌≡◌, [], ◌∷◌, ◌≤◌, ◌<◌, ◌+◌, length};
ghost use Rattle.std.specs.Float.Ieee.{neg};
ghost use Rattle.numbers.specs.Numbers.{Σ, at, ◌⊗◌};
ghost use Rattle.step_rows.specs.Problem.{each, constraint_at};
ghost use Rattle.step_check.specs.declared.Test.TheVariants.{Residual};
ghost use Rattle.step_check.specs.declared.Part.TheVariants as part;
ghost use Rattle.step_check.specs.Check.{margin_of, value_at, ceiling_at, positive, negative, equality_row, floor_rows, equalities, first_failed};
ghost use Rattle.step_check.specs.Lent.{problem_in, pasted_in};

use crate::{Part, Posed, Test, Verdict};
use step_rows::Constraint;

// a'd + c of constraint j.
fn value_at(s: &Posed, j: usize) -> f64
    requires { j < s.now.problem.m }
    ensures { result ≡ value_at s.now.problem.n s.now.problem.jacobian.now s.now.problem.values.now s.now.d.now j }
{
    let n = s.problem.n;
    numbers::dot_strided(s.problem.jacobian, j * n, 1, s.d, 0, 1, n) + s.problem.values[j]
}

// (-a)'d, a being n entries from p on.
fn opposed(a: &[f64], d: &[f64], p: usize, n: usize) -> f64
    requires { (p + n ≤ length a.now) × (length d.now ≡ n) }
    ensures { result ≡ Σ n (λ k. neg (at a.now (p + k)) ⊗ at d.now k) }
{
    let mut t = -0.0;
    for k in 0..n {
        t += -a[p + k] * d[k];
    }
    t
}

// (-a)'d + (w - c) of band j.
fn ceiling_at(s: &Posed, j: usize, width: f64) -> f64
    requires { j < s.now.problem.m }
    ensures { result ≡ ceiling_at s.now.problem.n s.now.problem.jacobian.now s.now.problem.values.now s.now.d.now width j }
{
    let n = s.problem.n;
    opposed(s.problem.jacobian, s.d, j * n, n) + (width - s.problem.values[j])
}

// The positive part of a band's multiplier, its floor's.
fn positive_part(l: f64) -> f64
    ensures { result ≡ positive l }
{
    if l <= 0.0 {
        return 0.0;
    }
    l
}

// The negative part, its ceiling's.
fn negative_part(l: f64) -> f64
    ensures { result ≡ negative l }
{
    if 0.0 <= l {
        return 0.0;
    }
    -l
}

// Constraint j where it is an equality.
fn check_equality(constraint: Constraint, s: &Posed, j: usize, tolerance: f64) -> Verdict
    requires { j < s.now.problem.m }
    ensures { result ≡ first_failed Residual tolerance (equality_row constraint s.now.problem.n s.now.problem.jacobian.now s.now.problem.values.now s.now.d.now s.now.multipliers.now j) }
{
    match constraint {
        Constraint::Equality => {
            let v = value_at(s, j);
            crate::judge(
                Test::Residual,
                tolerance,
                Part::Constraint,
                j as u32,
                s.multipliers[j],
                v,
            )
        }
        Constraint::Floor => Ok(()),
        Constraint::Band(_) => Ok(()),
    }
}

// A band's floor, then its ceiling.
fn check_band(
    test: Test,
    tolerance: f64,
    index: u32,
    multiplier: f64,
    floor: f64,
    ceiling: f64,
) -> Verdict
    ensures { result ≡ first_failed test tolerance (margin_of part.Constraint index (positive multiplier) floor ∷ margin_of part.Ceiling index (negative multiplier) ceiling ∷ []) }
{
    let up = positive_part(multiplier);
    crate::judge(test, tolerance, Part::Constraint, index, up, floor)?;
    let down = negative_part(multiplier);
    crate::judge(test, tolerance, Part::Ceiling, index, down, ceiling)
}

// Constraint j where it is a floor or a band.
fn check_floor(test: Test, constraint: Constraint, s: &Posed, j: usize, tolerance: f64) -> Verdict
    requires { j < s.now.problem.m }
    ensures { result ≡ first_failed test tolerance (floor_rows constraint s.now.problem.n s.now.problem.jacobian.now s.now.problem.values.now s.now.d.now s.now.multipliers.now j) }
{
    let v = value_at(s, j);
    let l = s.multipliers[j];
    let index = j as u32;
    match constraint {
        Constraint::Equality => Ok(()),
        Constraint::Floor => crate::judge(test, tolerance, Part::Constraint, index, l, v),
        Constraint::Band(w) => {
            let u = ceiling_at(s, j, w);
            check_band(test, tolerance, index, l, v, u)
        }
    }
}

// The residual of each equality.
pub fn check_equalities(s: &Posed, tolerance: f64) -> Verdict
    ensures { result ≡ first_failed Residual tolerance (equalities (problem_in s.now) (pasted_in s.now)) }
{
    for j in 0..s.problem.m {
        let constraint = s.problem.constraint(j);
        check_equality(constraint, s, j, tolerance)?;
    }
    Ok(())
}

// A test of each floor and band.
pub fn check_floors(test: Test, s: &Posed, tolerance: f64) -> Verdict
    ensures { result ≡ first_failed test tolerance (each s.now.problem.m (λ j. floor_rows (constraint_at (problem_in s.now) j) s.now.problem.n s.now.problem.jacobian.now s.now.problem.values.now s.now.d.now s.now.multipliers.now j)) }
{
    for j in 0..s.problem.m {
        let constraint = s.problem.constraint(j);
        check_floor(test, constraint, s, j, tolerance)?;
    }
    Ok(())
}
