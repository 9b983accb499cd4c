// Five tests on a step that may come from anywhere: is it plausible?
#![tactic(auto)]

mod bounds;
mod constraints;
mod posed;
mod slopes;

ghost use Rattle.std.specs.Prelude.{◌≡◌, [], ◌∷◌};
ghost use Rattle.step_check.specs.Check.{margin_of, within, holds, first_failed, inequalities, verdict, test_number, part_number};
ghost use Rattle.step_check.specs.Lent.{problem_in, pasted_in};
ghost use Rattle.step_check.specs.inner.Work.{last_three};

use crate::bounds::check_bounds;
use crate::constraints::{check_equalities, check_floors};
pub use crate::posed::Posed;
use crate::slopes::check_slopes;

// The five tests, in their order.
#[derive(Clone, Copy, Debug, PartialEq, Eq)]
pub enum Test {
    Stationarity = 1,
    Residual = 2,
    Violation = 3,
    Sign = 4,
    Product = 5,
}

impl Test {
    // Its number, from 1 on.
    pub fn number(self) -> u32
        ensures { result ≡ test_number self }
    {
        self as u32
    }
}

// What the index of a row counts: variables, constraints, or the bands' ceilings or variables' sides by these.
#[derive(Clone, Copy, Debug, PartialEq, Eq)]
pub enum Part {
    Variable = 0,
    Constraint = 1,
    Ceiling = 2,
    Lower = 3,
    Upper = 4,
}

impl Part {
    // Its number, from 0 on.
    pub fn number(self) -> u32
        ensures { result ≡ part_number self }
    {
        self as u32
    }
}

// The first failed test, with its row: the index of one of a part.
#[derive(Clone, Copy, Debug, PartialEq, Eq)]
pub struct Failure {
    pub test: Test,
    pub part: Part,
    pub index: u32,
}

// Yes, or the first failure.
pub type Verdict = Result<(), Failure>;

// ---- one row

// By magnitude, where a NaN fails.
pub fn is_within(tolerance: f64, v: f64) -> bool
    ensures { result ≡ within tolerance v }
{
    v <= tolerance && -v <= tolerance
}

// Whether a row passes a test.
pub fn passes(test: Test, tolerance: f64, multiplier: f64, margin: f64) -> bool
    ensures { result ≡ holds test tolerance multiplier margin }
{
    match test {
        Test::Stationarity => is_within(tolerance, margin),
        Test::Residual => is_within(tolerance, margin),
        Test::Violation => -tolerance <= margin,
        Test::Sign => 0.0 <= multiplier,
        Test::Product => is_within(tolerance, multiplier * margin),
    }
}

// The verdict on one row.
pub fn judge(
    test: Test,
    tolerance: f64,
    part: Part,
    index: u32,
    multiplier: f64,
    margin: f64,
) -> Verdict
    ensures { result ≡ first_failed test tolerance (margin_of part index multiplier margin ∷ []) }
{
    if passes(test, tolerance, multiplier, margin) {
        return Ok(());
    }
    Err(Failure { test, part, index })
}

// ---- all of them

// A test of every inequality: floors and bands, then sides.
fn check_inequalities(test: Test, s: &Posed, tolerance: f64) -> Verdict
    ensures { result ≡ first_failed test tolerance (inequalities (problem_in s.now) (pasted_in s.now)) }
{
    check_floors(test, s, tolerance)?;
    check_bounds(test, s, tolerance)
}

// The last three tests, which are on the same rows.
fn check_last(s: &Posed, tolerance: f64) -> Verdict
    ensures { result ≡ last_three tolerance (inequalities (problem_in s.now) (pasted_in s.now)) }
{
    check_inequalities(Test::Violation, s, tolerance)?;
    check_inequalities(Test::Sign, s, tolerance)?;
    check_inequalities(Test::Product, s, tolerance)
}

// The five tests.
pub fn check_step(s: &Posed, tolerance: f64) -> Verdict
    ensures { result ≡ verdict (problem_in s.now) (pasted_in s.now) tolerance }
{
    check_slopes(s, tolerance)?;
    check_equalities(s, tolerance)?;
    check_last(s, tolerance)
}
