// The public step and the strict step: tests, the kernel in the front of the lent workspaces, and its answer out.
#![tactic(auto)]

pub mod strict;

ghost use Rattle.std.specs.Prelude.{◌≡◌, ◌&&◌, ◌*◌, ◌≤◌, eqb, length, Ok};
ghost use Rattle.workspace.specs.Tables.{is_dimension, is_constraints, has};
ghost use Rattle.nnls.specs.Counted.{Counted};
ghost use Rattle.step_rows.specs.Problem.{problem_of, constraint_of};
ghost use Rattle.step_rows.specs.Lent.{problem_in};
ghost use Rattle.step.specs.Step.{step, report_of};
ghost use Rattle.step_call.specs.Promise.{are_kinds, is_width, are_widths, step_call, Steps};
ghost use Rattle.step_call.specs.Strict.{strict_call};
ghost use Rattle.step_call.specs.inner.Work.{tested_call, StepGiven};

use crate::strict::test_bounds;
use step::Stepped;
use step_rows::{Constraint, Subproblem};
use workspace::Refusal;

// The solver of the step.
#[derive(Clone, Copy)]
pub struct Step {}

// ---- tests

// The numbers of variables and constraints.
pub fn are_sizes(n: usize, m: usize) -> bool
    ensures { result ≡ (is_dimension n && is_constraints m) }
{
    workspace::is_dimension(n) && workspace::is_constraints(m)
}

// The lengths of the factor, the gradient, the kinds, the values and the Jacobian.
pub fn are_lengths(
    n: usize,
    m: usize,
    factor: &[f64],
    gradient: &[f64],
    kinds: &[u8],
    values: &[f64],
    jacobian: &[f64],
) -> bool
    requires { (n ≤ 16) × (m ≤ 16) }
    ensures { result ≡ (has factor.now (n * n) && has gradient.now n && has kinds.now m && has values.now m && has jacobian.now (m * n)) }
{
    factor.len() == n * n
        && gradient.len() == n
        && kinds.len() == m
        && values.len() == m
        && jacobian.len() == m * n
}

// The lengths of the widths and the bounds, and those of the two outputs.
pub fn are_other_lengths(
    n: usize,
    m: usize,
    widths: &[f64],
    lower: &[f64],
    upper: &[f64],
    d: usize,
    multipliers: usize,
) -> bool
    ensures { result ≡ (has widths.now m && has lower.now n && has upper.now n && eqb d n && eqb multipliers m) }
{
    widths.len() == m && lower.len() == n && upper.len() == n && d == n && multipliers == m
}

// Every kind is 0, 1 or 2.
pub fn are_kinds(kinds: &[u8]) -> bool
    ensures { result ≡ are_kinds kinds.now }
{
    kinds.iter().all(|&kind| kind <= 2)
}

// A band's width is at least zero and finite, and other constraints have none.
pub fn is_width(kind: u8, width: f64) -> bool
    ensures { result ≡ is_width (constraint_of kind width) }
{
    match Constraint::of(kind, width) {
        Constraint::Equality => true,
        Constraint::Floor => true,
        Constraint::Band(w) => 0.0 <= w && w < 1.0 / 0.0,
    }
}

// Those of m constraints.
pub fn are_widths(kinds: &[u8], widths: &[f64], m: usize) -> bool
    requires { (length kinds.now ≡ m) × (length widths.now ≡ m) }
    ensures { result ≡ are_widths kinds.now widths.now m }
{
    for j in 0..m {
        if !is_width(kinds[j], widths[j]) {
            return false;
        }
    }
    true
}

// ---- the call where no test refuses

// Both outputs, where the step is done, and the clearing of the workspaces.
fn give(
    t: Stepped,
    d: &mut [f64],
    multipliers: &mut [f64],
    w: &mut [f64],
    iw: &mut [u32],
    n: usize,
    m: usize,
)
    requires { (n ≤ 16) × (m ≤ 16) × (length d.old ≡ n) × (length multipliers.old ≡ m) × (8192 ≤ length w.old) × (512 ≤ length iw.old) }
    ensures { StepGiven n m t d.old d.new multipliers.old multipliers.new w.old w.new iw.old iw.new }
{
    match t.relaxation {
        Ok(_) => {
            workspace::unload(w, d, step::STEP_D, n);
            workspace::unload(w, multipliers, step::STEP_MULTIPLIERS, m);
            workspace::clear(w, iw);
        }
        Err(_) => workspace::clear(w, iw),
    }
}

// The step in the front of the workspaces, where no test refuses.
fn step_all(
    p: &Subproblem,
    d: &mut [f64],
    multipliers: &mut [f64],
    w: &mut [f64],
    iw: &mut [u32],
) -> Stepped
    requires { (length d.old ≡ p.now.n) × (length multipliers.old ≡ p.now.m) × (8192 ≤ length w.old) × (512 ≤ length iw.old) }
    ensures { Steps (step (problem_in p.now)).answer (report_of (problem_in p.now)) (Ok result) d.old d.new multipliers.old multipliers.new w.old w.new iw.old iw.new }
{
    let v = &mut w[..8192];
    let u = &mut iw[..512];
    let t = step::solve_step(p, v, u);
    give(t, d, multipliers, w, iw, p.n, p.m);
    t
}

// The call with the bounds of the first `tested` variables among its tests: the step has none of them tested, the strict step all.
fn solve_tested(
    tested: usize,
    n: usize,
    m: usize,
    factor: &[f64],
    gradient: &[f64],
    kinds: &[u8],
    values: &[f64],
    widths: &[f64],
    jacobian: &[f64],
    lower: &[f64],
    upper: &[f64],
    d: &mut [f64],
    multipliers: &mut [f64],
    w: &mut [f64],
    iw: &mut [u32],
) -> Result<Stepped, Refusal>
    requires { tested ≤ n }
    ensures { Steps (tested_call tested (problem_of n m factor.now gradient.now kinds.now values.now widths.now jacobian.now lower.now upper.now) d.old multipliers.old w.old iw.old) (report_of (problem_of n m factor.now gradient.now kinds.now values.now widths.now jacobian.now lower.now upper.now)) result d.old d.new multipliers.old multipliers.new w.old w.new iw.old iw.new }
{
    if !are_sizes(n, m) {
        return Err(Refusal::Size);
    }
    if !are_lengths(n, m, factor, gradient, kinds, values, jacobian) {
        return Err(Refusal::Length);
    }
    if !are_other_lengths(n, m, widths, lower, upper, d.len(), multipliers.len()) {
        return Err(Refusal::Length);
    }
    if !workspace::is_room(w.len(), iw.len()) {
        return Err(Refusal::Room);
    }
    if !are_kinds(kinds) {
        return Err(Refusal::Kind);
    }
    if !are_widths(kinds, widths, m) {
        return Err(Refusal::Width);
    }
    test_bounds(lower, upper, tested)?;
    let p = Subproblem {
        n,
        m,
        factor,
        gradient,
        kinds,
        values,
        widths,
        jacobian,
        lower,
        upper,
    };
    Ok(step_all(&p, d, multipliers, w, iw))
}

// The parts stay slices here and in `solve_tested`: C lends them so, and they are tested before they make a subproblem.
impl Step {
    // The step d of n variables and m constraints, with a multiplier for each constraint, and its relaxation, or why it failed, with the report; or why a test before it refuses.
    pub fn solve(
        n: usize,
        m: usize,
        factor: &[f64],
        gradient: &[f64],
        kinds: &[u8],
        values: &[f64],
        widths: &[f64],
        jacobian: &[f64],
        lower: &[f64],
        upper: &[f64],
        d: &mut [f64],
        multipliers: &mut [f64],
        w: &mut [f64],
        iw: &mut [u32],
    ) -> Result<Stepped, Refusal>
        ensures { Steps (step_call (problem_of n m factor.now gradient.now kinds.now values.now widths.now jacobian.now lower.now upper.now) d.old multipliers.old w.old iw.old) (report_of (problem_of n m factor.now gradient.now kinds.now values.now widths.now jacobian.now lower.now upper.now)) result d.old d.new multipliers.old multipliers.new w.old w.new iw.old iw.new }
    {
        solve_tested(
            0,
            n,
            m,
            factor,
            gradient,
            kinds,
            values,
            widths,
            jacobian,
            lower,
            upper,
            d,
            multipliers,
            w,
            iw,
        )
    }

    // The same, but a bound that is not finite and not open is refused, with the lowest such variable.
    pub fn solve_strictly(
        n: usize,
        m: usize,
        factor: &[f64],
        gradient: &[f64],
        kinds: &[u8],
        values: &[f64],
        widths: &[f64],
        jacobian: &[f64],
        lower: &[f64],
        upper: &[f64],
        d: &mut [f64],
        multipliers: &mut [f64],
        w: &mut [f64],
        iw: &mut [u32],
    ) -> Result<Stepped, Refusal>
        ensures { Steps (strict_call (problem_of n m factor.now gradient.now kinds.now values.now widths.now jacobian.now lower.now upper.now) d.old multipliers.old w.old iw.old) (report_of (problem_of n m factor.now gradient.now kinds.now values.now widths.now jacobian.now lower.now upper.now)) result d.old d.new multipliers.old multipliers.new w.old w.new iw.old iw.new }
    {
        solve_tested(
            n,
            n,
            m,
            factor,
            gradient,
            kinds,
            values,
            widths,
            jacobian,
            lower,
            upper,
            d,
            multipliers,
            w,
            iw,
        )
    }
}
