// The public check: tests, the verdict, and the clearing of the lent workspaces, which it does not need.
#![tactic(auto)]

ghost use Rattle.std.specs.Prelude.{◌≡◌, ◌&&◌, ◌≤◌, eqb, length, Ok};
ghost use Rattle.workspace.specs.Tables.{done};
ghost use Rattle.step_rows.specs.Problem.{problem_of};
ghost use Rattle.step_check.specs.Check.{pasted_of, verdict};
ghost use Rattle.step_rows.specs.Lent.{problem_in};
ghost use Rattle.step_check_call.specs.Promise.{check_call, Checks};

use step_check::{Posed, Verdict};
use step_rows::Subproblem;
use workspace::Refusal;

// The check of a step.
#[derive(Clone, Copy)]
pub struct Check {}

// The lengths of the multipliers of lower and upper sides.
fn are_sides(n: usize, lowers: usize, uppers: usize) -> bool
    ensures { result ≡ (eqb lowers n && eqb uppers n) }
{
    lowers == n && uppers == n
}

// The verdict, where no test refuses.
fn check_all<'a>(
    problem: Subproblem<'a>,
    d: &'a [f64],
    multipliers: &'a [f64],
    lowers: &'a [f64],
    uppers: &'a [f64],
    tolerance: f64,
    w: &mut [f64],
    iw: &mut [u32],
) -> Verdict
    requires { (length d.now ≡ problem.n) × (length multipliers.now ≡ problem.m) × (length lowers.now ≡ problem.n) × (length uppers.now ≡ problem.n) × (8192 ≤ length w.old) × (512 ≤ length iw.old) }
    ensures { Checks (done (verdict (problem_in problem.entry) (pasted_of d.now multipliers.now lowers.now uppers.now) tolerance)) (Ok result) w.old w.new iw.old iw.new }
{
    let s = Posed {
        problem,
        d,
        multipliers,
        lowers,
        uppers,
    };
    let verdict = step_check::check_step(&s, tolerance);
    workspace::clear(w, iw);
    verdict
}

// The parts stay slices here: C lends them so, and they are tested before they make a subproblem.
impl Check {
    // Why a test refuses, or the verdict on a step d of n variables and m constraints, with multipliers of the constraints and of both sides of each variable.
    pub fn step(
        n: usize,
        m: usize,
        factor: &[f64],
        gradient: &[f64],
        kinds: &[u8],
        values: &[f64],
        widths: &[f64],
        jacobian: &[f64],
        lower: &[f64],
        upper: &[f64],
        d: &[f64],
        multipliers: &[f64],
        lowers: &[f64],
        uppers: &[f64],
        tolerance: f64,
        w: &mut [f64],
        iw: &mut [u32],
    ) -> Result<Verdict, Refusal>
        ensures { Checks (check_call (problem_of n m factor.now gradient.now kinds.now values.now widths.now jacobian.now lower.now upper.now) (pasted_of d.now multipliers.now lowers.now uppers.now) tolerance w.old iw.old) result w.old w.new iw.old iw.new }
    {
        if !step_call::are_sizes(n, m) {
            return Err(Refusal::Size);
        }
        if !step_call::are_lengths(n, m, factor, gradient, kinds, values, jacobian) {
            return Err(Refusal::Length);
        }
        if !step_call::are_other_lengths(n, m, widths, lower, upper, d.len(), multipliers.len()) {
            return Err(Refusal::Length);
        }
        if !are_sides(n, lowers.len(), uppers.len()) {
            return Err(Refusal::Length);
        }
        if !workspace::is_room(w.len(), iw.len()) {
            return Err(Refusal::Room);
        }
        if !step_call::are_kinds(kinds) {
            return Err(Refusal::Kind);
        }
        if !step_call::are_widths(kinds, widths, m) {
            return Err(Refusal::Width);
        }
        if !workspace::is_tolerance(tolerance) {
            return Err(Refusal::Tolerance);
        }
        let problem = Subproblem {
            n,
            m,
            factor,
            gradient,
            kinds,
            values,
            widths,
            jacobian,
            lower,
            upper,
        };
        let verdict = check_all(problem, d, multipliers, lowers, uppers, tolerance, w, iw);
        Ok(verdict)
    }
}
