// The step of one SQP iteration: the exact problem through LSEI, and where it fails the relaxed one through LSI.
#![tactic(auto)]

mod assembly;

ghost use Rattle.std.specs.Prelude.{◌≡◌, ◌++◌, ◌+◌, ◌≤◌, length, take};
ghost use Rattle.numbers.specs.Numbers.{at};
ghost use Rattle.workspace.specs.Readings.{vec};
ghost use Rattle.nnls.specs.Counted.{Counted};
ghost use Rattle.step.specs.Step.{in_order, paired, clamped, exact, relaxed, stage_place};
ghost use Rattle.step_rows.specs.inner.Work.{equalities_among, floors_among, relaxed_among};
ghost use Rattle.step_rows.specs.Lent.{problem_in};
ghost use Rattle.step.specs.inner.Work.{ExactIn, RelaxedIn, Left, Tries, passed_or_failed, unrelaxed, later, EndsStep};
ghost use Rattle.step.specs.inner.Places.{EXACT_EQUALITY_MULTIPLIERS, EXACT_MULTIPLIERS, EXACT_X, RELAXED_MULTIPLIERS, RELAXED_X, STEP_ROOM, STEP_WORDS};

use step_rows::{Constraints, Subproblem};
use workspace::Refusal;

// ---- where things stand in the part of the step

// The target f stands at 0, and LSEI's part or LSI's behind it.
pub const STEP_LENT: usize = 18;
// The step d, when a problem is solved.
pub const STEP_D: usize = STEP_LENT;
// Its multipliers, one per constraint.
pub const STEP_MULTIPLIERS: usize = STEP_D + 18;
// The exact problem, in LSEI's part: its equalities, each with its side behind it at first.
pub const EXACT_C: usize = STEP_LENT + lsei_nullspace::LSEI_C;
// The equalities' sides, and then x.
pub const EXACT_X: usize = STEP_LENT + lsei_nullspace::LSEI_X;

pub const EXACT_E: usize = STEP_LENT + lsei_nullspace::LSEI_E;

pub const EXACT_F: usize = STEP_LENT + lsei_nullspace::LSEI_F;

pub const EXACT_G: usize = STEP_LENT + lsei_nullspace::LSEI_G;

pub const EXACT_EQUALITY_MULTIPLIERS: usize = STEP_LENT + lsei_nullspace::LSEI_EQUALITY_MULTIPLIERS;

pub const EXACT_MULTIPLIERS: usize = STEP_LENT + lsei_nullspace::LSEI_MULTIPLIERS;
// The relaxed problem, in LSI's part.
pub const RELAXED_E: usize = STEP_LENT + lsei::LSI_E;

pub const RELAXED_F: usize = STEP_LENT + lsei::LSI_F;

pub const RELAXED_G: usize = STEP_LENT + lsei::LSI_G;

pub const RELAXED_X: usize = STEP_LENT + lsei::LSI_X;

pub const RELAXED_MULTIPLIERS: usize = STEP_LENT + lsei::LSI_MULTIPLIERS;
// How many f64 the step takes.
pub const STEP_ROOM: usize = STEP_LENT + lsei_nullspace::LSEI_ROOM;
// How many u32 it takes.
pub const STEP_WORDS: usize = lsei_nullspace::LSEI_WORDS;

// The relaxation's weight.
#[derive(Clone, Copy)]
pub struct Step {}

impl Step {
    // The weight of delta^2 / 2 in the relaxed objective.
    pub const RELAXATION_WEIGHT: f64 = 1e6;
}

// How one of its problems ended: its relaxation, or why it failed; and the rounds and the factorings that it took.
#[derive(Clone, Copy)]
pub struct Tried {
    pub relaxation: Result<f64, Refusal>,
    pub rounds: usize,
    pub factorings: usize,
}

// The place that comes with how a stage ended, or NOWHERE.
pub fn stage_place(stage: Result<(), Refusal>) -> u32
    ensures { result ≡ stage_place stage }
{
    match stage {
        Ok(()) => workspace::NOWHERE,
        Err(why) => why.place(),
    }
}

// What a step says of itself: how its two problems ended, where one that was not tried passed, and the rounds and factorings that both took.
#[derive(Clone, Copy, Debug, PartialEq, Eq)]
pub struct Report {
    pub exact: Result<(), Refusal>,
    pub relaxed: Result<(), Refusal>,
    pub rounds: u32,
    pub factorings: u32,
}

// How the step ended: its relaxation, or why it failed; with its report.
#[derive(Clone, Copy)]
pub struct Stepped {
    pub relaxation: Result<f64, Refusal>,
    pub report: Report,
}

// ---- the exact problem

// How many equalities and inequalities a problem has.
#[derive(Clone, Copy, Debug, PartialEq, Eq)]
pub struct Sizes {
    pub equalities: usize,
    pub inequalities: usize,
}

// The exact problem, for LSEI: E is L', the whole square of it.
fn write_exact(p: &Subproblem, w: &mut [f64]) -> Sizes
    requires { STEP_ROOM ≤ length w.old }
    ensures { ExactIn (problem_in p.now) (vec 0 p.now.n w.old) result w.new }
{
    let constraints = Constraints {
        n: p.n,
        m: p.m,
        kinds: p.kinds,
        values: p.values,
        widths: p.widths,
        jacobian: p.jacobian,
    };
    let equalities = step_rows::push_equalities(&constraints, w, EXACT_C);
    assembly::gather_sides(w, equalities, p.n);
    workspace::load_matrix(p.factor, w, EXACT_E, p.n, p.n);
    workspace::copy_up(w, 0, EXACT_F, p.n);
    let inequalities = step_rows::push_inequalities(&constraints, p.lower, p.upper, w, EXACT_G);
    Sizes {
        equalities,
        inequalities,
    }
}

// From LSEI's answer: the multipliers in constraint order, and the step.
fn read_exact(p: &Subproblem, w: &mut [f64], s: Sizes)
    requires { (STEP_ROOM ≤ length w.old) × (s.equalities ≡ equalities_among p.now.kinds.now) × (floors_among p.now.kinds.now ≤ s.inequalities) × (s.inequalities ≤ 64) }
    ensures { Left p.now.n p.now.m (vec EXACT_X p.now.n w.old) (in_order p.now.kinds.now 0 s.equalities (vec EXACT_EQUALITY_MULTIPLIERS s.equalities w.old ++ vec EXACT_MULTIPLIERS s.inequalities w.old)) w.old w.new }
{
    assembly::order_multipliers(p.kinds, w, s.equalities, s.inequalities);
    workspace::copy_down(w, EXACT_X, STEP_D, p.n);
}

// The exact problem, through LSEI.
fn try_exact(p: &Subproblem, w: &mut [f64], iw: &mut [u32]) -> Tried
    requires { (STEP_ROOM ≤ length w.old) × (STEP_WORDS ≤ length iw.old) }
    ensures { Tries (exact (problem_in p.now) (vec 0 p.now.n w.old)) p.now.n p.now.m result w.old w.new }
{
    let s = write_exact(p, w);
    let lent = &mut w[STEP_LENT..];
    let e = lsei_nullspace::solve_lsei(lent, iw, p.n, s.equalities, p.n, s.inequalities);
    match e.ending {
        Err(unsolved) => Tried {
            relaxation: Err(Refusal::from(unsolved)),
            rounds: e.rounds,
            factorings: e.factorings,
        },
        Ok(()) => {
            read_exact(p, w, s);
            Tried {
                relaxation: Ok(0.0),
                rounds: e.rounds,
                factorings: e.factorings,
            }
        }
    }
}

// ---- the relaxed problem

// The relaxed problem, for LSI: E is the upper triangle of L', and in the corner the root of the weight.
fn write_relaxed(p: &Subproblem, w: &mut [f64]) -> usize
    requires { STEP_ROOM ≤ length w.old }
    ensures { RelaxedIn (problem_in p.now) (vec 0 p.now.n w.old) result w.new }
{
    let root = numbers::sqrt(Step::RELAXATION_WEIGHT);
    assembly::write_matrix(p.factor, w, p.n, root);
    assembly::write_side(w, p.n);
    let constraints = Constraints {
        n: p.n,
        m: p.m,
        kinds: p.kinds,
        values: p.values,
        widths: p.widths,
        jacobian: p.jacobian,
    };
    step_rows::push_relaxed_rows(&constraints, p.lower, p.upper, w, RELAXED_G)
}

// From LSI's answer to g rows: the multipliers in constraint order, the step, and the relaxation.
fn read_relaxed(p: &Subproblem, w: &mut [f64], g: usize) -> f64
    requires { (STEP_ROOM ≤ length w.old) × (relaxed_among p.now.kinds.now ≤ g) × (g ≤ 66) }
    ensures { (result ≡ clamped (at (vec RELAXED_X (p.now.n + 1) w.old) p.now.n)) × Left p.now.n p.now.m (take p.now.n (vec RELAXED_X (p.now.n + 1) w.old)) (paired p.now.kinds.now 0 (vec RELAXED_MULTIPLIERS g w.old)) w.old w.new }
{
    let delta = assembly::clamp(w[RELAXED_X + p.n]);
    assembly::pair_multipliers(p.kinds, w, g);
    workspace::copy_down(w, RELAXED_X, STEP_D, p.n);
    delta
}

// The relaxed problem, through LSI.
fn try_relaxed(p: &Subproblem, w: &mut [f64], iw: &mut [u32]) -> Tried
    requires { (STEP_ROOM ≤ length w.old) × (STEP_WORDS ≤ length iw.old) }
    ensures { Tries (relaxed (problem_in p.now) (vec 0 p.now.n w.old)) p.now.n p.now.m result w.old w.new }
{
    let g = write_relaxed(p, w);
    let e = lsei::solve_lsi(&mut w[STEP_LENT..], iw, p.n + 1, p.n + 1, g);
    match e.ending {
        Err(unsolved) => Tried {
            relaxation: Err(Refusal::from(unsolved)),
            rounds: e.rounds,
            factorings: e.factorings,
        },
        Ok(()) => {
            let delta = read_relaxed(p, w, g);
            Tried {
                relaxation: Ok(delta),
                rounds: e.rounds,
                factorings: e.factorings,
            }
        }
    }
}

// ---- the step

// Whether a problem answered, or why it failed.
fn stage_of(relaxation: Result<f64, Refusal>) -> Result<(), Refusal>
    ensures { result ≡ passed_or_failed relaxation }
{
    relaxation.map(|_| ())
}

// What the exact problem answered, with nothing after it.
fn alone(first: Tried) -> Stepped
    requires { (first.rounds ≤ 198) × (first.factorings ≤ 13334) }
    ensures { result ≡ unrelaxed first }
{
    Stepped {
        relaxation: first.relaxation,
        report: Report {
            exact: stage_of(first.relaxation),
            relaxed: Ok(()),
            rounds: first.rounds as u32,
            factorings: first.factorings as u32,
        },
    }
}

// What the relaxed problem answered, after the exact one failed, with the counts of both.
fn after(first: Tried, second: Tried) -> Stepped
    requires { (first.rounds ≤ 198) × (first.factorings ≤ 13334) × (second.rounds ≤ 198) × (second.factorings ≤ 13334) }
    ensures { result ≡ later first second }
{
    Stepped {
        relaxation: second.relaxation,
        report: Report {
            exact: stage_of(first.relaxation),
            relaxed: stage_of(second.relaxation),
            rounds: (first.rounds + second.rounds) as u32,
            factorings: (first.factorings + second.factorings) as u32,
        },
    }
}

// The exact problem, and where it fails the relaxed one.
pub fn solve_step(p: &Subproblem, w: &mut [f64], iw: &mut [u32]) -> Stepped
    requires { (STEP_ROOM ≤ length w.old) × (STEP_WORDS ≤ length iw.old) }
    ensures { EndsStep p.now.n p.now.m result w.new (problem_in p.now) }
{
    assembly::write_target(p, w);
    let first = try_exact(p, w, iw);
    let Err(_) = first.relaxation else {
        return alone(first);
    };
    let second = try_relaxed(p, w, iw);
    after(first, second)
}
