// Words of a state, and the end of a run.
ghost use Rattle.std.specs.Prelude.{◌≡◌, ℕ, ◌≤◌, List, length, replicate, Float};
ghost use Rattle.numbers.specs.Numbers.{+0, nth};
ghost use Rattle.search.specs.Places.{SEARCH_CONSTRAINTS, SEARCH_FRESH, SEARCH_MACHINE, SEARCH_MULTIPLIERS, SEARCH_VARIABLES, SEARCH_WORDS};
ghost use Rattle.search.specs.Turn.{blank};
ghost use Rattle.search.specs.Written.{report_for};
ghost use Rattle.search.specs.Layout.{setup_in, new_in, goal_in, report_in, laid, emptied, point_floats, goal_floats};
ghost use Rattle.search.specs.inner.Work.{Ready};
ghost use Rattle.search_next.specs.inner.Next.{seven_words, goal_words, Ends};

use search::{
    SEARCH_AFTER, SEARCH_AGAIN, SEARCH_ALPHA, SEARCH_ASKED, SEARCH_COORDINATES, SEARCH_D,
    SEARCH_FRESH, SEARCH_LEFT, SEARCH_LOWER, SEARCH_MACHINE, SEARCH_MULTIPLIERS, SEARCH_NEW_VALUES,
    SEARCH_NEW_X, SEARCH_TAKEN, SEARCH_VALUES,
};
use search_move::accept;

// The seven words of a state.
pub fn set_words(
    u: &mut [u32],
    phase: u32,
    budget: u32,
    again: u32,
    fresh: u32,
    goal: u32,
    rows: usize,
    cols: usize,
)
    requires { (length u.old ≡ SEARCH_WORDS) × (rows ≤ 16) × (cols ≤ 16) }
    ensures { u.new ≡ seven_words phase budget again fresh goal rows cols u.old }
{
    u[SEARCH_ASKED] = phase;
    u[SEARCH_LEFT] = budget;
    u[SEARCH_AGAIN] = again;
    u[SEARCH_FRESH] = fresh;
    u[SEARCH_TAKEN] = goal;
    u[SEARCH_AFTER] = rows as u32;
    u[SEARCH_COORDINATES] = cols as u32;
}

// Those of a state that waits for slopes: what they are for stays.
pub fn set_goal_words(u: &mut [u32], phase: u32, budget: u32, rows: usize, cols: usize)
    requires { (length u.old ≡ SEARCH_WORDS) × (nth u.old SEARCH_FRESH ≤ 1) × (rows ≤ 16) × (cols ≤ 16) }
    ensures { (n m : ℕ) (f : List Float) → u.new ≡ goal_words (goal_in n m f u.old) phase budget rows cols u.old }
{
    if u[SEARCH_TAKEN] == 0 {
        set_words(u, phase, budget, 0, 0, 0, rows, cols);
        return;
    }
    let fresh = u[SEARCH_FRESH];
    set_words(u, phase, budget, 0, fresh, 1, rows, cols);
}

// How many places are emptied where a run ends: of the line, of the step and its penalties, of the new x, and of all from the new values on.
const LINE_SIZE: usize = SEARCH_LOWER - SEARCH_ALPHA;

const STEP_SIZE: usize = SEARCH_MULTIPLIERS - SEARCH_D;

const NEW_X_SIZE: usize = SEARCH_VALUES - SEARCH_NEW_X;

const REST_SIZE: usize = SEARCH_MACHINE - SEARCH_NEW_VALUES;

// All but the problem and the report, +0.
pub fn empty(f: &mut [f64])
    requires { length f.old ≡ SEARCH_MACHINE }
    ensures { f.new ≡ emptied f.old }
{
    workspace::blank(f, SEARCH_NEW_VALUES, REST_SIZE);
    workspace::blank(f, SEARCH_NEW_X, NEW_X_SIZE);
    workspace::blank(f, SEARCH_D, STEP_SIZE);
    workspace::blank(f, SEARCH_ALPHA, LINE_SIZE);
}

// The run has ended, and the accepted point is reported.
pub fn end_with(f: &mut [f64], u: &mut [u32], ending: u32)
    requires { (length f.old ≡ SEARCH_MACHINE) × (length u.old ≡ SEARCH_WORDS) × (nth u.old SEARCH_VARIABLES ≤ 16) × (nth u.old SEARCH_CONSTRAINTS ≤ 16) }
    ensures { Ends ending (report_in (nth u.old SEARCH_VARIABLES) (nth u.old SEARCH_CONSTRAINTS) f.old) f.old f.new u.old u.new }
{
    empty(f);
    set_words(u, ending, 0, 0, 0, 0, 0, 0);
}

// The new point where the accepted one stands, with multipliers +0.
fn report_new(f: &mut [f64], n: usize, m: usize)
    requires { (length f.old ≡ SEARCH_MACHINE) × (n ≤ 16) × (m ≤ 16) }
    ensures { f.new ≡ laid SEARCH_MULTIPLIERS (replicate m +0) (point_floats (new_in n m f.old) f.old) }
{
    accept(f, n, m);
    workspace::blank(f, SEARCH_MULTIPLIERS, m);
}

// What slopes at the new point are for: before the first turn that point is reported.
pub fn report_goal(f: &mut [f64], u: &[u32], n: usize, m: usize)
    requires { Ready n m f.old u.now }
    ensures { f.new ≡ goal_floats (setup_in f.old u.now) (goal_in n m f.old u.now) (new_in n m f.old) f.old }
{
    if u[SEARCH_TAKEN] == 0 {
        report_new(f, n, m);
        return;
    }
}

// The run has ended before a first turn, and the new point is reported.
pub fn end_begun(f: &mut [f64], u: &mut [u32], n: usize, m: usize, ending: u32)
    requires { Ready n m f.old u.old }
    ensures { Ends ending (blank (setup_in f.old u.old) (new_in n m f.old)) f.old f.new u.old u.new }
{
    report_new(f, n, m);
    end_with(f, u, ending);
}

// The run has ended on the way to slopes.
pub fn end_goal(f: &mut [f64], u: &mut [u32], n: usize, m: usize, ending: u32)
    requires { Ready n m f.old u.old }
    ensures { Ends ending (report_for (setup_in f.old u.old) (goal_in n m f.old u.old) (new_in n m f.old)) f.old f.new u.old u.new }
{
    if u[SEARCH_TAKEN] == 0 {
        end_begun(f, u, n, m, ending);
        return;
    }
    end_with(f, u, ending);
}
