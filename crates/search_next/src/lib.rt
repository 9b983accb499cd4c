// The search as a machine in two slices: what each answer makes of its state.
#![tactic(auto)]

mod differences;
mod ends;
mod trials;

ghost use Rattle.std.specs.Prelude.{◌≡◌, suc, ◌+◌, ◌*◌, ◌≤◌, ◌<◌, length};
ghost use Rattle.numbers.specs.Numbers.{at, nth};
ghost use Rattle.search.specs.Places.{PHASE_TRIAL, SEARCH_AFTER, SEARCH_ASKED, SEARCH_COORDINATES};
ghost use Rattle.search.specs.Layout.{setup_in};
ghost use Rattle.search.specs.inner.Work.{Ready, Turned};
ghost use Rattle.search_next.specs.inner.Next.{begun_in, arrived_in, raised_in, second_in, single_in, resumed_in, broken_in, Heard, Told};

use crate::differences::{add_slope, ask_moved, slope_between, slopes_next};
use crate::ends::{end_begun, end_goal, end_with};
use crate::trials::{arrive_next, judge_next};
use search::{
    PHASE_NONFINITE, PHASE_RAISED, PHASE_SLOPES, PHASE_START, PHASE_TRIAL, SCHEME_FORWARD,
    SEARCH_AFTER, SEARCH_ASKED, SEARCH_CONSTRAINTS, SEARCH_COORDINATES, SEARCH_NEW_VALUES,
    SEARCH_NEW_X, SEARCH_RAISED_VALUE, SEARCH_SCHEME, SEARCH_TAKEN, SEARCH_VARIABLES,
};
use search_turn::{are_finite, move_of, wide};

// The values at the start are told: they are looked at, and slopes are due.
fn start_next(values: &[f64], f: &mut [f64], u: &mut [u32], n: usize, m: usize)
    requires { Ready n m f.old u.old × (length values.now ≡ suc m) }
    ensures { Turned (setup_in f.old u.old) (begun_in n m f.old u.old values.now) f.old f.new u.old u.new }
{
    workspace::load(values, f, SEARCH_NEW_VALUES, m + 1);
    if !are_finite(values) {
        end_begun(f, u, n, m, PHASE_NONFINITE);
        return;
    }
    u[SEARCH_TAKEN] = 0;
    slopes_next(f, u, n, m);
}

// The value at a raised point is told: the lowered one is asked for, or the point's own is taken.
fn lower_next(
    value: f64,
    f: &mut [f64],
    u: &mut [u32],
    w: &mut [f64],
    iw: &mut [u32],
    n: usize,
    m: usize,
    rows: usize,
    cols: usize,
)
    requires { Ready n m f.old u.old × (8192 ≤ length w.old) × (512 ≤ length iw.old) × (rows ≤ m) × (cols < n) }
    ensures { Turned (setup_in f.old u.old) (raised_in n m f.old u.old rows cols value) f.old f.new u.old u.new }
{
    if u[SEARCH_SCHEME] > SCHEME_FORWARD {
        f[SEARCH_RAISED_VALUE] = value;
        ask_moved(f, u, n, m, rows, cols, true);
        return;
    }
    let x = f[SEARCH_NEW_X + (n - 1 - cols)];
    let slope = slope_between(value, f[SEARCH_NEW_VALUES + (m - rows)], x + move_of(x), x);
    add_slope(f, u, w, iw, n, m, rows, cols, slope);
}

// The value at a lowered point is told, behind the one at the raised point.
fn both_next(
    value: f64,
    f: &mut [f64],
    u: &mut [u32],
    w: &mut [f64],
    iw: &mut [u32],
    n: usize,
    m: usize,
    rows: usize,
    cols: usize,
)
    requires { Ready n m f.old u.old × (8192 ≤ length w.old) × (512 ≤ length iw.old) × (rows ≤ m) × (cols < n) }
    ensures { Turned (setup_in f.old u.old) (second_in n m f.old u.old rows cols value) f.old f.new u.old u.new }
{
    let x = f[SEARCH_NEW_X + (n - 1 - cols)];
    let slope = slope_between(
        f[SEARCH_RAISED_VALUE],
        value,
        x + move_of(x),
        x - move_of(x),
    );
    add_slope(f, u, w, iw, n, m, rows, cols, slope);
}

// One function's value at a moved point is told.
fn single_next(
    value: f64,
    f: &mut [f64],
    u: &mut [u32],
    w: &mut [f64],
    iw: &mut [u32],
    n: usize,
    m: usize,
)
    requires { Ready n m f.old u.old × (8192 ≤ length w.old) × (512 ≤ length iw.old) × (nth u.old SEARCH_AFTER ≤ m) × (nth u.old SEARCH_COORDINATES < n) }
    ensures { Turned (setup_in f.old u.old) (single_in n m f.old u.old value) f.old f.new u.old u.new }
{
    let rows = wide(u[SEARCH_AFTER]);
    let cols = wide(u[SEARCH_COORDINATES]);
    if u[SEARCH_ASKED] == PHASE_RAISED {
        lower_next(value, f, u, w, iw, n, m, rows, cols);
        return;
    }
    both_next(value, f, u, w, iw, n, m, rows, cols);
}

// The slopes at the new point are told.
fn slopes_told(
    told: &[f64],
    f: &mut [f64],
    u: &mut [u32],
    w: &mut [f64],
    iw: &mut [u32],
    n: usize,
    m: usize,
)
    requires { Ready n m f.old u.old × (8192 ≤ length w.old) × (512 ≤ length iw.old) × (length told.now ≡ suc m * n) }
    ensures { Turned (setup_in f.old u.old) (arrived_in n m f.old u.old told.now) f.old f.new u.old u.new }
{
    workspace::load(told, w, 0, told.len());
    arrive_next(f, u, w, iw, n, m);
}

// What is told is not finite: the run ends.
fn end_told(f: &mut [f64], u: &mut [u32], n: usize, m: usize)
    requires { Ready n m f.old u.old }
    ensures { Turned (setup_in f.old u.old) (broken_in n m f.old u.old) f.old f.new u.old u.new }
{
    if u[SEARCH_ASKED] == PHASE_TRIAL {
        end_with(f, u, PHASE_NONFINITE);
        return;
    }
    end_goal(f, u, n, m, PHASE_NONFINITE);
}

// Finite numbers are told, behind the start.
fn go_on(
    told: &[f64],
    f: &mut [f64],
    u: &mut [u32],
    w: &mut [f64],
    iw: &mut [u32],
    n: usize,
    m: usize,
)
    requires { Heard told.now f.old u.old × Ready n m f.old u.old × (8192 ≤ length w.old) × (512 ≤ length iw.old) × (PHASE_TRIAL ≤ nth u.old SEARCH_ASKED) }
    ensures { Turned (setup_in f.old u.old) (resumed_in n m f.old u.old told.now) f.old f.new u.old u.new }
{
    if u[SEARCH_ASKED] == PHASE_TRIAL {
        judge_next(told, f, u, w, iw, n, m);
        return;
    }
    if u[SEARCH_ASKED] == PHASE_SLOPES {
        slopes_told(told, f, u, w, iw, n, m);
        return;
    }
    single_next(told[0], f, u, w, iw, n, m);
}

// The machine in f and u, which waits for an answer, is told one that is as long as it is to be.
pub fn hear(told: &[f64], f: &mut [f64], u: &mut [u32], w: &mut [f64], iw: &mut [u32])
    requires { Heard told.now f.old u.old × (8192 ≤ length w.old) × (512 ≤ length iw.old) }
    ensures { Told told.now f.old f.new u.old u.new }
{
    let n = wide(u[SEARCH_VARIABLES]);
    let m = wide(u[SEARCH_CONSTRAINTS]);
    if u[SEARCH_ASKED] == PHASE_START {
        start_next(told, f, u, n, m);
        return;
    }
    if !are_finite(told) {
        end_told(f, u, n, m);
        return;
    }
    go_on(told, f, u, w, iw, n, m);
}
