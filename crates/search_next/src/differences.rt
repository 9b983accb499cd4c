// Slopes that are due, told or by differences.
ghost use Rattle.std.specs.Prelude.{◌≡◌, [], ◌∷◌, ◌++◌, suc, ◌+◌, ◌-◌, ◌*◌, ◌≤◌, ◌<◌, length};
ghost use Rattle.numbers.specs.Numbers.{at};
ghost use Rattle.workspace.specs.Readings.{vec};
ghost use Rattle.search.specs.Places.{SEARCH_MACHINE, SEARCH_NEW_SLOPES, SEARCH_POINT};
ghost use Rattle.search.specs.Layout.{setup_in, known, laid};
ghost use Rattle.search.specs.Turn.{quotient};
ghost use Rattle.search.specs.inner.Work.{Ready, Turned};
ghost use Rattle.search_next.specs.inner.Next.{moved_to, asked_in, added_in, row_in, row_stands, sloped_in, moved_in, phase_of, price_of};

use crate::ends::{end_goal, report_goal, set_goal_words};
use crate::trials::arrive_next;
use search::{
    PHASE_EXHAUSTED, PHASE_LOWERED, PHASE_NONFINITE, PHASE_RAISED, PHASE_SLOPES, SCHEME_TOLD,
    SEARCH_LEFT, SEARCH_NEW_SLOPES, SEARCH_NEW_X, SEARCH_POINT, SEARCH_SCHEME,
};
use search_turn::{are_finite, is_finite, move_of};

// A coordinate moved up, or down.
fn moved_to(x: f64, down: bool) -> f64
    ensures { result ≡ moved_to down x }
{
    if down {
        return x - move_of(x);
    }
    x + move_of(x)
}

// The difference of values over the distance of the coordinates.
pub fn slope_between(upper: f64, lower: f64, high: f64, low: f64) -> f64
    ensures { result ≡ quotient upper lower high low }
{
    (upper - lower) / (high - low)
}

// The phase that waits for a value at a point that was moved up, or down.
fn phase_of(down: bool) -> u32
    ensures { result ≡ phase_of down }
{
    if down {
        return PHASE_LOWERED;
    }
    PHASE_RAISED
}

// What a value of function m - rows costs: only the objective's does.
fn price_of(rows: usize, m: usize) -> u32
    ensures { result ≡ price_of rows m }
{
    if rows == m {
        return 1;
    }
    0
}

// The new point with coordinate i at y, where the point of a question stands.
fn point_moved(f: &mut [f64], n: usize, i: usize, y: f64)
    requires { (length f.old ≡ SEARCH_MACHINE) × (n ≤ 16) × (i < n) }
    ensures { f.new ≡ laid SEARCH_POINT (moved_in n i y f.old) f.old }
{
    workspace::copy_up(f, SEARCH_NEW_X, SEARCH_POINT, n);
    f[SEARCH_POINT + i] = y;
}

// One function's value at a moved point is due: number m - rows, with coordinate n - 1 - cols moved.
pub fn ask_moved(
    f: &mut [f64],
    u: &mut [u32],
    n: usize,
    m: usize,
    rows: usize,
    cols: usize,
    down: bool,
)
    requires { Ready n m f.old u.old × (rows ≤ m) × (cols < n) }
    ensures { Turned (setup_in f.old u.old) (asked_in n m f.old u.old down rows cols) f.old f.new u.old u.new }
{
    let i = n - 1 - cols;
    let y = moved_to(f[SEARCH_NEW_X + i], down);
    if !is_finite(y) {
        end_goal(f, u, n, m, PHASE_NONFINITE);
        return;
    }
    let budget = u[SEARCH_LEFT];
    let price = price_of(rows, m);
    if budget < price {
        end_goal(f, u, n, m, PHASE_EXHAUSTED);
        return;
    }
    report_goal(f, u, n, m);
    point_moved(f, n, i, y);
    let phase = phase_of(down);
    set_goal_words(u, phase, budget - price, rows, cols);
}

// The last slope is known: all of them go to w, and are looked at.
fn last_slope(
    f: &mut [f64],
    u: &mut [u32],
    w: &mut [f64],
    iw: &mut [u32],
    n: usize,
    m: usize,
    slope: f64,
)
    requires { Ready n m f.old u.old × (8192 ≤ length w.old) × (512 ≤ length iw.old) }
    ensures { Turned (setup_in f.old u.old) (added_in n m f.old u.old 0 0 slope) f.old f.new u.old u.new }
{
    let k = m * n + (n - 1);
    slopes_into(f, w, k, slope);
    let e = k + 1;
    if !are_finite(&w[..e]) {
        end_goal(f, u, n, m, PHASE_NONFINITE);
        return;
    }
    arrive_next(f, u, w, iw, n, m);
}

// The k slopes that are known, and one more, to w.
fn slopes_into(f: &[f64], w: &mut [f64], k: usize, slope: f64)
    requires { (length f.now ≡ SEARCH_MACHINE) × (8192 ≤ length w.old) × (k < 272) }
    ensures { (vec 0 (suc k) w.new ≡ vec SEARCH_NEW_SLOPES k f.now ++ (slope ∷ [])) × (8192 ≤ length w.new) }
{
    workspace::copy_strided(f, w, SEARCH_NEW_SLOPES, 1, 0, k);
    w[k] = slope;
}

// A row of slopes that is whole may stand: the gradient is looked at, a constraint's row is not.
fn is_row(f: &[f64], n: usize, m: usize, rows: usize) -> bool
    requires { (length f.now ≡ SEARCH_MACHINE) × (n ≤ 16) }
    ensures { result ≡ row_stands n m rows f.now }
{
    if rows == m {
        let e = SEARCH_NEW_SLOPES + n;
        return are_finite(&f[SEARCH_NEW_SLOPES..e]);
    }
    true
}

// A row of slopes is whole: the next function's value is due.
fn row_next(f: &mut [f64], u: &mut [u32], n: usize, m: usize, rows: usize)
    requires { Ready n m f.old u.old × (1 ≤ rows) × (rows ≤ m) }
    ensures { Turned (setup_in f.old u.old) (row_in n m f.old u.old rows) f.old f.new u.old u.new }
{
    if !is_row(f, n, m, rows) {
        end_goal(f, u, n, m, PHASE_NONFINITE);
        return;
    }
    ask_moved(f, u, n, m, rows - 1, n - 1, false);
}

// The slope along the coordinate that was moved, behind those that are known.
fn keep_slope(f: &mut [f64], n: usize, m: usize, rows: usize, cols: usize, slope: f64)
    requires { (length f.old ≡ SEARCH_MACHINE) × (n ≤ 16) × (m ≤ 16) × (rows ≤ m) × (cols < n) }
    ensures { f.new ≡ laid (SEARCH_NEW_SLOPES + known n m rows cols) (slope ∷ []) f.old }
{
    f[SEARCH_NEW_SLOPES + (m - rows) * n + (n - 1 - cols)] = slope;
}

// The slope along the coordinate that was moved is known: the next coordinate is moved, or the next function comes, or all are known.
pub fn add_slope(
    f: &mut [f64],
    u: &mut [u32],
    w: &mut [f64],
    iw: &mut [u32],
    n: usize,
    m: usize,
    rows: usize,
    cols: usize,
    slope: f64,
)
    requires { Ready n m f.old u.old × (8192 ≤ length w.old) × (512 ≤ length iw.old) × (rows ≤ m) × (cols < n) }
    ensures { Turned (setup_in f.old u.old) (added_in n m f.old u.old rows cols slope) f.old f.new u.old u.new }
{
    if cols > 0 {
        keep_slope(f, n, m, rows, cols, slope);
        ask_moved(f, u, n, m, rows, cols - 1, false);
        return;
    }
    if rows > 0 {
        keep_slope(f, n, m, rows, cols, slope);
        row_next(f, u, n, m, rows);
        return;
    }
    last_slope(f, u, w, iw, n, m, slope);
}

// The slopes at the new point are due.
pub fn slopes_next(f: &mut [f64], u: &mut [u32], n: usize, m: usize)
    requires { Ready n m f.old u.old }
    ensures { Turned (setup_in f.old u.old) (sloped_in n m f.old u.old) f.old f.new u.old u.new }
{
    if u[SEARCH_SCHEME] == SCHEME_TOLD {
        report_goal(f, u, n, m);
        workspace::copy_up(f, SEARCH_NEW_X, SEARCH_POINT, n);
        let budget = u[SEARCH_LEFT];
        set_goal_words(u, PHASE_SLOPES, budget, 0, 0);
        return;
    }
    ask_moved(f, u, n, m, m, n - 1, false);
}
