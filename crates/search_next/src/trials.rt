// Turns and trials.
ghost use Rattle.std.specs.Prelude.{◌≡◌, suc, ◌+◌, ◌*◌, ◌≤◌, length};
ghost use Rattle.numbers.specs.Numbers.{nth};
ghost use Rattle.workspace.specs.Readings.{vec};
ghost use Rattle.search.specs.Places.{SEARCH_LEFT};
ghost use Rattle.search.specs.Turn.{reset};
ghost use Rattle.search.specs.Machine.{turn_next};
ghost use Rattle.search.specs.Layout.{setup_in, iterate_in};
ghost use Rattle.search.specs.inner.Work.{Ready, Turned};
ghost use Rattle.search_next.specs.inner.Next.{tried_in, turned_in, arrived_in, taken_in, judged_in};

use crate::differences::slopes_next;
use crate::ends::{end_with, set_words};
use search::{
    BACKTRACKS, PHASE_CONVERGED, PHASE_EXHAUSTED, PHASE_INFEASIBLE, PHASE_TRIAL, SEARCH_AGAIN,
    SEARCH_ALPHA, SEARCH_FRESH, SEARCH_LEFT, SEARCH_NEW_VALUES, SEARCH_NEW_X, SEARCH_POINT,
    SEARCH_TAKEN,
};
use search_move::{identity_in, move_turn, start_turn};
use search_open::{Opening, open_turn};
use search_turn::{along_into, is_enough, is_settled, merit_of, shorter_of};

// A trial is due.
pub fn try_next(f: &mut [f64], u: &mut [u32], n: usize, m: usize, alpha: f64, again: u32)
    requires { Ready n m f.old u.old }
    ensures { Turned (setup_in f.old u.old) (tried_in n m f.old u.old alpha again) f.old f.new u.old u.new }
{
    let budget = u[SEARCH_LEFT];
    if budget == 0 {
        end_with(f, u, PHASE_EXHAUSTED);
        return;
    }
    f[SEARCH_ALPHA] = alpha;
    along_into(f, SEARCH_POINT, n, alpha);
    let fresh = u[SEARCH_FRESH];
    set_words(u, PHASE_TRIAL, budget - 1, again, fresh, 1, 0, 0);
}

// A turn from the iterate.
pub fn turn_next(f: &mut [f64], u: &mut [u32], w: &mut [f64], iw: &mut [u32], n: usize, m: usize)
    requires { Ready n m f.old u.old × (8192 ≤ length w.old) × (512 ≤ length iw.old) }
    ensures { Turned (setup_in f.old u.old) (turned_in n m f.old u.old) f.old f.new u.old u.new }
{
    let opening = open_turn(f, u, w, iw, n, m);
    match opening {
        Opening::Go => {
            try_next(f, u, n, m, 1.0, BACKTRACKS);
        }
        Opening::Converged => {
            end_with(f, u, PHASE_CONVERGED);
        }
        Opening::Infeasible => {
            end_with(f, u, PHASE_INFEASIBLE);
        }
    }
}

// The slopes at the new point stand in w.
pub fn arrive_next(f: &mut [f64], u: &mut [u32], w: &mut [f64], iw: &mut [u32], n: usize, m: usize)
    requires { Ready n m f.old u.old × (8192 ≤ length w.old) × (512 ≤ length iw.old) }
    ensures { Turned (setup_in f.old u.old) (arrived_in n m f.old u.old (vec 0 (suc m * n) w.old)) f.old f.new u.old u.new }
{
    if u[SEARCH_TAKEN] == 0 {
        start_turn(f, u, w, n, m);
        turn_next(f, u, w, iw, n, m);
        return;
    }
    let settled = is_settled(f, u, m);
    move_turn(f, u, w, n, m);
    if settled {
        end_with(f, u, PHASE_CONVERGED);
        return;
    }
    turn_next(f, u, w, iw, n, m);
}

// The trial with the values that are told is taken, and slopes are due there.
fn take_trial(told: &[f64], f: &mut [f64], u: &mut [u32], n: usize, m: usize)
    requires { Ready n m f.old u.old × (length told.now ≡ suc m) }
    ensures { Turned (setup_in f.old u.old) (taken_in n m f.old u.old told.now) f.old f.new u.old u.new }
{
    let alpha = f[SEARCH_ALPHA];
    along_into(f, SEARCH_NEW_X, n, alpha);
    workspace::load(told, f, SEARCH_NEW_VALUES, m + 1);
    u[SEARCH_TAKEN] = 1;
    slopes_next(f, u, n, m);
}

// B is the identity again, and a turn begins.
fn reset_next(f: &mut [f64], u: &mut [u32], w: &mut [f64], iw: &mut [u32], n: usize, m: usize)
    requires { Ready n m f.old u.old × (8192 ≤ length w.old) × (512 ≤ length iw.old) }
    ensures { Turned (setup_in f.old u.old) (turn_next (setup_in f.old u.old) (nth u.old SEARCH_LEFT) (reset (setup_in f.old u.old) (iterate_in n m f.old u.old))) f.old f.new u.old u.new }
{
    identity_in(f, n);
    u[SEARCH_FRESH] = 1;
    turn_next(f, u, w, iw, n, m);
}

// The values at a trial are told: it is accepted, or another is due, or B is reset.
pub fn judge_next(
    told: &[f64],
    f: &mut [f64],
    u: &mut [u32],
    w: &mut [f64],
    iw: &mut [u32],
    n: usize,
    m: usize,
)
    requires { Ready n m f.old u.old × (8192 ≤ length w.old) × (512 ≤ length iw.old) × (length told.now ≡ suc m) }
    ensures { Turned (setup_in f.old u.old) (judged_in n m f.old u.old told.now) f.old f.new u.old u.new }
{
    let merit = merit_of(f, u, told, m);
    if is_enough(f, merit) {
        take_trial(told, f, u, n, m);
        return;
    }
    let again = u[SEARCH_AGAIN];
    if again > 0 {
        let alpha = shorter_of(f, merit);
        try_next(f, u, n, m, alpha, again - 1);
        return;
    }
    if u[SEARCH_FRESH] == 1 {
        take_trial(told, f, u, n, m);
        return;
    }
    reset_next(f, u, w, iw, n, m);
}
