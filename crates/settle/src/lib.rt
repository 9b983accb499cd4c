// Settled volumes: LSEI's, or those worked again with the limits that hold as equalities. A kept answer goes before one
// that is not, and of two alike the one with the smaller bound.
//
// LSEI's part stands in front of both workspaces. Behind it the answers are stored: LSEI's own, and the one worked again.
#![tactic(auto)]

mod again;
mod day;
mod problem;

ghost use Rattle.std.specs.Prelude.{◌≡◌, ◌+◌, ◌≤◌, length};
ghost use Rattle.workspace.specs.Readings.{vec};
ghost use Rattle.lsei.specs.inner.Work.{ended_solution};
ghost use Rattle.lsei_nullspace.specs.inner.Work.{solution_in};
ghost use Rattle.certain.specs.Bound.{kept};
ghost use Rattle.settle.specs.Settle as Definition;
ghost use Rattle.settle.specs.Lent.{measured_in};
ghost use Rattle.settle.specs.inner.Places.{SETTLE_Z, SETTLE_ROOM, SETTLE_WORDS};
ghost use Rattle.settle.specs.inner.Work.{FirstStored, stored_at, settled_in, settled_by, Judged, JudgedAgain};

use crate::again::work_again;
pub use crate::day::MeasuredDay;
use crate::problem::write_first;

// ---- where things stand behind LSEI's part

// x, y and z of LSEI's answer, and in the end of the one that is chosen.
pub const SETTLE_X: usize = lsei_nullspace::LSEI_ROOM;

pub const SETTLE_Y: usize = SETTLE_X + 18;

pub const SETTLE_Z: usize = SETTLE_Y + 18;
// Those of the answer worked again.
pub const SETTLE_AGAIN_X: usize = SETTLE_Z + 48;

pub const SETTLE_AGAIN_Y: usize = SETTLE_AGAIN_X + 18;

pub const SETTLE_AGAIN_Z: usize = SETTLE_AGAIN_Y + 18;
// How many f64 it takes.
pub const SETTLE_ROOM: usize = SETTLE_AGAIN_Z + 48;
// In the u32 workspace: the limits that are held.
pub const SETTLE_HELD: usize = lsei_nullspace::LSEI_WORDS;
// How many u32 it takes.
pub const SETTLE_WORDS: usize = SETTLE_HELD + 48;

// What an answer is worth: its bound, and whether it is kept within the tolerance.
#[derive(Clone, Copy)]
pub struct Standing {
    pub far: f64,
    pub kept: bool,
}

// What a try comes to: an answer, a limit to let go, or none.
#[derive(Clone, Copy)]
pub enum Step {
    Found,
    Let(usize),
    Stop,
}

// ---- LSEI's own answer

// The problem in, and the kernel's answer.
fn run_first(day: &MeasuredDay, w: &mut [f64], iw: &mut [u32]) -> lsei::Ended
    requires { (SETTLE_ROOM ≤ length w.old) × (SETTLE_WORDS ≤ length iw.old) }
    ensures { ended_solution result (solution_in day.now.n day.now.m day.now.p w.new) ≡ Definition.first (measured_in day.now) }
{
    write_first(day, w);
    lsei_nullspace::solve_lsei(w, iw, day.n, day.m, day.n, day.p)
}

// LSEI's answer, where it is stored.
fn store_first(w: &mut [f64], n: usize, m: usize, p: usize)
    requires { (n ≤ 16) × (m ≤ 16) × (p ≤ 48) × (SETTLE_ROOM ≤ length w.old) }
    ensures { FirstStored n m p w.old w.new }
{
    workspace::copy_up(w, lsei_nullspace::LSEI_X, SETTLE_X, n);
    workspace::copy_up(w, lsei_nullspace::LSEI_EQUALITY_MULTIPLIERS, SETTLE_Y, m);
    workspace::copy_up(w, lsei_nullspace::LSEI_MULTIPLIERS, SETTLE_Z, p);
}

// ---- the choice

impl MeasuredDay<'_> {
    // The bound of volumes x with the witnesses y of the balances and z of the limits.
    pub fn bound(&self, x: &[f64], y: &[f64], z: &[f64]) -> f64
        requires { (self.now.n ≤ length x.now) × (self.now.m ≤ length y.now) × (self.now.p ≤ length z.now) }
        ensures { result ≡ (Definition.certified (measured_in self.now) x.now y.now z.now).far }
    {
        certain::bound(
            self.n,
            self.m,
            self.p,
            self.values,
            self.spreads,
            self.balances,
            self.limits,
            self.least,
            x,
            y,
            z,
        )
    }

    // Whether volumes x keep every balance and every limit within a tolerance.
    pub fn is_kept(&self, x: &[f64], tolerance: f64) -> bool
        requires { self.now.n ≤ length x.now }
        ensures { result ≡ kept self.now.n self.now.m self.now.p self.now.balances.now self.now.limits.now self.now.least.now x.now tolerance }
    {
        certain::kept(
            self.n,
            self.m,
            self.p,
            self.balances,
            self.limits,
            self.least,
            x,
            tolerance,
        )
    }
}

// The standing of the answer that is stored from o on.
fn judge(day: &MeasuredDay, w: &[f64], o: usize, tolerance: f64) -> Standing
    requires { o + 84 ≤ length w.now }
    ensures { Judged (measured_in day.now) tolerance (stored_at (measured_in day.now) o w.now) result }
{
    let a = o + 18;
    let b = o + 36;
    let x = &w[o..o + day.n];
    let y = &w[a..a + day.m];
    let z = &w[b..b + day.p];
    let far = day.bound(x, y, z);
    let kept = day.is_kept(x, tolerance);
    Standing { far, kept }
}

// That of the answer worked again, which is stored; where there is none, one that is never better.
fn judge_again(day: &MeasuredDay, w: &mut [f64], iw: &mut [u32], tolerance: f64) -> Standing
    requires { (SETTLE_ROOM ≤ length w.old) × (SETTLE_WORDS ≤ length iw.old) }
    ensures { JudgedAgain (measured_in day.now) tolerance (vec SETTLE_Z day.now.p w.old) result w.old w.new }
{
    if !work_again(day, w, iw) {
        return Standing {
            far: 1.0 / 0.0,
            kept: false,
        };
    }
    judge(day, w, SETTLE_AGAIN_X, tolerance)
}

// Whether LSEI's answer is taken at once.
fn is_ordinary(kept: bool, far: f64) -> bool
    ensures { result ≡ Definition.is_ordinary kept far }
{
    kept && far <= 0.0009765625
}

// Whether the second answer is taken and not the first.
fn is_better(kept: bool, again: bool, far: f64, other: f64) -> bool
    ensures { result ≡ Definition.is_better kept again far other }
{
    if kept {
        return again && other < far;
    }
    again || other < far
}

// ---- the whole

// The settled volumes with their witnesses, where LSEI's answer is stored: their bound, or why LSEI has none.
pub fn settle(
    day: &MeasuredDay,
    w: &mut [f64],
    iw: &mut [u32],
    tolerance: f64,
) -> Result<f64, lsei::Unsolved>
    requires { (SETTLE_ROOM ≤ length w.old) × (SETTLE_WORDS ≤ length iw.old) }
    ensures { settled_by result (settled_in day.now.n day.now.m day.now.p w.new) ≡ Definition.settled (measured_in day.now) tolerance }
{
    let e = run_first(day, w, iw);
    e.ending?;
    store_first(w, day.n, day.m, day.p);
    let one = judge(day, w, SETTLE_X, tolerance);
    if is_ordinary(one.kept, one.far) {
        return Ok(one.far);
    }
    let two = judge_again(day, w, iw, tolerance);
    if is_better(one.kept, two.kept, one.far, two.far) {
        workspace::copy_down(w, SETTLE_AGAIN_X, SETTLE_X, 84);
        return Ok(two.far);
    }
    Ok(one.far)
}
