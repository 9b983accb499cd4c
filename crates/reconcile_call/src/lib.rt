// The public reconciliation of a day: tests, the problem into the lent workspaces, and the answer out.
#![tactic(auto)]

mod arguments;

ghost use Rattle.std.specs.Prelude.{◌≡◌, ◌+◌, ◌*◌, ◌≤◌, length};
ghost use Rattle.workspace.specs.Readings.{vec};
ghost use Rattle.lsei.specs.inner.Work.{ending_answer};
ghost use Rattle.lsei_nullspace.specs.inner.Places.{LSEI_ROOM};
ghost use Rattle.lsei_nullspace.specs.inner.Work.{solution_in};
ghost use Rattle.reconcile.specs.Day.{day_of, corrected};
ghost use Rattle.reconcile.specs.inner.Work.{Readable};
ghost use Rattle.reconcile_call.specs.Promise.{day_call, Reconciles};
ghost use Rattle.reconcile_call.specs.inner.Work.{DayGiven};

use crate::arguments::{are_lengths, test_meters};
pub use arguments::{are_sizes, is_spread};
use workspace::Refusal;

// Where the solve ended well, the n volumes that LSEI left, and their marks.
fn give(
    w: &[f64],
    volumes: &mut [f64],
    named: &mut [u8],
    ending: Result<(), lsei::Unsolved>,
    n: usize,
    m: usize,
) -> Result<(), Refusal>
    requires { (n ≤ 16) × (LSEI_ROOM ≤ length w.now) × (length volumes.old ≡ n) × (length named.old ≡ n) }
    ensures { DayGiven n (ending_answer ending (solution_in n m n w.now)) result volumes.old volumes.new named.old named.new }
{
    ending?;
    workspace::unload(w, volumes, lsei_nullspace::LSEI_X, n);
    reconcile::mark_all(volumes, named, n);
    Ok(())
}

// The call where no test refuses.
fn solve_all(
    before: &[u32],
    after: &[u32],
    spreads: &[f64],
    balances: &[f64],
    volumes: &mut [f64],
    named: &mut [u8],
    w: &mut [f64],
    iw: &mut [u32],
    n: usize,
    m: usize,
) -> Result<(), Refusal>
    requires { Readable n before.now after.now spreads.now × (m ≤ 16) × (length balances.now ≡ m * n) × (length volumes.old ≡ n) × (length named.old ≡ n) × (8192 ≤ length w.old) × (512 ≤ length iw.old) }
    ensures { Reconciles n (corrected (day_of n m before.now after.now spreads.now balances.now)).answer result volumes.old volumes.new named.old named.new w.old w.new iw.old iw.new }
{
    let e = reconcile::solve_day(
        before,
        after,
        spreads,
        balances,
        &mut w[..8192],
        &mut iw[..512],
        n,
        m,
    );
    let ending = e.ending;
    let r = give(w, volumes, named, ending, n, m);
    workspace::clear(w, iw);
    r
}

// A day's meters under its balances.
#[derive(Clone, Copy)]
pub struct Day {}

impl Day {
    // The corrected volumes of n meters under m balances, and 1 in named for each that is below zero or NaN.
    pub fn reconcile(
        n: usize,
        m: usize,
        before: &[u32],
        after: &[u32],
        spreads: &[f64],
        balances: &[f64],
        volumes: &mut [f64],
        named: &mut [u8],
        w: &mut [f64],
        iw: &mut [u32],
    ) -> Result<(), Refusal>
        ensures { Reconciles n (day_call (day_of n m before.now after.now spreads.now balances.now) volumes.old named.old w.old iw.old) result volumes.old volumes.new named.old named.new w.old w.new iw.old iw.new }
    {
        if !are_sizes(n, m) {
            return Err(Refusal::Size);
        }
        if !are_lengths(
            n,
            m,
            before.len(),
            after.len(),
            spreads.len(),
            balances.len(),
            volumes.len(),
            named.len(),
        ) {
            return Err(Refusal::Length);
        }
        if !workspace::is_room(w.len(), iw.len()) {
            return Err(Refusal::Room);
        }
        test_meters(before, after, spreads, n)?;
        solve_all(
            before, after, spreads, balances, volumes, named, w, iw, n, m,
        )
    }
}
