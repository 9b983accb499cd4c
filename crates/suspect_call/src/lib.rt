// The public tests of meters: tests of what is handed in, the kernel in the lent workspaces, and the answer out.
#![tactic(auto)]

mod arguments;

ghost use Rattle.std.specs.Prelude.{◌≡◌, ◌+◌, ◌*◌, ◌≤◌, length};
ghost use Rattle.workspace.specs.Readings.{nums, stack};
ghost use Rattle.suspect.specs.Lent.{tested_in};
ghost use Rattle.suspect.specs.inner.Places.{SUSPECT_SHARES, SUSPECT_GROUPS, SUSPECT_MARKS, SUSPECT_ROOM, SUSPECT_WORDS};
ghost use Rattle.suspect_call.specs.Promise.{suspect_call, Suspects};
ghost use Rattle.suspect_call.specs.inner.Work.{Given, Left};

use crate::arguments::{are_inputs, are_outputs, test_all};
use suspect::MeteredDay;
use workspace::Refusal;

// The n shares, new spreads and tests, the groups and the marks that the kernel left.
fn give(w: &[f64], iw: &[u32], numbers: &mut [f64], groups: &mut [u32], marks: &mut [u32], n: usize)
    requires { (n ≤ 16) × (SUSPECT_ROOM ≤ length w.now) × (SUSPECT_WORDS ≤ length iw.now) × (length numbers.old ≡ 3 * n) × (length groups.old ≡ n) × (length marks.old ≡ n) }
    ensures { Given n w.now iw.now numbers.new groups.new marks.new }
{
    workspace::unload_stack(w, numbers, suspect::SUSPECT_SHARES, 3, n);
    workspace::unload_words(iw, groups, suspect::SUSPECT_GROUPS, n);
    workspace::unload_words(iw, marks, suspect::SUSPECT_MARKS, n);
}

// The call where no test refuses.
pub fn solve_all(
    day: &MeteredDay,
    numbers: &mut [f64],
    groups: &mut [u32],
    marks: &mut [u32],
    w: &mut [f64],
    iw: &mut [u32],
) -> suspect::Finding
    requires { (length numbers.old ≡ 3 * day.now.n) × (length groups.old ≡ day.now.n) × (length marks.old ≡ day.now.n) × (8192 ≤ length w.old) × (512 ≤ length iw.old) }
    ensures { Left (tested_in day.now) result numbers.new groups.new marks.new w.old w.new iw.old iw.new }
{
    let d = suspect::test_meters(day, &mut w[..8192], &mut iw[..512]);
    give(w, iw, numbers, groups, marks, day.n);
    workspace::clear(w, iw);
    d
}

// A day's meters under its balances.
#[derive(Clone, Copy)]
pub struct Meters {}

impl Meters {
    // The tests of n meters under m balances: n shares, n new spreads and n tests in numbers, and for each meter its group and its mark.
    pub fn suspect(
        n: usize,
        m: usize,
        values: &[f64],
        spreads: &[f64],
        balances: &[f64],
        still: &[u8],
        numbers: &mut [f64],
        groups: &mut [u32],
        marks: &mut [u32],
        w: &mut [f64],
        iw: &mut [u32],
    ) -> Result<suspect::Finding, Refusal>
        ensures { Suspects (suspect_call n m values.now spreads.now balances.now still.now numbers.old groups.old marks.old w.old iw.old) result numbers.old numbers.new groups.old groups.new marks.old marks.new w.old w.new iw.old iw.new }
    {
        if !reconcile_call::are_sizes(n, m) {
            return Err(Refusal::Size);
        }
        if !are_inputs(
            n,
            m,
            values.len(),
            spreads.len(),
            balances.len(),
            still.len(),
        ) {
            return Err(Refusal::Length);
        }
        if !are_outputs(n, numbers.len(), groups.len(), marks.len()) {
            return Err(Refusal::Length);
        }
        if !workspace::is_room(w.len(), iw.len()) {
            return Err(Refusal::Room);
        }
        test_all(values, spreads, n)?;
        let day = MeteredDay {
            n,
            m,
            values,
            spreads,
            balances,
            still,
        };
        Ok(solve_all(&day, numbers, groups, marks, w, iw))
    }
}
