// The tests of meters: which meter may be wrong, by the factors of the balances in spreads, in one part of each workspace.
#![tactic(auto)]

mod balances;
mod day;
mod decide;
mod findings;
mod measure;

ghost use Rattle.std.specs.Prelude.{◌≡◌, ◌≤◌, length};
ghost use Rattle.suspect.specs.Suspect.{stills};
ghost use Rattle.suspect.specs.Lent.{tested_in};
ghost use Rattle.suspect.specs.inner.Places.{SUSPECT_ROOM, SUSPECT_WORDS};
ghost use Rattle.suspect.specs.inner.Work.{tests_in};

use crate::balances::{all_finite, prepare};
pub use crate::day::MeteredDay;
use crate::decide::still_of;
use crate::findings::{judge, write_groups, write_marks};
use crate::measure::measure_all;
pub use decide::is_finite;

// ---- where things stand in the part of the workspaces, which begins with a QR part for K

// The scaled gaps y.
pub const SUSPECT_GAPS: usize = householder::QR_MATRIX + 16 * 18;
// The rows of Q.
pub const SUSPECT_DIRECTIONS: usize = SUSPECT_GAPS + 18;
// The shares.
pub const SUSPECT_SHARES: usize = SUSPECT_DIRECTIONS + 16 * 18;
// The new spreads.
pub const SUSPECT_SPREADS: usize = SUSPECT_SHARES + 18;
// The tests.
pub const SUSPECT_TESTS: usize = SUSPECT_SPREADS + 18;
// How many f64 it takes.
pub const SUSPECT_ROOM: usize = SUSPECT_TESTS + 18;
// In the u32 workspace: the permutation of K stands at 0, and the groups here.
pub const SUSPECT_GROUPS: usize = 18;
// The marks.
pub const SUSPECT_MARKS: usize = SUSPECT_GROUPS + 18;
// How many u32 it takes.
pub const SUSPECT_WORDS: usize = SUSPECT_MARKS + 18;

// ---- what is told of all meters together

// A meter and the square of its test.
#[derive(Clone, Copy)]
pub struct Lead {
    pub index: usize,
    pub square: f64,
}

// The degrees of freedom, the misfit, the meter of the largest test with its square, whether the meters agree, and whether one of them explains it where they do not.
#[derive(Clone, Copy)]
pub struct Finding {
    pub freedom: u32,
    pub misfit: f64,
    pub first: u32,
    pub square: f64,
    pub agree: bool,
    pub explained: bool,
}

// ---- the operations

// 1 for each of n meters that stands still, by its value, its corrected value and its spread.
pub fn mark_still(values: &[f64], corrected: &[f64], spreads: &[f64], still: &mut [u8], n: usize)
    requires { (length values.now ≡ n) × (length corrected.now ≡ n) × (length spreads.now ≡ n) × (length still.old ≡ n) }
    ensures { still.new ≡ stills n values.now corrected.now spreads.now }
{
    for i in 0..n {
        still[i] = still_of(values[i], corrected[i], spreads[i]);
    }
}

// The tests of a day's meters under its balances, in their places, and what is found of all together.
pub fn test_meters(day: &MeteredDay, w: &mut [f64], iw: &mut [u32]) -> Finding
    requires { (SUSPECT_ROOM ≤ length w.old) × (SUSPECT_WORDS ≤ length iw.old) }
    ensures { tests_in day.now.n result w.new iw.new ≡ tested_in day.now }
{
    let n = day.n;
    let r = prepare(day, w, iw);
    measure_all(day, w, r);
    let finite = all_finite(day);
    let d = judge(w, n, r, finite);
    let first = d.first as usize;
    let best = Lead {
        index: first,
        square: d.square,
    };
    let agree = d.agree;
    write_groups(w, iw, n, r);
    write_marks(w, iw, n, r, best, agree);
    d
}
