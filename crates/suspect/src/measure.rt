// Numbers of each meter: its share, its new spread and its test.
ghost use Rattle.std.specs.Prelude.{◌≡◌, ◌<◌, ◌≤◌, length};
ghost use Rattle.workspace.specs.Readings.{vec, stack};
ghost use Rattle.suspect.specs.Suspect.{overlap, is_outside, share, unseen, correction, shares, new_spreads, tests};
ghost use Rattle.suspect.specs.inner.Places.{SUSPECT_GAPS, SUSPECT_DIRECTIONS, SUSPECT_SHARES, SUSPECT_SPREADS, SUSPECT_TESTS, SUSPECT_ROOM};
ghost use Rattle.suspect.specs.inner.Work.{VectorWritten, Measured};

use crate::day::MeteredDay;
use crate::decide::{new_spread, test_of, weight_of};
use crate::{SUSPECT_DIRECTIONS, SUSPECT_GAPS, SUSPECT_SHARES, SUSPECT_SPREADS, SUSPECT_TESTS};

// What the balances see of meters i and j together.
pub fn overlap_of(w: &[f64], n: usize, r: usize, i: usize, j: usize) -> f64
    requires { (n ≤ 16) × (r ≤ n) × (i < n) × (j < n) × (SUSPECT_ROOM ≤ length w.now) }
    ensures { result ≡ overlap n r (stack SUSPECT_DIRECTIONS n n w.now) i j }
{
    numbers::dot_within(
        w,
        SUSPECT_DIRECTIONS + i * 18,
        SUSPECT_DIRECTIONS + j * 18,
        r,
    )
}

// What no balance sees of meter i.
fn unseen_of(w: &[f64], n: usize, r: usize, i: usize) -> f64
    requires { (n ≤ 16) × (r ≤ n) × (i < n) × (SUSPECT_ROOM ≤ length w.now) }
    ensures { result ≡ unseen n r (stack SUSPECT_DIRECTIONS n n w.now) i }
{
    let p = SUSPECT_DIRECTIONS + i * 18 + r;
    numbers::dot_within(w, p, p, n - r)
}

// The correction of meter i in spreads.
fn correction_of(w: &[f64], n: usize, r: usize, i: usize) -> f64
    requires { (n ≤ 16) × (r ≤ n) × (i < n) × (SUSPECT_ROOM ≤ length w.now) }
    ensures { result ≡ correction n r (stack SUSPECT_DIRECTIONS n n w.now) (vec SUSPECT_GAPS r w.now) i }
{
    numbers::dot_within(w, SUSPECT_DIRECTIONS + i * 18, SUSPECT_GAPS, r)
}

// No balance has meter i.
fn is_outside(day: &MeteredDay, i: usize) -> bool
    requires { i < day.now.n }
    ensures { result ≡ is_outside day.now.n day.now.spreads.now day.now.balances.now day.now.still.now i day.now.m }
{
    let mut all = true;
    for k in 0..day.m {
        let x = weight_of(day.still[i], day.spreads[i], day.balances[k * day.n + i]);
        all = all && x == 0.0;
    }
    all
}

// What the balances see of meter i.
fn share_of(day: &MeteredDay, w: &[f64], r: usize, i: usize) -> f64
    requires { (i < day.now.n) × (r ≤ day.now.n) × (SUSPECT_ROOM ≤ length w.now) }
    ensures { result ≡ share day.now.n day.now.m r day.now.spreads.now day.now.balances.now day.now.still.now (stack SUSPECT_DIRECTIONS day.now.n day.now.n w.now) i }
{
    if is_outside(day, i) {
        return 0.0;
    }
    overlap_of(w, day.n, r, i, i)
}

// The shares.
fn write_shares(day: &MeteredDay, w: &mut [f64], r: usize)
    requires { (r ≤ day.now.n) × (SUSPECT_ROOM ≤ length w.old) }
    ensures { VectorWritten SUSPECT_SHARES day.now.n (shares day.now.n day.now.m r day.now.spreads.now day.now.balances.now day.now.still.now (stack SUSPECT_DIRECTIONS day.now.n day.now.n w.old)) w.old w.new }
{
    for i in 0..day.n {
        let h = share_of(day, w, r, i);
        w[SUSPECT_SHARES + i] = h;
    }
}

// The new spreads.
fn write_spreads(day: &MeteredDay, w: &mut [f64], r: usize)
    requires { (r ≤ day.now.n) × (SUSPECT_ROOM ≤ length w.old) }
    ensures { VectorWritten SUSPECT_SPREADS day.now.n (new_spreads day.now.n r day.now.spreads.now day.now.still.now (stack SUSPECT_DIRECTIONS day.now.n day.now.n w.old)) w.old w.new }
{
    for i in 0..day.n {
        let t = unseen_of(w, day.n, r, i);
        w[SUSPECT_SPREADS + i] = new_spread(day.still[i], day.spreads[i], t);
    }
}

// The tests.
fn write_tests(w: &mut [f64], n: usize, r: usize)
    requires { (n ≤ 16) × (r ≤ n) × (SUSPECT_ROOM ≤ length w.old) }
    ensures { VectorWritten SUSPECT_TESTS n (tests n r (stack SUSPECT_DIRECTIONS n n w.old) (vec SUSPECT_GAPS r w.old) (vec SUSPECT_SHARES n w.old)) w.old w.new }
{
    for i in 0..n {
        let p = correction_of(w, n, r, i);
        w[SUSPECT_TESTS + i] = test_of(w[SUSPECT_SHARES + i], p);
    }
}

// Shares, new spreads and tests.
pub fn measure_all(day: &MeteredDay, w: &mut [f64], r: usize)
    requires { (r ≤ day.now.n) × (SUSPECT_ROOM ≤ length w.old) }
    ensures { Measured day.now.n day.now.m r day.now.spreads.now day.now.balances.now day.now.still.now w.old w.new }
{
    write_shares(day, w, r);
    write_spreads(day, w, r);
    write_tests(w, day.n, r);
}
