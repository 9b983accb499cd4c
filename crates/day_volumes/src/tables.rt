// The two tables that the report is written from.
ghost use Rattle.std.specs.Prelude.{◌≡◌, cond, ◌&&◌, ◌+◌, ◌-◌, ◌*◌, ◌≤◌, ◌<◌, length};
ghost use Rattle.std.specs.Float.{nan};
ghost use Rattle.numbers.specs.Numbers.{at, nth};
ghost use Rattle.interval.specs.Intervals.{is_finite};
ghost use Rattle.certain.specs.Bound as Bound;
ghost use Rattle.workspace.specs.Readings.{Block, Span};
ghost use Rattle.day_volumes.specs.Found.{flag as found_flag, row_times};
ghost use Rattle.day_volumes.specs.inner.Work.{Counts, item_figures, sum_figures, all_figures, test_signs, within_signs};

use crate::pose::{BALANCES, LIMITS};
use settle::MeasuredDay;

// ---- figures: of items, of balances, of limits

pub const VALUES: usize = 0;

pub const CORRECTED: usize = 16;

pub const NEW_SPREADS: usize = 32;

pub const TESTS: usize = 48;

pub const SHARES: usize = 64;

pub const MEASURED: usize = 80;

pub const LEFT: usize = 96;

pub const REACHED: usize = 112;

pub const BOUND: usize = 128;

pub const MISFIT: usize = 129;

// ---- signs: of items, of balances, of limits

pub const CLOSED: usize = 16;

pub const KEPT: usize = 32;

pub const FREEDOM: usize = 48;

pub const AGREE: usize = 49;

pub const ALL_KEPT: usize = 50;

// A row of the sheet's numbers that begins at o, times v.
fn row_times(f: &[f64], o: usize, v: &[f64], n: usize) -> f64
    requires { (n ≤ 16) × (o + 16 ≤ length f.now) × (length v.now ≡ n) }
    ensures { result ≡ row_times n f.now o v.now }
{
    numbers::dot_strided(f, o, 1, v, 0, 1, n)
}

// c rows that begin at `from`, each times v, to `out` from o on.
fn put_sums(f: &[f64], from: usize, v: &[f64], out: &mut [f64], o: usize, n: usize, c: usize)
    requires { (n ≤ 16) × (c ≤ 16) × (from + 256 ≤ length f.now) × (length v.now ≡ n) × (o + c ≤ length out.old) }
    ensures { Block o c (λ j. row_times n f.now (from + 16 * j) v.now) out.old out.new }
{
    for j in 0..c {
        out[o + j] = row_times(f, from + 16 * j, v, n);
    }
}

// The figures of n items.
fn put_items(values: &[f64], x: &[f64], tests: &[f64], out: &mut [f64], n: usize)
    requires { (n ≤ 16) × (length values.now ≡ n) × (length x.now ≡ n) × (length tests.now ≡ 3 * n) × (length out.old ≡ 130) }
    ensures { out.new ≡ item_figures n values.now x.now tests.now out.old }
{
    workspace::load(values, out, VALUES, n);
    workspace::load(x, out, CORRECTED, n);
    workspace::copy_strided(tests, out, n, 1, NEW_SPREADS, n);
    workspace::copy_strided(tests, out, n + n, 1, TESTS, n);
    workspace::copy_strided(tests, out, 0, 1, SHARES, n);
}

// The figures of m balances and q limits.
fn put_rows(f: &[f64], values: &[f64], x: &[f64], out: &mut [f64], n: usize, m: usize, q: usize)
    requires { (n ≤ 16) × (m ≤ 16) × (q ≤ 16) × (length f.now ≡ 577) × (length values.now ≡ n) × (length x.now ≡ n) × (length out.old ≡ 130) }
    ensures { out.new ≡ sum_figures n m q f.now values.now x.now out.old }
{
    put_sums(f, BALANCES, values, out, MEASURED, n, m);
    put_sums(f, BALANCES, x, out, LEFT, n, m);
    put_sums(f, LIMITS, x, out, REACHED, n, q);
}

// The bound and the misfit, beside the figures of items, balances and limits.
pub fn put_figures(
    f: &[f64],
    values: &[f64],
    x: &[f64],
    tests: &[f64],
    far: f64,
    misfit: f64,
    out: &mut [f64],
    n: usize,
    m: usize,
    q: usize,
)
    requires { Counts n m q × (length f.now ≡ 577) × (length values.now ≡ n) × (length x.now ≡ n) × (length tests.now ≡ 3 * n) × (length out.old ≡ 130) }
    ensures { out.new ≡ all_figures n m q f.now values.now x.now tests.now far misfit out.old }
{
    put_items(values, x, tests, out, n);
    put_rows(f, values, x, out, n, m, q);
    out[BOUND] = far;
    out[MISFIT] = misfit;
}

// ---- signs

fn flag(b: bool) -> u32
    ensures { result ≡ found_flag b }
{
    if b {
        return 1;
    }
    0
}

// The marks of n items.
fn put_marks(marks: &[u32], out: &mut [u32], n: usize)
    requires { (n ≤ 16) × (length marks.now ≡ n) × (length out.old ≡ 51) }
    ensures { Span 0 n (λ i. nth marks.now i) out.old out.new }
{
    for i in 0..n {
        out[i] = marks[i];
    }
}

// Whether each balance is within the tolerance.
fn put_closed(day: &MeasuredDay, x: &[f64], out: &mut [u32], tolerance: f64)
    requires { (length x.now ≡ day.now.n) × (length out.old ≡ 51) }
    ensures { Span 16 day.now.m (λ j. found_flag (Bound.closes day.now.n j day.now.balances.now x.now tolerance)) out.old out.new }
{
    for j in 0..day.m {
        out[CLOSED + j] = flag(certain::closes(day.n, j, day.balances, x, tolerance));
    }
}

// Whether each of the sheet's limits, the last q, is kept within it.
fn put_kept(day: &MeasuredDay, x: &[f64], out: &mut [u32], q: usize, tolerance: f64)
    requires { (q ≤ 16) × (q ≤ day.now.p) × (length x.now ≡ day.now.n) × (length out.old ≡ 51) }
    ensures { Span 32 q (λ j. found_flag (Bound.keeps day.now.n (day.now.p - q + j) day.now.limits.now day.now.least.now x.now tolerance)) out.old out.new }
{
    let first = day.p - q;
    for j in 0..q {
        out[KEPT + j] = flag(certain::keeps(day.n, first + j, day.limits, day.least, x, tolerance));
    }
}

// Whether every balance and every limit is kept within a tolerance, which is finite.
fn is_kept(day: &MeasuredDay, x: &[f64], tolerance: f64) -> bool
    requires { length x.now ≡ day.now.n }
    ensures { result ≡ (is_finite tolerance && Bound.kept day.now.n day.now.m day.now.p day.now.balances.now day.now.limits.now day.now.least.now x.now tolerance) }
{
    interval::is_finite(tolerance) && day.is_kept(x, tolerance)
}

// The signs of balances and limits, and whether all is kept.
pub fn put_within(day: &MeasuredDay, x: &[f64], out: &mut [u32], q: usize, tolerance: f64)
    requires { (q ≤ 16) × (q ≤ day.now.p) × (length x.now ≡ day.now.n) × (length out.old ≡ 51) }
    ensures { out.new ≡ within_signs day.now.n day.now.m day.now.p q day.now.balances.now day.now.limits.now day.now.least.now x.now tolerance out.old }
{
    put_closed(day, x, out, tolerance);
    put_kept(day, x, out, q, tolerance);
    out[ALL_KEPT] = flag(is_kept(day, x, tolerance));
}

// The signs of the tests.
pub fn put_tests(marks: &[u32], freedom: u32, agree: bool, out: &mut [u32], n: usize)
    requires { (n ≤ 16) × (length marks.now ≡ n) × (length out.old ≡ 51) }
    ensures { out.new ≡ test_signs n marks.now freedom agree out.old }
{
    put_marks(marks, out, n);
    out[FREEDOM] = freedom;
    out[AGREE] = flag(agree);
}
