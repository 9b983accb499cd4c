// What is found of a sheet's day: the volumes that it poses are settled, its meters are tested, and two tables are left
// for the report (specs/Found.antt says what stands where).
#![tactic(auto)]

mod pose;
mod tables;

ghost use Rattle.std.specs.Prelude.{◌≡◌, ◌+◌, ◌*◌, ◌≤◌, length};
ghost use Rattle.settle.specs.Settle.{settled};
ghost use Rattle.settle.specs.Lent.{measured_in};
ghost use Rattle.suspect.specs.Lent.{tested_in};
ghost use Rattle.day_volumes.specs.Posed.{spreads};
ghost use Rattle.day_volumes.specs.Promise.{Finds};
ghost use Rattle.day_volumes.specs.inner.Work.{Counts, Tables, Blank, SettledTo, TestedTo, TestsTold, FoundPosed, stills_of};

use crate::pose::{TOLERANCE, fill_balances, fill_limits, fill_values, forget_stocks};
use crate::tables::{put_figures, put_tests, put_within};
use settle::MeasuredDay;
use suspect::{Finding, MeteredDay};
use workspace::Refusal;

// ---- rooms

// A blank room for so many numbers.
fn number_room<const N: usize>() -> [f64; N]
    ensures { N ≡ length result }
{
    [0.0; N]
}

// A blank room for so many words.
fn word_room<const N: usize>() -> [u32; N]
    ensures { N ≡ length result }
{
    [0; N]
}

// Room for a byte of each item.
fn still_room() -> [u8; 16]
    ensures { 16 ≡ length result }
{
    [0; 16]
}

// ---- volumes and tests, in workspaces of their own

// The settled volumes, and their bound.
fn settle_day(day: &MeasuredDay, x: &mut [f64], tolerance: f64) -> Result<f64, Refusal>
    requires { length x.old ≡ day.now.n }
    ensures { SettledTo (settled (measured_in day.now) tolerance) result x.old x.new }
{
    let mut multipliers = number_room::<64>();
    let mut w = number_room::<8192>();
    let mut iw = word_room::<512>();
    let c = day.m + day.p;
    settle_call::settle_all(day, tolerance, x, &mut multipliers[..c], &mut w, &mut iw)
}

// The shares, new spreads and tests, one after the other, the marks, and what is found of all together.
fn test_day(day: &MeteredDay, tests: &mut [f64], marks: &mut [u32]) -> Finding
    requires { (length tests.old ≡ 3 * day.now.n) × (length marks.old ≡ day.now.n) }
    ensures { TestedTo (tested_in day.now) result tests.new marks.new }
{
    let mut groups = word_room::<16>();
    let mut w = number_room::<8192>();
    let mut iw = word_room::<512>();
    suspect_call::solve_all(day, tests, &mut groups[..day.n], marks, &mut w, &mut iw)
}

// ---- the tables

// Which items stand still.
fn mark_still(z: &[u32], values: &[f64], x: &[f64], spreads: &[f64], still: &mut [u8], n: usize)
    requires { (n ≤ 16) × (length z.now ≡ 64) × (length values.now ≡ n) × (length x.now ≡ n) × (length spreads.now ≡ n) × (length still.old ≡ n) }
    ensures { still.new ≡ stills_of n z.now values.now x.now spreads.now }
{
    suspect::mark_still(values, x, spreads, still, n);
    forget_stocks(z, still, n);
}

// The tests of the settled volumes x, whose bound is far, and all figures.
fn tell_tests(
    z: &[u32],
    f: &[f64],
    day: &MeasuredDay,
    x: &[f64],
    far: f64,
    figures: &mut [f64],
    signs: &mut [u32],
    q: usize,
)
    requires { (q ≤ 16) × Tables z.now f.now × (day.now.spreads.now ≡ spreads day.now.n f.now) × (length x.now ≡ day.now.n) × Blank figures.old signs.old }
    ensures { TestsTold day.now.n day.now.m q z.now f.now day.now.values.now day.now.balances.now x.now far figures.new signs.new }
{
    let mut stills = still_room();
    let mut numbers = number_room::<48>();
    let mut words = word_room::<16>();
    let n = day.n;
    let c = 3 * n;
    let still = &mut stills[..n];
    let tests = &mut numbers[..c];
    let marks = &mut words[..n];
    mark_still(z, day.values, x, day.spreads, still, n);
    let metered = MeteredDay {
        n,
        m: day.m,
        values: day.values,
        spreads: day.spreads,
        balances: day.balances,
        still,
    };
    let d = test_day(&metered, tests, marks);
    put_figures(f, day.values, x, tests, far, d.misfit, figures, n, day.m, q);
    put_tests(marks, d.freedom, d.agree, signs, n);
}

// The volumes of what is posed, and the tables where they are settled.
fn find_posed(
    z: &[u32],
    f: &[f64],
    day: &MeasuredDay,
    figures: &mut [f64],
    signs: &mut [u32],
    q: usize,
) -> Result<(), Refusal>
    requires { (q ≤ 16) × (q ≤ day.now.p) × Tables z.now f.now × (day.now.spreads.now ≡ spreads day.now.n f.now) × Blank figures.old signs.old }
    ensures { FoundPosed z.now f.now (measured_in day.now) q result figures.new signs.new }
{
    let mut volumes = number_room::<16>();
    let x = &mut volumes[..day.n];
    let tolerance = f[TOLERANCE];
    let far = settle_day(day, x, tolerance)?;
    tell_tests(z, f, day, x, far, figures, signs, q);
    put_within(day, x, signs, q, tolerance);
    Ok(())
}

// The same of a sheet's tables, whose counts are n items, m balances and q floors and ceilings; the two tables that are left are blank before.
pub fn find(
    z: &[u32],
    f: &[f64],
    figures: &mut [f64],
    signs: &mut [u32],
    n: usize,
    m: usize,
    q: usize,
) -> Result<(), Refusal>
    requires { Counts n m q × Tables z.now f.now × Blank figures.old signs.old }
    ensures { Finds n m q z.now f.now result figures.new signs.new }
{
    let mut values = number_room::<16>();
    let mut balances = number_room::<256>();
    let mut limits = number_room::<768>();
    let mut least = number_room::<48>();
    let c = m * n;
    let v = &mut values[..n];
    let b = &mut balances[..c];
    fill_values(z, f, v, n);
    fill_balances(f, b, n, m);
    let p = fill_limits(z, f, &mut limits, &mut least, n, q);
    let e = p * n;
    let day = MeasuredDay {
        n,
        m,
        p,
        values: v,
        spreads: &f[..n],
        balances: b,
        limits: &limits[..e],
        least: &least[..p],
    };
    find_posed(z, f, &day, figures, signs, q)
}
