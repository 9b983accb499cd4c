// The C function of the day's reconciliation.
ghost use Rattle.reconcile.specs.Day.{day_of};
ghost use Rattle.reconcile_call.specs.Promise.{day_call};
ghost use Rattle.gritstrut.specs.Daily.{DayLeaves};

use reconcile_call::Day;

// The corrected volumes of a day's meters, and the meters named.
pub fn gritstrut_reconcile(
    n: usize,
    m: usize,
    before: &[u32],
    after: &[u32],
    spreads: &[f64],
    balances: &[f64],
    volumes: &mut [f64],
    named: &mut [u8],
    place: &mut u32,
    w: &mut [f64],
    iw: &mut [u32],
) -> u32
    ensures { DayLeaves n (day_call (day_of n m before.now after.now spreads.now balances.now) volumes.old named.old w.old iw.old) result place.old place.new volumes.old volumes.new named.old named.new w.old w.new iw.old iw.new }
{
    let answer = Day::reconcile(
        n, m, before, after, spreads, balances, volumes, named, w, iw,
    );
    crate::number_with_place(answer, place)
}
