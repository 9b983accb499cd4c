// The exports of gritstrut's module `day`.
ghost use Rattle.reconcile.specs.Day.{day_of};
ghost use Rattle.reconcile_call.specs.Promise.{day_call};
ghost use Rattle.gritstrut.specs.Daily.{DayLeaves};

// The corrected volumes of a day's meters, and the meters named.
#[unsafe(no_mangle)]
pub extern "C" fn gritstrut_reconcile(
    n: usize,
    m: usize,
    before: &[u32],
    after: &[u32],
    spreads: &[f64],
    balances: &[f64],
    volumes: &mut [f64],
    named: &mut [u8],
    place: &mut u32,
    w: &mut [f64],
    iw: &mut [u32],
) -> u32
    ensures { DayLeaves n (day_call (day_of n m before.now after.now spreads.now balances.now) volumes.old named.old w.old iw.old) result place.old place.new volumes.old volumes.new named.old named.new w.old w.new iw.old iw.new }
{
    gritstrut::gritstrut_reconcile(
        n, m, before, after, spreads, balances, volumes, named, place, w, iw,
    )
}
