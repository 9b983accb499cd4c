// The exports of gritstrut's module `meters`.
ghost use Rattle.suspect_call.specs.Promise.{suspect_call};
ghost use Rattle.gritstrut.specs.Suspecting.{SuspectLeaves};

// Which meter may be wrong: the tests of a day's meters under its balances.
#[unsafe(no_mangle)]
pub extern "C" fn gritstrut_suspect(
    n: usize,
    m: usize,
    values: &[f64],
    spreads: &[f64],
    balances: &[f64],
    still: &[u8],
    numbers: &mut [f64],
    groups: &mut [u32],
    marks: &mut [u32],
    misfit: &mut f64,
    finding: &mut [u32; 4],
    place: &mut u32,
    w: &mut [f64],
    iw: &mut [u32],
) -> u32
    ensures { SuspectLeaves (suspect_call n m values.now spreads.now balances.now still.now numbers.old groups.old marks.old w.old iw.old) result
        misfit.old misfit.new finding.old finding.new place.old place.new numbers.old numbers.new groups.old groups.new marks.old marks.new w.old w.new iw.old iw.new }
{
    gritstrut::gritstrut_suspect(
        n, m, values, spreads, balances, still, numbers, groups, marks, misfit, finding, place, w,
        iw,
    )
}
