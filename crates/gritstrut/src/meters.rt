// The C function of the tests of meters.
ghost use Rattle.std.specs.Prelude.{◌≡◌};
ghost use Rattle.suspect_call.specs.Promise.{suspect_call};
ghost use Rattle.gritstrut.specs.Suspecting.{word, FindingTold, SuspectLeaves};

use suspect_call::Meters;

// 1 for yes.
fn word_of(yes: bool) -> u32
    ensures { result ≡ word yes }
{
    if yes {
        return 1;
    }
    0
}

// The misfit and what is found, where there is no refusal; else the place that comes with it.
fn tell_finding(
    t: Result<suspect::Finding, workspace::Refusal>,
    misfit: &mut f64,
    finding: &mut [u32; 4],
    place: &mut u32,
) -> u32
    ensures { FindingTold t result misfit.old misfit.new finding.old finding.new place.old place.new }
{
    match t {
        Ok(d) => {
            let agree = word_of(d.agree);
            let explained = word_of(d.explained);
            *misfit = d.misfit;
            *finding = [d.freedom, d.first, agree, explained];
            0
        }
        Err(why) => crate::number_with_place(Err(why), place),
    }
}

// Which meter may be wrong: the tests of a day's meters under its balances.
pub fn gritstrut_suspect(
    n: usize,
    m: usize,
    values: &[f64],
    spreads: &[f64],
    balances: &[f64],
    still: &[u8],
    numbers: &mut [f64],
    groups: &mut [u32],
    marks: &mut [u32],
    misfit: &mut f64,
    finding: &mut [u32; 4],
    place: &mut u32,
    w: &mut [f64],
    iw: &mut [u32],
) -> u32
    ensures { SuspectLeaves (suspect_call n m values.now spreads.now balances.now still.now numbers.old groups.old marks.old w.old iw.old) result
        misfit.old misfit.new finding.old finding.new place.old place.new numbers.old numbers.new groups.old groups.new marks.old marks.new w.old w.new iw.old iw.new }
{
    let answer = Meters::suspect(
        n, m, values, spreads, balances, still, numbers, groups, marks, w, iw,
    );
    tell_finding(answer, misfit, finding, place)
}
