// The C function that mends a day's readings.
ghost use Rattle.mend_call.specs.Promise.{mend_call};
ghost use Rattle.gritstrut.specs.Mending.{MendLeaves};

use mend_call::Readings;

// Mends a day's logger records.
pub fn gritstrut_mend(
    records: &[u8],
    kept: &mut [u8],
    reasons: &mut [u8],
    totals: &mut [u64],
    rollovers: &mut [u64],
    count: &mut usize,
    meters: &mut u32,
) -> u32
    ensures { MendLeaves (mend_call records.now kept.old reasons.old totals.old rollovers.old) result count.old count.new meters.old meters.new
        kept.old kept.new reasons.old reasons.new totals.old totals.new rollovers.old rollovers.new }
{
    let answer = Readings::mend(records, kept, reasons, totals, rollovers);
    match answer {
        Ok(found) => {
            *count = found.kept;
            *meters = found.meters;
            0
        }
        Err(why) => why.number(),
    }
}
