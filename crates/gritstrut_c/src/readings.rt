// The exports of gritstrut's module `readings`.
ghost use Rattle.mend_call.specs.Promise.{mend_call};
ghost use Rattle.gritstrut.specs.Mending.{MendLeaves};

// Mends a day's logger records.
#[unsafe(no_mangle)]
pub extern "C" fn gritstrut_mend(
    records: &[u8],
    kept: &mut [u8],
    reasons: &mut [u8],
    totals: &mut [u64],
    rollovers: &mut [u64],
    count: &mut usize,
    meters: &mut u32,
) -> u32
    ensures { MendLeaves (mend_call records.now kept.old reasons.old totals.old rollovers.old) result count.old count.new meters.old meters.new
        kept.old kept.new reasons.old reasons.new totals.old totals.new rollovers.old rollovers.new }
{
    gritstrut::readings::gritstrut_mend(records, kept, reasons, totals, rollovers, count, meters)
}
