// The exports of gritstrut's module `report`.
ghost use Rattle.gritstrut.specs.Reporting.{ReportLeaves};

// Writes the report on a sheet.
#[unsafe(no_mangle)]
pub extern "C" fn gritstrut_report(sheet: &[u8], report: &mut [u8], count: &mut usize) -> u32
    ensures { ReportLeaves sheet.now result count.old count.new report.old report.new }
{
    gritstrut::gritstrut_report(sheet, report, count)
}
