// The C function that writes a day's report.
ghost use Rattle.gritstrut.specs.Reporting.{ReportLeaves};

// Writes the report on a sheet.
pub fn gritstrut_report(sheet: &[u8], report: &mut [u8], count: &mut usize) -> u32
    ensures { ReportLeaves sheet.now result count.old count.new report.old report.new }
{
    if report.len() < 81920 {
        return 2;
    }
    let written = day_report::write_report(sheet, report);
    *count = written;
    0
}
