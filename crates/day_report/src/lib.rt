// The day's report: from the bytes of a sheet to the bytes written, on slices alone.
#![tactic(auto)]

ghost use Rattle.std.specs.Prelude.{◌≡◌, ◌≤◌, length, take};
ghost use Rattle.ascii.specs.inner.Work.{Wrote};
ghost use Rattle.day_volumes.specs.Found.{found, no_figures, no_signs};
ghost use Rattle.day_report.specs.Report.{answer_text, day_report};
ghost use Rattle.day_report.specs.Promise.{Reports};

use sheet::Unread;

// ---- rooms

// A blank table of figures.
fn figure_room() -> [f64; 130]
    ensures { result ≡ no_figures }
{
    [0.0; 130]
}

// A blank table of signs.
fn sign_room() -> [u32; 51]
    ensures { result ≡ no_signs }
{
    [0; 51]
}

// 1,992 bytes, for names and texts.
fn text_room() -> [u8; 1992]
    ensures { 1992 ≡ length result }
{
    [0; 1992]
}

// 64 words, for readings and kinds.
fn whole_room() -> [u32; 64]
    ensures { 64 ≡ length result }
{
    [0; 64]
}

// 577 f64s, for spreads, contents, rows, amounts and the tolerance.
fn number_room() -> [f64; 577]
    ensures { 577 ≡ length result }
{
    [0.0; 577]
}

// ---- the report

// The report of a sheet that was read whole.
fn put_day(
    out: &mut [u8],
    n: usize,
    m: usize,
    q: usize,
    d: usize,
    texts: &[u8; 1992],
    wholes: &[u32; 64],
    numbers: &[f64; 577],
    sheet: &[u8],
) -> usize
    requires { (81920 ≤ length out.old) × (n ≤ 16) × (m ≤ 16) × (q ≤ 16) × (d ≤ 16) × (length sheet.now ≤ 65536) }
    ensures { Wrote out.old 0 (answer_text n m q d texts.now wholes.now numbers.now sheet.now (found n m q wholes.now numbers.now)) out.new result }
{
    let mut figures = figure_room();
    let mut signs = sign_room();
    match day_volumes::find(wholes, numbers, &mut figures, &mut signs, n, m, q) {
        Err(why) => day_text::put_refusal(out, texts, why),
        Ok(()) => day_text::put_report(
            out, n, m, q, d, texts, wholes, numbers, &figures, &signs, sheet,
        ),
    }
}

// The report for a sheet's bytes, at the start of a buffer that has room for every report.
pub fn write_report(bytes: &[u8], out: &mut [u8]) -> usize
    requires { 81920 ≤ length out.old }
    ensures { Wrote out.old 0 (day_report bytes.now) out.new result }
{
    if 65536 < bytes.len() {
        return day_text::put_long(out);
    }
    let mut texts = text_room();
    let mut wholes = whole_room();
    let mut numbers = number_room();
    match sheet::read(bytes, &mut texts, &mut wholes, &mut numbers) {
        // A match of its own: in one pattern with the `Err` the proof didn't find the word of the fault.
        Err(why) => match why {
            Unread::Fault(line, wrong) => {
                let found = &bytes[wrong.word.start..wrong.word.end];
                day_text::put_fault(out, line, wrong.expected, found)
            }
            Unread::Long => day_text::put_long(out),
        },
        Ok(sizes) => put_day(
            out,
            sizes.items,
            sizes.balances,
            sizes.limits,
            sizes.doubts,
            &texts,
            &wholes,
            &numbers,
            bytes,
        ),
    }
}

// The same into a buffer of just that size: so many bytes, and the others stay.
pub fn respond(bytes: &[u8], out: &mut [u8; 81920]) -> usize
    ensures reports { Reports bytes.now result out.old out.new }
    ensures upper_bound { (result ≤ length out.new) × (result ≡ length (take result out.new)) }
{
    write_report(bytes, out)
}
