// What the day's program writes: the report of a day, and the sentences of refusals.
#![tactic(auto)]

mod cells;
mod faults;
mod head;
mod items;
mod places;
mod refusals;
mod tables;
mod verdict;

ghost use Rattle.std.specs.Prelude.{◌≡◌, ◌+◌, ◌≤◌, length};
ghost use Rattle.ascii.specs.inner.Work.{Wrote};
ghost use Rattle.day_text.specs.Report.{tolerance_text, sheet_text, verdict_line, end_text, report_text};
ghost use Rattle.day_text.specs.inner.Work.{Tables};

use crate::cells::put_inline;
use crate::head::put_head;
use crate::places::TOLERANCE;
use crate::tables::put_tables;
use crate::verdict::put_verdict;
use ascii::{put_byte, put_decimal, put_text};
pub use faults::{put_fault, put_long};
pub use refusals::put_refusal;

// The verdict, as a line.
fn put_verdict_line(out: &mut [u8], n: usize, texts: &[u8], figures: &[f64], signs: &[u32]) -> usize
    requires { (401 ≤ length out.old) × (n ≤ 16) × (length texts.now ≡ 1992) × (length figures.now ≡ 130) × (length signs.now ≡ 51) }
    ensures wrote { Wrote out.old 0 (verdict_line n texts.now figures.now signs.now) out.new result }
    ensures upper_bound { result ≤ 401 }
{
    let a = put_verdict(out, n, texts, figures, signs);
    put_byte(out, a, b'\n')
}

// The tolerance, as a line.
fn put_tolerance(out: &mut [u8], at: usize, tolerance: f64) -> usize
    requires { at + 32 ≤ length out.old }
    ensures wrote { Wrote out.old at (tolerance_text tolerance) out.new result }
    ensures upper_bound { result ≤ at + 32 }
{
    let a = put_text(out, at, b"tolerance ");
    let b = put_inline(out, a, tolerance);
    put_byte(out, b, b'\n')
}

// The sheet, after its size.
fn put_sheet(out: &mut [u8], at: usize, sheet: &[u8]) -> usize
    requires { (at + 65572 ≤ length out.old) × (length sheet.now ≤ 65536) }
    ensures { Wrote out.old at (sheet_text sheet.now) out.new result }
{
    let a = put_text(out, at, b"sheet of ");
    let b = put_decimal(out, a, sheet.len() as u64);
    let c = put_text(out, b, b" bytes\n");
    put_text(out, c, sheet)
}

// Tolerance, version and sheet. The version is told as 300 by the crate gritstrut.
fn put_end(out: &mut [u8], at: usize, tolerance: f64, sheet: &[u8]) -> usize
    requires { (at + 65621 ≤ length out.old) × (length sheet.now ≤ 65536) }
    ensures { Wrote out.old at (end_text tolerance sheet.now) out.new result }
{
    let a = put_tolerance(out, at, tolerance);
    let b = put_text(out, a, b"gritstrut 0.3.0\n\n");
    put_sheet(out, b, sheet)
}

// The whole report, where volumes were found: at most 16,384 bytes before the sheet.
pub fn put_report(
    out: &mut [u8],
    n: usize,
    m: usize,
    q: usize,
    d: usize,
    texts: &[u8],
    wholes: &[u32],
    numbers: &[f64],
    figures: &[f64],
    signs: &[u32],
    sheet: &[u8],
) -> usize
    requires in_bounds { (81920 ≤ length out.old) × (n ≤ 16) × (m ≤ 16) × (q ≤ 16) × (d ≤ 16) }
    requires tables { Tables texts.now wholes.now numbers.now figures.now signs.now × (length sheet.now ≤ 65536) }
    ensures { Wrote out.old 0 (report_text n m q d texts.now wholes.now numbers.now figures.now signs.now sheet.now) out.new result }
{
    let a = put_verdict_line(out, n, texts, figures, signs);
    let b = put_head(out, a, d, texts, figures, signs);
    let c = put_tables(out, b, n, m, q, texts, wholes, numbers, figures, signs);
    put_end(out, c, numbers[TOLERANCE], sheet)
}
