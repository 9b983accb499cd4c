// What is written of a plant's day: a meter's line, doubts, refusals.
#![tactic(auto)]

ghost use Rattle.std.specs.Prelude.{◌≡◌, ◌+◌, ◌≤◌, ◌<◌, length};
ghost use Rattle.ascii.specs.inner.Work.{Wrote};
ghost use Rattle.plant.specs.Texts.{minutes_text, after_blank, meter_text, begins_text, ends_text, still_text, parts, doubt_of, wanted_text, is_last, found_text, fault_text, record_text, missing_text, turned_text, no_day_text};
ghost use Rattle.plant.specs.Plant.{stranger_if};
ghost use Rattle.plant_text.specs.inner.Work.{behind};

use logged::Seen;
use plant::Wanted;

// # minutes A to B
pub fn put_minutes(out: &mut [u8], at: usize, from: u32, to: u32) -> usize
    requires { at + 54 ≤ length out.old }
    ensures wrote { Wrote out.old at (minutes_text from to) out.new result }
    ensures upper_bound { result ≤ at + 54 }
{
    let a = ascii::put_text(out, at, b"# minutes ");
    let b = ascii::put_decimal(out, a, from as u64);
    let c = ascii::put_text(out, b, b" to ");
    ascii::put_decimal(out, c, to as u64)
}

// A remark behind a blank, where there is one.
fn put_remark(out: &mut [u8], at: usize, remark: &[u8]) -> usize
    requires { at + (1 + length remark.now) ≤ length out.old }
    ensures wrote { Wrote out.old at (after_blank remark.now) out.new result }
    ensures upper_bound { result ≤ at + (1 + length remark.now) }
{
    if remark.len() == 0 {
        return at;
    }
    let a = ascii::put_byte(out, at, b' ');
    ascii::put_text(out, a, remark)
}

// The line of a meter.
pub fn put_meter(
    out: &mut [u8],
    at: usize,
    name: &[u8],
    spread: &[u8],
    remark: &[u8],
    s: Seen,
) -> usize
    requires { at + (77 + (length name.now + (length spread.now + length remark.now))) ≤ length out.old }
    ensures wrote { Wrote out.old at (meter_text name.now spread.now remark.now s) out.new result }
    ensures upper_bound { result ≤ at + (77 + (length name.now + (length spread.now + length remark.now))) }
{
    let a = ascii::put_text(out, at, b"meter ");
    let b = ascii::put_text(out, a, name);
    let c = ascii::put_byte(out, b, b' ');
    let d = ascii::put_six(out, c, s.first as u64);
    let e = ascii::put_byte(out, d, b' ');
    let f = ascii::put_six(out, e, s.last as u64);
    let g = ascii::put_byte(out, f, b' ');
    let h = ascii::put_text(out, g, spread);
    let i = ascii::put_byte(out, h, b' ');
    let j = put_minutes(out, i, s.from, s.to);
    put_remark(out, j, remark)
}

// A part of a doubt, behind a comma where others stand before it.
fn put_also(out: &mut [u8], at: usize, part: &[u8]) -> usize
    requires { (at + (2 + length part.now) ≤ length out.old) × (0 < length part.now) }
    ensures wrote { Wrote out.old at (behind at part.now) out.new result }
    ensures upper_bound { result ≤ at + (2 + length part.now) }
{
    if at == 0 {
        return ascii::put_text(out, at, part);
    }
    let a = ascii::put_text(out, at, b", ");
    ascii::put_text(out, a, part)
}

// Whether a meter begins late or early.
fn put_begins(out: &mut [u8], start: u32, from: u32) -> usize
    requires { 12 ≤ length out.old }
    ensures wrote { Wrote out.old 0 (begins_text start from) out.new result }
    ensures upper_bound { result ≤ 12 }
{
    if start < from {
        return ascii::put_text(out, 0, b"begins late");
    }
    if from < start {
        return ascii::put_text(out, 0, b"begins early");
    }
    0
}

// Whether it ends early or late.
fn put_ends(out: &mut [u8], at: usize, end: u32, to: u32) -> usize
    requires { at + 12 ≤ length out.old }
    ensures wrote { Wrote out.old at (behind at (ends_text end to)) out.new result }
    ensures upper_bound { result ≤ at + 12 }
{
    if to < end {
        return put_also(out, at, b"ends early");
    }
    if end < to {
        return put_also(out, at, b"ends late");
    }
    at
}

// For how long it stands still, where that is longer than allowed.
fn put_still(out: &mut [u8], at: usize, allowed: Option<u32>, still: u32) -> usize
    requires { at + 40 ≤ length out.old }
    ensures wrote { Wrote out.old at (behind at (still_text allowed still)) out.new result }
    ensures upper_bound { result ≤ at + 40 }
{
    let Some(longest) = allowed else {
        return at;
    };
    if still <= longest {
        return at;
    }
    let a = put_also(out, at, b"still for ");
    let b = ascii::put_decimal(out, a, still as u64);
    ascii::put_text(out, b, b" minutes")
}

// All parts of a meter's doubt.
fn put_parts(out: &mut [u8], start: u32, end: u32, allowed: Option<u32>, s: Seen) -> usize
    requires { 64 ≤ length out.old }
    ensures wrote { Wrote out.old 0 (parts start end allowed s) out.new result }
    ensures upper_bound { result ≤ 64 }
{
    let a = put_begins(out, start, s.from);
    let b = put_ends(out, a, end, s.to);
    put_still(out, b, allowed, s.still)
}

// The doubt of a meter of the plant file, if there is one: its parts are written aside, so that `out` stays as it is where there are none.
pub fn put_own_doubt(
    out: &mut [u8],
    at: usize,
    name: &[u8],
    allowed: Option<u32>,
    start: u32,
    end: u32,
    s: Seen,
) -> usize
    requires { at + (73 + length name.now) ≤ length out.old }
    ensures wrote { Wrote out.old at (doubt_of name.now (parts start end allowed s)) out.new result }
    ensures upper_bound { result ≤ at + (73 + length name.now) }
{
    let mut told = [0u8; 64];
    let n = put_parts(&mut told, start, end, allowed, s);
    if n == 0 {
        return at;
    }
    let a = ascii::put_text(out, at, b"doubt ");
    let b = ascii::put_text(out, a, name);
    let c = ascii::put_text(out, b, b": ");
    let d = ascii::put_text(out, c, &told[..n]);
    ascii::put_byte(out, d, b'\n')
}

// The doubt of a meter that is not in the plant file and has a record.
pub fn put_stranger(out: &mut [u8], at: usize, m: usize, there: bool) -> usize
    requires { at + 83 ≤ length out.old }
    ensures wrote { Wrote out.old at (stranger_if there m) out.new result }
    ensures upper_bound { result ≤ at + 83 }
{
    if there {
        let a = ascii::put_text(out, at, b"doubt meter ");
        let b = ascii::put_decimal(out, a, m as u64);
        return ascii::put_text(
            out,
            b,
            b" has records, and the plant file has no such meter\n",
        );
    }
    at
}

// What was expected.
fn put_wanted(out: &mut [u8], at: usize, e: Wanted) -> usize
    requires { at + 76 ≤ length out.old }
    ensures wrote { Wrote out.old at (wanted_text e) out.new result }
    ensures upper_bound { result ≤ at + 76 }
{
    match e {
        Wanted::Number => ascii::put_text(out, at, b"a meter's number of 0 to 15"),
        Wanted::NewNumber => ascii::put_text(out, at, b"a number not given before"),
        Wanted::Name => ascii::put_text(
            out,
            at,
            b"a name: a letter and at most 15 more printable ASCII characters other than =",
        ),
        Wanted::Spread => ascii::put_text(out, at, b"a decimal number above zero"),
        Wanted::Minutes => ascii::put_text(out, at, b"minutes, of one to six digits"),
        Wanted::End => ascii::put_text(out, at, b"the end of the line"),
        Wanted::Meter => ascii::put_text(out, at, b"a meter"),
    }
}

// Whether it was expected after all lines.
fn is_last(e: Wanted) -> bool
    ensures { result ≡ is_last e }
{
    match e {
        Wanted::Number => false,
        Wanted::NewNumber => false,
        Wanted::Name => false,
        Wanted::Spread => false,
        Wanted::Minutes => false,
        Wanted::End => false,
        Wanted::Meter => true,
    }
}

// What was found.
fn put_found(out: &mut [u8], at: usize, e: Wanted, word: &[u8]) -> usize
    requires { at + 132 ≤ length out.old }
    ensures wrote { Wrote out.old at (found_text e word.now) out.new result }
    ensures upper_bound { result ≤ at + 132 }
{
    if is_last(e) {
        return ascii::put_text(out, at, b"the end of the plant file");
    }
    if word.len() == 0 {
        return ascii::put_text(out, at, b"the end of the line");
    }
    let a = ascii::put_byte(out, at, b'"');
    let b = sheet_parts::put_shown(out, a, word);
    ascii::put_byte(out, b, b'"')
}

// The first fault of a plant file.
pub fn put_fault(out: &mut [u8], line: usize, e: Wanted, word: &[u8]) -> usize
    requires { 300 ≤ length out.old }
    ensures wrote { Wrote out.old 0 (fault_text line e word.now) out.new result }
    ensures upper_bound { result ≤ 300 }
{
    let a = ascii::put_text(out, 0, b"refused: line ");
    let b = ascii::put_decimal(out, a, line as u64);
    let c = ascii::put_text(out, b, b": expected ");
    let d = put_wanted(out, c, e);
    let f = ascii::put_text(out, d, b", found ");
    let g = put_found(out, f, e, word);
    ascii::put_byte(out, g, b'\n')
}

// That a record would be dropped.
pub fn put_dropped(out: &mut [u8], k: usize) -> usize
    requires { 80 ≤ length out.old }
    ensures wrote { Wrote out.old 0 (record_text k) out.new result }
    ensures upper_bound { result ≤ 80 }
{
    let a = ascii::put_text(out, 0, b"refused: record ");
    let b = ascii::put_decimal(out, a, k as u64);
    ascii::put_text(out, b, b" would be dropped: mend the day first\n")
}

// That a meter has no record.
pub fn put_missing(out: &mut [u8], m: usize, name: &[u8]) -> usize
    requires { 51 + length name.now ≤ length out.old }
    ensures wrote { Wrote out.old 0 (missing_text m name.now) out.new result }
    ensures upper_bound { result ≤ 51 + length name.now }
{
    let a = ascii::put_text(out, 0, b"refused: no record of meter ");
    let b = ascii::put_decimal(out, a, m as u64);
    let c = ascii::put_text(out, b, b", ");
    let d = ascii::put_text(out, c, name);
    ascii::put_byte(out, d, b'\n')
}

// That a meter turned fully.
pub fn put_turned(out: &mut [u8], m: usize, name: &[u8]) -> usize
    requires { 80 + length name.now ≤ length out.old }
    ensures wrote { Wrote out.old 0 (turned_text m name.now) out.new result }
    ensures upper_bound { result ≤ 80 + length name.now }
{
    let a = ascii::put_text(out, 0, b"refused: meter ");
    let b = ascii::put_decimal(out, a, m as u64);
    let c = ascii::put_text(out, b, b", ");
    let d = ascii::put_text(out, c, name);
    ascii::put_text(out, d, b", turned fully: two readings cannot say so\n")
}

// That no time passes between the minutes that most meters have.
pub fn put_no_day(out: &mut [u8], start: u32, end: u32) -> usize
    requires { 102 ≤ length out.old }
    ensures wrote { Wrote out.old 0 (no_day_text start end) out.new result }
    ensures upper_bound { result ≤ 102 }
{
    let a = ascii::put_text(out, 0, b"refused: most meters begin at minute ");
    let b = ascii::put_decimal(out, a, start as u64);
    let c = ascii::put_text(out, b, b" and most end at minute ");
    let d = ascii::put_decimal(out, c, end as u64);
    ascii::put_byte(out, d, b'\n')
}
