// The sentence of a sheet's first fault.
ghost use Rattle.std.specs.Prelude.{◌≡◌, ◌+◌, ◌≤◌, ◌<◌, length};
ghost use Rattle.ascii.specs.inner.Work.{Wrote};
ghost use Rattle.day_text.specs.Refusals.{expected_text, is_after_all, word_text, found_text, fault_text, long_text};
ghost use Rattle.day_text.specs.inner.Work.{rank_of};

use ascii::{put_byte, put_decimal, put_text};
use sheet_parts::put_shown;
use sheet_words::Expected;

// Whether a fault is told after the last line.
fn is_after_all(e: Expected) -> bool
    ensures { result ≡ is_after_all e }
{
    match e {
        Expected::TitleLine => true,
        Expected::MeterLine => true,
        Expected::BalanceLine => true,
        Expected::ToleranceLine => true,
        _ => false,
    }
}

// That the sheet is too long.
pub fn put_long(out: &mut [u8]) -> usize
    requires { 81920 ≤ length out.old }
    ensures { Wrote out.old 0 long_text out.new result }
{
    put_text(
        out,
        0,
        b"refused 9: expected a sheet of at most 65536 bytes\n",
    )
}

// ---- what was expected

// In a line's terms, and after the last line.
fn put_expected_term(out: &mut [u8], at: usize, e: Expected) -> usize
    requires { (at + 72 ≤ length out.old) × (21 ≤ rank_of e) }
    ensures wrote { Wrote out.old at (expected_text e) out.new result }
    ensures upper_bound { result ≤ at + 72 }
{
    match e {
        Expected::Equals => put_text(out, at, b"=, and after it what flows out"),
        Expected::OneEquals => put_text(out, at, b"one ="),
        Expected::NoEquals => put_text(out, at, b"no = in a floor or ceiling"),
        Expected::ApartEquals => put_text(out, at, b"a blank on each side of ="),
        Expected::NoSign => put_text(
            out,
            at,
            b"names with no sign between them; what flows out stands after =",
        ),
        Expected::Coefficient => put_text(
            out,
            at,
            b"a decimal number other than zero, then a name",
        ),
        Expected::TermName => put_text(out, at, b"a name of a meter, line or stock"),
        Expected::SameCapitals => put_text(out, at, b"a name given above, in the same capitals"),
        Expected::Given => put_text(out, at, b"a name given above for a meter, line or stock"),
        Expected::Once => put_text(out, at, b"a name only once in a line"),
        Expected::TitleLine => put_text(out, at, b"a title"),
        Expected::MeterLine => put_text(out, at, b"a meter"),
        Expected::BalanceLine => put_text(out, at, b"a balance"),
        _ => put_text(out, at, b"a tolerance"),
    }
}

// In a line, from its first name on.
fn put_expected_part(out: &mut [u8], at: usize, e: Expected) -> usize
    requires { (at + 72 ≤ length out.old) × (11 ≤ rank_of e) }
    ensures wrote { Wrote out.old at (expected_text e) out.new result }
    ensures upper_bound { result ≤ at + 72 }
{
    match e {
        Expected::Name => put_text(out, at, b"a name, which begins with a letter"),
        Expected::ShortName => put_text(out, at, b"a name of at most 16 characters"),
        Expected::PlainName => put_text(
            out,
            at,
            b"a name of printable ASCII characters other than =",
        ),
        Expected::NewName => put_text(out, at, b"a name not given before, in capitals or not"),
        Expected::OneName => put_text(
            out,
            at,
            b"a number after the name, which has no blank in it",
        ),
        Expected::Reading => put_text(out, at, b"a reading of one to six digits"),
        Expected::Decimal => put_text(out, at, b"a decimal number"),
        Expected::Above => put_text(out, at, b"a decimal number above zero"),
        Expected::NotBelow => put_text(out, at, b"a decimal number not below zero"),
        Expected::End => put_text(out, at, b"the end of the line"),
        _ => put_expected_term(out, at, e),
    }
}

// At a line's first word, or as a text.
fn put_expected(out: &mut [u8], at: usize, e: Expected) -> usize
    requires { at + 72 ≤ length out.old }
    ensures wrote { Wrote out.old at (expected_text e) out.new result }
    ensures upper_bound { result ≤ at + 72 }
{
    match e {
        Expected::Kind => put_text(
            out,
            at,
            b"title, meter, line, stock, balance, floor, ceiling, doubt or tolerance",
        ),
        Expected::SmallKind => put_text(out, at, b"the first word in small letters"),
        Expected::OneTitle => put_text(out, at, b"one title"),
        Expected::OneTolerance => put_text(out, at, b"one tolerance"),
        Expected::Late => put_text(
            out,
            at,
            b"meters, lines and stocks before balances, floors and ceilings",
        ),
        Expected::FewItems => put_text(out, at, b"at most 16 meters, lines and stocks"),
        Expected::MeterBefore => put_text(out, at, b"a meter before balances, floors and ceilings"),
        Expected::FewBalances => put_text(out, at, b"at most 16 balances"),
        Expected::FewLimits => put_text(out, at, b"at most 16 floors and ceilings"),
        Expected::FewDoubts => put_text(out, at, b"at most 16 doubts"),
        Expected::Text => put_text(out, at, b"a text of 1 to 72 printable ASCII characters"),
        _ => put_expected_part(out, at, e),
    }
}

// ---- what was found

// The word, or that there is none.
fn put_word(out: &mut [u8], at: usize, word: &[u8]) -> usize
    requires { at + 132 ≤ length out.old }
    ensures wrote { Wrote out.old at (word_text word.now) out.new result }
    ensures upper_bound { result ≤ at + 132 }
{
    if word.len() == 0 {
        return put_text(out, at, b"the end of the line");
    }
    let a = put_byte(out, at, b'"');
    let b = put_shown(out, a, word);
    put_byte(out, b, b'"')
}

// The same, or that the sheet is over.
fn put_found(out: &mut [u8], at: usize, e: Expected, word: &[u8]) -> usize
    requires { at + 132 ≤ length out.old }
    ensures wrote { Wrote out.old at (found_text e word.now) out.new result }
    ensures upper_bound { result ≤ at + 132 }
{
    if is_after_all(e) {
        return put_text(out, at, b"the end of the sheet");
    }
    put_word(out, at, word)
}

// ---- the sentence

// Its line, what was expected there and what was found.
pub fn put_fault(out: &mut [u8], line: usize, e: Expected, word: &[u8]) -> usize
    requires { 81920 ≤ length out.old }
    ensures { Wrote out.old 0 (fault_text line e word.now) out.new result }
{
    let a = put_text(out, 0, b"refused 9: line ");
    let b = put_decimal(out, a, line as u64);
    let c = put_text(out, b, b": expected ");
    let d = put_expected(out, c, e);
    let f = put_text(out, d, b", found ");
    let g = put_found(out, f, e, word);
    put_byte(out, g, b'\n')
}
