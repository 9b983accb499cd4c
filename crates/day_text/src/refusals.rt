// The sentences of refusals, with what was found and who is meant.
ghost use Rattle.std.specs.Prelude.{◌≡◌, ◌+◌, ◌≤◌, ◌<◌, length};
ghost use Rattle.ascii.specs.inner.Work.{Wrote};
ghost use Rattle.day_text.specs.Refusals.{plain_text, balance_named, reason_text, refusal_text};

use crate::cells::put_name;
use crate::places::BALANCE_NAMES;
use ascii::{put_byte, put_decimal, put_text};
use sheet_parts::put_shown;
use sheet_words::Expected;
use workspace::Refusal;

// ---- what the settling refuses

// A reason that names nobody, by the number that the sentence tells: `plain_text` is of numbers, and a match would name all other refusals in its proof.
fn put_plain(out: &mut [u8], at: usize, number: u32) -> usize
    requires { at + 80 ≤ length out.old }
    ensures wrote { Wrote out.old at (plain_text number) out.new result }
    ensures upper_bound { result ≤ at + 80 }
{
    if number == 5 {
        return put_text(
            out,
            at,
            b"the spreads are too far apart, or one is out of range",
        );
    }
    if number == 6 {
        return put_text(
            out,
            at,
            b"no volumes were found that close the balances and keep the limits",
        );
    }
    if number == 7 {
        return put_text(out, at, b"the working did not end within its rounds");
    }
    put_text(out, at, b"the call was not taken")
}

// The name of the balance at a place, if there is one.
fn put_balance_name(out: &mut [u8], at: usize, texts: &[u8], place: usize) -> usize
    requires { (at + 16 ≤ length out.old) × (length texts.now ≡ 1992) }
    ensures wrote { Wrote out.old at (balance_named texts.now place) out.new result }
    ensures upper_bound { result ≤ at + 16 }
{
    if 16 <= place {
        return at;
    }
    put_name(out, at, texts, BALANCE_NAMES + place)
}

// The reason: the place of 11 is a balance.
fn put_reason(out: &mut [u8], at: usize, texts: &[u8], number: u32, place: u32) -> usize
    requires { (at + 80 ≤ length out.old) × (length texts.now ≡ 1992) }
    ensures wrote { Wrote out.old at (reason_text texts.now number place) out.new result }
    ensures upper_bound { result ≤ at + 80 }
{
    if number != 11 {
        return put_plain(out, at, number);
    }
    let a = put_balance_name(out, at, texts, place as usize);
    put_text(out, a, b" depends on the other balances")
}

// Number and reason.
pub fn put_refusal(out: &mut [u8], texts: &[u8], why: Refusal) -> usize
    requires { (81920 ≤ length out.old) × (length texts.now ≡ 1992) }
    ensures { Wrote out.old 0 (refusal_text texts.now why) out.new result }
{
    let number = why.number();
    let place = why.place();
    let a = put_text(out, 0, b"refused ");
    let b = put_decimal(out, a, number as u64);
    let c = put_text(out, b, b": ");
    let d = put_reason(out, c, texts, number, place);
    put_byte(out, d, b'\n')
}
