// A row of the table of items: meters, lines and stocks.
ghost use Rattle.std.specs.Prelude.{◌≡◌, ◌++◌, ◌+◌, ◌≤◌, ◌<◌, length};
ghost use Rattle.io.specs.Digits.{last_digits};
ghost use Rattle.ascii.specs.inner.Work.{Wrote};
ghost use Rattle.day_text.specs.Cells.{cell};
ghost use Rattle.day_text.specs.Items.{kind_text, state_cell, volumes_text, is_rolled, is_below_zero, is_at_floor, is_at_capacity, mark_text, volume_marks, test_marks, who_text, states_text, figures_text, marks_text, item_row};

use crate::cells::{put_cell, put_number};
use crate::places::{
    CONTENTS_AFTER, CONTENTS_BEFORE, FIGURE_CORRECTED, FIGURE_SHARE, FIGURE_SPREAD, FIGURE_TEST,
    ITEM_KINDS, NEW_READINGS,
};
use ascii::{put_byte, put_six, put_text};

// 2^-20: a volume of so few spreads is at its floor, and a smaller share is none.
const TINY: f64 = 0.00000095367431640625;

// ---- cells

// `meter`, `line` or `stock`.
fn put_kind(out: &mut [u8], at: usize, kind: u32) -> usize
    requires { at + 5 ≤ length out.old }
    ensures wrote { Wrote out.old at (kind_text kind) out.new result }
    ensures upper_bound { result ≤ at + 5 }
{
    if kind == 0 {
        return put_text(out, at, b"meter");
    }
    if kind == 1 {
        return put_text(out, at, b"line ");
    }
    put_text(out, at, b"stock")
}

// A reading with six digits.
fn put_reading(out: &mut [u8], at: usize, reading: u32) -> usize
    requires { at + 22 ≤ length out.old }
    ensures wrote { Wrote out.old at (cell (last_digits 10 6 reading)) out.new result }
    ensures upper_bound { result ≤ at + 22 }
{
    let a = put_text(out, at, b"       ");
    put_six(out, a, reading as u64)
}

// The old or the new state: a meter's reading, a stock's content, of a line none.
fn put_state(out: &mut [u8], at: usize, kind: u32, reading: u32, content: f64) -> usize
    requires { at + 22 ≤ length out.old }
    ensures wrote { Wrote out.old at (state_cell kind reading content) out.new result }
    ensures upper_bound { result ≤ at + 22 }
{
    if kind == 0 {
        return put_reading(out, at, reading);
    }
    if kind == 1 {
        return put_text(out, at, b"            -");
    }
    put_number(out, at, content)
}

// Volume, corrected, new spread, correction, and correction in spreads.
fn put_volumes(
    out: &mut [u8],
    at: usize,
    value: f64,
    corrected: f64,
    renewed: f64,
    spread: f64,
) -> usize
    requires { at + 110 ≤ length out.old }
    ensures wrote { Wrote out.old at (volumes_text value corrected renewed spread) out.new result }
    ensures upper_bound { result ≤ at + 110 }
{
    let correction = corrected - value;
    let a = put_number(out, at, value);
    let b = put_number(out, a, corrected);
    let c = put_number(out, b, renewed);
    let d = put_number(out, c, correction);
    put_number(out, d, correction / spread)
}

// ---- marks

// Whether a meter's totaliser rolled over.
fn is_rolled(kind: u32, old: u32, new: u32) -> bool
    ensures { result ≡ is_rolled kind old new }
{
    if kind == 0 {
        return new < old;
    }
    false
}

// Whether a volume that has a floor is not at least zero.
fn is_below_zero(kind: u32, corrected: f64) -> bool
    ensures { result ≡ is_below_zero kind corrected }
{
    if kind < 2 {
        return !(0.0 <= corrected);
    }
    false
}

// Whether it is zero, or as good as that.
fn is_at_floor(kind: u32, corrected: f64, spread: f64) -> bool
    ensures { result ≡ is_at_floor kind corrected spread }
{
    if 2 <= kind {
        return false;
    }
    if 0.0 <= corrected {
        return corrected <= TINY * spread;
    }
    false
}

// Whether a line is full, or as good as that.
fn is_at_capacity(kind: u32, corrected: f64, capacity: f64) -> bool
    ensures { result ≡ is_at_capacity kind corrected capacity }
{
    if kind == 1 {
        return capacity - TINY * capacity <= corrected;
    }
    false
}

// A mark after two blanks, where it is set.
fn put_mark(out: &mut [u8], at: usize, set: bool, word: &[u8]) -> usize
    requires { (at + 17 ≤ length out.old) × (length word.now ≤ 15) }
    ensures wrote { Wrote out.old at (mark_text set word.now) out.new result }
    ensures upper_bound { result ≤ at + 17 }
{
    if set {
        let a = put_text(out, at, b"  ");
        return put_text(out, a, word);
    }
    at
}

// What the volume says.
fn put_volume_marks(
    out: &mut [u8],
    at: usize,
    kind: u32,
    old: u32,
    new: u32,
    corrected: f64,
    spread: f64,
) -> usize
    requires { at + 68 ≤ length out.old }
    ensures wrote { Wrote out.old at (volume_marks kind old new corrected spread) out.new result }
    ensures upper_bound { result ≤ at + 68 }
{
    let rolled = is_rolled(kind, old, new);
    let below = is_below_zero(kind, corrected);
    let floor = is_at_floor(kind, corrected, spread);
    let full = is_at_capacity(kind, corrected, spread);
    let a = put_mark(out, at, rolled, b"rolled");
    let b = put_mark(out, a, below, b"below zero");
    let c = put_mark(out, b, floor, b"at its floor");
    put_mark(out, c, full, b"at its capacity")
}

// What the tests say.
fn put_test_marks(out: &mut [u8], at: usize, share: f64, mark: u32) -> usize
    requires { at + 51 ≤ length out.old }
    ensures wrote { Wrote out.old at (test_marks share mark) out.new result }
    ensures upper_bound { result ≤ at + 51 }
{
    let a = put_mark(out, at, share < TINY, b"unchecked");
    let b = put_mark(out, a, mark == 2, b"look here");
    put_mark(out, b, mark == 1, b"suspected")
}

// ---- the row of item i

// Name and kind.
fn put_who(out: &mut [u8], at: usize, i: usize, texts: &[u8], wholes: &[u32]) -> usize
    requires { (at + 22 ≤ length out.old) × (i < 16) × (length texts.now ≡ 1992) × (length wholes.now ≡ 64) }
    ensures wrote { Wrote out.old at (who_text i texts.now wholes.now) out.new result }
    ensures upper_bound { result ≤ at + 22 }
{
    let a = put_cell(out, at, texts, i);
    let b = put_byte(out, a, b' ');
    put_kind(out, b, wholes[ITEM_KINDS + i])
}

// Old and new.
fn put_states(out: &mut [u8], at: usize, i: usize, wholes: &[u32], numbers: &[f64]) -> usize
    requires { (at + 44 ≤ length out.old) × (i < 16) × (length wholes.now ≡ 64) × (length numbers.now ≡ 577) }
    ensures wrote { Wrote out.old at (states_text i wholes.now numbers.now) out.new result }
    ensures upper_bound { result ≤ at + 44 }
{
    let kind = wholes[ITEM_KINDS + i];
    let a = put_state(out, at, kind, wholes[i], numbers[CONTENTS_BEFORE + i]);
    put_state(
        out,
        a,
        kind,
        wholes[NEW_READINGS + i],
        numbers[CONTENTS_AFTER + i],
    )
}

// The six numbers that were worked out.
fn put_figures(out: &mut [u8], at: usize, i: usize, numbers: &[f64], figures: &[f64]) -> usize
    requires { (at + 132 ≤ length out.old) × (i < 16) × (length numbers.now ≡ 577) × (length figures.now ≡ 130) }
    ensures wrote { Wrote out.old at (figures_text i numbers.now figures.now) out.new result }
    ensures upper_bound { result ≤ at + 132 }
{
    let a = put_volumes(
        out,
        at,
        figures[i],
        figures[FIGURE_CORRECTED + i],
        figures[FIGURE_SPREAD + i],
        numbers[i],
    );
    put_number(out, a, figures[FIGURE_TEST + i])
}

// The marks, or a dash.
fn put_marks(
    out: &mut [u8],
    at: usize,
    i: usize,
    wholes: &[u32],
    numbers: &[f64],
    figures: &[f64],
    signs: &[u32],
) -> usize
    requires { (at + 119 ≤ length out.old) × (i < 16) × (length wholes.now ≡ 64) × (length numbers.now ≡ 577) × (length figures.now ≡ 130) × (length signs.now ≡ 51) }
    ensures wrote { Wrote out.old at (marks_text i wholes.now numbers.now figures.now signs.now) out.new result }
    ensures upper_bound { result ≤ at + 119 }
{
    let a = put_volume_marks(
        out,
        at,
        wholes[ITEM_KINDS + i],
        wholes[i],
        wholes[NEW_READINGS + i],
        figures[FIGURE_CORRECTED + i],
        numbers[i],
    );
    let b = put_test_marks(out, a, figures[FIGURE_SHARE + i], signs[i]);
    if b == at {
        return put_text(out, at, b"  -");
    }
    b
}

// All of it.
pub fn put_item(
    out: &mut [u8],
    at: usize,
    i: usize,
    texts: &[u8],
    wholes: &[u32],
    numbers: &[f64],
    figures: &[f64],
    signs: &[u32],
) -> usize
    requires { (at + 318 ≤ length out.old) × (i < 16) × (length texts.now ≡ 1992) × (length wholes.now ≡ 64) × (length numbers.now ≡ 577) × (length figures.now ≡ 130) × (length signs.now ≡ 51) }
    ensures wrote { Wrote out.old at (item_row i texts.now wholes.now numbers.now figures.now signs.now) out.new result }
    ensures upper_bound { result ≤ at + 318 }
{
    let a = put_who(out, at, i, texts, wholes);
    let b = put_states(out, a, i, wholes, numbers);
    let c = put_figures(out, b, i, numbers, figures);
    let d = put_marks(out, c, i, wholes, numbers, figures, signs);
    put_byte(out, d, b'\n')
}
