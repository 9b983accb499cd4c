// Cells, names and texts at a place of the report.
ghost use Rattle.std.specs.Prelude.{◌≡◌, ◌+◌, ◌≤◌, ◌<◌, length};
ghost use Rattle.ascii.specs.inner.Work.{Wrote};
ghost use Rattle.decimals.specs.Fixed.{fixed_text};
ghost use Rattle.day_text.specs.Places.{name_cell, name_text, text_from};
ghost use Rattle.day_text.specs.Cells.{number_cell, within_text};

use ascii::{put_byte, put_text};
use decimals::put_fixed;
use sheet_parts::trim;

// A number with three decimals, after a blank.
pub fn put_number(out: &mut [u8], at: usize, x: f64) -> usize
    requires { at + 22 ≤ length out.old }
    ensures wrote { Wrote out.old at (number_cell x) out.new result }
    ensures upper_bound { result ≤ at + 22 }
{
    let a = put_byte(out, at, b' ');
    put_fixed(out, a, 12, x)
}

// A number within a line.
pub fn put_inline(out: &mut [u8], at: usize, x: f64) -> usize
    requires { at + 21 ≤ length out.old }
    ensures wrote { Wrote out.old at (fixed_text x) out.new result }
    ensures upper_bound { result ≤ at + 21 }
{
    put_fixed(out, at, 0, x)
}

// `yes` or `no`, and the line's end.
pub fn put_within(out: &mut [u8], at: usize, within: u32) -> usize
    requires { at + 6 ≤ length out.old }
    ensures wrote { Wrote out.old at (within_text within) out.new result }
    ensures upper_bound { result ≤ at + 6 }
{
    if within == 1 {
        return put_text(out, at, b"  yes\n");
    }
    put_text(out, at, b"  no\n")
}

// A name with the blanks that fill it up.
pub fn put_cell(out: &mut [u8], at: usize, texts: &[u8], k: usize) -> usize
    requires { (at + 16 ≤ length out.old) × (length texts.now ≡ 1992) × (k < 48) }
    ensures wrote { Wrote out.old at (name_cell texts.now k) out.new result }
    ensures upper_bound { result ≤ at + 16 }
{
    let a = 16 * k;
    let b = a + 16;
    put_text(out, at, &texts[a..b])
}

// A name without them.
pub fn put_name(out: &mut [u8], at: usize, texts: &[u8], k: usize) -> usize
    requires { (at + 16 ≤ length out.old) × (length texts.now ≡ 1992) × (k < 48) }
    ensures wrote { Wrote out.old at (name_text texts.now k) out.new result }
    ensures upper_bound { result ≤ at + 16 }
{
    let a = 16 * k;
    let b = a + 16;
    let cell = &texts[a..b];
    let n = trim(cell);
    put_text(out, at, &cell[..n])
}

// The title or a doubt, which stands from a place on.
pub fn put_words(out: &mut [u8], at: usize, texts: &[u8], p: usize) -> usize
    requires { (at + 72 ≤ length out.old) × (length texts.now ≡ 1992) × (p + 72 ≤ 1992) }
    ensures wrote { Wrote out.old at (text_from texts.now p) out.new result }
    ensures upper_bound { result ≤ at + 72 }
{
    let b = p + 72;
    let cell = &texts[p..b];
    let n = trim(cell);
    put_text(out, at, &cell[..n])
}
