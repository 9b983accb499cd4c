// The parts of a line: a name, a text, what stands after an item's name; and a found word as a fault shows it.
#![tactic(auto)]

ghost use Rattle.std.specs.Prelude.{◌≡◌, List, ◌+◌, ◌-◌, ◌*◌, ◌≤◌, ◌<◌, length, take, drop};
ghost use Rattle.day_words.specs.Words.{word, rest};
ghost use Rattle.ascii.specs.inner.Work.{Wrote};
ghost use Rattle.sheet_parts.specs.Texts.{text_in, without_blanks, is_plain, is_foreign, sound_part};
ghost use Rattle.sheet_parts.specs.Parts.{name_at, text_at, meter_of, line_of, stock_of, item_of};
ghost use Rattle.sheet_parts.specs.Shown.{hex_digit, escape, escaped, shown_word};
ghost use Rattle.sheet_parts.specs.inner.Work.{IsText, name_told, text_told, item_told, Inside, ItemInside};

use day_words::Word;
use sheet_words::{Expected, Wrong};

// What stands after an item's name. A line has a capacity in place of a spread; what is not given is zero.
#[derive(Clone, Copy)]
pub struct Item {
    pub old: u32,
    pub new: u32,
    pub spread: f64,
    pub before: f64,
    pub after: f64,
}

// The length of a text without the blanks at its end.
pub fn trim(text: &[u8]) -> usize
    ensures { (take result text.now ≡ without_blanks text.now) × (result ≤ length text.now) }
{
    for i in (0..text.len()).rev() {
        if !day_words::is_blank(text[i]) {
            return i + 1;
        }
    }
    0
}

// The text from a place on.
fn find_text(line: &[u8], from: usize) -> Word
    requires { from ≤ length line.now }
    ensures { IsText line.now from result }
{
    let start = day_words::skip(line, from);
    let size = trim(&line[start..]);
    Word {
        start,
        end: start + size,
    }
}

// Whether a byte cannot stand in a text.
fn is_foreign(c: u8) -> bool
    ensures { result ≡ is_foreign c }
{
    if c == b'\t' {
        return false;
    }
    if c < 32 {
        return true;
    }
    126 < c
}

// How many bytes of a text can stand.
fn sound_size(text: &[u8]) -> usize
    ensures { (result ≡ length (sound_part text.now)) × (result ≤ length text.now) × (result ≤ 72) }
{
    for (i, c) in text.iter().enumerate() {
        if i == 72 {
            return 72;
        }
        if is_foreign(*c) {
            return i;
        }
    }
    text.len()
}

// A name that is new, into place k of the table; answers the place after it.
pub fn take_name(line: &[u8], from: usize, k: usize, texts: &mut [u8]) -> Result<usize, Wrong>
    requires { (from ≤ length line.now) × (k < 48) × (length texts.old ≡ 1992) }
    ensures texts_after { name_told line.now result texts.new ≡ name_at k (drop from line.now) texts.old }
    ensures inside { Inside line.now result }
{
    let word = day_words::find_word(line, from);
    let text = &line[word.start..word.end];
    match sheet_words::judge_name(text, texts) {
        Err(expected) => Err(Wrong { expected, word }),
        Ok(()) => {
            let name = day_words::fill(text);
            ascii::put_text(texts, 16 * k, &name);
            Ok(word.end)
        }
    }
}

// A text, into its place of the table; answers the place after it.
pub fn take_text(line: &[u8], from: usize, p: usize, texts: &mut [u8]) -> Result<usize, Wrong>
    requires { (from ≤ length line.now) × (p + 72 ≤ 1992) × (length texts.old ≡ 1992) }
    ensures texts_after { text_told line.now result texts.new ≡ text_at p (text_in (drop from line.now)) texts.old }
    ensures inside { Inside line.now result }
{
    let w = find_text(line, from);
    let start = w.start;
    let end = w.end;
    if start == end {
        return Err(Wrong::new(Expected::Text, w));
    }
    let text = &line[start..end];
    let n = sound_size(text);
    if n < text.len() {
        let start = start + n;
        return Err(Wrong::new(Expected::Text, Word { start, end }));
    }
    ascii::put_text(texts, p, text);
    Ok(end)
}

// OLD NEW SPREAD
fn read_meter(line: &[u8], from: usize) -> Result<Item, Wrong>
    requires { from ≤ length line.now }
    ensures result_value { item_told line.now result ≡ meter_of (drop from line.now) }
    ensures item_inside { ItemInside line.now result }
{
    let u = day_words::find_word(line, from);
    let Some(old) = day_words::reading_of(&line[u.start..u.end]) else {
        return Err(Wrong::new(Expected::Reading, u));
    };
    let v = day_words::find_word(line, u.end);
    let Some(new) = day_words::reading_of(&line[v.start..v.end]) else {
        return Err(Wrong::new(Expected::Reading, v));
    };
    let w = day_words::find_word(line, v.end);
    let Some(spread) = sheet_words::above_zero(&line[w.start..w.end]) else {
        return Err(Wrong::new(Expected::Above, w));
    };
    let x = day_words::find_word(line, w.end);
    if x.start != x.end {
        return Err(Wrong::new(Expected::End, x));
    }
    Ok(Item {
        old,
        new,
        spread,
        before: 0.0,
        after: 0.0,
    })
}

// CAPACITY
fn read_line(line: &[u8], from: usize) -> Result<Item, Wrong>
    requires { from ≤ length line.now }
    ensures result_value { item_told line.now result ≡ line_of (drop from line.now) }
    ensures item_inside { ItemInside line.now result }
{
    let u = day_words::find_word(line, from);
    let Some(capacity) = sheet_words::above_zero(&line[u.start..u.end]) else {
        return Err(Wrong::new(Expected::Above, u));
    };
    let x = day_words::find_word(line, u.end);
    if x.start != x.end {
        return Err(Wrong::new(Expected::End, x));
    }
    Ok(Item {
        old: 0,
        new: 0,
        spread: capacity,
        before: 0.0,
        after: 0.0,
    })
}

// BEFORE AFTER SPREAD
fn read_stock(line: &[u8], from: usize) -> Result<Item, Wrong>
    requires { from ≤ length line.now }
    ensures result_value { item_told line.now result ≡ stock_of (drop from line.now) }
    ensures item_inside { ItemInside line.now result }
{
    let u = day_words::find_word(line, from);
    let Some(before) = day_words::number_of(&line[u.start..u.end]) else {
        return Err(Wrong::new(Expected::Decimal, u));
    };
    let v = day_words::find_word(line, u.end);
    let Some(after) = day_words::number_of(&line[v.start..v.end]) else {
        return Err(Wrong::new(Expected::Decimal, v));
    };
    let w = day_words::find_word(line, v.end);
    let Some(spread) = sheet_words::above_zero(&line[w.start..w.end]) else {
        return Err(Wrong::new(Expected::Above, w));
    };
    let x = day_words::find_word(line, w.end);
    if x.start != x.end {
        return Err(Wrong::new(Expected::End, x));
    }
    Ok(Item {
        old: 0,
        new: 0,
        spread,
        before,
        after,
    })
}

// What stands after an item's name.
pub fn read_item(k: u32, line: &[u8], from: usize) -> Result<Item, Wrong>
    requires { from ≤ length line.now }
    ensures result_value { item_told line.now result ≡ item_of k (drop from line.now) }
    ensures item_inside { ItemInside line.now result }
{
    let w = day_words::find_word(line, from);
    if sheet_words::begins_letter(&line[w.start..w.end]) {
        return Err(Wrong::new(Expected::OneName, w));
    }
    if k == 0 {
        return read_meter(line, from);
    }
    if k == 1 {
        return read_line(line, from);
    }
    read_stock(line, from)
}

// A hexadecimal digit.
fn hex_digit(d: u8) -> u8
    requires { d < 16 }
    ensures { result ≡ hex_digit d }
{
    if d < 10 {
        return 48 + d;
    }
    87 + d
}

// A byte that may stand as it is.
fn is_plain(c: u8) -> bool
    ensures { result ≡ is_plain c }
{
    if 32 <= c {
        return c <= 126;
    }
    false
}

// One byte of a found word: at most four.
fn put_escape(out: &mut [u8], at: usize, c: u8) -> usize
    requires { at + 4 ≤ length out.old }
    ensures wrote { Wrote out.old at (escape c) out.new result }
    ensures upper_bound { result ≤ at + 4 }
{
    if is_plain(c) {
        return ascii::put_byte(out, at, c);
    }
    let a = ascii::put_text(out, at, b"\\x");
    let b = ascii::put_byte(out, a, hex_digit(c / 16));
    ascii::put_byte(out, b, hex_digit(c % 16))
}

// Each byte of a text of at most 32.
fn put_escaped(out: &mut [u8], at: usize, text: &[u8]) -> usize
    requires { (length text.now ≤ 32) × (at + 4 * length text.now ≤ length out.old) }
    ensures wrote { Wrote out.old at (escaped text.now) out.new result }
    ensures upper_bound { result ≤ at + 4 * length text.now }
{
    let mut p = at;
    for c in text {
        p = put_escape(out, p, *c);
    }
    p
}

// A found word as a fault shows it: at most 130 bytes.
pub fn put_shown(out: &mut [u8], at: usize, word: &[u8]) -> usize
    requires { at + 130 ≤ length out.old }
    ensures wrote { Wrote out.old at (shown_word word.now) out.new result }
    ensures upper_bound { result ≤ at + 130 }
{
    if word.len() <= 32 {
        return put_escaped(out, at, word);
    }
    let p = put_escaped(out, at, &word[..32]);
    ascii::put_text(out, p, b"..")
}
