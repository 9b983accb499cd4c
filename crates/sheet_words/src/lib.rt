// The words of a sheet by names: what may be a name, where it stands in the table of names, what a remark is.
#![tactic(auto)]

ghost use Rattle.std.specs.Prelude.{◌≡◌, ◌&&◌, eqb, ◌+◌, ◌*◌, ◌≤◌, length, take, drop};
ghost use Rattle.sheet_words.specs.Names.{is_capital, is_letter, is_numeric, begins_letter, begins_number, same_small, has_equals, are_name_bytes, is_name_byte, is_taken, place_of, name_judged, above_zero, not_below_zero, not_zero, Inside, ShortIf};
ghost use Rattle.sheet_words.specs.Lines.{after_mark, unremarked};

use day_words::Word;

// What was expected where the first fault is.
#[derive(Clone, Copy)]
pub enum Expected {
    Kind,
    SmallKind,
    OneTitle,
    OneTolerance,
    Late,
    FewItems,
    MeterBefore,
    FewBalances,
    FewLimits,
    FewDoubts,
    Text,
    Name,
    ShortName,
    PlainName,
    NewName,
    OneName,
    Reading,
    Decimal,
    Above,
    NotBelow,
    End,
    Equals,
    OneEquals,
    NoEquals,
    ApartEquals,
    NoSign,
    Coefficient,
    TermName,
    SameCapitals,
    Given,
    Once,
    TitleLine,
    MeterLine,
    BalanceLine,
    ToleranceLine,
}

// What was expected in a line, and the word that stands there: an empty one at the line's end.
#[derive(Clone, Copy)]
pub struct Wrong {
    pub expected: Expected,
    pub word: Word,
}

impl Wrong {
    pub fn new(expected: Expected, word: Word) -> Wrong
        ensures { result ≡ record { expected = expected; word = word } }
    {
        Wrong { expected, word }
    }
}

// Whether a byte is a capital letter.
fn is_capital(c: u8) -> bool
    ensures { result ≡ is_capital c }
{
    if 65 <= c {
        return c <= 90;
    }
    false
}

// Whether a byte is a letter.
fn is_letter(c: u8) -> bool
    ensures { result ≡ is_letter c }
{
    if is_capital(c) {
        return true;
    }
    if 97 <= c {
        return c <= 122;
    }
    false
}

// Whether two texts are the same but for capitals.
pub fn is_alike(a: &[u8], b: &[u8]) -> bool
    ensures { result ≡ same_small a.now b.now }
{
    a.eq_ignore_ascii_case(b)
}

// Whether a word begins with a letter.
pub fn begins_letter(word: &[u8]) -> bool
    ensures { result ≡ begins_letter word.now }
{
    if word.len() == 0 {
        return false;
    }
    is_letter(word[0])
}

// Whether a byte may begin a number, or what somebody takes for one.
fn is_numeric(c: u8) -> bool
    ensures { result ≡ is_numeric c }
{
    if c == b'-' {
        return true;
    }
    if c == b'+' {
        return true;
    }
    if c == b'.' {
        return true;
    }
    if 48 <= c {
        return c <= 57;
    }
    false
}

// Whether a word begins as a number.
pub fn begins_number(word: &[u8]) -> bool
    ensures { result ≡ begins_number word.now }
{
    if word.len() == 0 {
        return false;
    }
    is_numeric(word[0])
}

// Whether there is a `=` in a word.
pub fn has_equals(word: &[u8]) -> bool
    ensures { result ≡ has_equals word.now }
{
    word.contains(&b'=')
}

// Whether a byte may stand in a name.
fn is_name_byte(c: u8) -> bool
    ensures { result ≡ is_name_byte c }
{
    if c == b'=' {
        return false;
    }
    if 33 <= c {
        return c <= 126;
    }
    false
}

// Whether all bytes of a word may stand in a name.
fn are_name_bytes(word: &[u8]) -> bool
    ensures { result ≡ are_name_bytes word.now }
{
    for c in word {
        if !is_name_byte(*c) {
            return false;
        }
    }
    true
}

// Whether a name is among the first n of the table, in capitals or not.
pub fn is_taken(n: usize, name: &[u8], texts: &[u8]) -> bool
    requires { (n ≤ 48) × (16 * n ≤ length texts.now) }
    ensures { result ≡ is_taken n 0 name.now texts.now }
{
    for k in 0..n {
        let start = 16 * k;
        let end = 16 * k + 16;
        if is_alike(&texts[start..end], name) {
            return true;
        }
    }
    false
}

// Where a name stands among the first 16 of the table, if it does.
pub fn find_place(name: &[u8], texts: &[u8]) -> Option<usize>
    requires { 256 ≤ length texts.now }
    ensures value { result ≡ place_of 16 0 name.now texts.now }
    ensures inside { Inside result }
{
    for k in 0..16 {
        let start = 16 * k;
        let end = 16 * k + 16;
        if ascii::is_same(&texts[start..end], name) {
            return Some(k);
        }
    }
    None
}

// Whether a word may be given as a name, or what was expected.
pub fn judge_name(word: &[u8], texts: &[u8]) -> Result<(), Expected>
    requires { 768 ≤ length texts.now }
    ensures value { result ≡ name_judged word.now texts.now }
    ensures short_if { ShortIf result word.now }
{
    if !begins_letter(word) {
        return Err(Expected::Name);
    }
    if 16 < word.len() {
        return Err(Expected::ShortName);
    }
    if !are_name_bytes(word) {
        return Err(Expected::PlainName);
    }
    let name = day_words::fill(word);
    if is_taken(48, &name, texts) {
        return Err(Expected::NewName);
    }
    Ok(())
}

// A decimal above zero.
pub fn above_zero(word: &[u8]) -> Option<f64>
    ensures { result ≡ above_zero word.now }
{
    let x = day_words::number_of(word)?;
    if 0.0 < x {
        return Some(x);
    }
    None
}

// A decimal not below zero.
pub fn not_below_zero(word: &[u8]) -> Option<f64>
    ensures { result ≡ not_below_zero word.now }
{
    let x = day_words::number_of(word)?;
    if 0.0 <= x {
        return Some(x);
    }
    None
}

// A decimal other than zero.
pub fn not_zero(word: &[u8]) -> Option<f64>
    ensures { result ≡ not_zero word.now }
{
    let x = day_words::number_of(word)?;
    if x == 0.0 {
        return None;
    }
    Some(x)
}

// The size of the byte order mark at the front.
pub fn mark_size(bytes: &[u8]) -> usize
    ensures { (drop result bytes.now ≡ after_mark bytes.now) × (result ≤ length bytes.now) }
{
    if bytes.len() < 3 {
        return 0;
    }
    if ascii::is_same(&bytes[..3], b"\xef\xbb\xbf") {
        return 3;
    }
    0
}

// Whether a remark begins at a byte, before which stands a blank or nothing.
fn begins_remark(free: bool, c: u8) -> bool
    ensures { result ≡ (free && eqb c 35) }
{
    if free {
        return c == b'#';
    }
    false
}

// The length of a text without its remark.
pub fn before_remark(text: &[u8]) -> usize
    ensures { (take result text.now ≡ unremarked text.now) × (result ≤ length text.now) }
{
    let mut free = true;
    for (i, c) in text.iter().enumerate() {
        if begins_remark(free, *c) {
            return i;
        }
        free = day_words::is_blank(*c);
    }
    text.len()
}
