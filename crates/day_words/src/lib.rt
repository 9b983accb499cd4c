// A sheet's lines and words, and what a word may be: a name, a reading, a decimal number.
#![tactic(auto)]

ghost use Rattle.std.specs.Prelude.{◌≡◌, ◌+◌, ◌≤◌, length, take, drop};
ghost use Rattle.day_words.specs.Words.{is_feed, is_blank as words_is_blank, up_to, without_return, skip_blanks, word};
ghost use Rattle.day_words.specs.Items.{filled, reading_of, decimal_of};
ghost use Rattle.day_words.specs.inner.Work.{IsWord};

// A word of a line by its places.
#[derive(Clone, Copy)]
pub struct Word {
    pub start: usize,
    pub end: usize,
}

// The place of the line feed that ends the line at a place, or the end.
pub fn line_end(bytes: &[u8], at: usize) -> usize
    requires { at ≤ length bytes.now }
    ensures { (result ≡ at + length (up_to is_feed (drop at bytes.now))) × (result ≤ length bytes.now) }
{
    for i in at..bytes.len() {
        if bytes[i] == b'\n' {
            return i;
        }
    }
    bytes.len()
}

// The length of a line without the carriage return that it ends in.
pub fn trimmed(line: &[u8]) -> usize
    ensures { (take result line.now ≡ without_return line.now) × (result ≤ length line.now) }
{
    let n = line.len();
    if n == 0 {
        return 0;
    }
    if line[n - 1] == b'\r' {
        return n - 1;
    }
    n
}

// Whether a byte is a blank.
pub fn is_blank(c: u8) -> bool
    ensures { result ≡ words_is_blank c }
{
    if c == b' ' {
        return true;
    }
    c == b'\t'
}

// The place of the first byte that is no blank, or the end.
pub fn skip(line: &[u8], from: usize) -> usize
    requires { from ≤ length line.now }
    ensures { (drop result line.now ≡ skip_blanks (drop from line.now)) × (result ≤ length line.now) }
{
    for i in from..line.len() {
        if !is_blank(line[i]) {
            return i;
        }
    }
    line.len()
}

// The place of the first blank, or the end.
fn word_end(line: &[u8], from: usize) -> usize
    requires { from ≤ length line.now }
    ensures { (result ≡ from + length (up_to words_is_blank (drop from line.now))) × (result ≤ length line.now) }
{
    for i in from..line.len() {
        if is_blank(line[i]) {
            return i;
        }
    }
    line.len()
}

// The first word from a place on.
pub fn find_word(line: &[u8], from: usize) -> Word
    requires { from ≤ length line.now }
    ensures { IsWord line.now from result }
{
    let start = skip(line, from);
    let end = word_end(line, start);
    Word { start, end }
}

// A name with blanks behind it.
pub fn fill(word: &[u8]) -> [u8; 16]
    requires { length word.now ≤ 16 }
    ensures { result ≡ filled word.now }
{
    let mut name = [b' '; 16];
    ascii::put_text(&mut name, 0, word);
    name
}

// The reading that a word shows, if it is one.
pub fn reading_of(word: &[u8]) -> Option<u32>
    ensures { result ≡ reading_of word.now }
{
    let n = word.len();
    if n == 0 {
        return None;
    }
    if 6 < n {
        return None;
    }
    let run = decimals::digits(word, 0, 0);
    if run.end != n {
        return None;
    }
    Some(run.value as u32)
}

// The decimal number that a word is, if it is one.
pub fn number_of(word: &[u8]) -> Option<f64>
    ensures { result ≡ decimal_of word.now }
{
    let decimal = decimals::read(word, 0).ok()?;
    if decimal.end != word.len() {
        return None;
    }
    Some(decimal.value)
}
