// The day's sheet by names, read into three tables: texts, whole numbers and numbers (specs/Sheet says what stands where).
#![tactic(auto)]

ghost use Rattle.std.specs.Prelude.{◌≡◌, ◌≤◌, length, drop};
ghost use Rattle.day_words.specs.Words.{lines_of, without_return};
ghost use Rattle.sheet_words.specs.Lines.{between, Lies};
ghost use Rattle.sheet.specs.Sheet.{blank_texts, blank_wholes, blank_numbers, is_passed, kinds as sheet_kinds, kind_of, is_alike, plain_line, line_read, lines_read};
ghost use Rattle.sheet.specs.Promise.{told, Fits, Reads};
ghost use Rattle.sheet_lines.specs.inner.Work.{state, line_told, Few, Sound};
ghost use Rattle.sheet.specs.inner.Work.{no_counts, IsEnd, FitsAnywhere};

use day_words::Word;
use sheet_lines::Counts;
use sheet_words::{Expected, Wrong};

// How many items, balances, limits and doubts a whole sheet has.
#[derive(Clone, Copy)]
pub struct Sizes {
    pub items: usize,
    pub balances: usize,
    pub limits: usize,
    pub doubts: usize,
}

// Why a sheet is not whole: its first fault, by the line and by the word's places in all its bytes; or it is too long.
#[derive(Clone, Copy)]
pub enum Unread {
    Fault(usize, Wrong),
    Long,
}

// Whether a line is passed over by its first word.
fn is_passed(word: &[u8]) -> bool
    ensures { result ≡ is_passed word.now }
{
    if word.len() == 0 {
        return true;
    }
    word[0] == b'#'
}

// The kind of line that a word begins, by its place among the kinds; 9 where it is none. A number, since an item's kind goes into the table as it is.
fn kind_of(word: &[u8]) -> u32
    ensures { result ≡ kind_of word.now }
{
    if ascii::is_same(word, b"meter") {
        return 0;
    }
    if ascii::is_same(word, b"line") {
        return 1;
    }
    if ascii::is_same(word, b"stock") {
        return 2;
    }
    if ascii::is_same(word, b"balance") {
        return 3;
    }
    if ascii::is_same(word, b"floor") {
        return 4;
    }
    if ascii::is_same(word, b"ceiling") {
        return 5;
    }
    if ascii::is_same(word, b"tolerance") {
        return 6;
    }
    if ascii::is_same(word, b"title") {
        return 7;
    }
    if ascii::is_same(word, b"doubt") {
        return 8;
    }
    9
}

// Whether a word is a kind but for capitals.
fn is_kind(word: &[u8]) -> bool
    ensures { result ≡ is_alike word.now sheet_kinds }
{
    if sheet_words::is_alike(word, b"meter") {
        return true;
    }
    if sheet_words::is_alike(word, b"line") {
        return true;
    }
    if sheet_words::is_alike(word, b"stock") {
        return true;
    }
    if sheet_words::is_alike(word, b"balance") {
        return true;
    }
    if sheet_words::is_alike(word, b"floor") {
        return true;
    }
    if sheet_words::is_alike(word, b"ceiling") {
        return true;
    }
    if sheet_words::is_alike(word, b"tolerance") {
        return true;
    }
    if sheet_words::is_alike(word, b"title") {
        return true;
    }
    sheet_words::is_alike(word, b"doubt")
}

// A line of kind k without a text, whose remark is cut off.
fn take_plain(
    k: u32,
    line: &[u8],
    kind: Word,
    s: Counts,
    texts: &mut [u8],
    wholes: &mut [u32],
    numbers: &mut [f64],
) -> Result<Counts, Wrong>
    requires { Lies kind.start kind.end line.now × Few s × (length texts.old ≡ 1992) × (length wholes.old ≡ 64) × (length numbers.old ≡ 577) }
    ensures numbers_after { line_told line.now result texts.new wholes.new numbers.new
        ≡ plain_line k (between kind.start kind.end line.now) (drop kind.end line.now) (state s texts.old wholes.old numbers.old) }
    ensures sound { Sound line.now result }
{
    if k < 3 {
        return sheet_lines::item_line(k, line, kind, s, texts, wholes, numbers);
    }
    if k == 3 {
        return sheet_lines::balance_line(line, kind, s, texts, numbers);
    }
    if k < 6 {
        return sheet_lines::limit_line(k - 4, line, kind, s, texts, wholes, numbers);
    }
    if k == 6 {
        return sheet_lines::tolerance_line(line, kind, s, numbers);
    }
    if is_kind(&line[kind.start..kind.end]) {
        return Err(Wrong::new(Expected::SmallKind, kind));
    }
    Err(Wrong::new(Expected::Kind, kind))
}

// One line, by its first word.
fn take_line(
    line: &[u8],
    s: Counts,
    texts: &mut [u8],
    wholes: &mut [u32],
    numbers: &mut [f64],
) -> Result<Counts, Wrong>
    requires { Few s × (length texts.old ≡ 1992) × (length wholes.old ≡ 64) × (length numbers.old ≡ 577) }
    ensures numbers_after { line_told line.now result texts.new wholes.new numbers.new
        ≡ line_read line.now (state s texts.old wholes.old numbers.old) }
    ensures sound { Sound line.now result }
{
    let w = day_words::find_word(line, 0);
    let word = &line[w.start..w.end];
    if is_passed(word) {
        return Ok(s);
    }
    let k = kind_of(word);
    if k == 7 {
        return sheet_lines::title_line(line, w, s, texts);
    }
    if k == 8 {
        return sheet_lines::doubt_line(line, w, s, texts);
    }
    let n = sheet_words::before_remark(&line[w.end..]);
    let end = w.end + n;
    take_plain(k, &line[..end], w, s, texts, wholes, numbers)
}

// The line at a place, which ends before `end`.
fn next_line(
    bytes: &[u8],
    at: usize,
    end: usize,
    s: Counts,
    texts: &mut [u8],
    wholes: &mut [u32],
    numbers: &mut [f64],
) -> Result<Counts, Wrong>
    requires { Lies at end bytes.now × Few s × (length texts.old ≡ 1992) × (length wholes.old ≡ 64) × (length numbers.old ≡ 577) }
    ensures numbers_after { line_told bytes.now result texts.new wholes.new numbers.new
        ≡ line_read (without_return (between at end bytes.now)) (state s texts.old wholes.old numbers.old) }
    ensures sound { Sound bytes.now result }
{
    let line = &bytes[at..end];
    let n = day_words::trimmed(line);
    match take_line(&line[..n], s, texts, wholes, numbers) {
        Err(wrong) => {
            let start = at + wrong.word.start;
            let end = at + wrong.word.end;
            let word = Word { start, end };
            Err(Wrong { word, ..wrong })
        }
        Ok(t) => Ok(t),
    }
}

// A line that is missing, told where it might stand.
fn missing(line: usize, expected: Expected) -> Unread
    ensures { result ≡ Unread.Fault line (record { expected = expected; word = record { start = 0; end = 0 } }) }
{
    let word = Word { start: 0, end: 0 };
    Unread::Fault(line, Wrong { expected, word })
}

// The end of a sheet, told as a line of its own where something is missing.
fn finish(line: usize, s: Counts) -> Result<Sizes, Unread>
    requires { Few s }
    ensures end { IsEnd line s result }
    ensures fits_anywhere { FitsAnywhere result }
{
    if !s.titled {
        return Err(missing(line, Expected::TitleLine));
    }
    if !s.metered {
        return Err(missing(line, Expected::MeterLine));
    }
    if s.balances == 0 {
        return Err(missing(line, Expected::BalanceLine));
    }
    if s.toleranced {
        return Ok(Sizes {
            items: s.items,
            balances: s.balances,
            limits: s.limits,
            doubts: s.doubts,
        });
    }
    Err(missing(line, Expected::ToleranceLine))
}

// Every line from a place on, from tables on that are blank.
fn walk(
    bytes: &[u8],
    from: usize,
    texts: &mut [u8],
    wholes: &mut [u32],
    numbers: &mut [f64],
) -> Result<Sizes, Unread>
    requires { (from ≤ length bytes.now) × (length bytes.now ≤ 65536) × (length texts.old ≡ 1992) × (length wholes.old ≡ 64) × (length numbers.old ≡ 577) }
    ensures numbers_after { told bytes.now result texts.new wholes.new numbers.new
        ≡ lines_read (lines_of (drop from bytes.now)) 0 (state no_counts texts.old wholes.old numbers.old) }
    ensures fits { Fits bytes.now result }
{
    let mut s = Counts {
        items: 0,
        balances: 0,
        limits: 0,
        doubts: 0,
        titled: false,
        metered: false,
        toleranced: false,
    };
    // Each line begins behind the last, so `at` goes on by lines and not by one.
    let mut at = from;
    let mut k = 0;
    while at < bytes.len() {
        let end = day_words::line_end(bytes, at);
        k += 1;
        match next_line(bytes, at, end, s, texts, wholes, numbers) {
            Err(wrong) => return Err(Unread::Fault(k, wrong)),
            Ok(t) => s = t,
        }
        at = end + 1;
    }
    finish(k + 1, s)
}

// Nothing anywhere.
fn clear(texts: &mut [u8], wholes: &mut [u32], numbers: &mut [f64])
    requires { (length texts.old ≡ 1992) × (length wholes.old ≡ 64) × (length numbers.old ≡ 577) }
    ensures { (texts.new ≡ blank_texts) × (wholes.new ≡ blank_wholes) × (numbers.new ≡ blank_numbers) }
{
    ascii::put_blanks(texts, 0, 1992);
    workspace::wipe_words(wholes, 64);
    workspace::wipe(numbers, 577);
}

// Reads a sheet into the tables. Where it is not whole, they are left blank, so that nobody takes half of one.
pub fn read(
    bytes: &[u8],
    texts: &mut [u8; 1992],
    wholes: &mut [u32; 64],
    numbers: &mut [f64; 577],
) -> Result<Sizes, Unread>
    ensures { Reads bytes.now result texts.new wholes.new numbers.new }
{
    clear(texts, wholes, numbers);
    if 65536 < bytes.len() {
        return Err(Unread::Long);
    }
    let from = sheet_words::mark_size(bytes);
    let r = walk(bytes, from, texts, wholes, numbers);
    if r.is_ok() {
        return r;
    }
    clear(texts, wholes, numbers);
    r
}
