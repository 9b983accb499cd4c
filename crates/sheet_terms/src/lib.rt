// The terms of a balance, a floor or a ceiling, into a row of numbers.
#![tactic(auto)]

ghost use Rattle.std.specs.Prelude.{◌≡◌, not, ◌&&◌, ◌||◌, ◌+◌, ◌≤◌, ◌<◌, ltb, length, drop};
ghost use Rattle.std.specs.Option.{is_some};
ghost use Rattle.ascii.specs.Text.{ascii as text_ascii, same_text};
ghost use Rattle.day_words.specs.Items.{filled};
ghost use Rattle.sheet_words.specs.Names.{begins_number, has_equals, is_taken, place_of, not_zero};
ghost use Rattle.sheet_words.specs.Lines.{words_of};
ghost use Rattle.sheet_terms.specs.Terms.{sign_judged, times_judged, place_judged, term_judged, signed, amount, turned, terms_end, terms_from, terms};
ghost use Rattle.sheet_terms.specs.inner.Work.{NamesInside, turn, turn_told, row_told, IsEnd, RowInside, EndsAt};

use day_words::Word;
use sheet_words::{Expected, Wrong};

// What a word is among terms: the sign between the sides, a number before a name, or the name of a place.
#[derive(Clone, Copy)]
pub enum Term {
    Sign,
    Times(f64),
    Names(usize),
}

// Whether `=` was passed, whether this side has a term, and the number that waits for its name.
#[derive(Clone, Copy)]
struct Turn {
    equals: bool,
    here: bool,
    pending: Option<f64>,
}

// A `=` in its place or not.
fn judge_sign(balance: bool, equals: bool, here: bool) -> Result<Term, Expected>
    ensures { result ≡ sign_judged balance equals here }
{
    if !balance {
        return Err(Expected::NoEquals);
    }
    if equals {
        return Err(Expected::OneEquals);
    }
    if here {
        return Ok(Term::Sign);
    }
    Err(Expected::TermName)
}

// A number before a name.
fn judge_times(word: &[u8]) -> Result<Term, Expected>
    ensures { result ≡ times_judged (not_zero word.now) }
{
    let Some(x) = sheet_words::not_zero(word) else {
        return Err(Expected::Coefficient);
    };
    Ok(Term::Times(x))
}

// A name.
fn judge_place(word: &[u8], texts: &[u8]) -> Result<Term, Expected>
    requires { 256 ≤ length texts.now }
    ensures value { result ≡ place_judged (place_of 16 0 (filled word.now) texts.now) (is_taken 16 0 (filled word.now) texts.now) }
    ensures names_inside { NamesInside result }
{
    if 16 < word.len() {
        return Err(Expected::Given);
    }
    let name = day_words::fill(word);
    let Some(k) = sheet_words::find_place(&name, texts) else {
        if sheet_words::is_taken(16, &name, texts) {
            return Err(Expected::SameCapitals);
        }
        return Err(Expected::Given);
    };
    Ok(Term::Names(k))
}

// Whether a word is `=` and may be a sign.
fn is_lone(pending: bool, word: &[u8]) -> bool
    ensures { result ≡ (not pending && same_text word.now (text_ascii "=")) }
{
    if pending {
        return false;
    }
    ascii::is_same(word, b"=")
}

// Whether a longer word has a `=` in it.
fn is_joined(word: &[u8]) -> bool
    ensures { result ≡ (ltb 1 (length word.now) && has_equals word.now) }
{
    if 1 < word.len() {
        return sheet_words::has_equals(word);
    }
    false
}

// Whether a word is a plus or a minus.
fn is_sign(word: &[u8]) -> bool
    ensures { result ≡ (same_text word.now (text_ascii "+") || same_text word.now (text_ascii "-")) }
{
    if ascii::is_same(word, b"+") {
        return true;
    }
    ascii::is_same(word, b"-")
}

// Whether a word begins as a number, and may be one.
fn is_number(pending: bool, word: &[u8]) -> bool
    ensures { result ≡ (not pending && begins_number word.now) }
{
    if pending {
        return false;
    }
    sheet_words::begins_number(word)
}

// What a word is among terms.
fn judge_term(
    balance: bool,
    equals: bool,
    here: bool,
    pending: bool,
    word: &[u8],
    texts: &[u8],
) -> Result<Term, Expected>
    requires { 256 ≤ length texts.now }
    ensures value { result ≡ term_judged balance equals here pending word.now texts.now }
    ensures names_inside { NamesInside result }
{
    if is_lone(pending, word) {
        return judge_sign(balance, equals, here);
    }
    if is_joined(word) {
        return Err(Expected::ApartEquals);
    }
    if is_sign(word) {
        return Err(Expected::NoSign);
    }
    if is_number(pending, word) {
        return judge_times(word);
    }
    if sheet_words::begins_letter(word) {
        return judge_place(word, texts);
    }
    Err(Expected::TermName)
}

// The number that a name gets in the row: one where none waits for it.
fn coefficient(equals: bool, pending: Option<f64>) -> f64
    ensures { result ≡ signed equals (amount pending) }
{
    let x = pending.unwrap_or(1.0);
    if equals {
        return -x;
    }
    x
}

// One word.
fn take_term(
    word: &[u8],
    balance: bool,
    p: usize,
    texts: &[u8],
    t: Turn,
    numbers: &mut [f64],
) -> Result<Turn, Expected>
    requires { (256 ≤ length texts.now) × (p + 16 ≤ length numbers.old) }
    ensures numbers_after { turn_told result numbers.new ≡ turned p (term_judged balance t.equals t.here (is_some t.pending) word.now texts.now) (turn t numbers.old) }
    ensures numbers_len_unchanged { length numbers.new ≡ length numbers.old }
{
    let pending = t.pending;
    match judge_term(balance, t.equals, t.here, pending.is_some(), word, texts)? {
        Term::Sign => Ok(Turn {
            equals: true,
            here: false,
            pending: None,
        }),
        Term::Times(x) => Ok(Turn {
            pending: Some(x),
            ..t
        }),
        Term::Names(k) => {
            let q = p + k;
            if numbers[q] == 0.0 {
                numbers[q] = coefficient(t.equals, pending);
                return Ok(Turn {
                    here: true,
                    pending: None,
                    ..t
                });
            }
            Err(Expected::Once)
        }
    }
}

// The end of the line, at a place.
fn finish(balance: bool, t: Turn, at: usize) -> Result<(), Wrong>
    ensures end { IsEnd balance t at result }
    ensures ends_at { EndsAt at result }
{
    let pending = t.pending;
    let word = Word { start: at, end: at };
    if !t.here {
        return Err(Wrong::new(Expected::TermName, word));
    }
    if pending.is_some() {
        return Err(Wrong::new(Expected::TermName, word));
    }
    if !balance {
        return Ok(());
    }
    if t.equals {
        return Ok(());
    }
    Err(Wrong::new(Expected::Equals, word))
}

// All words from a place on, each from the end of the last.
pub fn take_terms(
    line: &[u8],
    from: usize,
    balance: bool,
    p: usize,
    texts: &[u8],
    numbers: &mut [f64],
) -> Result<(), Wrong>
    requires { (from ≤ length line.now) × (256 ≤ length texts.now) × (p + 16 ≤ length numbers.old) }
    ensures numbers_after { row_told line.now result numbers.new ≡ terms balance p texts.now (words_of (drop from line.now)) numbers.old }
    ensures numbers_len_unchanged { (length numbers.new ≡ length numbers.old) × RowInside line.now result }
{
    let mut t = Turn {
        equals: false,
        here: false,
        pending: None,
    };
    let mut at = from;
    loop {
        let word = day_words::find_word(line, at);
        if word.start == word.end {
            return finish(balance, t, word.start);
        }
        match take_term(&line[word.start..word.end], balance, p, texts, t, numbers) {
            Err(expected) => return Err(Wrong { expected, word }),
            Ok(u) => t = u,
        }
        at = word.end;
    }
}
