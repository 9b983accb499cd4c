// The lines of a sheet by names, each kind from the place after its first word on, by which it is known.
#![tactic(auto)]

ghost use Rattle.std.specs.Prelude.{◌≡◌, ◌||◌, ◌+◌, ◌≤◌, ◌<◌, eqb, length, drop, set};
ghost use Rattle.sheet_words.specs.Lines.{between, Lies};
ghost use Rattle.sheet_lines.specs.Lines.{item_line, limit_line};
ghost use Rattle.sheet_lines.specs.inner.Work.{state, line_told, Few, Sound, IsTitle, IsDoubt, TakesItem, TakesLimit, IsBalance, IsTolerance};

use day_words::Word;
use sheet_parts::Item;
use sheet_words::{Expected, Wrong};

// How many there are so far, and what was given.
#[derive(Clone, Copy)]
pub struct Counts {
    pub items: usize,
    pub balances: usize,
    pub limits: usize,
    pub doubts: usize,
    pub titled: bool,
    pub metered: bool,
    pub toleranced: bool,
}

// title TEXT
pub fn title_line(line: &[u8], kind: Word, s: Counts, texts: &mut [u8]) -> Result<Counts, Wrong>
    requires { Lies kind.start kind.end line.now × Few s × (length texts.old ≡ 1992) }
    ensures title { IsTitle line.now (between kind.start kind.end line.now) (drop kind.end line.now) s texts.old result texts.new }
    ensures sound { Sound line.now result }
{
    if s.titled {
        return Err(Wrong::new(Expected::OneTitle, kind));
    }
    sheet_parts::take_text(line, kind.end, 768, texts)?;
    Ok(Counts { titled: true, ..s })
}

// doubt TEXT
pub fn doubt_line(line: &[u8], kind: Word, s: Counts, texts: &mut [u8]) -> Result<Counts, Wrong>
    requires { Lies kind.start kind.end line.now × Few s × (length texts.old ≡ 1992) }
    ensures doubt { IsDoubt line.now (between kind.start kind.end line.now) (drop kind.end line.now) s texts.old result texts.new }
    ensures sound { Sound line.now result }
{
    let j = s.doubts;
    if 16 <= j {
        return Err(Wrong::new(Expected::FewDoubts, kind));
    }
    sheet_parts::take_text(line, kind.end, 840 + 72 * j, texts)?;
    Ok(Counts { doubts: j + 1, ..s })
}

// Whether there is a meter after an item of kind k.
fn is_metered(metered: bool, k: u32) -> bool
    ensures { result ≡ (metered || eqb k 0) }
{
    if metered {
        return true;
    }
    k == 0
}

// An item's kind and readings into their places.
fn put_wholes(i: usize, k: u32, item: Item, wholes: &mut [u32])
    requires { (i < 16) × (length wholes.old ≡ 64) }
    ensures { wholes.new ≡ set (set (set wholes.old i item.old) (16 + i) item.new) (32 + i) k }
{
    wholes[i] = item.old;
    wholes[16 + i] = item.new;
    wholes[32 + i] = k;
}

// An item's numbers into their places.
fn put_numbers(i: usize, item: Item, numbers: &mut [f64])
    requires { (i < 16) × (length numbers.old ≡ 577) }
    ensures { numbers.new ≡ set (set (set numbers.old i item.spread) (16 + i) item.before) (32 + i) item.after }
{
    numbers[i] = item.spread;
    numbers[16 + i] = item.before;
    numbers[32 + i] = item.after;
}

// A meter, a line or a stock after its name.
fn take_item(
    k: u32,
    line: &[u8],
    from: usize,
    s: Counts,
    wholes: &mut [u32],
    numbers: &mut [f64],
) -> Result<Counts, Wrong>
    requires { (from ≤ length line.now) × Few s × (s.items < 16) × (length wholes.old ≡ 64) × (length numbers.old ≡ 577) }
    ensures takes_item { TakesItem line.now k (drop from line.now) s wholes.old numbers.old result wholes.new numbers.new }
    ensures sound { Sound line.now result }
{
    let i = s.items;
    let item = sheet_parts::read_item(k, line, from)?;
    put_wholes(i, k, item, wholes);
    put_numbers(i, item, numbers);
    let metered = is_metered(s.metered, k);
    Ok(Counts {
        items: i + 1,
        metered,
        ..s
    })
}

// meter NAME OLD NEW SPREAD, line NAME CAPACITY, stock NAME BEFORE AFTER SPREAD
pub fn item_line(
    k: u32,
    line: &[u8],
    kind: Word,
    s: Counts,
    texts: &mut [u8],
    wholes: &mut [u32],
    numbers: &mut [f64],
) -> Result<Counts, Wrong>
    requires { Lies kind.start kind.end line.now × Few s × (length texts.old ≡ 1992) × (length wholes.old ≡ 64) × (length numbers.old ≡ 577) }
    ensures numbers_after { line_told line.now result texts.new wholes.new numbers.new
        ≡ item_line k (between kind.start kind.end line.now) (drop kind.end line.now) (state s texts.old wholes.old numbers.old) }
    ensures sound { Sound line.now result }
{
    if 0 < s.balances + s.limits {
        return Err(Wrong::new(Expected::Late, kind));
    }
    if 16 <= s.items {
        return Err(Wrong::new(Expected::FewItems, kind));
    }
    let p = sheet_parts::take_name(line, kind.end, s.items, texts)?;
    take_item(k, line, p, s, wholes, numbers)
}

// balance NAME TERM .. = TERM ..
pub fn balance_line(
    line: &[u8],
    kind: Word,
    s: Counts,
    texts: &mut [u8],
    numbers: &mut [f64],
) -> Result<Counts, Wrong>
    requires { Lies kind.start kind.end line.now × Few s × (length texts.old ≡ 1992) × (length numbers.old ≡ 577) }
    ensures balance { IsBalance line.now (between kind.start kind.end line.now) (drop kind.end line.now) s texts.old numbers.old result texts.new numbers.new }
    ensures sound { Sound line.now result }
{
    let j = s.balances;
    if !s.metered {
        return Err(Wrong::new(Expected::MeterBefore, kind));
    }
    if 16 <= j {
        return Err(Wrong::new(Expected::FewBalances, kind));
    }
    let p = sheet_parts::take_name(line, kind.end, 16 + j, texts)?;
    sheet_terms::take_terms(line, p, true, 48 + 16 * j, texts, numbers)?;
    Ok(Counts {
        balances: j + 1,
        ..s
    })
}

// A floor or a ceiling after its name.
fn take_limit(
    ceiling: u32,
    line: &[u8],
    from: usize,
    s: Counts,
    texts: &[u8],
    wholes: &mut [u32],
    numbers: &mut [f64],
) -> Result<Counts, Wrong>
    requires { (from ≤ length line.now) × Few s × (s.limits < 16) × (length texts.now ≡ 1992) × (length wholes.old ≡ 64) × (length numbers.old ≡ 577) }
    ensures takes_limit { TakesLimit line.now ceiling (drop from line.now) s texts.now wholes.old numbers.old result wholes.new numbers.new }
    ensures sound { Sound line.now result }
{
    let j = s.limits;
    let w = day_words::find_word(line, from);
    let word = &line[w.start..w.end];
    if sheet_words::begins_letter(word) {
        return Err(Wrong::new(Expected::OneName, w));
    }
    let Some(x) = day_words::number_of(word) else {
        return Err(Wrong::new(Expected::Decimal, w));
    };
    numbers[304 + j] = x;
    sheet_terms::take_terms(line, w.end, false, 320 + 16 * j, texts, numbers)?;
    wholes[48 + j] = ceiling;
    Ok(Counts { limits: j + 1, ..s })
}

// floor NAME AMOUNT TERM .., ceiling NAME AMOUNT TERM ..
pub fn limit_line(
    ceiling: u32,
    line: &[u8],
    kind: Word,
    s: Counts,
    texts: &mut [u8],
    wholes: &mut [u32],
    numbers: &mut [f64],
) -> Result<Counts, Wrong>
    requires { Lies kind.start kind.end line.now × Few s × (length texts.old ≡ 1992) × (length wholes.old ≡ 64) × (length numbers.old ≡ 577) }
    ensures numbers_after { line_told line.now result texts.new wholes.new numbers.new
        ≡ limit_line ceiling (between kind.start kind.end line.now) (drop kind.end line.now) (state s texts.old wholes.old numbers.old) }
    ensures sound { Sound line.now result }
{
    let j = s.limits;
    if !s.metered {
        return Err(Wrong::new(Expected::MeterBefore, kind));
    }
    if 16 <= j {
        return Err(Wrong::new(Expected::FewLimits, kind));
    }
    let p = sheet_parts::take_name(line, kind.end, 32 + j, texts)?;
    take_limit(ceiling, line, p, s, texts, wholes, numbers)
}

// tolerance T
pub fn tolerance_line(
    line: &[u8],
    kind: Word,
    s: Counts,
    numbers: &mut [f64],
) -> Result<Counts, Wrong>
    requires { Lies kind.start kind.end line.now × Few s × (length numbers.old ≡ 577) }
    ensures tolerance { IsTolerance line.now (between kind.start kind.end line.now) (drop kind.end line.now) s numbers.old result numbers.new }
    ensures sound { Sound line.now result }
{
    if s.toleranced {
        return Err(Wrong::new(Expected::OneTolerance, kind));
    }
    let w = day_words::find_word(line, kind.end);
    let Some(x) = sheet_words::not_below_zero(&line[w.start..w.end]) else {
        return Err(Wrong::new(Expected::NotBelow, w));
    };
    let v = day_words::find_word(line, w.end);
    if v.start != v.end {
        return Err(Wrong::new(Expected::End, v));
    }
    numbers[576] = x;
    Ok(Counts {
        toleranced: true,
        ..s
    })
}
