// The lines of a plant file: meters by number, told by places, and a table of them.
#![tactic(auto)]

ghost use Rattle.std.specs.Prelude.{◌≡◌, List, [], ◌+◌, ◌≤◌, ◌<◌, length, drop};
ghost use Rattle.day_words.specs.Words.{lines_of, rest};
ghost use Rattle.sheet_words.specs.Lines.{Lies};
ghost use Rattle.sheet_words.specs.Names.{name_judged, ShortIf};
ghost use Rattle.plant.specs.Lines.{Meter, meter_number, no_names, line_of, remark_of, lines_from};
ghost use Rattle.plant_lines.specs.Table.{line_told, InLine, Few, limit_of, GivenFits, Fits, Known, Noted, LinesTold};
ghost use Rattle.plant_lines.specs.inner.Work.{AllowedRead, SpreadRead, NameRead, MeterRead, NextRead, moved, with_row};

use plant::Wanted;
use sheet_words::Expected;

// A meter's number, and the places of its name and spread in its line; for how many minutes it may stand still, where that is limited.
#[derive(Clone, Copy, Debug, PartialEq, Eq)]
pub struct Given {
    pub number: u32,
    pub name: usize,
    pub name_end: usize,
    pub spread: usize,
    pub spread_end: usize,
    pub allowed: Option<u32>,
}

// What was expected, and the places of the word that stands there.
#[derive(Clone, Copy)]
pub struct Wrong {
    pub wanted: Wanted,
    pub start: usize,
    pub end: usize,
}

// What is wrong with a line, by its number.
#[derive(Clone, Copy)]
pub struct Fault {
    pub line: usize,
    pub wrong: Wrong,
}

// Where the table has, by meter number, whether it is given, the places of its name, and 1 more than the minutes allowed.
pub const NAMES: usize = 16;

pub const NAME_ENDS: usize = 32;

pub const ALLOWED: usize = 48;

// The number of a meter that a word is.
fn meter_number(word: &[u8]) -> Option<u32>
    ensures { result ≡ meter_number word.now }
{
    if 2 < word.len() {
        return None;
    }
    let Some(n) = day_words::reading_of(word) else {
        return None;
    };
    if 15 < n {
        return None;
    }
    Some(n)
}

// Whether a word may be a name, where none is given yet.
fn judge(word: &[u8]) -> Result<(), Expected>
    ensures value { result ≡ name_judged word.now no_names }
    ensures short_if { ShortIf result word.now }
{
    let blank = [b' '; 768];
    sheet_words::judge_name(word, &blank)
}

// What may follow the spread of a meter, which is not limited yet.
fn read_allowed(line: &[u8], g: Given) -> Result<Given, Wrong>
    requires { InLine line.now g × (g.allowed ≡ None) }
    ensures allowed_read { AllowedRead line.now g result }
    ensures fits { GivenFits line.now result }
{
    let w = day_words::find_word(line, g.spread_end);
    let at = w.start;
    let end = w.end;
    if at == end {
        return Ok(g);
    }
    let Some(k) = day_words::reading_of(&line[at..end]) else {
        return Err(Wrong {
            wanted: Wanted::Minutes,
            start: at,
            end,
        });
    };
    let v = day_words::find_word(line, end);
    let a = v.start;
    let b = v.end;
    if a != b {
        return Err(Wrong {
            wanted: Wanted::End,
            start: a,
            end: b,
        });
    }
    Ok(Given {
        allowed: Some(k),
        ..g
    })
}

// The spread of a meter whose name stands from `name` to `to`, and what follows.
fn read_spread(line: &[u8], number: u32, name: usize, to: usize) -> Result<Given, Wrong>
    requires { (number < 16) × Lies name to line.now × (to ≤ name + 16) }
    ensures spread_read { SpreadRead line.now number name to result }
    ensures fits { GivenFits line.now result }
{
    let w = day_words::find_word(line, to);
    let at = w.start;
    let end = w.end;
    let Some(_) = sheet_words::above_zero(&line[at..end]) else {
        return Err(Wrong {
            wanted: Wanted::Spread,
            start: at,
            end,
        });
    };
    let g = Given {
        number,
        name,
        name_end: to,
        spread: at,
        spread_end: end,
        allowed: None,
    };
    read_allowed(line, g)
}

// The name of a meter, and what follows.
fn read_name(line: &[u8], number: u32, from: usize) -> Result<Given, Wrong>
    requires { (number < 16) × (from ≤ length line.now) }
    ensures name_read { NameRead line.now number from result }
    ensures fits { GivenFits line.now result }
{
    let w = day_words::find_word(line, from);
    let at = w.start;
    let end = w.end;
    match judge(&line[at..end]) {
        Err(_) => Err(Wrong {
            wanted: Wanted::Name,
            start: at,
            end,
        }),
        Ok(_) => read_spread(line, number, at, end),
    }
}

// A meter's line from the place after its first word on.
fn read_meter(line: &[u8], from: usize, table: &[u32]) -> Result<Given, Wrong>
    requires { (from ≤ length line.now) × (length table.now ≡ 64) }
    ensures meter_read { MeterRead line.now from table.now result }
    ensures fits { GivenFits line.now result }
{
    let w = day_words::find_word(line, from);
    let at = w.start;
    let end = w.end;
    let Some(n) = meter_number(&line[at..end]) else {
        return Err(Wrong {
            wanted: Wanted::Number,
            start: at,
            end,
        });
    };
    if table[n as usize] != 0 {
        return Err(Wrong {
            wanted: Wanted::NewNumber,
            start: at,
            end,
        });
    }
    read_name(line, n, end)
}

// A line without its carriage return: a meter, where it is the line of one.
pub fn read_line(line: &[u8], table: &[u32]) -> Result<Option<Given>, Wrong>
    requires { length table.now ≡ 64 }
    ensures result_value { (ms : List Meter) → Known ms table.now → line_told line.now result ≡ line_of line.now ms }
    ensures fits { Fits line.now result }
{
    let w = day_words::find_word(line, 0);
    let at = w.start;
    let from = w.end;
    if !ascii::is_same(&line[at..from], b"meter") {
        return Ok(None);
    }
    let n = sheet_words::before_remark(&line[from..]);
    let end = from + n;
    match read_meter(&line[..end], from, table) {
        Ok(g) => Ok(Some(g)),
        Err(w) => Err(w),
    }
}

// A meter told by places in a line from a place on, by its places in the plant file.
fn moved(at: usize, g: Given) -> Given
    requires { (at + g.name_end < 18446744073709551616) × (at + g.spread_end < 18446744073709551616) × (g.name ≤ g.name_end) × (g.spread ≤ g.spread_end) }
    ensures { result ≡ moved at g }
{
    Given {
        number: g.number,
        name: at + g.name,
        name_end: at + g.name_end,
        spread: at + g.spread,
        spread_end: at + g.spread_end,
        allowed: g.allowed,
    }
}

// The line from a place to a place, told by places in the plant file.
fn next_line(plant: &[u8], at: usize, end: usize, table: &[u32]) -> Result<Option<Given>, Wrong>
    requires { Lies at end plant.now × (length table.now ≡ 64) }
    ensures next_read { NextRead plant.now at end table.now result }
    ensures fits { Fits plant.now result }
{
    let line = &plant[at..end];
    let n = day_words::trimmed(line);
    match read_line(&line[..n], table) {
        Err(w) => Err(Wrong {
            wanted: w.wanted,
            start: at + w.start,
            end: at + w.end,
        }),
        Ok(told) => match told {
            None => Ok(None),
            Some(g) => Ok(Some(moved(at, g))),
        },
    }
}

// 1 more than the minutes allowed; 0 where they are not limited.
fn limit_of(allowed: Option<u32>) -> u32
    requires { Few allowed }
    ensures { result ≡ limit_of allowed }
{
    match allowed {
        Some(k) => k + 1,
        None => 0,
    }
}

// Notes a meter.
fn note(table: &mut [u32], g: Given)
    requires { (length table.old ≡ 64) × (g.number < 16) × (g.name ≤ 65536) × (g.name_end ≤ 65536) × Few g.allowed }
    ensures { table.new ≡ with_row g table.old }
{
    let m = g.number as usize;
    table[NAME_ENDS + m] = g.name_end as u32;
    table[ALLOWED + m] = limit_of(g.allowed);
    table[NAMES + m] = g.name as u32;
    table[m] = 1;
}

// Every line from a place on, and its meters into the table. A `while`: each line tells where the next begins.
pub fn read_lines(plant: &[u8], from: usize, table: &mut [u32]) -> Result<(), Fault>
    requires { (from ≤ length plant.now) × (length plant.now ≤ 65536) × Noted plant.now [] table.old }
    ensures { LinesTold plant.now (lines_from (lines_of (drop from plant.now)) 0 []) result table.new }
{
    let mut at = from;
    let mut k = 0;
    let mut metered = false;
    while at < plant.len() {
        let end = day_words::line_end(plant, at);
        k += 1;
        match next_line(plant, at, end, table) {
            Err(wrong) => return Err(Fault { line: k, wrong }),
            Ok(told) => {
                if let Some(g) = told {
                    note(table, g);
                    metered = true;
                }
            }
        }
        at = end + 1;
    }
    if metered {
        return Ok(());
    }
    Err(Fault {
        line: k + 1,
        wrong: Wrong {
            wanted: Wanted::Meter,
            start: 0,
            end: 0,
        },
    })
}

// Where the remark of a line begins, which is its end where there is none.
pub fn remark_of(line: &[u8]) -> usize
    ensures { (drop result line.now ≡ remark_of (rest line.now)) × (result ≤ length line.now) }
{
    let w = day_words::find_word(line, 0);
    let from = w.end;
    from + sheet_words::before_remark(&line[from..])
}
