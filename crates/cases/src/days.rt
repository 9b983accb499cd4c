// The days worked by hand (docs/RULES.md), called through the C interface.
use crate::lines::{end_line, tell_call, tell_count, tell_floats, tell_number};
use problem_answer::{float_room, word_room};

// The four meters of docs/MANUAL.md, one of which rolled over.
fn tell_header() {
    let before = [431250u32, 999710, 20000, 750300];
    let after = [432450u32, 500, 21310, 751000];
    let spreads = [10.0, 10.0, 20.0, 5.0];
    let balances = [1.0, 1.0, -1.0, -1.0];
    let mut volumes = [0.0, 0.0, 0.0, 0.0];
    let mut named = [0u8, 0, 0, 0];
    let mut place: u32 = 0;
    let mut w = float_room();
    let mut iw = word_room();
    let number = gritstrut::gritstrut_reconcile(
        4,
        1,
        &before,
        &after,
        &spreads,
        &balances,
        &mut volumes,
        &mut named,
        &mut place,
        &mut w,
        &mut iw,
    );
    tell_call(
        b"day, four meters around one header",
        number,
        b"volumes",
        &volumes,
    );
}

// `, named MARK`
fn tell_mark(mark: u8) {
    tell_count(b"named", u64::from(mark));
}

// Two meters whose volumes add up to zero, of which rounding leaves one below it.
fn tell_left() {
    let mut volumes = [0.0, 0.0];
    let mut named = [0u8, 0];
    let mut place: u32 = 0;
    let mut w = float_room();
    let mut iw = word_room();
    let number = gritstrut::gritstrut_reconcile(
        2,
        1,
        &[0u32, 0],
        &[3u32, 5],
        &[1.0, 1.0],
        &[1.0, 1.0],
        &mut volumes,
        &mut named,
        &mut place,
        &mut w,
        &mut iw,
    );
    tell_number(b"day, 3 and 5 whose sum is zero", number);
    tell_floats(b"volumes", &volumes);
    tell_mark(named[0]);
    tell_mark(named[1]);
    end_line();
}

// A meter with a reading of seven digits and a spread of zero, behind a sound one.
fn tell_amiss() {
    let mut volumes = [0.0, 0.0];
    let mut named = [0u8, 0];
    let mut place: u32 = 0;
    let mut w = float_room();
    let mut iw = word_room();
    let number = gritstrut::gritstrut_reconcile(
        2,
        0,
        &[1u32, 1000000],
        &[2u32, 2],
        &[1.0, 0.0],
        &[],
        &mut volumes,
        &mut named,
        &mut place,
        &mut w,
        &mut iw,
    );
    tell_number(
        b"day, a reading of 1000000 and a spread of 0 on meter 1",
        number,
    );
    tell_count(b"place", u64::from(place));
    end_line();
}

// A line for each.
pub fn tell_days() {
    tell_header();
    tell_left();
    tell_amiss();
}
