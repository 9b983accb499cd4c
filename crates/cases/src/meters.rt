// Plants worked by hand (docs/RULES.md), whose meters are tested through the C interface.
use crate::lines::{end_line, tell_count, tell_floats, tell_number};
use problem_answer::{float_room, word_room};

// `, NAME WORD`
fn tell_word(name: &[u8], word: u32) {
    tell_count(name, u64::from(word));
}

// What is found of all meters.
fn tell_finding(misfit: f64, finding: &[u32; 4]) {
    tell_floats(b"misfit", &[misfit]);
    tell_word(b"freedom", finding[0]);
    tell_word(b"first", finding[1]);
    tell_word(b"agree", finding[2]);
    tell_word(b"explained", finding[3]);
}

// Two meters under the balance 1, -1: a line with all that is told of them.
fn tell_plant(name: &[u8], values: &[f64], spreads: &[f64], still: &[u8]) {
    let mut numbers = [0.0, 0.0, 0.0, 0.0, 0.0, 0.0];
    let mut groups = [9u32, 9];
    let mut marks = [9u32, 9];
    let mut misfit = 0.0;
    let mut finding = [9u32; 4];
    let mut place: u32 = 0;
    let mut w = float_room();
    let mut iw = word_room();
    let number = gritstrut::gritstrut_suspect(
        2,
        1,
        values,
        spreads,
        &[1.0, -1.0],
        still,
        &mut numbers,
        &mut groups,
        &mut marks,
        &mut misfit,
        &mut finding,
        &mut place,
        &mut w,
        &mut iw,
    );
    tell_number(name, number);
    tell_floats(b"numbers", &numbers);
    tell_finding(misfit, &finding);
    tell_word(b"groups", groups[0]);
    tell_word(b"and", groups[1]);
    tell_word(b"marks", marks[0]);
    tell_word(b"and", marks[1]);
    end_line();
}

// Two meters of one flow; and one of the value 4 against one that stands still.
pub fn tell_plants() {
    tell_plant(
        b"meters, 105 and 100 of one flow, spreads 3 and 4",
        &[105.0, 100.0],
        &[3.0, 4.0],
        &[0u8, 0],
    );
    tell_plant(
        b"meters, 4 against one that stands still",
        &[4.0, 0.0],
        &[2.0, 1.0],
        &[0u8, 1],
    );
}
