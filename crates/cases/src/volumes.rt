// Volumes worked by hand (docs/RULES.md), settled and certified through the C interface.
use crate::lines::{end_line, tell_count, tell_floats, tell_number};
use problem_answer::{float_room, word_room};

// What a call told beside its number: the bound, or from 11 on the place.
fn tell_outcome(number: u32, bound: f64, place: u32) {
    if number == 0 {
        tell_floats(b"bound", &[bound]);
    }
    if 10 < number {
        tell_count(b"place", u64::from(place));
    }
    end_line();
}

// Volumes that are settled within a tolerance.
fn tell_settled(
    name: &[u8],
    n: usize,
    m: usize,
    p: usize,
    values: &[f64],
    spreads: &[f64],
    balances: &[f64],
    limits: &[f64],
    least: &[f64],
    tolerance: f64,
    volumes: &mut [f64],
    multipliers: &mut [f64],
) {
    let mut bound = 0.0;
    let mut place: u32 = 0;
    let mut w = float_room();
    let mut iw = word_room();
    let number = gritstrut::gritstrut_settle(
        n,
        m,
        p,
        values,
        spreads,
        balances,
        limits,
        least,
        tolerance,
        volumes,
        multipliers,
        &mut bound,
        &mut place,
        &mut w,
        &mut iw,
    );
    tell_number(name, number);
    if number == 0 {
        tell_floats(b"volumes", volumes);
    }
    tell_outcome(number, bound, place);
}

// The meters of examples/pinned.sheet: two balances leave the last one nothing.
fn tell_pinned() {
    let limits = [
        1.0, 0.0, 0.0, 0.0, 0.0, 1.0, 0.0, 0.0, 0.0, 0.0, 1.0, 0.0, 0.0, 0.0, 0.0, 1.0,
    ];
    tell_settled(
        b"settle, a vent that two balances pin",
        4,
        2,
        4,
        &[1338.0, 5681.0, 5680.0, 0.0],
        &[40.0, 40.0, 10.0, 0.5],
        &[0.0, -1.0, 1.0, -1.0, 0.0, -1.0, 1.0, 0.0],
        &limits,
        &[0.0, 0.0, 0.0, 0.0],
        0.001,
        &mut [0.0, 0.0, 0.0, 0.0],
        &mut [0.0, 0.0, 0.0, 0.0, 0.0, 0.0],
    );
}

// The meters of examples/twice.sheet: a balance stands twice, and its coefficients hide it.
fn tell_twice() {
    tell_settled(
        b"settle, a balance stated twice",
        3,
        2,
        3,
        &[470.0, 3532.0, 3232.0],
        &[47.0, 353.0, 323.0],
        &[0.2, -5.7, 6.2, 0.2, -5.7, 6.2],
        &[1.0, 0.0, 0.0, 0.0, 1.0, 0.0, 0.0, 0.0, 1.0],
        &[0.0, 0.0, 0.0],
        0.001,
        &mut [0.0, 0.0, 0.0],
        &mut [0.0, 0.0, 0.0, 0.0, 0.0],
    );
}

// The bound of volumes and multipliers of the day below.
fn tell_certified(name: &[u8], volumes: &[f64], multipliers: &[f64]) {
    let mut bound = 0.0;
    let mut place: u32 = 0;
    let mut w = float_room();
    let mut iw = word_room();
    let number = gritstrut::gritstrut_certify(
        3,
        1,
        3,
        &[1000.0, 0.0, 3000.0],
        &[0.02, 0.02, 0.02],
        &[1.0, -1.0, -1.0],
        &[1.0, 0.0, 0.0, 0.0, 1.0, 0.0, 0.0, 0.0, 1.0],
        &[0.0, 0.0, 0.0],
        volumes,
        multipliers,
        &mut bound,
        &mut place,
        &mut w,
        &mut iw,
    );
    tell_number(name, number);
    tell_outcome(number, bound, place);
}

// Three meters whose balance lies 1e5 spreads away, and what was stored certified again.
fn tell_distant() {
    let mut volumes = [0.0, 0.0, 0.0];
    let mut multipliers = [0.0, 0.0, 0.0, 0.0];
    tell_settled(
        b"settle, 1000, 0 and 3000 with spreads of 0.02",
        3,
        1,
        3,
        &[1000.0, 0.0, 3000.0],
        &[0.02, 0.02, 0.02],
        &[1.0, -1.0, -1.0],
        &[1.0, 0.0, 0.0, 0.0, 1.0, 0.0, 0.0, 0.0, 1.0],
        &[0.0, 0.0, 0.0],
        0.001,
        &mut volumes,
        &mut multipliers,
    );
    tell_certified(b"certify, what was settled", &volumes, &multipliers);
    tell_certified(
        b"certify, the same without a witness",
        &volumes,
        &[0.0, 0.0, 0.0, 0.0],
    );
    tell_certified(
        b"certify, a witness below zero",
        &volumes,
        &[2500000.0, 0.0, -1.0, 0.0],
    );
}

// One value with its spread under limits.
fn tell_one(
    name: &[u8],
    value: f64,
    spread: f64,
    limits: &[f64],
    least: &[f64],
    tolerance: f64,
    multipliers: &mut [f64],
) {
    tell_settled(
        name,
        1,
        0,
        least.len(),
        &[value],
        &[spread],
        &[],
        limits,
        least,
        tolerance,
        &mut [0.0],
        multipliers,
    );
}

// One value with a floor.
fn tell_floor(name: &[u8], value: f64, spread: f64, floor: f64, tolerance: f64) {
    tell_one(name, value, spread, &[1.0], &[floor], tolerance, &mut [0.0]);
}

// A floor of 3, alone, above a ceiling, and with what is wrong beside it.
fn tell_floors() {
    let none = 0.0 / 0.0;
    tell_floor(b"settle, a floor of 3", 1.0, 1.0, 3.0, 0.001);
    tell_one(
        b"settle, a floor of 3 and a ceiling of 2",
        1.0,
        1.0,
        &[1.0, -1.0],
        &[3.0, -2.0],
        0.001,
        &mut [0.0, 0.0],
    );
    tell_floor(b"settle, a tolerance of -1", none, 0.0, none, -1.0);
    tell_floor(b"settle, a value that is NaN", none, 0.0, none, 0.001);
    tell_floor(b"settle, a spread of 0", 1.0, 0.0, none, 0.001);
    tell_floor(b"settle, a floor that is NaN", 1.0, 1.0, none, 0.001);
}

// A line for each.
pub fn tell_volumes() {
    tell_pinned();
    tell_twice();
    tell_distant();
    tell_floors();
}
