// The searches worked by hand (docs/RULES.md), called through the C interface: x * x / 2 of one variable, to 1/1024.
ghost use Rattle.std.specs.Prelude.{◌≡◌, length};

use crate::lines::{end_line, tell_count, tell_floats, tell_number};
use problem_answer::{float_room, word_room};

// The machine's numbers, blank.
fn machine_room() -> [f64; 1024]
    ensures { 1024 ≡ length result }
{
    [0.0; 1024]
}

// Its words, blank.
fn machine_words() -> [u32; 32]
    ensures { 32 ≡ length result }
{
    [0; 32]
}

// `, stands PHASE`
fn tell_phase(phase: u32) {
    tell_count(b"stands", u64::from(phase));
}

// The point that is asked about, where one is.
fn tell_question(machine: &[f64], words: &[u32])
    requires { (length machine.now ≡ 1024) × (length words.now ≡ 32) }
{
    if words[0] < 6 {
        tell_floats(b"asks at", &machine[976..977]);
    }
}

// The first word, the question, and what is reported: the accepted point and its value.
fn tell_standing(machine: &[f64], words: &[u32])
    requires { (length machine.now ≡ 1024) × (length words.now ≡ 32) }
{
    tell_phase(words[0]);
    tell_question(machine, words);
    tell_floats(b"x", &machine[48..49]);
    tell_floats(b"value", &machine[128..129]);
}

// A run from x begins.
fn begin(
    kinds: &[u8],
    x: f64,
    high: f64,
    budget: u32,
    scheme: u32,
    machine: &mut [f64],
    words: &mut [u32],
) -> u32 {
    let lower = [-1.0 / 0.0];
    let upper = [high];
    let start = [x];
    let mut place: u32 = 0;
    let mut w = float_room();
    let mut iw = word_room();
    gritstrut::gritstrut_search_begin(
        1,
        kinds.len(),
        kinds,
        &lower,
        &upper,
        &start,
        1.0 / 1024.0,
        budget,
        scheme,
        machine,
        words,
        &mut place,
        &mut w,
        &mut iw,
    )
}

// An answer.
fn answer(told: &[f64], machine: &mut [f64], words: &mut [u32]) -> u32 {
    let mut w = float_room();
    let mut iw = word_room();
    gritstrut::gritstrut_search_tell(told, machine, words, &mut w, &mut iw)
}

// Answers of one number each, and the number of the last call.
fn answer_each(told: &[f64], begun: u32, machine: &mut [f64], words: &mut [u32]) -> u32 {
    let mut number = begun;
    for i in 0..told.len() {
        number = answer(&told[i..i + 1], machine, words);
    }
    number
}

// A run without constraints.
fn tell_run(name: &[u8], x: f64, high: f64, budget: u32, scheme: u32, told: &[f64]) {
    let mut machine = machine_room();
    let mut words = machine_words();
    let begun = begin(&[], x, high, budget, scheme, &mut machine, &mut words);
    let number = answer_each(told, begun, &mut machine, &mut words);
    tell_number(name, number);
    tell_standing(&machine, &words);
    end_line();
}

// A run from 1 without bounds whose slopes are told.
fn tell_told(name: &[u8], budget: u32, told: &[f64]) {
    tell_run(name, 1.0, 1.0 / 0.0, budget, 0, told);
}

// The same by differences.
fn tell_moved(name: &[u8], scheme: u32, told: &[f64]) {
    tell_run(name, 1.0, 1.0 / 0.0, 9, scheme, told);
}

// From 1 to 0, where the run converges, and an answer after that; half the step where 0 is no better.
fn tell_turns() {
    tell_told(b"search, x*x/2 from 1", 9, &[]);
    tell_told(b"search, told 1/2", 9, &[0.5]);
    tell_told(b"search, told 1/2, 1", 9, &[0.5, 1.0]);
    tell_told(b"search, told 1/2, 1, 0", 9, &[0.5, 1.0, 0.0]);
    tell_told(b"search, told 1/2, 1, 0, 0", 9, &[0.5, 1.0, 0.0, 0.0]);
    tell_told(
        b"search, told 1/2, 1, 0, 0, 0",
        9,
        &[0.5, 1.0, 0.0, 0.0, 0.0],
    );
    tell_told(b"search, told 1/2, 1, 1/2", 9, &[0.5, 1.0, 0.5]);
}

// Budgets of one value and of none, a NaN, and a start that is clipped.
fn tell_ends() {
    tell_told(b"search, budget 1, told 1/2, 1", 1, &[0.5, 1.0]);
    tell_told(b"search, budget 0", 0, &[]);
    tell_told(b"search, told NaN", 9, &[0.0 / 0.0]);
    tell_run(b"search, x at most 1, from 2", 2.0, 1.0, 9, 0, &[]);
}

// Slopes from values at 1 + 2^-26 and 1 - 2^-26.
fn tell_differences() {
    let part = 1.0 / 67108864.0;
    tell_moved(b"search, forward, told 1/2", 1, &[0.5]);
    tell_moved(
        b"search, forward, told 1/2, 1/2 + 2^-26",
        1,
        &[0.5, 0.5 + part],
    );
    tell_moved(
        b"search, central, told 1/2, 1/2 + 2^-26",
        2,
        &[0.5, 0.5 + part],
    );
    tell_moved(
        b"search, central, told 1/2, 1/2 + 2^-26, 1/2 - 2^-26",
        2,
        &[0.5, 0.5 + part, 0.5 - part],
    );
}

// Under x - 1 = 0 the start is the answer, with the multiplier 1.
fn tell_held() {
    let mut machine = machine_room();
    let mut words = machine_words();
    begin(&[0u8], 1.0, 1.0 / 0.0, 9, 0, &mut machine, &mut words);
    answer(&[0.5, 0.0], &mut machine, &mut words);
    let number = answer(&[1.0, 1.0], &mut machine, &mut words);
    tell_number(b"search, x - 1 = 0, told 1/2 and 0, 1 and 1", number);
    tell_standing(&machine, &words);
    tell_floats(b"multiplier", &machine[96..97]);
    end_line();
}

// A line for each.
pub fn tell_searches() {
    tell_turns();
    tell_ends();
    tell_differences();
    tell_held();
}
