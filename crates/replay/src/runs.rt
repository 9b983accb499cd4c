// Runs a stored call of the search through the C interface.
use crate::run::{told, told_place};
use replay_list::{
    Call, Values, kinds, length_at, mark, mix_kinds, mix_places, part, places, readings, size,
    small_size, tolerance,
};

// The beginning of a search: its number, the variable of a bound, the whole memory of the words, and the kinds.
pub fn run_begin(
    call: &Call,
    values: &Values,
    machine: &mut [f64],
    w: &mut [f64],
    iw: &mut [u32],
) -> u64 {
    let us = length_at(call, 5, 551);
    let g = kinds(call);
    let mut words = places(call);
    let mut place = mark(call);
    let number = gritstrut::gritstrut_search_begin(
        size(call, 0),
        size(call, 1),
        g,
        part(call, values, 0),
        part(call, values, 1),
        part(call, values, 2),
        tolerance(call, values),
        small_size(call, 2),
        small_size(call, 3),
        machine,
        &mut words[..us],
        &mut place,
        w,
        iw,
    );
    mix_kinds(mix_places(told_place(number, place), &words), g)
}

// An answer to the machine in the first input, whose words are the second: its number, and the whole memory of the words.
pub fn run_tell(
    call: &Call,
    values: &Values,
    machine: &mut [f64],
    w: &mut [f64],
    iw: &mut [u32],
) -> u64 {
    let us = length_at(call, 5, 551);
    let mut words = readings(call, 1);
    let number = gritstrut::gritstrut_search_tell(
        part(call, values, 2),
        machine,
        &mut words[..us],
        w,
        iw,
    );
    mix_places(told(number), &words)
}
