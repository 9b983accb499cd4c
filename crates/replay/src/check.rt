// Runs a stored check through the C interface.
use crate::run::told;
use replay_list::{
    Call, Values, kinds, length_at, lowers, mix_kinds, mix_places, multipliers, part, places, size,
    tolerance, uppers,
};

// The check: its number, the whole memory of the verdict, and the kinds, which it has read.
pub fn run_check(call: &Call, values: &Values, w: &mut [f64], iw: &mut [u32]) -> u64 {
    let verdicts = length_at(call, 5, 551);
    let g = kinds(call);
    let mut verdict = places(call);
    let number = gritstrut::gritstrut_check(
        size(call, 0),
        size(call, 1),
        part(call, values, 0),
        part(call, values, 1),
        g,
        part(call, values, 2),
        part(call, values, 3),
        part(call, values, 4),
        part(call, values, 5),
        part(call, values, 6),
        part(call, values, 7),
        multipliers(call, values),
        lowers(call, values),
        uppers(call, values),
        tolerance(call, values),
        &mut verdict[..verdicts],
        w,
        iw,
    );
    mix_kinds(mix_places(told(number), &verdict), g)
}
