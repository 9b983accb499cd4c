// Runs stored calls that settle and certify volumes through the C interface.
use crate::run::told_place;
use replay_list::{Call, Values, junk, mark, mix_float, part, size, tolerance};

// Settled volumes: the number, the place and the bound.
pub fn run_settle(
    call: &Call,
    values: &Values,
    x: &mut [f64],
    y: &mut [f64],
    w: &mut [f64],
    iw: &mut [u32],
) -> u64 {
    let mut bound = junk(call);
    let mut place = mark(call);
    let number = gritstrut::gritstrut_settle(
        size(call, 0),
        size(call, 1),
        size(call, 2),
        part(call, values, 0),
        part(call, values, 1),
        part(call, values, 2),
        part(call, values, 3),
        part(call, values, 4),
        tolerance(call, values),
        x,
        y,
        &mut bound,
        &mut place,
        w,
        iw,
    );
    mix_float(told_place(number, place), bound)
}

// Certified volumes, which are the sixth input and their multipliers the seventh: the same.
pub fn run_certify(call: &Call, values: &Values, w: &mut [f64], iw: &mut [u32]) -> u64 {
    let mut bound = junk(call);
    let mut place = mark(call);
    let number = gritstrut::gritstrut_certify(
        size(call, 0),
        size(call, 1),
        size(call, 2),
        part(call, values, 0),
        part(call, values, 1),
        part(call, values, 2),
        part(call, values, 3),
        part(call, values, 4),
        part(call, values, 5),
        part(call, values, 6),
        &mut bound,
        &mut place,
        w,
        iw,
    );
    mix_float(told_place(number, place), bound)
}
