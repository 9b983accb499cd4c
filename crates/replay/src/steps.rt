// Runs a stored step, or strict step, through the C interface.
use crate::run::told;
use replay_list::{
    Call, Operation, Values, junk, kinds, length_at, mix_count, mix_float, mix_kinds, mix_places,
    part, places, size, tally,
};

// The step, or the strict step.
fn step_by(
    operation: Operation,
    call: &Call,
    values: &Values,
    d: &mut [f64],
    multipliers: &mut [f64],
    relaxation: &mut f64,
    report: &mut [u32],
    counts: &mut [u64; 2],
    w: &mut [f64],
    iw: &mut [u32],
) -> u32 {
    let n = size(call, 0);
    let m = size(call, 1);
    let factor = part(call, values, 0);
    let gradient = part(call, values, 1);
    let g = kinds(call);
    let c = part(call, values, 2);
    let widths = part(call, values, 3);
    let jacobian = part(call, values, 4);
    let lower = part(call, values, 5);
    let upper = part(call, values, 6);
    if operation == Operation::Step {
        return gritstrut::gritstrut_step(
            n,
            m,
            factor,
            gradient,
            g,
            c,
            widths,
            jacobian,
            lower,
            upper,
            d,
            multipliers,
            relaxation,
            report,
            counts,
            w,
            iw,
        );
    }
    gritstrut::gritstrut_strict_step(
        n,
        m,
        factor,
        gradient,
        g,
        c,
        widths,
        jacobian,
        lower,
        upper,
        d,
        multipliers,
        relaxation,
        report,
        counts,
        w,
        iw,
    )
}

// Its number, the relaxation, the tally, the report's whole memory and the kinds, which it has read.
pub fn run_step(
    operation: Operation,
    call: &Call,
    values: &Values,
    d: &mut [f64],
    multipliers: &mut [f64],
    w: &mut [f64],
    iw: &mut [u32],
) -> u64 {
    let reports = length_at(call, 5, 551);
    let mut relaxation = junk(call);
    let mut report = places(call);
    let mut counts = tally(call);
    let number = step_by(
        operation,
        call,
        values,
        d,
        multipliers,
        &mut relaxation,
        &mut report[..reports],
        &mut counts,
        w,
        iw,
    );
    let spent = mix_count(
        mix_count(mix_float(told(number), relaxation), counts[0]),
        counts[1],
    );
    mix_kinds(mix_places(spent, &report), kinds(call))
}
