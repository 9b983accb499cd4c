// Runs a stored day through the C interface.
use crate::run::told_place;
use replay_list::{Call, Values, length_at, lent_marks, mark, mix_named, part, readings, size};

// The day: its number, the place and the whole memory of the marks.
pub fn run_day(call: &Call, values: &Values, x: &mut [f64], w: &mut [f64], iw: &mut [u32]) -> u64 {
    let olds = length_at(call, 7, 551);
    let news = length_at(call, 8, 551);
    let marks = length_at(call, 5, 551);
    let before = readings(call, 0);
    let after = readings(call, 1);
    let mut named = lent_marks(call);
    let mut place = mark(call);
    let number = gritstrut::gritstrut_reconcile(
        size(call, 0),
        size(call, 1),
        &before[..olds],
        &after[..news],
        part(call, values, 2),
        part(call, values, 3),
        x,
        &mut named[..marks],
        &mut place,
        w,
        iw,
    );
    mix_named(told_place(number, place), &named)
}
