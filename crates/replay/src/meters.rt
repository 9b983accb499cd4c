// Runs stored tests of meters through the C interface.
use crate::run::told_place;
use replay_list::{
    Call, Values, junk, kinds, length_at, mark, mix_float, mix_kinds, mix_mark, mix_places, part,
    places, size,
};

// The digest with what is found of all meters more.
fn mix_finding(d: u64, finding: &[u32; 4]) -> u64 {
    let half = mix_mark(mix_mark(d, finding[0]), finding[1]);
    mix_mark(mix_mark(half, finding[2]), finding[3])
}

// The tests of meters: the number, the place, the misfit, what is found, the whole memory of groups and marks, and the
// marks of the still, which it has read.
pub fn run_suspect(
    call: &Call,
    values: &Values,
    x: &mut [f64],
    w: &mut [f64],
    iw: &mut [u32],
) -> u64 {
    let count = length_at(call, 5, 551);
    let marked = length_at(call, 3, 551);
    let still = kinds(call);
    let mut groups = places(call);
    let mut marks = places(call);
    let mut misfit = junk(call);
    let mut finding = [mark(call); 4];
    let mut place = mark(call);
    let number = gritstrut::gritstrut_suspect(
        size(call, 0),
        size(call, 1),
        part(call, values, 0),
        part(call, values, 1),
        part(call, values, 2),
        still,
        x,
        &mut groups[..count],
        &mut marks[..marked],
        &mut misfit,
        &mut finding,
        &mut place,
        w,
        iw,
    );
    let d = mix_finding(mix_float(told_place(number, place), misfit), &finding);
    mix_kinds(mix_places(mix_places(d, &groups), &marks), still)
}
