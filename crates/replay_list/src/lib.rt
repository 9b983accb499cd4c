// The stored calls: where their parts stand in the list, the memory that they are lent, and the digest of what they left
// (oracle/README.md, "The stored calls").
#![tactic(auto)]

mod call;
mod check;
mod day;
mod digest;
mod little;
mod memory;
mod operation;

pub use call::{
    Call, Values, is_whole, junk, kinds, length_at, mark, part, size, small_size, tally, values_of,
};
pub use check::{lowers, multipliers, tolerance, uppers};
pub use day::{lent_marks, mix_named, readings};
pub use digest::{digest_of, mix_count, mix_float, mix_kinds, mix_mark};
pub use little::word;
pub use memory::{
    first_output, lent_output, mix_output, mix_places, mix_room, mix_values, places, room,
};
pub use operation::{Operation, UnknownOperation};
