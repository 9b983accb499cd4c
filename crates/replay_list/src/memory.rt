// The memory that a call is lent, full of the call's junk, and its digest afterwards.
ghost use Rattle.std.specs.Prelude.{◌≡◌, length};

use crate::call::{Call, Values, junk, mark, part, room_junk};
use crate::digest::{mix_floats, mix_marks};
use crate::operation::Operation;

// The memory of a slice of floats that is written.
pub type Output = [f64; 1200];

// The memory of the workspace.
pub type Room = [f64; 8231];

// The memory of the other workspace, and of a permutation.
pub type Places = [u32; 551];

// The memory of an output.
pub fn lent_output(call: &Call) -> Output
    ensures { 1200 ≡ length result }
{
    [junk(call); 1200]
}

// The memory of the workspace.
pub fn room(call: &Call) -> Room
    ensures { 8231 ≡ length result }
{
    [room_junk(call); 8231]
}

// The memory of the other workspace.
pub fn places(call: &Call) -> Places
    ensures { 551 ≡ length result }
{
    [mark(call); 551]
}

// Copies a slice to the front of another, as far as that goes.
fn load(to: &mut [f64], from: &[f64]) {
    let n = to.len().min(from.len());
    to[..n].copy_from_slice(&from[..n]);
}

// The number of an operation whose output is its first input: an update, square or packed, and an answer to a search.
fn is_changed(operation: usize) -> bool {
    matches!(
        Operation::try_from(operation as u64),
        Ok(Operation::Update | Operation::PackedUpdate | Operation::Tell)
    )
}

// The memory of the first output: for an update the matrix, for an answer the machine, which are changed where they stand.
pub fn first_output(operation: usize, call: &Call, values: &Values) -> Output
    ensures { 1200 ≡ length result }
{
    if !is_changed(operation) {
        return lent_output(call);
    }
    let mut memory = lent_output(call);
    load(&mut memory, part(call, values, 0));
    memory
}

// The digest with an output more.
pub fn mix_output(d: u64, memory: &Output) -> u64 {
    mix_floats(d, memory)
}

// The digest with a u32 memory more.
pub fn mix_places(d: u64, memory: &Places) -> u64 {
    mix_marks(d, memory)
}

// The digest with the workspace more.
pub fn mix_room(d: u64, memory: &Room) -> u64 {
    mix_floats(d, memory)
}

// The digest with the inputs more.
pub fn mix_values(d: u64, memory: &Values) -> u64 {
    mix_floats(d, memory)
}
