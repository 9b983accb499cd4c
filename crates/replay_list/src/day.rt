// The readings and the marks of a stored day.
ghost use Rattle.std.specs.Prelude.{◌≡◌, ◌+◌, ◌<◌, ◌≤◌, length};

use crate::call::{Call, length_at, low, mark, start};
use crate::digest::mix_kinds;
use crate::little::word;
use crate::memory::{Places, places};

// The memory of the marks.
pub type Marks = [u8; 551];

// A byte of a u32 that is no mark.
fn byte_of(x: u32) -> u8 {
    (x % 128 + 128) as u8
}

// The memory of the marks, full of the call's junk.
pub fn lent_marks(call: &Call) -> Marks
    ensures { 551 ≡ length result }
{
    [byte_of(mark(call)); 551]
}

// The last half of the word at a place among the inputs, or of the last one of the call.
fn reading_at(call: &Call, k: usize) -> u32
    requires { k ≤ 100000 }
{
    low(word(call, (88 + 8 * k).min(12280)))
}

// The readings that are the call's first input or its second, each the last half of a word.
pub fn readings(call: &Call, i: usize) -> Places
    requires { i < 2 }
    ensures { 551 ≡ length result }
{
    let mut memory = places(call);
    let from = start(call, i);
    for k in 0..length_at(call, 7 + i, 551) {
        memory[k] = reading_at(call, from + k);
    }
    memory
}

// The digest with the memory of the marks more, its length first.
pub fn mix_named(d: u64, memory: &Marks) -> u64 {
    mix_kinds(d, memory)
}
