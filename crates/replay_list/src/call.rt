// Where the parts of a stored call stand among its bytes: four sizes of eight bytes, the junk, sixteen lengths of two
// bytes, the inputs one after the other, the kinds.
ghost use Rattle.std.specs.Prelude.{◌≡◌, ◌*◌, ◌≤◌, ◌<◌, length};

use crate::little::{short, word};

// A call's bytes, and zeros after them.
pub type Call = [u8; 12288];

// Its bytes from the first input on as floats.
pub type Values = [f64; 1525];

// One of the four sizes.
pub fn size(call: &Call, i: usize) -> usize
    requires { i < 4 }
{
    word(call, 8 * i) as usize
}

// The float that outputs hold before the call.
pub fn junk(call: &Call) -> f64 {
    problem_read::value(word(call, 32))
}

// The float that the workspace holds before the call.
pub fn room_junk(call: &Call) -> f64 {
    problem_read::value(word(call, 40))
}

// The counts that the tally holds before the call: the same two words.
pub fn tally(call: &Call) -> [u64; 2] {
    [word(call, 32), word(call, 40)]
}

// The last half of a word.
pub fn low(x: u64) -> u32 {
    (x % 4294967296) as u32
}

// One of the four sizes as a u32: the last half of its word.
pub fn small_size(call: &Call, i: usize) -> u32
    requires { i < 4 }
{
    low(word(call, 8 * i))
}

// The u32 that outputs and the other workspace hold before the call.
pub fn mark(call: &Call) -> u32 {
    low(word(call, 48))
}

// One of the sixteen lengths.
fn length_of(call: &Call, i: usize) -> usize
    requires { i < 16 }
    ensures { result < 65536 }
{
    short(call, 56 + 2 * i) as usize
}

// A length, or `most` where it is larger; `is_whole` refuses a call that has such a length.
pub fn length_at(call: &Call, i: usize, most: usize) -> usize
    requires { i < 16 }
    ensures { result ≤ most }
{
    length_of(call, i).min(most)
}

// How many values stand before input i.
pub fn start(call: &Call, i: usize) -> usize
    requires { i < 10 }
    ensures { result ≤ 65536 * i }
{
    let mut sum = 0;
    for k in 0..i {
        sum += length_of(call, 7 + k);
    }
    sum
}

// The floats from one place to another.
pub fn between(values: &[f64], from: usize, to: usize) -> &[f64]
    requires { (from ≤ to) × (to ≤ length values.now) }
{
    &values[from..to]
}

// Input i.
pub fn part<'a>(call: &Call, values: &'a Values, i: usize) -> &'a [f64]
    requires { i < 9 }
{
    let from = start(call, i).min(1525);
    between(values, from, from + length_at(call, 7 + i, 1525 - from))
}

// The bytes from one place to another.
fn among(bytes: &[u8], from: usize, to: usize) -> &[u8]
    requires { (from ≤ to) × (to ≤ length bytes.now) }
{
    &bytes[from..to]
}

// The kinds.
pub fn kinds(call: &Call) -> &[u8] {
    let from = (88 + 8 * start(call, 9)).min(12288);
    among(call, from, from + length_at(call, 6, 12288 - from))
}

// Whether the lengths are within the memory that is lent.
fn fits(call: &Call) -> bool {
    if 8231 < length_of(call, 0) {
        return false;
    }
    if 551 < length_of(call, 1) {
        return false;
    }
    for i in 2..5 {
        if 1200 < length_of(call, i) {
            return false;
        }
    }
    length_of(call, 5) <= 551
}

// Whether a call of n bytes has lengths that fit, and ends where they say.
pub fn is_whole(call: &Call, n: usize) -> bool {
    if !fits(call) {
        return false;
    }
    88 + 8 * start(call, 9) + length_of(call, 6) == n
}

// Room for the values.
fn no_values() -> Values
    ensures { 1525 ≡ length result }
{
    [0.0; 1525]
}

// The values of a call, and those that the bytes after them make.
pub fn values_of(call: &Call) -> Values {
    let mut values = no_values();
    for i in 0..1525 {
        values[i] = problem_read::value(word(call, 88 + 8 * i));
    }
    values
}
