// What a stored check has besides a problem and a step: its last input holds the multipliers of constraints, of lower
// sides and of upper sides, and the tolerance, one after the other. How many the first two are stands where other calls
// have the lengths of outputs.
ghost use Rattle.std.specs.Prelude.{◌≡◌, ◌≤◌};

use crate::call::{Call, Values, between, length_at, part};

// The place before the last, or `from` where there is none.
fn before_last(from: usize, len: usize) -> usize
    requires { from ≤ len }
    ensures { (from ≤ result) × (result ≤ len) }
{
    if from < len { len - 1 } else { from }
}

// The multipliers of constraints.
pub fn multipliers<'a>(call: &Call, values: &'a Values) -> &'a [f64] {
    let pasted = part(call, values, 8);
    between(pasted, 0, length_at(call, 2, pasted.len()))
}

// The multipliers of lower sides.
pub fn lowers<'a>(call: &Call, values: &'a Values) -> &'a [f64] {
    let pasted = part(call, values, 8);
    let from = length_at(call, 2, pasted.len());
    between(pasted, from, from + length_at(call, 3, pasted.len() - from))
}

// The multipliers of upper sides.
pub fn uppers<'a>(call: &Call, values: &'a Values) -> &'a [f64] {
    let pasted = part(call, values, 8);
    let first = length_at(call, 2, pasted.len());
    let from = first + length_at(call, 3, pasted.len() - first);
    between(pasted, from, before_last(from, pasted.len()))
}

// The tolerance.
pub fn tolerance(call: &Call, values: &Values) -> f64 {
    let pasted = part(call, values, 8);
    if pasted.is_empty() {
        return 0.0;
    }
    pasted[pasted.len() - 1]
}
