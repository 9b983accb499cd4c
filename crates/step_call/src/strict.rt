// The strict step's own test: which bounds are open as they should be.
ghost use Rattle.std.specs.Prelude.{◌≡◌, ◌&&◌, ◌≤◌, length};
ghost use Rattle.step_call.specs.Strict.{is_lower, is_upper};
ghost use Rattle.step_call.specs.inner.Work.{bounds_outcome};

use workspace::Refusal;

// A NaN is less than nothing, so one comparison a side tells.
pub fn are_bounds(lower: f64, upper: f64) -> bool
    ensures { result ≡ (is_lower lower && is_upper upper) }
{
    if lower < 1.0 / 0.0 {
        return -1.0 / 0.0 < upper;
    }
    false
}

// The bounds of the first `tested` variables, the lowest first.
pub fn test_bounds(lower: &[f64], upper: &[f64], tested: usize) -> Result<(), Refusal>
    requires { (tested ≤ 16) × (tested ≤ length lower.now) × (tested ≤ length upper.now) }
    ensures { result ≡ bounds_outcome lower.now upper.now tested 0 }
{
    for i in 0..tested {
        if !are_bounds(lower[i], upper[i]) {
            return Err(Refusal::Bound(i as u32));
        }
    }
    Ok(())
}
