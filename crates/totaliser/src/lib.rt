// Totalisers of six digits.
#![tactic(auto)]

ghost use Rattle.std.specs.Prelude.{◌≡◌, ◌≤◌};
ghost use Rattle.totaliser.specs.Volume.{largest, volume};

// The largest reading.
pub const LARGEST: u32 = 999999;

// The volume between two readings; a full turn cannot be seen.
pub fn volume_between(old: u32, new: u32) -> u32
    requires { (old ≤ largest) × (new ≤ largest) }
    ensures { result ≡ volume old new }
{
    if new < old {
        return new + 1000000 - old;
    }
    new - old
}
