// A running tally of what steps took: two counts that a caller lends and each step raises.
#![tactic(auto)]

ghost use Rattle.std.specs.Prelude.{◌≡◌};
ghost use Rattle.tally.specs.Tally.{raised};

// Rounds and factorings.
#[derive(Clone, Copy, Debug, PartialEq, Eq)]
pub struct Tally {
    pub rounds: u64,
    pub factorings: u64,
}

impl Tally {
    // The tally raised by what a step took; a count that would pass the range stays at its largest value.
    pub fn plus(self, rounds: u64, factorings: u64) -> Self
        ensures { result ≡ raised self rounds factorings }
    {
        Self {
            rounds: self.rounds.saturating_add(rounds),
            factorings: self.factorings.saturating_add(factorings),
        }
    }
}

// Raises a lent tally: read, add, store.
pub fn raise(t: &mut Tally, rounds: u64, factorings: u64)
    ensures { t.new ≡ raised t.old rounds factorings }
{
    *t = t.plus(rounds, factorings);
}
