// What the check is lent: a step that may come from anywhere, beside its problem.
ghost use Rattle.std.specs.Prelude.{◌≡◌, length};

use step_rows::Subproblem;

// A problem, a step d of it, and multipliers of its constraints and of the lower and upper side of each variable.
#[derive(Clone, Copy)]
pub struct Posed<'a> {
    pub problem: Subproblem<'a>,
    pub d: &'a [f64],
    pub multipliers: &'a [f64],
    pub lowers: &'a [f64],
    pub uppers: &'a [f64],
    pub ghost step: { length d.now ≡ problem.n },
    pub ghost prices: { length multipliers.now ≡ problem.m },
    pub ghost low_prices: { length lowers.now ≡ problem.n },
    pub ghost high_prices: { length uppers.now ≡ problem.n },
}
