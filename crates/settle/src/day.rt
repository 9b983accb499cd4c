// What a day's volumes are settled from, as it is lent: its parts, of the lengths that its sizes say.
ghost use Rattle.std.specs.Prelude.{◌≡◌, ◌*◌, ◌≤◌, length};

// n values with their spreads, m balances whose sums are wanted zero, and p limits whose sums are wanted at least `least`: a row of n coefficients for each.
#[derive(Clone, Copy)]
pub struct MeasuredDay<'a> {
    pub n: usize,
    pub m: usize,
    pub p: usize,
    pub values: &'a [f64],
    pub spreads: &'a [f64],
    pub balances: &'a [f64],
    pub limits: &'a [f64],
    pub least: &'a [f64],
    pub ghost few_values: { n ≤ 16 },
    pub ghost few_balances: { m ≤ 16 },
    pub ghost few_limits: { p ≤ 48 },
    pub ghost value: { length values.now ≡ n },
    pub ghost spread: { length spreads.now ≡ n },
    pub ghost balance: { length balances.now ≡ m * n },
    pub ghost limit: { length limits.now ≡ p * n },
    pub ghost least_of_limit: { length least.now ≡ p },
}
