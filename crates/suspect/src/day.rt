// What meters are tested by, as it is lent: its parts, of the lengths that its sizes say.
ghost use Rattle.std.specs.Prelude.{◌≡◌, ◌*◌, ◌≤◌, length};

// n meters' values with their spreads, m balances of n coefficients each, and which meters stand still (1).
#[derive(Clone, Copy)]
pub struct MeteredDay<'a> {
    pub n: usize,
    pub m: usize,
    pub values: &'a [f64],
    pub spreads: &'a [f64],
    pub balances: &'a [f64],
    pub still: &'a [u8],
    pub ghost few_meters: { n ≤ 16 },
    pub ghost few_balances: { m ≤ 16 },
    pub ghost value: { length values.now ≡ n },
    pub ghost spread: { length spreads.now ≡ n },
    pub ghost balance: { length balances.now ≡ m * n },
    pub ghost mark: { length still.now ≡ n },
}
