// What a step's problem is lent as, whole, or its constraints alone: the parts, of the lengths that its sizes say.
ghost use Rattle.std.specs.Prelude.{◌≡◌, ◌*◌, ◌≤◌, length};

// n variables and m constraints: the factor L of B = L L' and the gradient; the constraints' kinds, values, widths and Jacobian; and the step's bounds.
#[derive(Clone, Copy)]
pub struct Subproblem<'a> {
    pub n: usize,
    pub m: usize,
    pub factor: &'a [f64],
    pub gradient: &'a [f64],
    pub kinds: &'a [u8],
    pub values: &'a [f64],
    pub widths: &'a [f64],
    pub jacobian: &'a [f64],
    pub lower: &'a [f64],
    pub upper: &'a [f64],
    pub ghost few_variables: { n ≤ 16 },
    pub ghost few_constraints: { m ≤ 16 },
    pub ghost square: { length factor.now ≡ n * n },
    pub ghost slope: { length gradient.now ≡ n },
    pub ghost kind: { length kinds.now ≡ m },
    pub ghost value: { length values.now ≡ m },
    pub ghost width: { length widths.now ≡ m },
    pub ghost entries: { length jacobian.now ≡ m * n },
    pub ghost low: { length lower.now ≡ n },
    pub ghost high: { length upper.now ≡ n },
}

// m constraints in n variables: their kinds, values, widths and Jacobian.
#[derive(Clone, Copy)]
pub struct Constraints<'a> {
    pub n: usize,
    pub m: usize,
    pub kinds: &'a [u8],
    pub values: &'a [f64],
    pub widths: &'a [f64],
    pub jacobian: &'a [f64],
    pub ghost few_variables: { n ≤ 17 },
    pub ghost kind: { length kinds.now ≡ m },
    pub ghost value: { length values.now ≡ m },
    pub ghost width: { length widths.now ≡ m },
    pub ghost entries: { length jacobian.now ≡ m * n },
}
