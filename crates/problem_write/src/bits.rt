// What a problem file is written from: a problem's parts as bits, of the lengths that its sizes say.
ghost use Rattle.problem_write.specs.Lent.{lent_of};
ghost use Rattle.problem_write.specs.inner.Work.{Sized};

// n variables and m constraints: the factor and the gradient; the constraints' kinds, values, widths and Jacobian; and the bounds.
#[derive(Clone, Copy)]
pub struct ProblemBits<'a> {
    pub n: usize,
    pub m: usize,
    pub factor: &'a [u64],
    pub gradient: &'a [u64],
    pub kinds: &'a [u8],
    pub values: &'a [u64],
    pub widths: &'a [u64],
    pub jacobian: &'a [u64],
    pub lower: &'a [u64],
    pub upper: &'a [u64],
    pub ghost sized: { Sized (lent_of n m factor.now gradient.now kinds.now values.now widths.now jacobian.now lower.now upper.now) },
}
