// The C function that writes problem files.
ghost use Rattle.problem_write.specs.Lent.{lent_of};
ghost use Rattle.problem_write_call.specs.Promise.{write_call};
ghost use Rattle.gritstrut.specs.Writing.{FileLeaves};

use problem_write_call::Problems;

// Writes a problem, its numbers as bits, as the record program's input.
pub fn gritstrut_write_problem(
    n: usize,
    m: usize,
    factor: &[u64],
    gradient: &[u64],
    kinds: &[u8],
    values: &[u64],
    widths: &[u64],
    jacobian: &[u64],
    lower: &[u64],
    upper: &[u64],
    out: &mut [u8],
    written: &mut usize,
    place: &mut u32,
    w: &mut [f64],
    iw: &mut [u32],
) -> u32
    ensures { FileLeaves (write_call (lent_of n m factor.now gradient.now kinds.now values.now widths.now jacobian.now lower.now upper.now) out.old w.old «iw».old) result written.old written.new place.old place.new
        out.old out.new w.old w.new «iw».old «iw».new }
{
    let answer = Problems::write(
        n, m, factor, gradient, kinds, values, widths, jacobian, lower, upper, out, w, iw,
    );
    match answer {
        Ok(length) => {
            *written = length;
            0
        }
        Err(why) => crate::number_with_place(Err(why), place),
    }
}
