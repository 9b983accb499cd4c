// The public operation that writes a problem file: tests, then the records into the lent output.
#![tactic(auto)]

mod arguments;

ghost use Rattle.std.specs.Prelude.{◌≡◌, true, ◌≤◌, length, Ok};
ghost use Rattle.workspace.specs.Tables.{done};
ghost use Rattle.problem_write.specs.File.{records_of, file};
ghost use Rattle.problem_write.specs.Lent.{lent_of, problem_in};
ghost use Rattle.problem_write.specs.inner.Shared.{lent_in};
ghost use Rattle.problem_write.specs.inner.Work.{Room};
ghost use Rattle.problem_write_call.specs.Promise.{write_call, WritesFile};

use problem_write::bits::ProblemBits;
use workspace::Refusal;

// The operations on problem files.
#[derive(Clone, Copy)]
pub struct Problems {}

// The file, where no test refuses, and the clearing of the workspaces.
fn write_all(p: &ProblemBits, out: &mut [u8], w: &mut [f64], iw: &mut [u32]) -> usize
    requires { Room 0 (records_of (problem_in (lent_in p.now))) out.old × (8192 ≤ length w.old) × (512 ≤ length «iw».old) }
    ensures { WritesFile (done (file (problem_in (lent_in p.now)))) (Ok result) out.old out.new w.old w.new «iw».old «iw».new }
{
    let written = problem_write::write_file(p, out);
    workspace::clear(w, iw);
    written
}

// The parts stay slices here and in `test_strict`: C lends them so, and they are tested before they make a problem.
impl Problems {
    // Writes a problem of n variables and m constraints, its numbers as bits, as the record program's input.
    pub fn write(
        n: usize,
        m: usize,
        factor: &[u64],
        gradient: &[u64],
        kinds: &[u8],
        values: &[u64],
        widths: &[u64],
        jacobian: &[u64],
        lower: &[u64],
        upper: &[u64],
        out: &mut [u8],
        w: &mut [f64],
        iw: &mut [u32],
    ) -> Result<usize, Refusal>
        ensures { WritesFile (write_call (lent_of n m factor.now gradient.now kinds.now values.now widths.now jacobian.now lower.now upper.now) out.old w.old «iw».old) result out.old out.new w.old w.new «iw».old «iw».new }
    {
        arguments::test_strict(
            n,
            m,
            factor,
            gradient,
            kinds,
            values,
            widths,
            jacobian,
            lower,
            upper,
            w.len(),
            iw.len(),
        )?;
        let p = ProblemBits {
            n,
            m,
            factor,
            gradient,
            kinds,
            values,
            widths,
            jacobian,
            lower,
            upper,
        };
        arguments::test_file(&p, out.len())?;
        Ok(write_all(&p, out, w, iw))
    }
}
