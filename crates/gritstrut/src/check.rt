// The C function of the check.
ghost use Rattle.std.specs.Prelude.{◌≡◌, length};
ghost use Rattle.step_rows.specs.Problem.{problem_of};
ghost use Rattle.step_check.specs.Check.{pasted_of};
ghost use Rattle.gritstrut.specs.Checking.{verdict_entries, check_verdict_call, VerdictTold, CheckLeaves};

use step_check::Verdict;
use step_check_call::Check;
use workspace::Refusal;

// The entries of a verdict: GRITSTRUT_VERDICT of the header.
const ENTRIES: usize = 3;

// Test, part and index.
fn write_verdict(v: Verdict, verdict: &mut [u32])
    requires { length verdict.old ≡ 3 }
    ensures { verdict.new ≡ verdict_entries v }
{
    let (test, part, index) = match v {
        Ok(()) => (0, 0, 0),
        Err(failure) => (failure.test.number(), failure.part.number(), failure.index),
    };
    verdict[0] = test;
    verdict[1] = part;
    verdict[2] = index;
}

// The verdict out, where there is one.
fn tell_verdict(o: Result<Verdict, Refusal>, verdict: &mut [u32]) -> u32
    requires { length verdict.old ≡ 3 }
    ensures { VerdictTold o result verdict.old verdict.new }
{
    match o {
        Ok(v) => {
            write_verdict(v, verdict);
            0
        }
        Err(why) => why.number(),
    }
}

// Whether a step is plausible: five tests, and the first that fails with its row.
pub fn gritstrut_check(
    n: usize,
    m: usize,
    factor: &[f64],
    gradient: &[f64],
    kinds: &[u8],
    values: &[f64],
    widths: &[f64],
    jacobian: &[f64],
    lower: &[f64],
    upper: &[f64],
    d: &[f64],
    multipliers: &[f64],
    lowers: &[f64],
    uppers: &[f64],
    tolerance: f64,
    verdict: &mut [u32],
    w: &mut [f64],
    iw: &mut [u32],
) -> u32
    ensures { CheckLeaves (check_verdict_call (problem_of n m factor.now gradient.now kinds.now values.now widths.now jacobian.now lower.now upper.now) (pasted_of d.now multipliers.now lowers.now uppers.now) tolerance verdict.old w.old iw.old) result verdict.old verdict.new w.old w.new iw.old iw.new }
{
    if verdict.len() != ENTRIES {
        if step_call::are_sizes(n, m) {
            return Refusal::Length.number();
        }
        return Refusal::Size.number();
    }
    let answer = Check::step(
        n,
        m,
        factor,
        gradient,
        kinds,
        values,
        widths,
        jacobian,
        lower,
        upper,
        d,
        multipliers,
        lowers,
        uppers,
        tolerance,
        w,
        iw,
    );
    tell_verdict(answer, verdict)
}
