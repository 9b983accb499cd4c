// The exports of gritstrut's module `check`.
ghost use Rattle.step_rows.specs.Problem.{problem_of};
ghost use Rattle.step_check.specs.Check.{pasted_of};
ghost use Rattle.gritstrut.specs.Checking.{check_verdict_call, CheckLeaves};

// Whether a step is plausible: five tests, and the first that fails with its row.
#[unsafe(no_mangle)]
pub extern "C" fn gritstrut_check(
    n: usize,
    m: usize,
    factor: &[f64],
    gradient: &[f64],
    kinds: &[u8],
    values: &[f64],
    widths: &[f64],
    jacobian: &[f64],
    lower: &[f64],
    upper: &[f64],
    d: &[f64],
    multipliers: &[f64],
    lowers: &[f64],
    uppers: &[f64],
    tolerance: f64,
    verdict: &mut [u32],
    w: &mut [f64],
    iw: &mut [u32],
) -> u32
    ensures { CheckLeaves (check_verdict_call (problem_of n m factor.now gradient.now kinds.now values.now widths.now jacobian.now lower.now upper.now) (pasted_of d.now multipliers.now lowers.now uppers.now) tolerance verdict.old w.old iw.old) result verdict.old verdict.new w.old w.new iw.old iw.new }
{
    gritstrut::gritstrut_check(
        n,
        m,
        factor,
        gradient,
        kinds,
        values,
        widths,
        jacobian,
        lower,
        upper,
        d,
        multipliers,
        lowers,
        uppers,
        tolerance,
        verdict,
        w,
        iw,
    )
}
