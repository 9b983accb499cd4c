// The exports of gritstrut's module `steps`.
ghost use Rattle.std.specs.Prelude.{◌≡◌};
ghost use Rattle.step_rows.specs.Problem.{problem_of};
ghost use Rattle.step.specs.Step.{report_of};
ghost use Rattle.gritstrut.specs.Interface.{raised_counts, step_report_call, strict_report_call, StepLeaves};

// Raises a tally, rounds and then factorings; a count that would pass the u64 range stays at its largest value.
#[unsafe(no_mangle)]
pub extern "C" fn gritstrut_tally_raise(tally: &mut [u64; 2], rounds: u64, factorings: u64)
    ensures { tally.new ≡ raised_counts tally.old rounds factorings }
{
    gritstrut::gritstrut_tally_raise(tally, rounds, factorings);
}

// The step of one SQP iteration.
#[unsafe(no_mangle)]
pub extern "C" fn gritstrut_step(
    n: usize,
    m: usize,
    factor: &[f64],
    gradient: &[f64],
    kinds: &[u8],
    values: &[f64],
    widths: &[f64],
    jacobian: &[f64],
    lower: &[f64],
    upper: &[f64],
    d: &mut [f64],
    multipliers: &mut [f64],
    relaxation: &mut f64,
    report: &mut [u32],
    tally: &mut [u64; 2],
    w: &mut [f64],
    iw: &mut [u32],
) -> u32
    ensures { StepLeaves (step_report_call (problem_of n m factor.now gradient.now kinds.now values.now widths.now jacobian.now lower.now upper.now) d.old multipliers.old report.old w.old iw.old) (report_of (problem_of n m factor.now gradient.now kinds.now values.now widths.now jacobian.now lower.now upper.now)) result relaxation.old relaxation.new
        report.old report.new tally.old tally.new d.old d.new multipliers.old multipliers.new w.old w.new iw.old iw.new }
{
    gritstrut::gritstrut_step(
        n,
        m,
        factor,
        gradient,
        kinds,
        values,
        widths,
        jacobian,
        lower,
        upper,
        d,
        multipliers,
        relaxation,
        report,
        tally,
        w,
        iw,
    )
}

// The strict step: a bound that is not finite and not open is refused.
#[unsafe(no_mangle)]
pub extern "C" fn gritstrut_strict_step(
    n: usize,
    m: usize,
    factor: &[f64],
    gradient: &[f64],
    kinds: &[u8],
    values: &[f64],
    widths: &[f64],
    jacobian: &[f64],
    lower: &[f64],
    upper: &[f64],
    d: &mut [f64],
    multipliers: &mut [f64],
    relaxation: &mut f64,
    report: &mut [u32],
    tally: &mut [u64; 2],
    w: &mut [f64],
    iw: &mut [u32],
) -> u32
    ensures { StepLeaves (strict_report_call (problem_of n m factor.now gradient.now kinds.now values.now widths.now jacobian.now lower.now upper.now) d.old multipliers.old report.old w.old iw.old) (report_of (problem_of n m factor.now gradient.now kinds.now values.now widths.now jacobian.now lower.now upper.now)) result relaxation.old relaxation.new
        report.old report.new tally.old tally.new d.old d.new multipliers.old multipliers.new w.old w.new iw.old iw.new }
{
    gritstrut::gritstrut_strict_step(
        n,
        m,
        factor,
        gradient,
        kinds,
        values,
        widths,
        jacobian,
        lower,
        upper,
        d,
        multipliers,
        relaxation,
        report,
        tally,
        w,
        iw,
    )
}
