// The steps, each with its report in six entries and a tally of two counts.
ghost use Rattle.std.specs.Prelude.{◌≡◌, cond, ◌&&◌, [], ◌∷◌, length, Ok};
ghost use Rattle.workspace.specs.Tables.{is_dimension, is_constraints};
ghost use Rattle.step_rows.specs.Problem.{problem_of};
ghost use Rattle.step.specs.Step.{report_of};
ghost use Rattle.gritstrut.specs.Interface.{entries_of, bound_entries, raised_counts, Tells, step_report_call, strict_report_call, StepLeaves};

use step::Stepped;
use step_call::Step;
use tally::Tally;
use workspace::Refusal;

// How many entries a report has.
const REPORT: usize = 6;

// The six entries of a report.
fn write_entries(report: &mut [u32], a: u32, b: u32, c: u32, d: u32, rounds: u32, factorings: u32)
    requires { length report.old ≡ 6 }
    ensures { report.new ≡ a ∷ b ∷ c ∷ d ∷ rounds ∷ factorings ∷ [] }
{
    report[0] = a;
    report[1] = b;
    report[2] = c;
    report[3] = d;
    report[4] = rounds;
    report[5] = factorings;
}

// A step's report: number and place of the exact stage, then of the relaxed one, rounds and factorings.
fn write_report(t: step::Report, report: &mut [u32])
    requires { length report.old ≡ 6 }
    ensures { report.new ≡ entries_of t }
{
    write_entries(
        report,
        workspace::outcome_number(t.exact),
        step::stage_place(t.exact),
        workspace::outcome_number(t.relaxed),
        step::stage_place(t.relaxed),
        t.rounds,
        t.factorings,
    );
}

// The report of a test that names a variable: its number and the variable stand for the exact stage.
fn write_bound(why: Refusal, report: &mut [u32])
    requires { length report.old ≡ 6 }
    ensures { report.new ≡ bound_entries why report.old }
{
    let number = why.number();
    let variable = why.place();
    if variable == workspace::NOWHERE {
        return;
    }
    write_entries(report, number, variable, 0, workspace::NOWHERE, 0, 0);
}

// Raises a tally, rounds and then factorings; a count that would pass the u64 range stays at its largest value.
pub fn gritstrut_tally_raise(tally: &mut [u64; 2], rounds: u64, factorings: u64)
    ensures { tally.new ≡ raised_counts tally.old rounds factorings }
{
    let before = Tally {
        rounds: tally[0],
        factorings: tally[1],
    };
    let after = before.plus(rounds, factorings);
    *tally = [after.rounds, after.factorings];
}

// What a step tells that was tried: its number, the relaxation, the report, and the tally raised by what was spent.
fn tell_step(s: Stepped, relaxation: &mut f64, report: &mut [u32], tally: &mut [u64; 2]) -> u32
    requires { length report.old ≡ 6 }
    ensures { Tells (Ok s) result relaxation.old relaxation.new report.old report.new tally.old tally.new }
{
    let t = s.report;
    write_report(t, report);
    gritstrut_tally_raise(tally, t.rounds as u64, t.factorings as u64);
    match s.relaxation {
        Ok(delta) => {
            *relaxation = delta;
            0
        }
        Err(why) => why.number(),
    }
}

// What a call of the step tells: the step's, or why a test before it refuses.
fn tell(
    o: Result<Stepped, Refusal>,
    relaxation: &mut f64,
    report: &mut [u32],
    tally: &mut [u64; 2],
) -> u32
    requires { length report.old ≡ 6 }
    ensures { Tells o result relaxation.old relaxation.new report.old report.new tally.old tally.new }
{
    match o {
        Ok(s) => tell_step(s, relaxation, report, tally),
        Err(why) => {
            write_bound(why, report);
            why.number()
        }
    }
}

// A report of another length is refused with the other lengths, after the sizes.
fn refuse_report(n: usize, m: usize) -> u32
    ensures { result ≡ cond (is_dimension n && is_constraints m) 2 1 }
{
    if step_call::are_sizes(n, m) {
        return Refusal::Length.number();
    }
    Refusal::Size.number()
}

// The step of one SQP iteration.
pub fn gritstrut_step(
    n: usize,
    m: usize,
    factor: &[f64],
    gradient: &[f64],
    kinds: &[u8],
    values: &[f64],
    widths: &[f64],
    jacobian: &[f64],
    lower: &[f64],
    upper: &[f64],
    d: &mut [f64],
    multipliers: &mut [f64],
    relaxation: &mut f64,
    report: &mut [u32],
    tally: &mut [u64; 2],
    w: &mut [f64],
    iw: &mut [u32],
) -> u32
    ensures { StepLeaves (step_report_call (problem_of n m factor.now gradient.now kinds.now values.now widths.now jacobian.now lower.now upper.now) d.old multipliers.old report.old w.old iw.old) (report_of (problem_of n m factor.now gradient.now kinds.now values.now widths.now jacobian.now lower.now upper.now)) result relaxation.old relaxation.new
        report.old report.new tally.old tally.new d.old d.new multipliers.old multipliers.new w.old w.new iw.old iw.new }
{
    if report.len() != REPORT {
        return refuse_report(n, m);
    }
    let answer = Step::solve(
        n,
        m,
        factor,
        gradient,
        kinds,
        values,
        widths,
        jacobian,
        lower,
        upper,
        d,
        multipliers,
        w,
        iw,
    );
    tell(answer, relaxation, report, tally)
}

// The strict step: a bound that is not finite and not open is refused.
pub fn gritstrut_strict_step(
    n: usize,
    m: usize,
    factor: &[f64],
    gradient: &[f64],
    kinds: &[u8],
    values: &[f64],
    widths: &[f64],
    jacobian: &[f64],
    lower: &[f64],
    upper: &[f64],
    d: &mut [f64],
    multipliers: &mut [f64],
    relaxation: &mut f64,
    report: &mut [u32],
    tally: &mut [u64; 2],
    w: &mut [f64],
    iw: &mut [u32],
) -> u32
    ensures { StepLeaves (strict_report_call (problem_of n m factor.now gradient.now kinds.now values.now widths.now jacobian.now lower.now upper.now) d.old multipliers.old report.old w.old iw.old) (report_of (problem_of n m factor.now gradient.now kinds.now values.now widths.now jacobian.now lower.now upper.now)) result relaxation.old relaxation.new
        report.old report.new tally.old tally.new d.old d.new multipliers.old multipliers.new w.old w.new iw.old iw.new }
{
    if report.len() != REPORT {
        return refuse_report(n, m);
    }
    let answer = Step::solve_strictly(
        n,
        m,
        factor,
        gradient,
        kinds,
        values,
        widths,
        jacobian,
        lower,
        upper,
        d,
        multipliers,
        w,
        iw,
    );
    tell(answer, relaxation, report, tally)
}
