// The record program's answer: from the bytes read to the bytes written, on slices alone.
#![tactic(auto)]

mod text;

ghost use Rattle.std.specs.Prelude.{◌≡◌, [], ◌∷◌, ◌++◌, ◌+◌, ◌≤◌, ◌<◌, length, take};
ghost use Rattle.workspace.specs.Tables.{number_of};
ghost use Rattle.problem_read.specs.Tables.{PLACES, problem_in};
ghost use Rattle.ascii.specs.Text.{decimal_text};
ghost use Rattle.problem_answer.specs.Program.{fault_text, refused_text, done_text, step_text, step_answer};
ghost use Rattle.problem_answer.specs.Promise.{Responds};
ghost use Rattle.ascii.specs.inner.Work.{Wrote};
ghost use Rattle.problem_answer.specs.inner.Work.{step_answer_of, step_from};

use crate::text::{put_float, put_lines};
use ascii::{put_byte, put_decimal, put_text};
use problem_read::{Unread, tables};
use workspace::Refusal;

// ---- the text

// A text and a number, as a line.
fn put_numbered(out: &mut [u8], text: &[u8], k: usize) -> usize
    requires { (2048 ≤ length out.old) × (length text.now ≤ 16) }
    ensures { Wrote out.old 0 (text.now ++ (decimal_text k ++ (10 ∷ []))) out.new result }
{
    let a = put_text(out, 0, text);
    let b = put_decimal(out, a, k as u64);
    put_byte(out, b, b'\n')
}

// `refused 9 at K`
fn put_fault(out: &mut [u8], k: usize) -> usize
    requires { 2048 ≤ length out.old }
    ensures { Wrote out.old 0 (fault_text k) out.new result }
{
    put_numbered(out, b"refused 9 at ", k)
}

// `refused N`
fn put_refused(out: &mut [u8], k: usize) -> usize
    requires { 2048 ≤ length out.old }
    ensures { Wrote out.old 0 (refused_text k) out.new result }
{
    put_numbered(out, b"refused ", k)
}

// `refused N` of a refusal of the step.
fn put_refusal(out: &mut [u8], why: Refusal) -> usize
    requires { 2048 ≤ length out.old }
    ensures { Wrote out.old 0 (refused_text (number_of why)) out.new result }
{
    put_refused(out, why.number() as usize)
}

// `ok` and all that follows.
fn put_done(out: &mut [u8], relaxation: f64, d: &[f64], multipliers: &[f64]) -> usize
    requires { (2048 ≤ length out.old) × (length d.now ≤ 16) × (length multipliers.now ≤ 16) }
    ensures { Wrote out.old 0 (done_text (step_from relaxation d.now multipliers.now)) out.new result }
{
    let a = put_text(out, 0, b"ok\nrelaxation ");
    let b = put_float(out, a, relaxation);
    let c = put_byte(out, b, b'\n');
    let e = put_lines(out, c, b'd', d);
    put_lines(out, e, b'm', multipliers)
}

// What the step answers, its relaxation or why there is none, with the lists that it leaves.
fn put_answer(out: &mut [u8], answer: Result<f64, Refusal>, d: &[f64], multipliers: &[f64]) -> usize
    requires { (2048 ≤ length out.old) × (length d.now ≤ 16) × (length multipliers.now ≤ 16) }
    ensures { Wrote out.old 0 (step_text (step_answer_of answer d.now multipliers.now)) out.new result }
{
    match answer {
        Ok(relaxation) => put_done(out, relaxation, d, multipliers),
        Err(why) => put_refusal(out, why),
    }
}

// ---- the step

// A blank f64 workspace.
pub fn float_room() -> [f64; 8192]
    ensures { 8192 ≡ length result }
{
    [0.0; 8192]
}

// A blank u32 workspace.
pub fn word_room() -> [u32; 512]
    ensures { 512 ≡ length result }
{
    [0; 512]
}

// The strict step on the parts of the two tables, with workspaces of its own.
fn solve(
    m: usize,
    n: usize,
    marks: &[u8],
    vals: &[f64],
    d: &mut [f64],
    multipliers: &mut [f64],
) -> Result<f64, Refusal>
    requires m_bound { (m ≤ 16) × (0 < n) × (n ≤ 16) × (length marks.now ≡ PLACES) × (length vals.now ≡ PLACES) }
    requires d_len { (length d.old ≡ n) × (length multipliers.old ≡ m) }
    ensures { step_answer_of result d.new multipliers.new ≡ step_answer (problem_in m n marks.now vals.now) }
{
    let mut w = float_room();
    let mut iw = word_room();
    let mut space = [0u8; 16];
    let ks = &mut space[..m];
    tables::load_kinds(marks, ks);
    let stepped = step_call::Step::solve_strictly(
        n,
        m,
        tables::factor(n, vals),
        tables::gradient(n, vals),
        ks,
        tables::values(m, vals),
        tables::widths(m, vals),
        tables::jacobian(m, n, vals),
        tables::lower(n, vals),
        tables::upper(n, vals),
        d,
        multipliers,
        &mut w,
        &mut iw,
    )?;
    stepped.relaxation
}

// Room for a number of each variable, or of each constraint.
fn sixteen() -> [f64; 16]
    ensures { 16 ≡ length result }
{
    [0.0; 16]
}

// What the step answers, as text.
fn put_step(m: usize, n: usize, marks: &[u8], vals: &[f64], out: &mut [u8]) -> usize
    requires { (m ≤ 16) × (0 < n) × (n ≤ 16) × (length marks.now ≡ PLACES) × (length vals.now ≡ PLACES) × (2048 ≤ length out.old) }
    ensures { Wrote out.old 0 (step_text (step_answer (problem_in m n marks.now vals.now))) out.new result }
{
    let mut d = sixteen();
    let mut l = sixteen();
    let ds = &mut d[..n];
    let ls = &mut l[..m];
    let answer = solve(m, n, marks, vals, ds, ls);
    put_answer(out, answer, ds, ls)
}

// ---- the program

// The program's output for its input, at the start of `out`: so many bytes, and the others stay.
pub fn respond(bytes: &[u8], out: &mut [u8; 2048]) -> usize
    ensures responds { Responds bytes.now result out.old out.new }
    ensures upper_bound { (result ≤ length out.new) × (result ≡ length (take result out.new)) }
{
    let mut marks = tables::blank_marks();
    let mut vals = tables::blank_values();
    match problem_read::decode(bytes, &mut marks, &mut vals) {
        Err(Unread::Fault(k)) => put_fault(out, k),
        Err(Unread::Large) => put_refused(out, 1),
        Ok(sizes) => put_step(sizes.constraints, sizes.variables, &marks, &vals, out),
    }
}
