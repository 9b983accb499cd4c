// The calls of the C interface that the cases make, each with blank workspaces. They answer the number, and what comes with it.
ghost use Rattle.std.specs.Prelude.{◌≤◌, ◌≡◌, length};

use problem_answer::{float_room, word_room};

// What NNLS answers.
#[derive(Clone, Copy)]
pub struct NnlsAnswer {
    pub number: u32,
    pub rounds: u32,
    pub factorings: u32,
}

// What the step answers, with the number and the place of its exact stage.
#[derive(Clone, Copy)]
pub struct StepAnswer {
    pub number: u32,
    pub exact: u32,
    pub place: u32,
    pub relaxation: f64,
    pub d: f64,
}

// NNLS on one row of ones, with as many columns as x has, two at most.
pub fn nnls(b: f64, k: usize, x: &mut [f64]) -> NnlsAnswer
    requires { length x.old ≤ 2 }
{
    let a = [1.0, 1.0];
    let side = [b];
    let mut w = float_room();
    let mut iw = word_room();
    let mut rounds: u32 = 0;
    let mut factorings: u32 = 0;
    let n = x.len();
    let number = gritstrut::gritstrut_nnls(
        1,
        n,
        k,
        &a[..n],
        &side,
        x,
        &mut rounds,
        &mut factorings,
        &mut w,
        &mut iw,
    );
    NnlsAnswer {
        number,
        rounds,
        factorings,
    }
}

// LDP with one row and one column.
pub fn ldp(g: f64, h: f64) -> u32 {
    let row = [g];
    let side = [h];
    let mut x = [0.0];
    let mut multipliers = [0.0];
    let mut w = float_room();
    let mut iw = word_room();
    gritstrut::gritstrut_ldp(1, 1, &row, &side, &mut x, &mut multipliers, &mut w, &mut iw)
}

// The identity of dimension n.
pub fn identity(n: usize, b: &mut [f64]) -> u32 {
    let mut w = float_room();
    let mut iw = word_room();
    gritstrut::gritstrut_identity(n, b, &mut w, &mut iw)
}

// The Cholesky factor of a matrix of dimension n.
pub fn cholesky(n: usize, b: &[f64], l: &mut [f64]) -> u32 {
    let mut w = float_room();
    let mut iw = word_room();
    gritstrut::gritstrut_cholesky(n, b, l, &mut w, &mut iw)
}

// The damped update of a matrix of dimension 1.
pub fn update(b: &mut [f64], s: f64, y: f64) -> u32 {
    let step = [s];
    let change = [y];
    let mut w = float_room();
    let mut iw = word_room();
    gritstrut::gritstrut_update(1, b, &step, &change, &mut w, &mut iw)
}

// The step of one variable with factor 1, gradient 1 and no bounds, and as many constraints as there are values.
pub fn step(
    kinds: &[u8],
    values: &[f64],
    widths: &[f64],
    jacobian: &[f64],
    multipliers: &mut [f64],
    w: &mut [f64],
) -> StepAnswer {
    let one = [1.0];
    let lower = [-1.0 / 0.0];
    let upper = [1.0 / 0.0];
    let mut d = [0.0];
    let mut relaxation = 0.0;
    let mut report = [0u32; 6];
    let mut tally = [0u64; 2];
    let mut iw = word_room();
    let number = gritstrut::gritstrut_step(
        1,
        values.len(),
        &one,
        &one,
        kinds,
        values,
        widths,
        jacobian,
        &lower,
        &upper,
        &mut d,
        multipliers,
        &mut relaxation,
        &mut report,
        &mut tally,
        w,
        &mut iw,
    );
    StepAnswer {
        number,
        exact: report[0],
        place: report[1],
        relaxation,
        d: d[0],
    }
}
