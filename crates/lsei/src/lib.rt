// Least distance programming, min ||x|| with G x >= h, and least squares with inequalities,
// min ||E x - f|| with G x >= h, each in one part of each workspace.
#![tactic(auto)]

ghost use Rattle.std.specs.Prelude.{◌≡◌, cond, List, ℕ, ◌+◌, ◌*◌, ◌/◌, ◌<◌, ◌≤◌, ltb, Float, length};
ghost use Rattle.numbers.specs.Numbers.{+0, one, at, nth, Σ, ◌⊕◌, ◌⊖◌, ◌⊗◌, ◌⊘◌};
ghost use Rattle.workspace.specs.Readings.{vec, mat, stack, Block};
ghost use Rattle.lsei.specs.Lsei.{dual_side, dual_residual, primal, ldp, lsi};
ghost use Rattle.nnls.specs.inner.Dual.{four_of};
ghost use Rattle.lsei.specs.inner.Work.{refusal_of, ending_answer, ended_solution, sides, distance_in, squares_in, FactoredFront, PermutedRow, Permuted, SolvedRows, Shifted, Reduced, Restored, residual_in};
ghost use Rattle.householder.specs.inner.Places.{QR_MATRIX, QR_SIDE};
ghost use Rattle.lsei.specs.inner.Places.{LDP_RESIDUAL, LDP_ROOM, LDP_SIDE, LDP_U, LDP_WORDS, LSI_E, LSI_F, LSI_G, LSI_LDP_X, LSI_ROOM, LSI_WORDS};

use householder::Four;
use workspace::Refusal;

// ---- where things stand in the part of LDP, which is that of nonnegative least squares for its dual
//
// Row i of G with its side h_i behind it stands at 18 i: read by columns, that is the dual's matrix.

// The dual's right side.
pub const LDP_SIDE: usize = nnls_passive::NNLS_SIDE;
// The dual's solution.
pub const LDP_U: usize = nnls_passive::NNLS_X;
// The dual's residual.
pub const LDP_RESIDUAL: usize = nnls_passive::NNLS_Z;

pub const LDP_MULTIPLIERS: usize = nnls_passive::NNLS_DUAL;

pub const LDP_X: usize = nnls_passive::NNLS_RESIDUAL;
// How many f64 it takes.
pub const LDP_ROOM: usize = nnls_passive::NNLS_ROOM;
// How many u32 it takes.
pub const LDP_WORDS: usize = nnls_passive::NNLS_WORDS;

// ---- where things stand in the part of LSI, which begins with a QR part for E

// The columns of E.
pub const LSI_E: usize = householder::QR_MATRIX;
// First f, then Q'f.
pub const LSI_F: usize = LSI_E + 17 * 18;
// LDP's part: the rows of G, each with its side behind it.
pub const LSI_G: usize = LSI_F + 18;

pub const LSI_X: usize = householder::QR_SOLUTION;

pub const LSI_MULTIPLIERS: usize = LSI_G + LDP_MULTIPLIERS;

pub const LSI_LDP_X: usize = LSI_G + LDP_X;
// How many f64 it takes.
pub const LSI_ROOM: usize = LSI_G + LDP_ROOM;
// In the u32 workspace: the permutation of E stands at 0, and LDP's part here.
pub const LSI_LDP_WORDS: usize = 18;
// How many u32 it takes.
pub const LSI_WORDS: usize = LSI_LDP_WORDS + LDP_WORDS;

// Why a solve ends with no answer.
#[derive(Clone, Copy)]
pub enum Unsolved {
    // E is short of rank: the column that could not be taken.
    Deficient(u32),
    // The equality matrix is: the equality that could not be taken.
    Dependent(u32),
    Infeasible,
    Capped,
}

// What a caller is told of it.
impl From<Unsolved> for Refusal {
    ghost from_gives = { λ unsolved refusal. refusal ≡ refusal_of unsolved };

    fn from(unsolved: Unsolved) -> Refusal {
        match unsolved {
            Unsolved::Deficient(place) => Refusal::Deficient(place),
            Unsolved::Dependent(place) => Refusal::Dependent(place),
            Unsolved::Infeasible => Refusal::Infeasible,
            Unsolved::Capped => Refusal::Capped,
        }
    }
}

// How a solve ends, with the rounds and the factorings that it took.
#[derive(Clone, Copy)]
pub struct Ended {
    pub ending: Result<(), Unsolved>,
    pub rounds: usize,
    pub factorings: usize,
}

// ---- least distance programming

// The solver of least distance programming.
#[derive(Clone, Copy)]
pub struct Ldp {}

impl Ldp {
    // 1 - h'u is refused where it is at most this.
    pub const INFEASIBILITY: f64 = 1000.0 * numbers::Binary64::EPSILON;
}

// The dual's right side, (0, .., 0, 1).
fn write_side(w: &mut [f64], n: usize)
    requires { (n ≤ 17) × (LDP_ROOM ≤ length w.old) }
    ensures { Block LDP_SIDE (n + 1) (λ j. cond (ltb j n) +0 one) w.old w.new }
{
    workspace::blank(w, LDP_SIDE, n);
    w[LDP_SIDE + n] = 1.0;
}

// Entry j of the dual's residual E u - f.
fn residual_at(w: &[f64], j: usize, m: usize) -> f64
    requires { (j < 18) × (m ≤ 66) × (LDP_ROOM ≤ length w.now) }
    ensures { result ≡ residual_in m j w.now }
{
    let t = numbers::dot_strided(w, j, 18, w, LDP_U, 1, m);
    t - w[LDP_SIDE + j]
}

// Entries j to j + 3, side by side: each is summed in its own order.
fn residual_four(w: &[f64], j: usize, m: usize) -> Four
    requires { (j < 15) × (m ≤ 66) × (LDP_ROOM ≤ length w.now) }
    ensures { result ≡ four_of (λ i. residual_in m i w.now) j }
{
    let s = nnls::sums_four(w, j, LDP_U, m);
    Four {
        a: s.a - w[LDP_SIDE + j],
        b: s.b - w[LDP_SIDE + (j + 1)],
        c: s.c - w[LDP_SIDE + (j + 2)],
        d: s.d - w[LDP_SIDE + (j + 3)],
    }
}

// The first c entries of the dual's residual by fours: up to three are left.
fn residual_fours(w: &mut [f64], c: usize, m: usize)
    requires { (c ≤ 18) × (m ≤ 66) × (LDP_ROOM ≤ length w.old) }
    ensures { Block LDP_RESIDUAL (c / 4 * 4) (λ j. residual_in m j w.old) w.old w.new }
{
    let e = c / 4;
    for q in 0..e {
        let s = residual_four(w, q * 4, m);
        nnls::put_four(w, LDP_RESIDUAL + q * 4, s);
    }
}

// The first c entries of the dual's residual.
fn residual_all(w: &mut [f64], c: usize, m: usize)
    requires { (c ≤ 18) × (m ≤ 66) × (LDP_ROOM ≤ length w.old) }
    ensures { Block LDP_RESIDUAL c (λ j. residual_in m j w.old) w.old w.new }
{
    residual_fours(w, c, m);
    for j in c / 4 * 4..c {
        let v = residual_at(w, j, m);
        w[LDP_RESIDUAL + j] = v;
    }
}

// c numbers from p on, each divided by d, to q on.
fn divide(w: &mut [f64], p: usize, q: usize, c: usize, d: f64)
    requires { (p + c ≤ q) × (q + c ≤ length w.old) }
    ensures { Block q c (λ t. at w.old (p + t) ⊘ d) w.old w.new }
{
    for t in 0..c {
        w[q + t] = w[p + t] / d;
    }
}

// From the dual's solution its residual, the test of the denominator, x and the multipliers.
fn finish(w: &mut [f64], m: usize, n: usize) -> Result<(), Unsolved>
    requires { (m ≤ 66) × (n ≤ 17) × (LDP_ROOM ≤ length w.old) × (vec LDP_SIDE (n + 1) w.old ≡ dual_side n) }
    ensures { ending_answer result (distance_in m n w.new) ≡ primal m n (vec LDP_U m w.old) (dual_residual m n (mat 0 (n + 1) m w.old) (vec LDP_U m w.old)) }
{
    residual_all(w, n + 1, m);
    let d = -w[LDP_RESIDUAL + n];
    if d <= Ldp::INFEASIBILITY {
        return Err(Unsolved::Infeasible);
    }
    divide(w, LDP_RESIDUAL, LDP_X, n, d);
    divide(w, LDP_U, LDP_MULTIPLIERS, m, d);
    Ok(())
}

// LDP of the m inequalities in the part, in n unknowns.
pub fn solve_ldp(w: &mut [f64], iw: &mut [u32], m: usize, n: usize) -> Ended
    requires { (m ≤ 66) × (n ≤ 17) × (LDP_ROOM ≤ length w.old) × (LDP_WORDS ≤ length iw.old) }
    ensures { ended_solution result (distance_in m n w.new) ≡ ldp m n (stack 0 m n w.old) (sides 0 m n w.old) }
{
    write_side(w, n);
    let e = nnls::solve_in(w, iw, n + 1, m, 3 * m);
    match e {
        Err(counts) => Ended {
            ending: Err(Unsolved::Capped),
            rounds: counts.past,
            factorings: counts.factorings,
        },
        Ok(counts) => {
            let ending = finish(w, m, n);
            Ended {
                ending,
                rounds: counts.past,
                factorings: counts.factorings,
            }
        }
    }
}

// ---- least squares with inequalities

// The factors of the m by n matrix in the QR part, in the first b entries, and their rank.
pub fn factor_front(w: &mut [f64], iw: &mut [u32], m: usize, n: usize, b: usize) -> usize
    requires { (m ≤ 18) × (n ≤ 18) × (QR_MATRIX + n * 18 ≤ b) × (b ≤ length w.old) × (18 ≤ length iw.old) }
    ensures { FactoredFront m n b result w.old w.new iw.new }
{
    householder::factor_in(&mut w[..b], &mut iw[..18], m, n)
}

// Row i of the inequalities, permuted.
fn permute_row(w: &mut [f64], iw: &[u32], n: usize, i: usize)
    requires { (n ≤ 17) × (i < 66) × (LSI_ROOM ≤ length w.old) × (n ≤ length iw.now) × ((t : ℕ) → t < n → nth iw.now t < n) }
    ensures { PermutedRow n i iw.now w.old w.new }
{
    let o = LSI_G + i * 18;
    householder::pick(w, iw, o, n);
    workspace::copy_up(w, householder::QR_SOLUTION, o, n);
}

// Each row of the inequalities, permuted.
fn permute(w: &mut [f64], iw: &[u32], n: usize, mg: usize)
    requires { (n ≤ 17) × (mg ≤ 66) × (LSI_ROOM ≤ length w.old) × (n ≤ length iw.now) × ((t : ℕ) → t < n → nth iw.now t < n) }
    ensures { Permuted n mg iw.now w.old w.new }
{
    for i in 0..mg {
        permute_row(w, iw, n, i);
    }
}

// The rows under R'^-1, by fours: up to three rows are left.
fn solve_fours(w: &mut [f64], n: usize, mg: usize)
    requires { (n ≤ 17) × (mg ≤ 66) × (LSI_ROOM ≤ length w.old) }
    ensures { SolvedRows n (mg / 4 * 4) w.old w.new }
{
    let c = mg / 4;
    for q in 0..c {
        householder::solve_rt_four(w, n, n, LSI_G + q * 4 * 18);
    }
}

// Each row under R'^-1.
fn solve_rows(w: &mut [f64], n: usize, mg: usize)
    requires { (n ≤ 17) × (mg ≤ 66) × (LSI_ROOM ≤ length w.old) }
    ensures { SolvedRows n mg w.old w.new }
{
    solve_fours(w, n, mg);
    for i in mg / 4 * 4..mg {
        householder::solve_rt(w, n, n, LSI_G + i * 18);
    }
}

// Sides i to i + 3, each less its row's product with Q'f.
fn shift_four(w: &mut [f64], n: usize, i: usize)
    requires { (n ≤ 17) × (i + 4 ≤ 66) × (LSI_ROOM ≤ length w.old) }
    ensures { (w₀ : List Float) → Shifted n i w₀ w.old → Shifted n (i + 4) w₀ w.new }
{
    let o = LSI_G + i * 18;
    let s = nnls::row_sums_four(w, o, LSI_F, n);
    w[o + n] = w[o + n] - s.a;
    w[o + 18 + n] = w[o + 18 + n] - s.b;
    w[o + 36 + n] = w[o + 36 + n] - s.c;
    w[o + 54 + n] = w[o + 54 + n] - s.d;
}

// The sides by fours: up to three are left.
fn shift_fours(w: &mut [f64], n: usize, mg: usize)
    requires { (n ≤ 17) × (mg ≤ 66) × (LSI_ROOM ≤ length w.old) }
    ensures { Shifted n (mg / 4 * 4) w.old w.new }
{
    let c = mg / 4;
    for q in 0..c {
        shift_four(w, n, q * 4);
    }
}

// Each side less its row's product with Q'f.
fn shift_sides(w: &mut [f64], n: usize, mg: usize)
    requires { (n ≤ 17) × (mg ≤ 66) × (LSI_ROOM ≤ length w.old) }
    ensures { Shifted n mg w.old w.new }
{
    shift_fours(w, n, mg);
    for i in mg / 4 * 4..mg {
        let o = LSI_G + i * 18;
        let t = numbers::dot_within(w, o, LSI_F, n);
        w[o + n] = w[o + n] - t;
    }
}

// Q'f in the place of f, and the inequalities in u = R P'x - f_1.
fn reduce(w: &mut [f64], iw: &[u32], n: usize, me: usize, mg: usize)
    requires { (n ≤ me) × (me ≤ 17) × (mg ≤ 66) × (LSI_ROOM ≤ length w.old) × (n ≤ length iw.now) × ((t : ℕ) → t < n → nth iw.now t < n) }
    ensures { Reduced n me mg iw.now w.old w.new }
{
    householder::apply_qt(w, me, n, LSI_F);
    permute(w, iw, n, mg);
    solve_rows(w, n, mg);
    shift_sides(w, n, mg);
}

// LDP's x with Q'f added to it, as a right-hand side.
fn add_front(w: &mut [f64], n: usize)
    requires { (n ≤ 17) × (LSI_ROOM ≤ length w.old) }
    ensures { Block QR_SIDE n (λ t. at w.old (LSI_LDP_X + t) ⊕ at w.old (LSI_F + t)) w.old w.new }
{
    for t in 0..n {
        w[householder::QR_SIDE + t] = w[LSI_LDP_X + t] + w[LSI_F + t];
    }
}

// x = P R^-1 (u + f_1).
fn restore(w: &mut [f64], iw: &[u32], n: usize)
    requires { (n ≤ 17) × (LSI_ROOM ≤ length w.old) × (n ≤ length iw.now) × ((t : ℕ) → t < n → nth iw.now t < n) }
    ensures { Restored n iw.now w.old w.new }
{
    add_front(w, n);
    householder::solve_r(w, n);
    workspace::blank(w, householder::QR_SOLUTION, n);
    householder::place(w, iw, n, n);
}

// LSI of E, f and the inequalities in the part: E is me by n, and there are mg inequalities.
pub fn solve_lsi(w: &mut [f64], iw: &mut [u32], n: usize, me: usize, mg: usize) -> Ended
    requires { (n ≤ 17) × (me ≤ 17) × (mg ≤ 66) × (LSI_ROOM ≤ length w.old) × (LSI_WORDS ≤ length iw.old) }
    ensures { ended_solution result (squares_in n mg w.new) ≡ lsi n me mg (mat LSI_E me n w.old) (vec LSI_F me w.old) (stack LSI_G mg n w.old) (sides LSI_G mg n w.old) }
{
    let rank = factor_front(w, iw, me, n, LSI_F);
    if rank < n {
        let place = iw[rank];
        return Ended {
            ending: Err(Unsolved::Deficient(place)),
            rounds: 0,
            factorings: 1,
        };
    }
    reduce(w, iw, n, me, mg);
    let e = solve_ldp(&mut w[LSI_G..], &mut iw[LSI_LDP_WORDS..], mg, n);
    let ending = e.ending;
    let total = Ended {
        ending,
        rounds: e.rounds,
        factorings: e.factorings + 1,
    };
    let Ok(()) = ending else {
        return total;
    };
    restore(w, iw, n);
    total
}
