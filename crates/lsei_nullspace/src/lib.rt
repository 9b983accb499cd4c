// Least squares with equalities and inequalities, min ||E x - f|| with C x = d and G x >= h, by the null
// space of the equalities, in one part of each workspace.
#![tactic(auto)]

ghost use Rattle.std.specs.Prelude.{◌≡◌, List, ℕ, ◌+◌, ◌-◌, ◌*◌, ◌/◌, ◌<◌, ◌≤◌, Float, length};
ghost use Rattle.numbers.specs.Numbers.{at, nth, Σ, ◌⊖◌, ◌⊗◌};
ghost use Rattle.workspace.specs.Readings.{vec, stack, Block};
ghost use Rattle.nnls.specs.inner.Dual.{four_of};
ghost use Rattle.lsei.specs.Lsei.{lsei};
ghost use Rattle.lsei.specs.inner.Work.{ended_solution, sides, Spaced};
ghost use Rattle.lsei_nullspace.specs.inner.Work.{solution_in, LseiReady, Fixed, TurnedRow, TurnedRows, LaidE, LaidG, RowsOfE, RowsOfG, TailOfE, TailOfG, LseiReduced, residual_in, slope_in, Rejoined, Priced, Completed};
ghost use Rattle.householder.specs.inner.Places.{QR_MATRIX, QR_SIDE, QR_SOLUTION};
ghost use Rattle.lsei_nullspace.specs.inner.Places.{LSEI_E, LSEI_F, LSEI_G, LSEI_ROOM, LSEI_WORDS, LSEI_X};

// ---- where things stand in the part of LSEI, which begins with a QR part for C'

// The columns of C'.
pub const LSEI_C: usize = householder::QR_MATRIX;
// First d, then y, then x.
pub const LSEI_X: usize = LSEI_C + 16 * 18;
// The rows of E.
pub const LSEI_E: usize = LSEI_X + 18;

pub const LSEI_F: usize = LSEI_E + 17 * 18;
// The rows of G, each with its side behind it.
pub const LSEI_G: usize = LSEI_F + 18;
// LSI's part.
pub const LSEI_LSI: usize = LSEI_G + 66 * 18;

pub const LSEI_LSI_E: usize = LSEI_LSI + lsei::LSI_E;

pub const LSEI_LSI_F: usize = LSEI_LSI + lsei::LSI_F;

pub const LSEI_LSI_G: usize = LSEI_LSI + lsei::LSI_G;

pub const LSEI_LSI_X: usize = LSEI_LSI + lsei::LSI_X;
// The multipliers of the equalities.
pub const LSEI_EQUALITY_MULTIPLIERS: usize = householder::QR_SOLUTION;
// The multipliers of the inequalities.
pub const LSEI_MULTIPLIERS: usize = LSEI_LSI + lsei::LSI_MULTIPLIERS;
// How many f64 it takes.
pub const LSEI_ROOM: usize = LSEI_LSI + lsei::LSI_ROOM;
// In the u32 workspace: the permutation of C' stands at 0, and LSI's part here.
pub const LSEI_LSI_WORDS: usize = 18;
// How many u32 it takes.
pub const LSEI_WORDS: usize = LSEI_LSI_WORDS + lsei::LSI_WORDS;

// ---- the reduced problem

// y with R'y = P'd, in the place of d.
fn fix(w: &mut [f64], iw: &[u32], mc: usize)
    requires { (mc ≤ 16) × (LSEI_ROOM ≤ length w.old) × (mc ≤ length iw.now) × ((t : ℕ) → t < mc → nth iw.now t < mc) }
    ensures { Fixed mc iw.now w.old w.new }
{
    householder::pick(w, iw, LSEI_X, mc);
    workspace::copy_up(w, householder::QR_SOLUTION, LSEI_X, mc);
    householder::solve_rt(w, mc, mc, LSEI_X);
}

// The row at o under Q', as a right-hand side.
fn turn_row(w: &mut [f64], n: usize, mc: usize, o: usize)
    requires { (n ≤ 17) × (mc ≤ n) × (QR_SOLUTION ≤ o) × (o + n ≤ length w.old) }
    ensures { TurnedRow n mc o w.old w.new }
{
    workspace::copy_down(w, o, householder::QR_SIDE, n);
    householder::apply_qt(w, n, mc, householder::QR_SIDE);
}

// Four rows from o on under Q', 18 places apart, over a right-hand side and a solution: what stands between two of
// them comes along.
fn turn_rows(w: &mut [f64], n: usize, mc: usize, o: usize)
    requires { (n ≤ 17) × (mc ≤ n) × (QR_MATRIX ≤ o) × (o + 54 + n ≤ length w.old) }
    ensures { TurnedRows n mc o w.old w.new }
{
    workspace::copy_down(w, o, householder::QR_SIDE, 54 + n);
    householder::apply_qt_four(w, n, mc, householder::QR_SIDE);
}

// c numbers from p on, to q on, which lies behind them, 18 apart.
fn space(w: &mut [f64], p: usize, q: usize, c: usize)
    requires { (p + c ≤ q) × (q + c * 18 ≤ length w.old) }
    ensures { Spaced q c (λ t. at w.old (p + t)) w.old w.new }
{
    for t in 0..c {
        w[q + t * 18] = w[p + t];
    }
}

// Row i of LSI's E, and entry i of its f, from the turned row at p.
fn lay_e(w: &mut [f64], n: usize, mc: usize, i: usize, p: usize)
    requires { (n ≤ 17) × (mc ≤ n) × (i < 17) × (QR_SIDE ≤ p) × (p + n ≤ QR_MATRIX) × (LSEI_ROOM ≤ length w.old) }
    ensures { LaidE n mc i p w.old w.new }
{
    space(w, p + mc, LSEI_LSI_E + i, n - mc);
    let t = numbers::dot_within(w, p, LSEI_X, mc);
    w[LSEI_LSI_F + i] = w[LSEI_F + i] - t;
}

// Row i of E turned and laid.
fn turn_e_row(w: &mut [f64], n: usize, mc: usize, i: usize)
    requires { (n ≤ 17) × (mc ≤ n) × (i < 17) × (LSEI_ROOM ≤ length w.old) }
    ensures { (w₀ : List Float) → RowsOfE n mc i w₀ w.old → RowsOfE n mc (i + 1) w₀ w.new }
{
    turn_row(w, n, mc, LSEI_E + i * 18);
    lay_e(w, n, mc, i, householder::QR_SIDE);
}

// Rows i to i + 3.
fn turn_e_four(w: &mut [f64], n: usize, mc: usize, i: usize)
    requires { (n ≤ 17) × (mc ≤ n) × (i + 4 ≤ 17) × (LSEI_ROOM ≤ length w.old) }
    ensures { (w₀ : List Float) → RowsOfE n mc i w₀ w.old → RowsOfE n mc (i + 4) w₀ w.new }
{
    turn_rows(w, n, mc, LSEI_E + i * 18);
    for r in 0..4 {
        lay_e(w, n, mc, i + r, householder::QR_SIDE + r * 18);
    }
}

// The rows by fours: up to three are left.
fn turn_e_fours(w: &mut [f64], n: usize, mc: usize, me: usize)
    requires { (n ≤ 17) × (mc ≤ n) × (me ≤ 17) × (LSEI_ROOM ≤ length w.old) }
    ensures { RowsOfE n mc (me / 4 * 4) w.old w.new }
{
    let c = me / 4;
    for q in 0..c {
        turn_e_four(w, n, mc, q * 4);
    }
}

// LSI's E and f.
fn turn_e(w: &mut [f64], n: usize, mc: usize, me: usize)
    requires { (n ≤ 17) × (mc ≤ n) × (me ≤ 17) × (LSEI_ROOM ≤ length w.old) }
    ensures { TailOfE n mc me w.old w.new }
{
    turn_e_fours(w, n, mc, me);
    for i in me / 4 * 4..me {
        turn_e_row(w, n, mc, i);
    }
}

// Row i of LSI's inequalities, and its side, from the turned row at p.
fn lay_g(w: &mut [f64], n: usize, mc: usize, i: usize, p: usize)
    requires { (n ≤ 17) × (mc ≤ n) × (i < 66) × (QR_SIDE ≤ p) × (p + n ≤ QR_MATRIX) × (LSEI_ROOM ≤ length w.old) }
    ensures { LaidG n mc i p w.old w.new }
{
    workspace::copy_up(w, p + mc, LSEI_LSI_G + i * 18, n - mc);
    let t = numbers::dot_within(w, p, LSEI_X, mc);
    w[LSEI_LSI_G + i * 18 + (n - mc)] = w[LSEI_G + i * 18 + n] - t;
}

// Row i of G turned and laid.
fn turn_g_row(w: &mut [f64], n: usize, mc: usize, i: usize)
    requires { (n ≤ 17) × (mc ≤ n) × (i < 66) × (LSEI_ROOM ≤ length w.old) }
    ensures { (w₀ : List Float) → RowsOfG n mc i w₀ w.old → RowsOfG n mc (i + 1) w₀ w.new }
{
    turn_row(w, n, mc, LSEI_G + i * 18);
    lay_g(w, n, mc, i, householder::QR_SIDE);
}

// Rows i to i + 3.
fn turn_g_four(w: &mut [f64], n: usize, mc: usize, i: usize)
    requires { (n ≤ 17) × (mc ≤ n) × (i + 4 ≤ 66) × (LSEI_ROOM ≤ length w.old) }
    ensures { (w₀ : List Float) → RowsOfG n mc i w₀ w.old → RowsOfG n mc (i + 4) w₀ w.new }
{
    turn_rows(w, n, mc, LSEI_G + i * 18);
    for r in 0..4 {
        lay_g(w, n, mc, i + r, householder::QR_SIDE + r * 18);
    }
}

// The rows by fours: up to three are left.
fn turn_g_fours(w: &mut [f64], n: usize, mc: usize, mg: usize)
    requires { (n ≤ 17) × (mc ≤ n) × (mg ≤ 66) × (LSEI_ROOM ≤ length w.old) }
    ensures { RowsOfG n mc (mg / 4 * 4) w.old w.new }
{
    let c = mg / 4;
    for q in 0..c {
        turn_g_four(w, n, mc, q * 4);
    }
}

// LSI's inequalities.
fn turn_g(w: &mut [f64], n: usize, mc: usize, mg: usize)
    requires { (n ≤ 17) × (mc ≤ n) × (mg ≤ 66) × (LSEI_ROOM ≤ length w.old) }
    ensures { TailOfG n mc mg w.old w.new }
{
    turn_g_fours(w, n, mc, mg);
    for i in mg / 4 * 4..mg {
        turn_g_row(w, n, mc, i);
    }
}

// y, and LSI's problem in y_2, where x = Q (y, y_2).
fn reduce(w: &mut [f64], iw: &[u32], n: usize, mc: usize, me: usize, mg: usize)
    requires { LseiReady n mc me mg w.old iw.now }
    ensures { LseiReduced n mc me mg iw.now w.old w.new }
{
    fix(w, iw, mc);
    turn_e(w, n, mc, me);
    turn_g(w, n, mc, mg);
}

// ---- x and the equalities' multipliers

// x = Q (y, y_2), in the place of y.
fn rejoin(w: &mut [f64], n: usize, mc: usize)
    requires { (n ≤ 17) × (mc ≤ 16) × (mc ≤ n) × (LSEI_ROOM ≤ length w.old) }
    ensures { Rejoined n mc w.old w.new }
{
    workspace::copy_down(w, LSEI_LSI_X, LSEI_X + mc, n - mc);
    householder::apply_q(w, n, mc, LSEI_X);
}

// Entries i to i + 3 of the residual E x - f, side by side: each is summed in its own order.
fn residual_four(w: &[f64], n: usize, i: usize) -> householder::Four
    requires { (n ≤ 17) × (i < 14) × (LSEI_ROOM ≤ length w.now) }
    ensures { result ≡ four_of (λ k. residual_in n k w.now) i }
{
    let s = nnls::row_sums_four(w, LSEI_E + i * 18, LSEI_X, n);
    householder::Four {
        a: s.a - w[LSEI_F + i],
        b: s.b - w[LSEI_F + (i + 1)],
        c: s.c - w[LSEI_F + (i + 2)],
        d: s.d - w[LSEI_F + (i + 3)],
    }
}

// The residual by fours: up to three entries are left.
fn residual_fours(w: &mut [f64], n: usize, me: usize)
    requires { (n ≤ 17) × (me ≤ 17) × (LSEI_ROOM ≤ length w.old) }
    ensures { Block QR_SOLUTION (me / 4 * 4) (λ i. residual_in n i w.old) w.old w.new }
{
    let e = me / 4;
    for q in 0..e {
        let s = residual_four(w, n, q * 4);
        nnls::put_four(w, householder::QR_SOLUTION + q * 4, s);
    }
}

// The residual E x - f, in the place of a solution.
fn residuals(w: &mut [f64], n: usize, me: usize)
    requires { (n ≤ 17) × (me ≤ 17) × (LSEI_ROOM ≤ length w.old) }
    ensures { Block QR_SOLUTION me (λ i. residual_in n i w.old) w.old w.new }
{
    residual_fours(w, n, me);
    for i in me / 4 * 4..me {
        let t = numbers::dot_within(w, LSEI_E + i * 18, LSEI_X, n);
        w[householder::QR_SOLUTION + i] = t - w[LSEI_F + i];
    }
}

// Entry j of E'(E x - f) - G'lambda.
fn slope_at(w: &[f64], me: usize, mg: usize, j: usize) -> f64
    requires { (me ≤ 17) × (mg ≤ 66) × (j < 17) × (LSEI_ROOM ≤ length w.now) }
    ensures { result ≡ slope_in me mg j w.now }
{
    let s = numbers::dot_strided(w, LSEI_E + j, 18, w, householder::QR_SOLUTION, 1, me);
    let t = numbers::dot_strided(w, LSEI_G + j, 18, w, LSEI_MULTIPLIERS, 1, mg);
    s - t
}

// Entries j to j + 3, side by side: each is summed in its own order.
fn slope_four(w: &[f64], me: usize, mg: usize, j: usize) -> householder::Four
    requires { (me ≤ 17) × (mg ≤ 66) × (j < 14) × (LSEI_ROOM ≤ length w.now) }
    ensures { result ≡ four_of (λ i. slope_in me mg i w.now) j }
{
    let s = nnls::sums_four(w, LSEI_E + j, householder::QR_SOLUTION, me);
    let t = nnls::sums_four(w, LSEI_G + j, LSEI_MULTIPLIERS, mg);
    householder::Four {
        a: s.a - t.a,
        b: s.b - t.b,
        c: s.c - t.c,
        d: s.d - t.d,
    }
}

// E'(E x - f) - G'lambda by fours: up to three entries are left.
fn slope_fours(w: &mut [f64], n: usize, me: usize, mg: usize)
    requires { (n ≤ 17) × (me ≤ 17) × (mg ≤ 66) × (LSEI_ROOM ≤ length w.old) }
    ensures { Block QR_SIDE (n / 4 * 4) (λ j. slope_in me mg j w.old) w.old w.new }
{
    let e = n / 4;
    for q in 0..e {
        let s = slope_four(w, me, mg, q * 4);
        nnls::put_four(w, householder::QR_SIDE + q * 4, s);
    }
}

// E'(E x - f) - G'lambda, as a right-hand side.
fn slopes(w: &mut [f64], n: usize, me: usize, mg: usize)
    requires { (n ≤ 17) × (me ≤ 17) × (mg ≤ 66) × (LSEI_ROOM ≤ length w.old) }
    ensures { Block QR_SIDE n (λ j. slope_in me mg j w.old) w.old w.new }
{
    slope_fours(w, n, me, mg);
    for j in n / 4 * 4..n {
        let v = slope_at(w, me, mg, j);
        w[householder::QR_SIDE + j] = v;
    }
}

// The equalities' multipliers mu, from C'mu = E'(E x - f) - G'lambda.
fn price(w: &mut [f64], iw: &[u32], n: usize, mc: usize, me: usize, mg: usize)
    requires { LseiReady n mc me mg w.old iw.now }
    ensures { Priced n mc me mg iw.now w.old w.new }
{
    residuals(w, n, me);
    slopes(w, n, me, mg);
    householder::apply_qt(w, n, mc, householder::QR_SIDE);
    householder::solve_r(w, mc);
    workspace::blank(w, householder::QR_SOLUTION, mc);
    householder::place(w, iw, mc, mc);
}

// x and the equalities' multipliers, from y, LSI's x and the inequalities' multipliers.
fn complete(w: &mut [f64], iw: &[u32], n: usize, mc: usize, me: usize, mg: usize)
    requires { LseiReady n mc me mg w.old iw.now }
    ensures { Completed n mc me mg iw.now w.old w.new }
{
    rejoin(w, n, mc);
    price(w, iw, n, mc, me, mg);
}

// ---- the whole

// LSEI of the problem in the part: n unknowns, mc equalities, me rows of E and mg inequalities.
pub fn solve_lsei(
    w: &mut [f64],
    iw: &mut [u32],
    n: usize,
    mc: usize,
    me: usize,
    mg: usize,
) -> lsei::Ended
    requires { (n ≤ 17) × (mc ≤ 16) × (me ≤ 17) × (mg ≤ 66) × (LSEI_ROOM ≤ length w.old) × (LSEI_WORDS ≤ length iw.old) }
    ensures { ended_solution result (solution_in n mc mg w.new) ≡ lsei n mc me mg (stack QR_MATRIX mc n w.old) (vec LSEI_X mc w.old) (stack LSEI_E me n w.old) (vec LSEI_F me w.old) (stack LSEI_G mg n w.old) (sides LSEI_G mg n w.old) }
{
    let rank = lsei::factor_front(w, iw, n, mc, LSEI_X);
    if rank < mc {
        let place = iw[rank];
        return lsei::Ended {
            ending: Err(lsei::Unsolved::Dependent(place)),
            rounds: 0,
            factorings: 1,
        };
    }
    reduce(w, iw, n, mc, me, mg);
    let e = lsei::solve_lsi(
        &mut w[LSEI_LSI..],
        &mut iw[LSEI_LSI_WORDS..],
        n - mc,
        me,
        mg,
    );
    let ending = e.ending;
    let total = lsei::Ended {
        ending,
        rounds: e.rounds,
        factorings: e.factorings + 1,
    };
    let Ok(()) = ending else {
        return total;
    };
    complete(w, iw, n, mc, me, mg);
    total
}
