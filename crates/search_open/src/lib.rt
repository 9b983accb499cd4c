// The search around the step: how a turn opens, with a factor of B and the step from the accepted point.
#![tactic(auto)]

ghost use Rattle.std.specs.Prelude.{◌≡◌, true, [], ◌∷◌, suc, ◌+◌, ◌*◌, ◌≤◌, length, Float};
ghost use Rattle.numbers.specs.Numbers.{one, at, tab, ◌⊖◌};
ghost use Rattle.workspace.specs.Tables.{done};
ghost use Rattle.workspace.specs.Readings.{vec, nums};
ghost use Rattle.hessian.specs.Hessian.{identity, cholesky};
ghost use Rattle.step_rows.specs.Lent.{problem_in};
ghost use Rattle.step.specs.inner.Work.{EndsStep, stepped_answer};
ghost use Rattle.step.specs.inner.Places.{STEP_D, STEP_MULTIPLIERS};
ghost use Rattle.search.specs.Places.{SEARCH_ALL_SLOPES, SEARCH_ALPHA, SEARCH_B, SEARCH_CONSTRAINT_VALUES, SEARCH_D, SEARCH_FRESH, SEARCH_KINDS, SEARCH_MACHINE, SEARCH_PENALTIES, SEARCH_UPPER, SEARCH_VALUES, SEARCH_WORDS, SEARCH_X};
ghost use Rattle.search.specs.Setup.{are_kinds};
ghost use Rattle.search.specs.Turn.{violations, merit, model_of, is_still, stepped, opened};
ghost use Rattle.search.specs.Layout.{setup_in, iterate_in, laid};
ghost use Rattle.search.specs.inner.Work.{Ready};
ghost use Rattle.search_open.specs.inner.Work.{Factors, Opens, step_of, slope_of};

use search::{
    SEARCH_ALL_SLOPES, SEARCH_ALPHA, SEARCH_B, SEARCH_CONSTRAINT_VALUES, SEARCH_D, SEARCH_FRESH,
    SEARCH_KINDS, SEARCH_LOWER, SEARCH_MERIT, SEARCH_MULTIPLIERS, SEARCH_SLOPE, SEARCH_UPPER,
    SEARCH_VALUES, SEARCH_X,
};
use search_move::vector_room;
use step::{STEP_D, STEP_MULTIPLIERS, Stepped};
use step_rows::Subproblem;

// How a turn opens: there is a line to search along, or the run ends.
#[derive(Clone, Copy)]
pub enum Opening {
    Go,
    Converged,
    Infeasible,
}

// ---- the factor

// B is the identity again, which is its own factor.
fn reset_turn(f: &mut [f64], u: &mut [u32], factor: &mut [f64], n: usize)
    requires { (length f.old ≡ SEARCH_MACHINE) × (length u.old ≡ SEARCH_WORDS) × (n ≤ 16) × (length factor.old ≡ n * n) }
    ensures { (f.new ≡ laid SEARCH_B (identity n) f.old) × (u.new ≡ laid SEARCH_FRESH (1 ∷ []) u.old) × (factor.new ≡ identity n) }
{
    hessian::identity_into(n, factor);
    search_move::identity_in(f, n);
    u[SEARCH_FRESH] = 1;
}

// The factor of B, by way of w; where there is none, B is reset.
fn factor_turn(f: &mut [f64], u: &mut [u32], factor: &mut [f64], w: &mut [f64], n: usize)
    requires { (length f.old ≡ SEARCH_MACHINE) × (length u.old ≡ SEARCH_WORDS) × (n ≤ 16) × (length factor.old ≡ n * n) × (length w.old ≡ n * n) }
    ensures { Factors n (cholesky n (vec SEARCH_B (n * n) f.old)) f.old f.new u.old u.new factor.new }
{
    let e = SEARCH_B + n * n;
    let made = hessian::factor_into(n, &f[SEARCH_B..e], factor, w);
    let Ok(()) = made else {
        reset_turn(f, u, factor, n);
        return;
    };
}

// ---- the step

// The kinds as bytes.
fn kinds_of(u: &[u32], kinds: &mut [u8], m: usize)
    requires { (length u.now ≡ SEARCH_WORDS) × (length kinds.old ≡ m) × (m ≤ 16) × (are_kinds (nums SEARCH_KINDS m u.now) ≡ true) }
    ensures { kinds.new ≡ nums SEARCH_KINDS m u.now }
{
    for j in 0..m {
        kinds[j] = u[SEARCH_KINDS + j] as u8;
    }
}

// The distances from the accepted x to the bounds at o.
fn gaps_into(f: &[f64], o: usize, gaps: &mut [f64], n: usize)
    requires { (length f.now ≡ SEARCH_MACHINE) × (o ≤ SEARCH_UPPER) × (length gaps.old ≡ n) × (n ≤ 16) }
    ensures { gaps.new ≡ tab n (λ i. at f.now (o + i) ⊖ at f.now (SEARCH_X + i)) }
{
    for i in 0..n {
        gaps[i] = f[o + i] - f[SEARCH_X + i];
    }
}

// The step in the front of the workspaces.
fn solve_front(p: &Subproblem, w: &mut [f64], iw: &mut [u32]) -> Stepped
    requires { (8192 ≤ length w.old) × (512 ≤ length iw.old) }
    ensures { EndsStep p.now.n p.now.m result w.new (problem_in p.now) }
{
    let v = &mut w[..8192];
    let u = &mut iw[..512];
    step::solve_step(p, v, u)
}

// Room for a byte of each constraint.
fn kind_room() -> [u8; 16]
    ensures { 16 ≡ length result }
{
    [0; 16]
}

// The step from the accepted point, with the factor of B.
fn step_turn(
    f: &[f64],
    u: &[u32],
    factor: &[f64],
    w: &mut [f64],
    iw: &mut [u32],
    n: usize,
    m: usize,
) -> Stepped
    requires { Ready n m f.now u.now × (length factor.now ≡ n * n) × (8192 ≤ length w.old) × (512 ≤ length iw.old) }
    ensures { EndsStep n m result w.new (model_of (setup_in f.now u.now) factor.now (iterate_in n m f.now u.now)) }
{
    let mut a = kind_room();
    let mut b = vector_room();
    let mut c = vector_room();
    let mut e = vector_room();
    let kinds = &mut a[..m];
    let widths = &mut b[..m];
    let lower = &mut c[..n];
    let upper = &mut e[..n];
    kinds_of(u, kinds, m);
    workspace::blank(widths, 0, m);
    gaps_into(f, SEARCH_LOWER, lower, n);
    gaps_into(f, SEARCH_UPPER, upper, n);
    let slopes = SEARCH_ALL_SLOPES + n;
    let last = slopes + m * n;
    let after = SEARCH_CONSTRAINT_VALUES + m;
    let gradient = &f[SEARCH_ALL_SLOPES..slopes];
    let values = &f[SEARCH_CONSTRAINT_VALUES..after];
    let jacobian = &f[slopes..last];
    let p = Subproblem {
        n,
        m,
        factor,
        gradient,
        kinds,
        values,
        widths,
        jacobian,
        lower,
        upper,
    };
    solve_front(&p, w, iw)
}

// ---- the line

// The predicted change by the step d with its multipliers is within the tolerance, and so is the violation.
fn is_still(f: &[f64], u: &[u32], d: &[f64], multipliers: &[f64], n: usize, m: usize) -> bool
    requires { Ready n m f.now u.now × (length d.now ≡ n) × (length multipliers.now ≡ m) }
    ensures { (t : Float) → result ≡ is_still (setup_in f.now u.now) (iterate_in n m f.now u.now) (step_of d.now multipliers.now t) }
{
    let e = SEARCH_CONSTRAINT_VALUES + m;
    let v = &f[SEARCH_VALUES..e];
    let g = &f[SEARCH_ALL_SLOPES..];
    let change = search_turn::magnitude_of(numbers::dot(n, g, d));
    let complementarity = search_turn::complementarity_of(multipliers, v, m);
    search_turn::is_within(f, u, v, change + complementarity, m)
}

// The slope of the merit along the step in the slice, which relaxes by t.
fn slope_of(f: &[f64], u: &[u32], t: f64, n: usize, m: usize) -> f64
    requires { Ready n m f.now u.now }
    ensures { result ≡ slope_of n m (vec SEARCH_ALL_SLOPES (suc m * n) f.now) (vec SEARCH_D n f.now) t (vec SEARCH_PENALTIES m f.now) (violations (setup_in f.now u.now) (vec SEARCH_VALUES (suc m) f.now)) }
{
    let e = SEARCH_CONSTRAINT_VALUES + m;
    let v = &f[SEARCH_VALUES..e];
    let g = &f[SEARCH_ALL_SLOPES..];
    let d = &f[SEARCH_D..];
    let along = numbers::dot(n, g, d);
    along - (1.0 - t) * search_turn::penalized(f, u, v, m)
}

// The line of the step in the slice: alpha is one, and merit and slope are those at the accepted point.
fn set_line(f: &mut [f64], u: &[u32], t: f64, n: usize, m: usize)
    requires { Ready n m f.old u.now }
    ensures { f.new ≡ laid SEARCH_ALPHA (one ∷ merit (setup_in f.old u.now) (vec SEARCH_PENALTIES m f.old) (vec SEARCH_VALUES (suc m) f.old) ∷ slope_of n m (vec SEARCH_ALL_SLOPES (suc m * n) f.old) (vec SEARCH_D n f.old) t (vec SEARCH_PENALTIES m f.old) (violations (setup_in f.old u.now) (vec SEARCH_VALUES (suc m) f.old)) ∷ []) f.old }
{
    let e = SEARCH_CONSTRAINT_VALUES + m;
    let all = &f[..];
    let v = &all[SEARCH_VALUES..e];
    let merit = search_turn::merit_of(all, u, v, m);
    let slope = slope_of(all, u, t, n, m);
    f[SEARCH_ALPHA] = 1.0;
    f[SEARCH_MERIT] = merit;
    f[SEARCH_SLOPE] = slope;
}

// What a step that was found opens: d and its multipliers stand in w, and it relaxes by t.
fn open_line(f: &mut [f64], u: &[u32], w: &[f64], t: f64, n: usize, m: usize) -> Opening
    requires { Ready n m f.old u.now × (8192 ≤ length w.now) }
    ensures { Opens result (stepped (setup_in f.old u.now) (iterate_in n m f.old u.now) (done (step_of (vec STEP_D n w.now) (vec STEP_MULTIPLIERS m w.now) t))) f.old f.new u.now u.now }
{
    if search_turn::Fractions::FULL_RELAXATION <= t {
        return Opening::Infeasible;
    }
    let a = STEP_D + n;
    let e = STEP_MULTIPLIERS + m;
    let d = &w[STEP_D..a];
    let multipliers = &w[STEP_MULTIPLIERS..e];
    let still = is_still(f, u, d, multipliers, n, m);
    workspace::load(multipliers, f, SEARCH_MULTIPLIERS, m);
    if still {
        return Opening::Converged;
    }
    search_turn::penalties_into(f, m);
    workspace::load(d, f, SEARCH_D, n);
    set_line(f, u, t, n, m);
    Opening::Go
}

// What the step opens.
fn open_step(answer: Stepped, f: &mut [f64], u: &[u32], w: &[f64], n: usize, m: usize) -> Opening
    requires { Ready n m f.old u.now × (8192 ≤ length w.now) }
    ensures { Opens result (stepped (setup_in f.old u.now) (iterate_in n m f.old u.now) (stepped_answer answer (vec STEP_D n w.now) (vec STEP_MULTIPLIERS m w.now))) f.old f.new u.now u.now }
{
    match answer.relaxation {
        Ok(t) => open_line(f, u, w, t, n, m),
        Err(_) => Opening::Infeasible,
    }
}

// Room for a factor.
fn factor_room() -> [f64; 256]
    ensures { 256 ≡ length result }
{
    [0.0; 256]
}

// A turn opens: B is factored, the step is solved, and its line is set where there is one.
pub fn open_turn(
    f: &mut [f64],
    u: &mut [u32],
    w: &mut [f64],
    iw: &mut [u32],
    n: usize,
    m: usize,
) -> Opening
    requires { Ready n m f.old u.old × (8192 ≤ length w.old) × (512 ≤ length iw.old) }
    ensures { Opens result (opened (setup_in f.old u.old) (iterate_in n m f.old u.old)) f.old f.new u.old u.new }
{
    let mut room = factor_room();
    let e = n * n;
    let factor = &mut room[..e];
    factor_turn(f, u, factor, &mut w[..e], n);
    let answer = step_turn(f, u, factor, w, iw, n, m);
    open_step(answer, f, u, w, n, m)
}
