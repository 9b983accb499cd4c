// What the step's problems are assembled from besides their rows, and how their answers are read: the target, the matrices and the right sides, and the multipliers in order.
ghost use Rattle.std.specs.Prelude.{◌≡◌, cond, [], ◌∷◌, ◌++◌, map, ℕ, ◌+◌, ◌*◌, ◌≤◌, ◌<◌, leb, length};
ghost use Rattle.std.specs.Float.Ieee.{neg};
ghost use Rattle.numbers.specs.Numbers.{+0, Σ, at, transposed, ◌⊖◌, ◌⊗◌, ◌⊘◌};
ghost use Rattle.workspace.specs.Readings.{vec, Block, Loaded};
ghost use Rattle.householder.specs.Qr.{downward};
ghost use Rattle.step_rows.specs.Problem.{by_kind};
ghost use Rattle.step_rows.specs.Lent.{problem_in};
ghost use Rattle.step.specs.Step.{target, in_order, relaxed_matrix, paired, clamped};
ghost use Rattle.step_rows.specs.inner.Work.{equalities_among, floors_among, relaxed_among};
ghost use Rattle.step.specs.inner.Assembly.{triangle};
ghost use Rattle.step.specs.inner.Places.{EXACT_C, EXACT_EQUALITY_MULTIPLIERS, EXACT_MULTIPLIERS, EXACT_X, RELAXED_E, RELAXED_F, RELAXED_G, RELAXED_MULTIPLIERS, STEP_MULTIPLIERS};

use step_rows::Subproblem;

// ---- f = -L^-1 g

// Entry i of L^-1 g, from those before it, which stand at the front.
fn solved_entry(factor: &[f64], w: &[f64], n: usize, i: usize) -> f64
    requires { (i < n) × (length factor.now ≡ n * n) × (n ≤ length w.now) }
    ensures { result ≡ (at w.now i ⊖ Σ i (λ j. at factor.now (i * n + j * 1) ⊗ at w.now (0 + j * 1))) ⊘ at factor.now (i * n + i) }
{
    let p = i * n;
    let t = numbers::dot_strided(factor, p, 1, w, 0, 1, i);
    (w[i] - t) / factor[p + i]
}

// L^-1 g in the place of g, by forward substitution.
fn substitute(factor: &[f64], w: &mut [f64], n: usize)
    requires { (length factor.now ≡ n * n) × (n ≤ length w.old) }
    ensures { vec 0 n w.new ≡ downward n (transposed n n factor.now) n (vec 0 n w.old) }
{
    for i in 0..n {
        let v = solved_entry(factor, w, n, i);
        w[i] = v;
    }
}

// The first n entries negated.
fn negate(w: &mut [f64], n: usize)
    requires { n ≤ length w.old }
    ensures { vec 0 n w.new ≡ map neg (vec 0 n w.old) }
{
    for i in 0..n {
        w[i] = -w[i];
    }
}

// f, to the front.
pub fn write_target(p: &Subproblem, w: &mut [f64])
    requires { p.now.n ≤ length w.old }
    ensures { vec 0 p.now.n w.new ≡ target (problem_in p.now) }
{
    workspace::load(p.gradient, w, 0, p.n);
    substitute(p.factor, w, p.n);
    negate(w, p.n);
}

// ---- matrices and right sides

// The sides of c equalities of n coefficients, gathered from behind them.
pub fn gather_sides(w: &mut [f64], c: usize, n: usize)
    requires { (c ≤ 16) × (n ≤ 17) × (EXACT_X + 16 ≤ length w.old) }
    ensures { Block EXACT_X c (λ t. at w.old (EXACT_C + t * 18 + n)) w.old w.new }
{
    for t in 0..c {
        w[crate::EXACT_X + t] = w[crate::EXACT_C + t * 18 + n];
    }
}

// f with +0 behind it, for the relaxed problem.
pub fn write_side(w: &mut [f64], n: usize)
    requires { (n ≤ 16) × (RELAXED_G ≤ length w.old) }
    ensures { Block RELAXED_F (n + 1) (λ t. at (vec 0 n w.old ++ (+0 ∷ [])) t) w.old w.new }
{
    workspace::copy_up(w, 0, crate::RELAXED_F, n);
    w[crate::RELAXED_F + n] = 0.0;
}

// Column j of the relaxed problem's matrix: the first j + 1 entries of row j of the factor, and +0 below.
fn write_column(factor: &[f64], w: &mut [f64], n: usize, j: usize)
    requires { (n ≤ 16) × (j < n) × (length factor.now ≡ n * n) × (RELAXED_F ≤ length w.old) }
    ensures { Block (RELAXED_E + j * 18) (n + 1) (λ i. cond (leb i j) (at factor.now (j * n + i)) +0) w.old w.new }
{
    let p = crate::RELAXED_E + j * 18;
    let q = p + (j + 1);
    workspace::copy_strided(factor, w, j * n, 1, p, j + 1);
    workspace::blank(w, q, n - j);
}

// All columns but the last.
fn write_columns(factor: &[f64], w: &mut [f64], n: usize)
    requires { (n ≤ 16) × (length factor.now ≡ n * n) × (RELAXED_F ≤ length w.old) }
    ensures { Loaded RELAXED_E (n + 1) n (triangle n factor.now) w.old w.new }
{
    for j in 0..n {
        write_column(factor, w, n, j);
    }
}

// The relaxed problem's matrix: the upper triangle of L', and in the corner the root of the weight.
pub fn write_matrix(factor: &[f64], w: &mut [f64], n: usize, root: f64)
    requires { (n ≤ 16) × (length factor.now ≡ n * n) × (RELAXED_F ≤ length w.old) }
    ensures { Loaded RELAXED_E (n + 1) (n + 1) (relaxed_matrix n root factor.now) w.old w.new }
{
    write_columns(factor, w, n);
    step_rows::write_unit(w, crate::RELAXED_E + n * 18, n + 1, n, root);
}

// ---- the multipliers, one per constraint in constraint order
//
// A kind is the byte that C lends: an order needs no width, which a `Constraint` carries.

// The multiplier of a constraint of the exact problem, e equalities and i rows of floors and bands being passed: of a band, that of its first row less that of its second.
fn ordered_of(kind: u8, w: &[f64], e: usize, i: usize) -> f64
    requires { (e ≤ 16) × (i ≤ 64) × (EXACT_MULTIPLIERS + 66 ≤ length w.now) }
    ensures { result ≡ by_kind kind (at w.now (EXACT_EQUALITY_MULTIPLIERS + e)) (at w.now (EXACT_MULTIPLIERS + i)) (at w.now (EXACT_MULTIPLIERS + i) ⊖ at w.now (EXACT_MULTIPLIERS + i + 1)) }
{
    let q = crate::EXACT_MULTIPLIERS + i;
    match kind {
        0 => w[crate::EXACT_EQUALITY_MULTIPLIERS + e],
        1 => w[q],
        _ => w[q] - w[q + 1],
    }
}

// How many equalities are passed after a constraint.
fn passed(kind: u8, e: usize) -> usize
    requires { e ≤ 16 }
    ensures { result ≡ by_kind kind (e + 1) e e }
{
    match kind {
        0 => e + 1,
        _ => e,
    }
}

// How many rows of floors and bands are passed after a constraint.
fn passed_floors(kind: u8, i: usize) -> usize
    requires { i ≤ 64 }
    ensures { result ≡ by_kind kind i (i + 1) (i + 2) }
{
    match kind {
        0 => i,
        1 => i + 1,
        _ => i + 2,
    }
}

// Those of the exact problem, of c equalities and g rows of inequalities.
pub fn order_multipliers(kinds: &[u8], w: &mut [f64], c: usize, g: usize)
    requires { (length kinds.now ≤ 16) × (c ≡ equalities_among kinds.now) × (floors_among kinds.now ≤ g) × (g ≤ 64) × (EXACT_MULTIPLIERS + 66 ≤ length w.old) }
    ensures { Block STEP_MULTIPLIERS (length kinds.now) (λ t. at (in_order kinds.now 0 c (vec EXACT_EQUALITY_MULTIPLIERS c w.old ++ vec EXACT_MULTIPLIERS g w.old)) t) w.old w.new }
{
    let mut e = 0;
    let mut i = 0;
    for (j, &kind) in kinds.iter().enumerate() {
        let v = ordered_of(kind, w, e, i);
        w[crate::STEP_MULTIPLIERS + j] = v;
        e = passed(kind, e);
        i = passed_floors(kind, i);
    }
}

// The multiplier of a constraint of the relaxed problem, r rows being passed: of an equality or a band, that of its first row less that of its second.
fn paired_of(kind: u8, w: &[f64], r: usize) -> f64
    requires { (r ≤ 65) × (RELAXED_MULTIPLIERS + 67 ≤ length w.now) }
    ensures { result ≡ by_kind kind (at w.now (RELAXED_MULTIPLIERS + r) ⊖ at w.now (RELAXED_MULTIPLIERS + r + 1)) (at w.now (RELAXED_MULTIPLIERS + r)) (at w.now (RELAXED_MULTIPLIERS + r) ⊖ at w.now (RELAXED_MULTIPLIERS + r + 1)) }
{
    let p = crate::RELAXED_MULTIPLIERS + r;
    match kind {
        1 => w[p],
        _ => w[p] - w[p + 1],
    }
}

// How many rows are passed after a constraint of the relaxed problem.
fn passed_rows(kind: u8, r: usize) -> usize
    requires { r ≤ 65 }
    ensures { result ≡ by_kind kind (r + 2) (r + 1) (r + 2) }
{
    match kind {
        1 => r + 1,
        _ => r + 2,
    }
}

// Those of the relaxed problem, of g rows.
pub fn pair_multipliers(kinds: &[u8], w: &mut [f64], g: usize)
    requires { (length kinds.now ≤ 16) × (relaxed_among kinds.now ≤ g) × (g ≤ 66) × (RELAXED_MULTIPLIERS + 67 ≤ length w.old) }
    ensures { Block STEP_MULTIPLIERS (length kinds.now) (λ t. at (paired kinds.now 0 (vec RELAXED_MULTIPLIERS g w.old)) t) w.old w.new }
{
    let mut r = 0;
    for (j, &kind) in kinds.iter().enumerate() {
        let v = paired_of(kind, w, r);
        w[crate::STEP_MULTIPLIERS + j] = v;
        r = passed_rows(kind, r);
    }
}

// The relaxation clamped to [0, 1]: a NaN and -0 stay.
pub fn clamp(v: f64) -> f64
    ensures { result ≡ clamped v }
{
    if v < 0.0 {
        return 0.0;
    }
    if 1.0 < v {
        return 1.0;
    }
    v
}
