// The rows of the step's two problems, exact and relaxed, written into a workspace.
//
// A row has 18 slots: its coefficients, and behind them its side. Row k of those at o begins at o + 18 k.
#![tactic(auto)]

mod relaxed;
mod subproblem;

ghost use Rattle.std.specs.Prelude.{◌≡◌, cond, [], ◌∷◌, ◌++◌, map, ℕ, ◌+◌, ◌*◌, ◌≤◌, ◌<◌, eqb, length};
ghost use Rattle.std.specs.Float.Ieee.{neg};
ghost use Rattle.numbers.specs.Numbers.{+0, ◌⊖◌, at, nth, row};
ghost use Rattle.workspace.specs.Readings.{Block};
ghost use Rattle.step_rows.specs.Problem.{constraint_of, constraint_at, row_of, unit, side_of, lower_row, upper_row, each, equation_of, equality_rows, floors_of, delta_rows, inequality_rows, relaxed_rows};
ghost use Rattle.step_rows.specs.Lent.{problem_in, bounded};
ghost use Rattle.step_rows.specs.inner.Work.{Pushed};

pub use crate::subproblem::{Constraints, Subproblem};

// The side of a raw bound: closed at a number, or open, as is any nonfinite one.
pub fn side_of(bound: f64) -> Option<f64>
    ensures { result ≡ side_of bound }
{
    if bound < 1.0 / 0.0 {
        if -1.0 / 0.0 < bound {
            return Some(bound);
        }
    }
    None
}

// A constraint: an equality, a floor, or a band that carries its width.
#[derive(Clone, Copy)]
pub enum Constraint {
    Equality,
    Floor,
    Band(f64),
}

impl Constraint {
    // The constraint of a raw kind, 0, 1 or 2: only a band takes the width.
    pub fn of(kind: u8, width: f64) -> Self
        ensures { result ≡ constraint_of kind width }
    {
        match kind {
            0 => Constraint::Equality,
            1 => Constraint::Floor,
            _ => Constraint::Band(width),
        }
    }
}

impl Subproblem<'_> {
    // Constraint j.
    pub fn constraint(&self, j: usize) -> Constraint
        requires { j < self.now.m }
        ensures { result ≡ constraint_at (problem_in self.now) j }
    {
        Constraint::of(self.kinds[j], self.widths[j])
    }
}

// ---- one row

// v at place i of n entries from p on, +0 elsewhere.
pub fn write_unit(w: &mut [f64], p: usize, n: usize, i: usize, v: f64)
    requires { (i < n) × (p + n ≤ length w.old) }
    ensures { Block p n (λ j. cond (eqb j i) v +0) w.old w.new }
{
    workspace::blank(w, p, n);
    w[p + i] = v;
}

// The row whose only coefficient is v at place i.
fn push_unit(w: &mut [f64], o: usize, k: usize, n: usize, i: usize, v: f64, side: f64)
    requires { (i < n) × (n ≤ 17) × (o + k * 18 + 18 ≤ length w.old) }
    ensures { Pushed o n k (k + 1) (row_of (unit n i v) side ∷ []) w.old w.new }
{
    let p = o + k * 18;
    write_unit(w, p, n, i, v);
    w[p + n] = side;
}

// n entries of a from p on, negated, to w from q on.
fn copy_negated(a: &[f64], w: &mut [f64], p: usize, q: usize, n: usize)
    requires { (p + n ≤ length a.now) × (q + n ≤ length w.old) }
    ensures { Block q n (λ t. neg (at a.now (p + t))) w.old w.new }
{
    for t in 0..n {
        w[q + t] = -a[p + t];
    }
}

// Row j of the m by n matrix a.
fn push_row(a: &[f64], w: &mut [f64], o: usize, k: usize, n: usize, j: usize, side: f64)
    requires { (n ≤ 17) × (j * n + n ≤ length a.now) × (o + k * 18 + 18 ≤ length w.old) }
    ensures { Pushed o n k (k + 1) (row_of (row n j a.now) side ∷ []) w.old w.new }
{
    let p = o + k * 18;
    workspace::copy_strided(a, w, j * n, 1, p, n);
    w[p + n] = side;
}

// Row j of a negated.
fn push_row_negated(a: &[f64], w: &mut [f64], o: usize, k: usize, n: usize, j: usize, side: f64)
    requires { (n ≤ 17) × (j * n + n ≤ length a.now) × (o + k * 18 + 18 ≤ length w.old) }
    ensures { Pushed o n k (k + 1) (row_of (map neg (row n j a.now)) side ∷ []) w.old w.new }
{
    let p = o + k * 18;
    copy_negated(a, w, j * n, p, n);
    w[p + n] = side;
}

// Row j of a with one coefficient more.
fn push_wide(a: &[f64], w: &mut [f64], o: usize, k: usize, n: usize, j: usize, last: f64, side: f64)
    requires { (n ≤ 16) × (j * n + n ≤ length a.now) × (o + k * 18 + 18 ≤ length w.old) }
    ensures { Pushed o (n + 1) k (k + 1) (row_of (row n j a.now ++ (last ∷ [])) side ∷ []) w.old w.new }
{
    let p = o + k * 18;
    workspace::copy_strided(a, w, j * n, 1, p, n);
    w[p + n] = last;
    w[p + n + 1] = side;
}

// Row j of a negated, with one coefficient more.
fn push_wide_negated(
    a: &[f64],
    w: &mut [f64],
    o: usize,
    k: usize,
    n: usize,
    j: usize,
    last: f64,
    side: f64,
)
    requires { (n ≤ 16) × (j * n + n ≤ length a.now) × (o + k * 18 + 18 ≤ length w.old) }
    ensures { Pushed o (n + 1) k (k + 1) (row_of (map neg (row n j a.now) ++ (last ∷ [])) side ∷ []) w.old w.new }
{
    let p = o + k * 18;
    copy_negated(a, w, j * n, p, n);
    w[p + n] = last;
    w[p + n + 1] = side;
}

// ---- bounds: how many rows there are afterwards

// d_i >= lower_i, where that side is closed.
fn push_lower(side: Option<f64>, w: &mut [f64], o: usize, k: usize, n: usize, i: usize) -> usize
    requires { (i < n) × (n ≤ 17) × (o + k * 18 + 18 ≤ length w.old) }
    ensures { (result ≤ k + 1) × Pushed o n k result (lower_row n i side) w.old w.new }
{
    match side {
        None => k,
        Some(v) => {
            push_unit(w, o, k, n, i, 1.0, v);
            k + 1
        }
    }
}

// -d_i >= -upper_i, where that side is closed.
fn push_upper(side: Option<f64>, w: &mut [f64], o: usize, k: usize, n: usize, i: usize) -> usize
    requires { (i < n) × (n ≤ 17) × (o + k * 18 + 18 ≤ length w.old) }
    ensures { (result ≤ k + 1) × Pushed o n k result (upper_row n i side) w.old w.new }
{
    match side {
        None => k,
        Some(v) => {
            push_unit(w, o, k, n, i, -1.0, -v);
            k + 1
        }
    }
}

// The bounds of variable i, lower and then upper.
fn push_bound(
    lower: f64,
    upper: f64,
    w: &mut [f64],
    o: usize,
    k: usize,
    n: usize,
    i: usize,
) -> usize
    requires { (i < n) × (n ≤ 17) × (o + k * 18 + 36 ≤ length w.old) }
    ensures { (result ≤ k + 2) × Pushed o n k result (lower_row n i (side_of lower) ++ upper_row n i (side_of upper)) w.old w.new }
{
    let c = push_lower(side_of(lower), w, o, k, n, i);
    push_upper(side_of(upper), w, o, c, n, i)
}

// The bounds of the first n variables, in rows of `columns` coefficients.
fn push_bounds(
    lower: &[f64],
    upper: &[f64],
    w: &mut [f64],
    o: usize,
    k: usize,
    columns: usize,
    n: usize,
) -> usize
    requires { (n ≤ columns) × (columns ≤ 17) × (length lower.now ≡ n) × (length upper.now ≡ n) × (o + k * 18 + n * 36 ≤ length w.old) }
    ensures { (result ≤ k + 2 * n) × Pushed o columns k result (each n (λ i. lower_row columns i (side_of (at lower.now i)) ++ upper_row columns i (side_of (at upper.now i)))) w.old w.new }
{
    let mut c = k;
    for i in 0..n {
        c = push_bound(lower[i], upper[i], w, o, c, columns, i);
    }
    c
}

// ---- constraints of the exact problem

// Constraint j, of value c, where it is an equality.
fn push_equation(
    constraint: Constraint,
    a: &[f64],
    w: &mut [f64],
    o: usize,
    k: usize,
    n: usize,
    j: usize,
    c: f64,
) -> usize
    requires { (n ≤ 17) × (j * n + n ≤ length a.now) × (o + k * 18 + 18 ≤ length w.old) }
    ensures { (result ≤ k + 1) × Pushed o n k result (equation_of constraint (row n j a.now) c) w.old w.new }
{
    match constraint {
        Constraint::Equality => {
            push_row(a, w, o, k, n, j, -c);
            k + 1
        }
        Constraint::Floor => k,
        Constraint::Band(_) => k,
    }
}

// The equalities.
pub fn push_equalities(cs: &Constraints, w: &mut [f64], o: usize) -> usize
    requires { o + cs.now.m * 18 ≤ length w.old }
    ensures { (result ≤ cs.now.m) × Pushed o cs.now.n 0 result (equality_rows (bounded cs.now [] [])) w.old w.new }
{
    let mut k = 0;
    for j in 0..cs.m {
        let constraint = Constraint::of(cs.kinds[j], cs.widths[j]);
        k = push_equation(constraint, cs.jacobian, w, o, k, cs.n, j, cs.values[j]);
    }
    k
}

// A band: its floor, and its ceiling beside it.
fn push_band(a: &[f64], w: &mut [f64], o: usize, k: usize, n: usize, j: usize, c: f64, width: f64)
    requires { (n ≤ 17) × (j * n + n ≤ length a.now) × (o + k * 18 + 36 ≤ length w.old) }
    ensures { Pushed o n k (k + 2) (row_of (row n j a.now) (neg c) ∷ row_of (map neg (row n j a.now)) (neg (width ⊖ c)) ∷ []) w.old w.new }
{
    push_row(a, w, o, k, n, j, -c);
    push_row_negated(a, w, o, k + 1, n, j, -(width - c));
}

// Constraint j, of value c, where it is a floor or a band.
fn push_floor(
    constraint: Constraint,
    a: &[f64],
    w: &mut [f64],
    o: usize,
    k: usize,
    n: usize,
    j: usize,
    c: f64,
) -> usize
    requires { (n ≤ 17) × (j * n + n ≤ length a.now) × (o + k * 18 + 36 ≤ length w.old) }
    ensures { (result ≤ k + 2) × Pushed o n k result (floors_of constraint (row n j a.now) c) w.old w.new }
{
    match constraint {
        Constraint::Equality => k,
        Constraint::Floor => {
            push_row(a, w, o, k, n, j, -c);
            k + 1
        }
        Constraint::Band(width) => {
            push_band(a, w, o, k, n, j, c, width);
            k + 2
        }
    }
}

// The floors and bands.
fn push_floors(cs: &Constraints, w: &mut [f64], o: usize) -> usize
    requires { o + cs.now.m * 36 ≤ length w.old }
    ensures { (result ≤ 2 * cs.now.m) × Pushed o cs.now.n 0 result (each cs.now.m (λ j. floors_of (constraint_of (nth cs.now.kinds.now j) (at cs.now.widths.now j)) (row cs.now.n j cs.now.jacobian.now) (at cs.now.values.now j))) w.old w.new }
{
    let mut k = 0;
    for j in 0..cs.m {
        let constraint = Constraint::of(cs.kinds[j], cs.widths[j]);
        k = push_floor(constraint, cs.jacobian, w, o, k, cs.n, j, cs.values[j]);
    }
    k
}

// The inequalities of the exact problem: constraints, and then per variable lower, upper.
pub fn push_inequalities(
    cs: &Constraints,
    lower: &[f64],
    upper: &[f64],
    w: &mut [f64],
    o: usize,
) -> usize
    requires { (cs.now.n ≤ 16) × (cs.now.m ≤ 16) × (length lower.now ≡ cs.now.n) × (length upper.now ≡ cs.now.n) × (o + 1152 ≤ length w.old) }
    ensures { (result ≤ 64) × Pushed o cs.now.n 0 result (inequality_rows (bounded cs.now lower.now upper.now)) w.old w.new }
{
    let k = push_floors(cs, w, o);
    push_bounds(lower, upper, w, o, k, cs.n, cs.n)
}

// ---- the relaxed problem, in one column more

// delta >= 0 and -delta >= -1, delta being variable n.
fn push_delta(w: &mut [f64], o: usize, k: usize, n: usize)
    requires { (n ≤ 16) × (o + k * 18 + 36 ≤ length w.old) }
    ensures { Pushed o (n + 1) k (k + 2) (delta_rows n) w.old w.new }
{
    push_unit(w, o, k, n + 1, n, 1.0, 0.0);
    push_unit(w, o, k + 1, n + 1, n, -1.0, -1.0);
}

// The rows of the relaxed problem: constraints, then per variable lower, upper, and last those of delta.
pub fn push_relaxed_rows(
    cs: &Constraints,
    lower: &[f64],
    upper: &[f64],
    w: &mut [f64],
    o: usize,
) -> usize
    requires { (cs.now.n ≤ 16) × (cs.now.m ≤ 16) × (length lower.now ≡ cs.now.n) × (length upper.now ≡ cs.now.n) × (o + 1188 ≤ length w.old) }
    ensures { (result ≤ 66) × Pushed o (cs.now.n + 1) 0 result (relaxed_rows (bounded cs.now lower.now upper.now)) w.old w.new }
{
    let k = relaxed::push_all_relaxed(cs, w, o);
    let c = push_bounds(lower, upper, w, o, k, cs.n + 1, cs.n);
    push_delta(w, o, c, cs.n);
    c + 2
}
