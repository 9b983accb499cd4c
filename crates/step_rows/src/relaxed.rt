// The constraints of the relaxed problem, in one column more.
ghost use Rattle.std.specs.Prelude.{◌≡◌, cond, [], ◌∷◌, map, ℕ, ◌+◌, ◌*◌, ◌≤◌, length};
ghost use Rattle.std.specs.Float.Ieee.{neg, lt};
ghost use Rattle.numbers.specs.Numbers.{+0, ◌⊖◌, at, nth, row};
ghost use Rattle.step_rows.specs.Problem.{constraint_of, each, opposed_rows, loosened_row, relaxed_of};
ghost use Rattle.step_rows.specs.inner.Work.{Pushed};

// What an inequality has in the last column: -c, only if c < 0.
fn loosening(c: f64) -> f64
    ensures { result ≡ cond (lt c +0) (neg c) +0 }
{
    if c < 0.0 { -c } else { 0.0 }
}

// An equality: two opposed rows.
fn push_opposed(a: &[f64], w: &mut [f64], o: usize, k: usize, n: usize, j: usize, c: f64)
    requires { (n ≤ 16) × (j * n + n ≤ length a.now) × (o + k * 18 + 36 ≤ length w.old) }
    ensures { Pushed o (n + 1) k (k + 2) (opposed_rows (row n j a.now) c) w.old w.new }
{
    crate::push_wide(a, w, o, k, n, j, -c, -c);
    crate::push_wide_negated(a, w, o, k + 1, n, j, c, c);
}

// A floor: one row, of value c.
fn push_loosened(a: &[f64], w: &mut [f64], o: usize, k: usize, n: usize, j: usize, c: f64)
    requires { (n ≤ 16) × (j * n + n ≤ length a.now) × (o + k * 18 + 18 ≤ length w.old) }
    ensures { Pushed o (n + 1) k (k + 1) (loosened_row (row n j a.now) c ∷ []) w.old w.new }
{
    crate::push_wide(a, w, o, k, n, j, loosening(c), -c);
}

// A ceiling: row j negated, of value c.
fn push_loosened_negated(a: &[f64], w: &mut [f64], o: usize, k: usize, n: usize, j: usize, c: f64)
    requires { (n ≤ 16) × (j * n + n ≤ length a.now) × (o + k * 18 + 18 ≤ length w.old) }
    ensures { Pushed o (n + 1) k (k + 1) (loosened_row (map neg (row n j a.now)) c ∷ []) w.old w.new }
{
    crate::push_wide_negated(a, w, o, k, n, j, loosening(c), -c);
}

// A band: both of its rows, each relaxed by itself.
fn push_loosened_band(
    a: &[f64],
    w: &mut [f64],
    o: usize,
    k: usize,
    n: usize,
    j: usize,
    c: f64,
    width: f64,
)
    requires { (n ≤ 16) × (j * n + n ≤ length a.now) × (o + k * 18 + 36 ≤ length w.old) }
    ensures { Pushed o (n + 1) k (k + 2) (loosened_row (row n j a.now) c ∷ loosened_row (map neg (row n j a.now)) (width ⊖ c) ∷ []) w.old w.new }
{
    push_loosened(a, w, o, k, n, j, c);
    push_loosened_negated(a, w, o, k + 1, n, j, width - c);
}

// Constraint j, of value c.
fn push_relaxed(
    constraint: crate::Constraint,
    a: &[f64],
    w: &mut [f64],
    o: usize,
    k: usize,
    n: usize,
    j: usize,
    c: f64,
) -> usize
    requires { (n ≤ 16) × (j * n + n ≤ length a.now) × (o + k * 18 + 36 ≤ length w.old) }
    ensures { (result ≤ k + 2) × Pushed o (n + 1) k result (relaxed_of constraint (row n j a.now) c) w.old w.new }
{
    match constraint {
        crate::Constraint::Equality => {
            push_opposed(a, w, o, k, n, j, c);
            k + 2
        }
        crate::Constraint::Floor => {
            push_loosened(a, w, o, k, n, j, c);
            k + 1
        }
        crate::Constraint::Band(width) => {
            push_loosened_band(a, w, o, k, n, j, c, width);
            k + 2
        }
    }
}

// All constraints.
pub fn push_all_relaxed(cs: &crate::Constraints, w: &mut [f64], o: usize) -> usize
    requires { (cs.now.n ≤ 16) × (o + cs.now.m * 36 ≤ length w.old) }
    ensures { (result ≤ 2 * cs.now.m) × Pushed o (cs.now.n + 1) 0 result (each cs.now.m (λ j. relaxed_of (constraint_of (nth cs.now.kinds.now j) (at cs.now.widths.now j)) (row cs.now.n j cs.now.jacobian.now) (at cs.now.values.now j))) w.old w.new }
{
    let mut k = 0;
    for j in 0..cs.m {
        let constraint = crate::Constraint::of(cs.kinds[j], cs.widths[j]);
        k = push_relaxed(constraint, cs.jacobian, w, o, k, cs.n, j, cs.values[j]);
    }
    k
}
