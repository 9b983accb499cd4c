// The two tables that `decode` fills, of a mark and a value for each place, and the parts of the problem in them.
ghost use Rattle.std.specs.Prelude.{◌≡◌, ◌+◌, ◌≤◌, ◌<◌, length, take, drop};
ghost use Rattle.problem_read.specs.Tables.{PLACES, factor_in, gradient_in, values_in, widths_in, jacobian_in, lower_in, upper_in, kind_at, kinds_in};

// A table with no mark.
pub fn blank_marks() -> [u8; crate::PLACES]
    ensures { PLACES ≡ length result }
{
    [0; crate::PLACES]
}

// A table of zeros.
pub fn blank_values() -> [f64; crate::PLACES]
    ensures { PLACES ≡ length result }
{
    [0.0; crate::PLACES]
}

// The k entries from a place on.
fn part(vals: &[f64], at: usize, k: usize) -> &[f64]
    requires { at + k ≤ length vals.now }
    ensures { result.now ≡ take k (drop at vals.now) }
{
    &vals[at..at + k]
}

// The factor, n by n.
pub fn factor(n: usize, vals: &[f64]) -> &[f64]
    requires { (n ≤ 16) × (length vals.now ≡ PLACES) }
    ensures { result.now ≡ factor_in n vals.now }
{
    part(vals, 0, n * n)
}

// The gradient, of n variables.
pub fn gradient(n: usize, vals: &[f64]) -> &[f64]
    requires { (n ≤ 16) × (length vals.now ≡ PLACES) }
    ensures { result.now ≡ gradient_in n vals.now }
{
    part(vals, crate::GRADIENT, n)
}

// The values of m constraints.
pub fn values(m: usize, vals: &[f64]) -> &[f64]
    requires { (m ≤ 16) × (length vals.now ≡ PLACES) }
    ensures { result.now ≡ values_in m vals.now }
{
    part(vals, crate::VALUES, m)
}

// The widths of m constraints, +0 where there is none.
pub fn widths(m: usize, vals: &[f64]) -> &[f64]
    requires { (m ≤ 16) × (length vals.now ≡ PLACES) }
    ensures { result.now ≡ widths_in m vals.now }
{
    part(vals, crate::WIDTHS, m)
}

// The Jacobian, m by n.
pub fn jacobian(m: usize, n: usize, vals: &[f64]) -> &[f64]
    requires { (m ≤ 16) × (n ≤ 16) × (length vals.now ≡ PLACES) }
    ensures { result.now ≡ jacobian_in m n vals.now }
{
    part(vals, crate::JACOBIAN, m * n)
}

// The lower bounds of n variables.
pub fn lower(n: usize, vals: &[f64]) -> &[f64]
    requires { (n ≤ 16) × (length vals.now ≡ PLACES) }
    ensures { result.now ≡ lower_in n vals.now }
{
    part(vals, crate::LOWER, n)
}

// The upper bounds of n variables.
pub fn upper(n: usize, vals: &[f64]) -> &[f64]
    requires { (n ≤ 16) × (length vals.now ≡ PLACES) }
    ensures { result.now ≡ upper_in n vals.now }
{
    part(vals, crate::UPPER, n)
}

// The kind of constraint i, by the marks of its value and its width.
fn kind(marks: &[u8], i: usize) -> u8
    requires { (length marks.now ≡ PLACES) × (i < 16) }
    ensures { result ≡ kind_at marks.now i }
{
    if marks[crate::VALUES + i] != 2 {
        return 0;
    }
    if marks[crate::WIDTHS + i] == 0 { 1 } else { 2 }
}

// The kinds of as many constraints as `kinds` has room for.
pub fn load_kinds(marks: &[u8], kinds: &mut [u8])
    requires { (length marks.now ≡ PLACES) × (length kinds.old ≤ 16) }
    ensures { kinds.new ≡ kinds_in (length kinds.old) marks.now }
{
    for (i, place) in kinds.iter_mut().enumerate() {
        *place = kind(marks, i);
    }
}
