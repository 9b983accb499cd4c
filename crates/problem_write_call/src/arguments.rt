// The tests before anything is written.
ghost use Rattle.std.specs.Prelude.{◌≡◌, ◌&&◌, map, ◌+◌, ◌*◌, ◌≤◌, eqb, length};
ghost use Rattle.workspace.specs.Tables.{has};
ghost use Rattle.step_rows.specs.Problem.{constraint_of};
ghost use Rattle.step_call.specs.Promise.{are_kinds, is_width, are_widths};
ghost use Rattle.problem_read.specs.Bits.{number};
ghost use Rattle.problem_read.specs.Input.{all_below};
ghost use Rattle.problem_write.specs.Lent.{lent_of};
ghost use Rattle.problem_write.specs.inner.Shared.{lent_in};
ghost use Rattle.problem_write_call.specs.Promise.{is_clear, are_clear};
ghost use Rattle.problem_write_call.specs.inner.Work.{bounds_told, strict_told, file_told, clear_at};

use problem_write::bits::ProblemBits;
use workspace::Refusal;

// The lengths of the factor, the gradient, the kinds, the values and the Jacobian.
fn are_lengths(
    n: usize,
    m: usize,
    factor: &[u64],
    gradient: &[u64],
    kinds: &[u8],
    values: &[u64],
    jacobian: &[u64],
) -> bool
    requires { (n ≤ 16) × (m ≤ 16) }
    ensures { result ≡ (has factor.now (n * n) && has gradient.now n && has kinds.now m && has values.now m && has jacobian.now (m * n)) }
{
    if factor.len() != n * n {
        return false;
    }
    if gradient.len() != n {
        return false;
    }
    if kinds.len() != m {
        return false;
    }
    if values.len() != m {
        return false;
    }
    jacobian.len() == m * n
}

// The lengths of the widths and the bounds.
fn are_other_lengths(n: usize, m: usize, widths: usize, lower: usize, upper: usize) -> bool
    ensures { result ≡ (eqb widths m && eqb lower n && eqb upper n) }
{
    if widths != m {
        return false;
    }
    if lower != n {
        return false;
    }
    upper == n
}

// The widths of m constraints: a band's is at least zero and finite.
fn are_widths(kinds: &[u8], widths: &[u64], m: usize) -> bool
    requires { (length kinds.now ≡ m) × (length widths.now ≡ m) }
    ensures { result ≡ are_widths kinds.now (map number widths.now) m }
{
    for j in 0..m {
        if !step_call::is_width(kinds[j], problem_read::value(widths[j])) {
            return false;
        }
    }
    true
}

// The bounds of n variables, the lowest first.
fn test_bounds(lower: &[u64], upper: &[u64], n: usize) -> Result<(), Refusal>
    requires { (n ≤ 16) × (length lower.now ≡ n) × (length upper.now ≡ n) }
    ensures { result ≡ bounds_told lower.now upper.now n 0 }
{
    for i in 0..n {
        if !step_call::strict::are_bounds(
            problem_read::value(lower[i]),
            problem_read::value(upper[i]),
        ) {
            return Err(Refusal::Bound(i as u32));
        }
    }
    Ok(())
}

// An entry of the factor: the bits of +0 above the diagonal.
fn is_clear(i: usize, j: usize, bits: u64) -> bool
    ensures { result ≡ is_clear i j bits }
{
    if i < j {
        return bits == 0;
    }
    true
}

// Row i of the factor, which stands from a place on.
fn is_clear_row(factor: &[u64], n: usize, i: usize, from: usize) -> bool
    requires { (n ≤ 16) × (from + n ≤ length factor.now) }
    ensures { result ≡ all_below n (clear_at factor.now i from) }
{
    for j in 0..n {
        if !is_clear(i, j, factor[from + j]) {
            return false;
        }
    }
    true
}

// The whole factor.
fn are_clear(factor: &[u64], n: usize) -> bool
    requires { (n ≤ 16) × (length factor.now ≡ n * n) }
    ensures { result ≡ are_clear n factor.now }
{
    for i in 0..n {
        if !is_clear_row(factor, n, i, i * n) {
            return false;
        }
    }
    true
}

// The strict step's tests before its arithmetic, of slices: their lengths are known to fit only where these pass.
pub fn test_strict(
    n: usize,
    m: usize,
    factor: &[u64],
    gradient: &[u64],
    kinds: &[u8],
    values: &[u64],
    widths: &[u64],
    jacobian: &[u64],
    lower: &[u64],
    upper: &[u64],
    w: usize,
    iw: usize,
) -> Result<(), Refusal>
    ensures { result ≡ strict_told (lent_of n m factor.now gradient.now kinds.now values.now widths.now jacobian.now lower.now upper.now) w «iw» }
{
    if !step_call::are_sizes(n, m) {
        return Err(Refusal::Size);
    }
    if !are_lengths(n, m, factor, gradient, kinds, values, jacobian) {
        return Err(Refusal::Length);
    }
    if !are_other_lengths(n, m, widths.len(), lower.len(), upper.len()) {
        return Err(Refusal::Length);
    }
    if !workspace::is_room(w, iw) {
        return Err(Refusal::Room);
    }
    if !step_call::are_kinds(kinds) {
        return Err(Refusal::Kind);
    }
    if !are_widths(kinds, widths, m) {
        return Err(Refusal::Width);
    }
    test_bounds(lower, upper, n)
}

// The factor's upper triangle, then the room for the file.
pub fn test_file(p: &ProblemBits, out: usize) -> Result<(), Refusal>
    ensures { result ≡ file_told (lent_in p.now) out }
{
    if !are_clear(p.factor, p.n) {
        return Err(Refusal::Triangle);
    }
    let records = problem_write::count::count_records(p);
    if out < problem_write::RECORD * records {
        return Err(Refusal::Output);
    }
    Ok(())
}
