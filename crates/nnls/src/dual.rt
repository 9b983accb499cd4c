// The residual b - A x and the dual A' (b - A x), four entries side by side: each is summed in its own order.
ghost use Rattle.std.specs.Prelude.{◌≡◌, ◌+◌, ◌*◌, ◌/◌, ◌<◌, ◌≤◌, length};
ghost use Rattle.workspace.specs.Readings.{Block};
ghost use Rattle.nnls.specs.inner.Dual.{sum_at, row_sum, residual_at, dual_at, four_of, four_rows, set_four};
ghost use Rattle.nnls_passive.specs.inner.Places.{NNLS_DUAL, NNLS_RESIDUAL, NNLS_ROOM};

use householder::Four;

// Four entries from o on.
pub fn put_four(w: &mut [f64], o: usize, s: Four)
    requires { (o ≤ 3000) × (NNLS_ROOM ≤ length w.old) }
    ensures { w.new ≡ set_four o s w.old }
{
    w[o] = s.a;
    w[o + 1] = s.b;
    w[o + 2] = s.c;
    w[o + 3] = s.d;
}

// The sums of the products of n numbers, 18 apart from p on, with the n from q on; and from p + 1, p + 2 and p + 3 on.
pub fn sums_four(w: &[f64], p: usize, q: usize, n: usize) -> Four
    requires { (p + n * 18 ≤ length w.now) × (q + n ≤ length w.now) }
    ensures { result ≡ four_of (sum_at n q w.now) p }
{
    let mut a = -0.0;
    let mut b = -0.0;
    let mut c = -0.0;
    let mut d = -0.0;
    for j in 0..n {
        let x = w[q + j];
        a = a + w[p + j * 18] * x;
        b = b + w[p + 1 + j * 18] * x;
        c = c + w[p + 2 + j * 18] * x;
        d = d + w[p + 3 + j * 18] * x;
    }
    Four { a, b, c, d }
}

// The sums of the products of the n numbers from p on with the n from q on; and of those from p + 18, p + 36 and
// p + 54 on.
pub fn row_sums_four(w: &[f64], p: usize, q: usize, n: usize) -> Four
    requires { (p + 54 + n ≤ length w.now) × (q + n ≤ length w.now) }
    ensures { result ≡ four_rows (row_sum n q w.now) p }
{
    let mut a = -0.0;
    let mut b = -0.0;
    let mut c = -0.0;
    let mut d = -0.0;
    for j in 0..n {
        let x = w[q + j];
        a = a + w[p + j] * x;
        b = b + w[p + 18 + j] * x;
        c = c + w[p + 36 + j] * x;
        d = d + w[p + 54 + j] * x;
    }
    Four { a, b, c, d }
}

// ---- the residual

// Entry i of b - A x.
fn residual_at(w: &[f64], i: usize, n: usize) -> f64
    requires { (i < 18) × (n ≤ 66) × (NNLS_ROOM ≤ length w.now) }
    ensures { result ≡ residual_at n w.now i }
{
    let t = numbers::dot_strided(w, i, 18, w, nnls_passive::NNLS_X, 1, n);
    w[nnls_passive::NNLS_SIDE + i] - t
}

// Entries i to i + 3.
fn residual_four(w: &[f64], i: usize, n: usize) -> Four
    requires { (i < 15) × (n ≤ 66) × (NNLS_ROOM ≤ length w.now) }
    ensures { result ≡ four_of (residual_at n w.now) i }
{
    let s = sums_four(w, i, nnls_passive::NNLS_X, n);
    Four {
        a: w[nnls_passive::NNLS_SIDE + i] - s.a,
        b: w[nnls_passive::NNLS_SIDE + (i + 1)] - s.b,
        c: w[nnls_passive::NNLS_SIDE + (i + 2)] - s.c,
        d: w[nnls_passive::NNLS_SIDE + (i + 3)] - s.d,
    }
}

// The residual by fours: up to three entries are left.
fn residual_fours(w: &mut [f64], m: usize, n: usize)
    requires { (m ≤ 18) × (n ≤ 66) × (NNLS_ROOM ≤ length w.old) }
    ensures { Block NNLS_RESIDUAL (m / 4 * 4) (residual_at n w.old) w.old w.new }
{
    let c = m / 4;
    for q in 0..c {
        let s = residual_four(w, q * 4, n);
        put_four(w, nnls_passive::NNLS_RESIDUAL + q * 4, s);
    }
}

// b - A x, the residual.
pub fn write_residual(w: &mut [f64], m: usize, n: usize)
    requires { (m ≤ 18) × (n ≤ 66) × (NNLS_ROOM ≤ length w.old) }
    ensures { Block NNLS_RESIDUAL m (residual_at n w.old) w.old w.new }
{
    residual_fours(w, m, n);
    for i in m / 4 * 4..m {
        let v = residual_at(w, i, n);
        w[nnls_passive::NNLS_RESIDUAL + i] = v;
    }
}

// ---- the dual

// Entries j to j + 3 of A' times the residual.
fn dual_four(w: &[f64], j: usize, m: usize) -> Four
    requires { (j < 63) × (m ≤ 18) × (NNLS_ROOM ≤ length w.now) }
    ensures { result ≡ four_of (dual_at m w.now) j }
{
    row_sums_four(w, j * 18, nnls_passive::NNLS_RESIDUAL, m)
}

// The dual by fours: up to three entries are left.
fn dual_fours(w: &mut [f64], m: usize, n: usize)
    requires { (m ≤ 18) × (n ≤ 66) × (NNLS_ROOM ≤ length w.old) }
    ensures { Block NNLS_DUAL (n / 4 * 4) (dual_at m w.old) w.old w.new }
{
    let c = n / 4;
    for q in 0..c {
        let s = dual_four(w, q * 4, m);
        put_four(w, nnls_passive::NNLS_DUAL + q * 4, s);
    }
}

// A' times the residual, the dual.
pub fn write_dual(w: &mut [f64], m: usize, n: usize)
    requires { (m ≤ 18) × (n ≤ 66) × (NNLS_ROOM ≤ length w.old) }
    ensures { Block NNLS_DUAL n (dual_at m w.old) w.old w.new }
{
    dual_fours(w, m, n);
    for j in n / 4 * 4..n {
        let v = numbers::dot_within(w, j * 18, nnls_passive::NNLS_RESIDUAL, m);
        w[nnls_passive::NNLS_DUAL + j] = v;
    }
}
