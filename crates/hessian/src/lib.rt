// The approximation B of the Hessian, n by n, row by row: the kernels of identity, product, Cholesky factor and damped BFGS update.
#![tactic(auto)]

ghost use Rattle.std.specs.Prelude.{◌≡◌, true, false, ◌&&◌, cond, ℕ, ◌+◌, ◌*◌, ◌≤◌, ◌<◌, eqb, length, take, drop, Float, is_ok, IfErr};
ghost use Rattle.numbers.specs.Numbers.{+0, one, at, tab, ◌⊕◌, ◌⊖◌, ◌⊗◌, ◌⊘◌};
ghost use Rattle.hessian.specs.Hessian.{identity, times, remainder, with_row, is_pivot, next_row, cholesky, theta, damped, revised, curved, update};
ghost use Rattle.workspace.specs.declared.Refusal.TheVariants.{Pivot};
ghost use Rattle.hessian.specs.inner.Work.{made_of, FactorMade};

use workspace::Refusal;

// The curvature fraction below which the update of B is damped.
#[derive(Clone, Copy)]
pub struct Hessian {}

impl Hessian {
    pub const DAMPING: f64 = 0.2;
}

// ---- the identity

// Entry (i, j) of the identity.
fn unit_entry(i: usize, j: usize) -> f64
    ensures { result ≡ cond (eqb i j) one +0 }
{
    if i == j { 1.0 } else { 0.0 }
}

// Row i of the identity.
fn unit_row(n: usize, x: &mut [f64], i: usize)
    requires { length x.old ≡ n }
    ensures { x.new ≡ tab n (λ j. cond (eqb i j) one +0) }
{
    for j in 0..n {
        x[j] = unit_entry(i, j);
    }
}

// The identity, written to `out`.
pub fn identity_into(n: usize, out: &mut [f64])
    requires { length out.old ≡ n * n }
    ensures { out.new ≡ identity n }
{
    for i in 0..n {
        let a = i * n;
        let e = a + n;
        unit_row(n, &mut out[a..e], i);
    }
}

// ---- the product

// B v, written to `out`.
pub fn times_into(n: usize, b: &[f64], v: &[f64], out: &mut [f64])
    requires { (n * n ≤ length b.now) × (length v.now ≡ n) × (length out.old ≡ n) }
    ensures { out.new ≡ times n b.now v.now }
{
    for i in 0..n {
        let a = i * n;
        let e = a + n;
        out[i] = numbers::dot(n, &b[a..e], v);
    }
}

// ---- Cholesky

// Entry (i, j) of B less the dot product of rows i and j of L, before column j.
fn remainder_of(n: usize, b: &[f64], l: &[f64], i: usize, j: usize) -> f64
    requires { (i < n) × (j ≤ i) × (length b.now ≡ n * n) × (length l.now ≡ n * n) }
    ensures { result ≡ remainder n b.now l.now i j }
{
    let p = i * n;
    let q = j * n;
    b[p + j] - numbers::dot_within(l, p, q, j)
}

// The first i entries of row i of L, where the rows before it are done.
fn with_row(n: usize, b: &[f64], l: &mut [f64], i: usize)
    requires { (i < n) × (length b.now ≡ n * n) × (length l.old ≡ n * n) }
    ensures { l.new ≡ with_row n b.now i l.old i }
{
    for j in 0..i {
        let x = remainder_of(n, b, l, i, j) / l[j * n + j];
        l[i * n + j] = x;
    }
}

// A pivot is positive and finite.
fn is_pivot(p: f64) -> bool
    ensures { result ≡ is_pivot p }
{
    if 0.0 < p {
        return p < 1.0 / 0.0;
    }
    false
}

// Row i of L, or false where its pivot is not good.
fn next_row(n: usize, b: &[f64], l: &mut [f64], i: usize) -> bool
    requires { (i < n) × (length b.now ≡ n * n) × (length l.old ≡ n * n) }
    ensures { made_of result l.new ≡ next_row n b.now i (made_of true l.old) }
{
    with_row(n, b, l, i);
    let p = remainder_of(n, b, l, i, i);
    if !is_pivot(p) {
        return false;
    }
    l[i * n + i] = numbers::sqrt(p);
    true
}

// L in the place of `l`, whole or up to a pivot that is not good.
fn factor(n: usize, b: &[f64], l: &mut [f64]) -> Result<(), Refusal>
    requires { (n ≤ 16) × (length b.now ≡ n * n) × (length l.old ≡ n * n) }
    ensures made { made_of (is_ok result) l.new ≡ cholesky n b.now }
    ensures why { IfErr result (λ r. r ≡ Pivot) }
{
    workspace::wipe(l, n * n);
    for i in 0..n {
        if !next_row(n, b, l, i) {
            return Err(Refusal::Pivot);
        }
    }
    Ok(())
}

// L is made in `l` and copied to `out` where it is whole, so that a refusal leaves `out`.
pub fn factor_into(n: usize, b: &[f64], out: &mut [f64], l: &mut [f64]) -> Result<(), Refusal>
    requires { (n ≤ 16) × (length b.now ≡ n * n) × (length out.old ≡ n * n) × (length l.old ≡ n * n) }
    ensures { FactorMade (cholesky n b.now) result out.old out.new }
{
    factor(n, b, l)?;
    workspace::unload(l, out, 0, n * n);
    Ok(())
}

// ---- the damped update

// How much of y the damped r takes.
fn theta_of(sbs: f64, sy: f64) -> f64
    ensures { result ≡ theta sbs sy }
{
    if sy >= Hessian::DAMPING * sbs {
        1.0
    } else {
        (1.0 - Hessian::DAMPING) * sbs / (sbs - sy)
    }
}

// r = theta y + (1 - theta) Bs, from the first n entries of `w`, which hold Bs, to the next n.
fn damp(n: usize, theta: f64, y: &[f64], w: &mut [f64])
    requires { (length y.now ≡ n) × (length w.old ≡ n + n) }
    ensures { (take n w.new ≡ take n w.old) × (drop n w.new ≡ damped n theta y.now (take n w.old)) }
{
    for i in 0..n {
        w[n + i] = theta * y[i] + (1.0 - theta) * w[i];
    }
}

// One row of B, where ri and bi are the row's entries of r and Bs.
fn revise_row(n: usize, x: &mut [f64], r: &[f64], bs: &[f64], ri: f64, bi: f64, sr: f64, sbs: f64)
    requires { (length x.old ≡ n) × (length r.now ≡ n) × (length bs.now ≡ n) }
    ensures { x.new ≡ tab n (λ j. at x.old j ⊕ (ri ⊗ at r.now j ⊘ sr ⊖ bi ⊗ at bs.now j ⊘ sbs)) }
{
    for j in 0..n {
        x[j] = x[j] + (ri * r[j] / sr - bi * bs[j] / sbs);
    }
}

// B with the two quotients, row by row.
fn revise(n: usize, b: &mut [f64], r: &[f64], bs: &[f64], sr: f64, sbs: f64)
    requires { (length b.old ≡ n * n) × (length r.now ≡ n) × (length bs.now ≡ n) }
    ensures { b.new ≡ revised n b.old r.now bs.now sr sbs }
{
    for i in 0..n {
        let a = i * n;
        let e = a + n;
        revise_row(n, &mut b[a..e], r, bs, r[i], bs[i], sr, sbs);
    }
}

// The update where s'_bs, handed over, is not <= 0: Bs stands in the first n entries of `w`, and r is put behind it.
fn curve(n: usize, b: &mut [f64], s: &[f64], y: &[f64], w: &mut [f64], sbs: f64)
    requires { (length b.old ≡ n * n) × (length s.now ≡ n) × (length y.now ≡ n) × (length w.old ≡ n + n) }
    ensures { b.new ≡ curved n b.old s.now y.now (take n w.old) sbs }
{
    let sy = numbers::dot(n, s, y);
    let theta = theta_of(sbs, sy);
    damp(n, theta, y, w);
    let all = &w[..];
    let bs = &all[..n];
    let r = &all[n..];
    let sr = numbers::dot(n, s, r);
    revise(n, b, r, bs, sr, sbs);
}

// The update itself, with Bs and r in `w`.
pub fn renew(n: usize, b: &mut [f64], s: &[f64], y: &[f64], w: &mut [f64])
    requires { (length b.old ≡ n * n) × (length s.now ≡ n) × (length y.now ≡ n) × (length w.old ≡ n + n) }
    ensures { b.new ≡ update n b.old s.now y.now }
{
    times_into(n, b, s, &mut w[..n]);
    let sbs = numbers::dot(n, s, &w[..n]);
    if sbs <= 0.0 {
        return;
    }
    curve(n, b, s, y, w, sbs);
}
