// The public operations on B kept as its lower triangle: tests, the kernel with room for the square, and the workspaces cleared.
#![tactic(auto)]

ghost use Rattle.std.specs.Prelude.{◌≡◌, ◌&&◌, ◌*◌, ◌≤◌, eqb, length};
ghost use Rattle.workspace.specs.Readings.{Cleared};
ghost use Rattle.hessian.specs.inner.Work.{FactorMade};
ghost use Rattle.hessian_call.specs.Promise.{Writes};
ghost use Rattle.hessian_packed.specs.Packed.{count, identity, cholesky, update};
ghost use Rattle.hessian_packed_call.specs.Promise.{packed_identity_call, packed_times_call, packed_cholesky_call, packed_update_call};
ghost use Rattle.hessian_packed_call.specs.inner.Work.{Ready};

use workspace::Refusal;

// The operations on B as its lower triangle.
#[derive(Clone, Copy)]
pub struct Packed {}

// ---- tests

// The length of a triangle.
fn is_triangle(n: usize, pn: usize) -> bool
    requires { n ≤ 16 }
    ensures { result ≡ eqb pn (count n) }
{
    pn == hessian_packed::count_of(n)
}

// The lengths of a triangle and a square matrix.
fn are_matrices(n: usize, pn: usize, on: usize) -> bool
    requires { n ≤ 16 }
    ensures { result ≡ (eqb pn (count n) && eqb on (n * n)) }
{
    if !is_triangle(n, pn) {
        return false;
    }
    on == n * n
}

// The lengths of a triangle and two vectors.
fn are_lengths(n: usize, pn: usize, sn: usize, yn: usize) -> bool
    requires { n ≤ 16 }
    ensures { result ≡ (eqb pn (count n) && eqb sn n && eqb yn n) }
{
    if !is_triangle(n, pn) {
        return false;
    }
    if sn != n {
        return false;
    }
    yn == n
}

// ---- the calls where no test refuses

// The identity and the clearing of the workspaces.
fn identity_all(n: usize, out: &mut [f64], w: &mut [f64], iw: &mut [u32])
    requires { (n ≤ 16) × (length out.old ≡ count n) × (8192 ≤ length w.old) × (512 ≤ length iw.old) }
    ensures { (out.new ≡ identity n) × Cleared w.old w.new iw.old iw.new }
{
    let m = n * n;
    hessian_packed::identity_into(n, out, &mut w[..m]);
    workspace::clear(w, iw);
}

// The factor and the clearing of the workspaces.
fn cholesky_all(
    n: usize,
    p: &[f64],
    out: &mut [f64],
    w: &mut [f64],
    iw: &mut [u32],
) -> Result<(), Refusal>
    requires { (n ≤ 16) × (length p.now ≡ count n) × (length out.old ≡ n * n) × (8192 ≤ length w.old) × (512 ≤ length iw.old) }
    ensures { FactorMade (cholesky n p.now) result out.old out.new × Cleared w.old w.new iw.old iw.new }
{
    let m = n * n;
    let r = hessian_packed::factor_into(n, p, out, &mut w[..m]);
    workspace::clear(w, iw);
    r
}

// The update and the clearing of the workspaces.
fn update_all(n: usize, p: &mut [f64], s: &[f64], y: &[f64], w: &mut [f64], iw: &mut [u32])
    requires { Ready n p.old s.now y.now w.old iw.old }
    ensures { (p.new ≡ update n p.old s.now y.now) × Cleared w.old w.new iw.old iw.new }
{
    let m = n * n;
    hessian_packed::renew(n, p, s, y, &mut w[..m]);
    workspace::clear(w, iw);
}

// ---- the operations

impl Packed {
    // The identity, written to `out`.
    pub fn identity(n: usize, out: &mut [f64], w: &mut [f64], iw: &mut [u32]) -> Result<(), Refusal>
        ensures { Writes (packed_identity_call n out.old w.old iw.old) result out.old out.new w.old w.new iw.old iw.new }
    {
        if !workspace::is_dimension(n) {
            return Err(Refusal::Size);
        }
        if !is_triangle(n, out.len()) {
            return Err(Refusal::Length);
        }
        if !workspace::is_room(w.len(), iw.len()) {
            return Err(Refusal::Room);
        }
        identity_all(n, out, w, iw);
        Ok(())
    }

    // The product B v, written to `out`.
    pub fn times(
        n: usize,
        p: &[f64],
        v: &[f64],
        out: &mut [f64],
        w: &mut [f64],
        iw: &mut [u32],
    ) -> Result<(), Refusal>
        ensures { Writes (packed_times_call n p.now v.now out.old w.old iw.old) result out.old out.new w.old w.new iw.old iw.new }
    {
        if !workspace::is_dimension(n) {
            return Err(Refusal::Size);
        }
        if !are_lengths(n, p.len(), v.len(), out.len()) {
            return Err(Refusal::Length);
        }
        if !workspace::is_room(w.len(), iw.len()) {
            return Err(Refusal::Room);
        }
        hessian_packed::times_into(n, p, v, out);
        workspace::clear(w, iw);
        Ok(())
    }

    // The Cholesky factor of B, square, written to `out`.
    pub fn cholesky(
        n: usize,
        p: &[f64],
        out: &mut [f64],
        w: &mut [f64],
        iw: &mut [u32],
    ) -> Result<(), Refusal>
        ensures { Writes (packed_cholesky_call n p.now out.old w.old iw.old) result out.old out.new w.old w.new iw.old iw.new }
    {
        if !workspace::is_dimension(n) {
            return Err(Refusal::Size);
        }
        if !are_matrices(n, p.len(), out.len()) {
            return Err(Refusal::Length);
        }
        if !workspace::is_room(w.len(), iw.len()) {
            return Err(Refusal::Room);
        }
        cholesky_all(n, p, out, w, iw)
    }

    // The damped update of B, in its place.
    pub fn update(
        n: usize,
        p: &mut [f64],
        s: &[f64],
        y: &[f64],
        w: &mut [f64],
        iw: &mut [u32],
    ) -> Result<(), Refusal>
        ensures { Writes (packed_update_call n p.old s.now y.now w.old iw.old) result p.old p.new w.old w.new iw.old iw.new }
    {
        if !workspace::is_dimension(n) {
            return Err(Refusal::Size);
        }
        if !are_lengths(n, p.len(), s.len(), y.len()) {
            return Err(Refusal::Length);
        }
        if !workspace::is_room(w.len(), iw.len()) {
            return Err(Refusal::Room);
        }
        update_all(n, p, s, y, w, iw);
        Ok(())
    }
}
