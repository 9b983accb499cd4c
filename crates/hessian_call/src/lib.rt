// The public operations on B: tests, the kernel, and the workspaces cleared.
#![tactic(auto)]

ghost use Rattle.std.specs.Prelude.{◌≡◌, ◌&&◌, ◌+◌, ◌*◌, ◌≤◌, eqb, length};
ghost use Rattle.workspace.specs.Readings.{Cleared};
ghost use Rattle.hessian.specs.Hessian.{cholesky, update};
ghost use Rattle.hessian.specs.inner.Work.{FactorMade};
ghost use Rattle.hessian_call.specs.Promise.{Writes, identity_call, times_call, cholesky_call, update_call};
ghost use Rattle.hessian_call.specs.inner.Work.{UpdateReady};

use workspace::Refusal;

// The operations on B.
#[derive(Clone, Copy)]
pub struct Hessian {}

// ---- tests

// The length of a square matrix.
fn is_square(n: usize, bn: usize) -> bool
    requires { n ≤ 16 }
    ensures { result ≡ eqb bn (n * n) }
{
    bn == n * n
}

// The lengths of two square matrices.
fn are_squares(n: usize, bn: usize, on: usize) -> bool
    requires { n ≤ 16 }
    ensures { result ≡ (eqb bn (n * n) && eqb on (n * n)) }
{
    if bn != n * n {
        return false;
    }
    on == n * n
}

// The lengths of a square matrix and two vectors.
fn are_lengths(n: usize, bn: usize, sn: usize, yn: usize) -> bool
    requires { n ≤ 16 }
    ensures { result ≡ (eqb bn (n * n) && eqb sn n && eqb yn n) }
{
    if bn != n * n {
        return false;
    }
    if sn != n {
        return false;
    }
    yn == n
}

// ---- the calls where no test refuses

// The factor and the clearing of the workspaces, where no test refuses.
fn cholesky_all(
    n: usize,
    b: &[f64],
    out: &mut [f64],
    w: &mut [f64],
    iw: &mut [u32],
) -> Result<(), Refusal>
    requires { (n ≤ 16) × (length b.now ≡ n * n) × (length out.old ≡ n * n) × (8192 ≤ length w.old) × (512 ≤ length iw.old) }
    ensures { FactorMade (cholesky n b.now) result out.old out.new × Cleared w.old w.new iw.old iw.new }
{
    let m = n * n;
    let r = hessian::factor_into(n, b, out, &mut w[..m]);
    workspace::clear(w, iw);
    r
}

// The update and the clearing of the workspaces, where no test refuses.
fn update_all(n: usize, b: &mut [f64], s: &[f64], y: &[f64], w: &mut [f64], iw: &mut [u32])
    requires { UpdateReady n b.old s.now y.now w.old iw.old }
    ensures { (b.new ≡ update n b.old s.now y.now) × Cleared w.old w.new iw.old iw.new }
{
    let m = n + n;
    hessian::renew(n, b, s, y, &mut w[..m]);
    workspace::clear(w, iw);
}

// ---- the operations

impl Hessian {
    // The identity, written to `out`.
    pub fn identity(n: usize, out: &mut [f64], w: &mut [f64], iw: &mut [u32]) -> Result<(), Refusal>
        ensures { Writes (identity_call n out.old w.old iw.old) result out.old out.new w.old w.new iw.old iw.new }
    {
        if !workspace::is_dimension(n) {
            return Err(Refusal::Size);
        }
        if !is_square(n, out.len()) {
            return Err(Refusal::Length);
        }
        if !workspace::is_room(w.len(), iw.len()) {
            return Err(Refusal::Room);
        }
        hessian::identity_into(n, out);
        workspace::clear(w, iw);
        Ok(())
    }

    // The product B v, written to `out`.
    pub fn times(
        n: usize,
        b: &[f64],
        v: &[f64],
        out: &mut [f64],
        w: &mut [f64],
        iw: &mut [u32],
    ) -> Result<(), Refusal>
        ensures { Writes (times_call n b.now v.now out.old w.old iw.old) result out.old out.new w.old w.new iw.old iw.new }
    {
        if !workspace::is_dimension(n) {
            return Err(Refusal::Size);
        }
        if !are_lengths(n, b.len(), v.len(), out.len()) {
            return Err(Refusal::Length);
        }
        if !workspace::is_room(w.len(), iw.len()) {
            return Err(Refusal::Room);
        }
        hessian::times_into(n, b, v, out);
        workspace::clear(w, iw);
        Ok(())
    }

    // The Cholesky factor of B, written to `out`.
    pub fn cholesky(
        n: usize,
        b: &[f64],
        out: &mut [f64],
        w: &mut [f64],
        iw: &mut [u32],
    ) -> Result<(), Refusal>
        ensures { Writes (cholesky_call n b.now out.old w.old iw.old) result out.old out.new w.old w.new iw.old iw.new }
    {
        if !workspace::is_dimension(n) {
            return Err(Refusal::Size);
        }
        if !are_squares(n, b.len(), out.len()) {
            return Err(Refusal::Length);
        }
        if !workspace::is_room(w.len(), iw.len()) {
            return Err(Refusal::Room);
        }
        cholesky_all(n, b, out, w, iw)
    }

    // The damped update of B, in its place.
    pub fn update(
        n: usize,
        b: &mut [f64],
        s: &[f64],
        y: &[f64],
        w: &mut [f64],
        iw: &mut [u32],
    ) -> Result<(), Refusal>
        ensures { Writes (update_call n b.old s.now y.now w.old iw.old) result b.old b.new w.old w.new iw.old iw.new }
    {
        if !workspace::is_dimension(n) {
            return Err(Refusal::Size);
        }
        if !are_lengths(n, b.len(), s.len(), y.len()) {
            return Err(Refusal::Length);
        }
        if !workspace::is_room(w.len(), iw.len()) {
            return Err(Refusal::Room);
        }
        update_all(n, b, s, y, w, iw);
        Ok(())
    }
}
