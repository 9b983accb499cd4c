// The public QR: tests, the factoring in the lent workspaces, and the factors out.
#![tactic(auto)]

ghost use Rattle.std.specs.Prelude.{◌≡◌, ◌&&◌, ◌+◌, ◌*◌, ◌≤◌, min, eqb, length};
ghost use Rattle.workspace.specs.Readings.{vec, mat, stack, nums};
ghost use Rattle.householder.specs.Qr.{factor};
ghost use Rattle.householder.specs.inner.Work.{held};
ghost use Rattle.householder_call.specs.Promise.{qr_call, Factored};
ghost use Rattle.householder.specs.inner.Places.{QR_B, QR_MATRIX};

use workspace::Refusal;

// Householder QR with column pivoting.
#[derive(Clone, Copy)]
pub struct Qr {}

// The lengths of the matrix and of the outputs.
fn are_lengths(m: usize, n: usize, a: usize, r: usize, perm: usize, u: usize, b: usize) -> bool
    requires { (m ≤ 18) × (n ≤ 66) }
    ensures { result ≡ (eqb a (m * n) && eqb r (m * n) && eqb perm n && eqb u (min m n * m) && eqb b (min m n)) }
{
    let c = m.min(n);
    if a != m * n {
        return false;
    }
    if r != m * n {
        return false;
    }
    if perm != n {
        return false;
    }
    if u != c * m {
        return false;
    }
    b == c
}

// The matrix in, and its factors in its place: their rank.
fn run(a: &[f64], w: &mut [f64], iw: &mut [u32], m: usize, n: usize) -> usize
    requires { (m ≤ 18) × (n ≤ 66) × (length a.now ≡ m * n) × (8192 ≤ length w.old) × (512 ≤ length iw.old) }
    ensures { held m n result w.new iw.new ≡ factor m n a.now }
{
    workspace::load_matrix(a, w, householder::QR_MATRIX, m, n);
    householder::factor_in(w, iw, m, n)
}

// R and the permutation out.
fn give_r(w: &[f64], iw: &[u32], r: &mut [f64], perm: &mut [u32], m: usize, n: usize)
    requires { (m ≤ 18) × (n ≤ 66) × (8192 ≤ length w.now) × (512 ≤ length iw.now) × (length r.old ≡ m * n) × (length perm.old ≡ n) }
    ensures { (r.new ≡ mat QR_MATRIX m n w.now) × (perm.new ≡ nums 0 n iw.now) }
{
    workspace::unload_matrix(w, r, householder::QR_MATRIX, m, n);
    workspace::unload_words(iw, perm, 0, n);
}

// The reflectors out.
fn give_reflectors(w: &[f64], u: &mut [f64], b: &mut [f64], m: usize, n: usize)
    requires { (m ≤ 18) × (8192 ≤ length w.now) × (length u.old ≡ min m n * m) × (length b.old ≡ min m n) }
    ensures { (u.new ≡ stack 0 (min m n) m w.now) × (b.new ≡ vec QR_B (min m n) w.now) }
{
    let c = m.min(n);
    workspace::unload_stack(w, u, 0, c, m);
    workspace::unload(w, b, householder::QR_B, c);
}

impl Qr {
    // The factors of the m by n matrix a: R, the permutation, and the reflectors' u and b; their rank.
    pub fn factor(
        m: usize,
        n: usize,
        a: &[f64],
        r: &mut [f64],
        perm: &mut [u32],
        u: &mut [f64],
        b: &mut [f64],
        w: &mut [f64],
        iw: &mut [u32],
    ) -> Result<usize, Refusal>
        ensures { Factored (qr_call m n a.now r.old perm.old u.old b.old w.old iw.old) result r.old r.new perm.old perm.new u.old u.new b.old b.new w.old w.new iw.old iw.new }
    {
        if !workspace::is_matrix(m, n) {
            return Err(Refusal::Size);
        }
        if !are_lengths(m, n, a.len(), r.len(), perm.len(), u.len(), b.len()) {
            return Err(Refusal::Length);
        }
        if !workspace::is_room(w.len(), iw.len()) {
            return Err(Refusal::Room);
        }
        let rank = run(a, &mut w[..8192], &mut iw[..512], m, n);
        give_r(w, iw, r, perm, m, n);
        give_reflectors(w, u, b, m, n);
        workspace::clear(w, iw);
        Ok(rank)
    }
}
