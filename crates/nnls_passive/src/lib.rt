// The solve on the passive columns of nonnegative least squares, in one part of each workspace.
#![tactic(auto)]

ghost use Rattle.std.specs.Prelude.{◌≡◌, false, cond, not, ℕ, ◌+◌, ◌*◌, ◌<◌, ◌≤◌, eqb, length, drop};
ghost use Rattle.numbers.specs.Numbers.{nth};
ghost use Rattle.workspace.specs.Readings.{nums};
ghost use Rattle.nnls_passive.specs.inner.Work.{Crowded, Listed, Collected, PartFactored, SolvedPart, Spread, PassiveSolved};
ghost use Rattle.nnls_passive.specs.inner.Places.{NNLS_COLUMNS, NNLS_PERM, NNLS_ROOM, NNLS_WORDS};

// ---- where things stand in the part of nonnegative least squares
//
// The columns of A stand at 0, 18 places each.

// The right side b.
pub const NNLS_SIDE: usize = 66 * 18;

pub const NNLS_X: usize = NNLS_SIDE + 18;
// The trial values.
pub const NNLS_Z: usize = NNLS_X + 66;

pub const NNLS_DUAL: usize = NNLS_Z + 66;

pub const NNLS_RESIDUAL: usize = NNLS_DUAL + 66;
// A QR part, for the passive columns.
pub const NNLS_QR: usize = NNLS_RESIDUAL + 18;

pub const NNLS_QR_SIDE: usize = NNLS_QR + householder::QR_SIDE;

pub const NNLS_QR_SOLUTION: usize = NNLS_QR + householder::QR_SOLUTION;

pub const NNLS_QR_MATRIX: usize = NNLS_QR + householder::QR_MATRIX;
// How many f64 it takes.
pub const NNLS_ROOM: usize = NNLS_QR_MATRIX + 66 * 18;
// In the u32 workspace: the passive marks stand at 0, and these are the rejected.
pub const NNLS_REJECTED: usize = 66;
// The columns to solve on.
pub const NNLS_COLUMNS: usize = NNLS_REJECTED + 66;
// The QR part's permutation.
pub const NNLS_PERM: usize = NNLS_COLUMNS + 66;
// How many u32 it takes.
pub const NNLS_WORDS: usize = NNLS_PERM + 66;

// 1 for a mark, else 0.
fn flag(mark: u32) -> usize
    ensures { (result ≡ cond (not (eqb mark 0)) 1 0) × (result ≤ 1) }
{
    if mark == 0 { 0 } else { 1 }
}

// The marked columns, listed in order. The answer says how many there are.
fn list_columns(iw: &mut [u32], n: usize) -> usize
    requires { (n ≤ 66) × (NNLS_WORDS ≤ length iw.old) }
    ensures { Listed n result iw.old iw.new }
{
    let mut c = 0;
    for j in 0..n {
        iw[NNLS_COLUMNS + c] = j as u32;
        c = c + flag(iw[j]);
    }
    c
}

// Whether the marked columns and one more are at most m; more have no full rank.
pub fn has_room(iw: &[u32], m: usize, n: usize) -> bool
    requires { (n ≤ 66) × (NNLS_WORDS ≤ length iw.now) }
    ensures { result ≡ false → Crowded m n (nums 0 n iw.now) }
{
    let mut c = 0;
    for j in 0..n {
        c = c + flag(iw[j]);
    }
    c + 1 <= m
}

// The c listed columns, side by side, to the QR part.
fn collect(w: &mut [f64], iw: &[u32], m: usize, c: usize)
    requires { (m ≤ 18) × (c ≤ 66) × (NNLS_WORDS ≤ length iw.now) × (NNLS_ROOM ≤ length w.old) × ((t : ℕ) → t < c → nth iw.now (NNLS_COLUMNS + t) < 66) }
    ensures { Collected m c iw.now w.old w.new }
{
    for t in 0..c {
        let j = iw[NNLS_COLUMNS + t] as usize;
        workspace::copy_up(w, j * 18, NNLS_QR_MATRIX + t * 18, m);
    }
}

// Their factors. The answer is the rank.
fn factor_part(w: &mut [f64], iw: &mut [u32], m: usize, c: usize) -> usize
    requires { (m ≤ 18) × (c ≤ 66) × (NNLS_WORDS ≤ length iw.old) × (NNLS_ROOM ≤ length w.old) }
    ensures { PartFactored m c result w.old w.new iw.old iw.new }
{
    householder::factor_in(&mut w[NNLS_QR..], &mut iw[NNLS_PERM..], m, c)
}

// With the factors and their rank k, the solution for b.
fn solve_part(w: &mut [f64], iw: &[u32], m: usize, c: usize, k: usize)
    requires { (m ≤ 18) × (c ≤ 66) × (k ≤ m) × (k ≤ c) × (NNLS_WORDS ≤ length iw.now) × (NNLS_ROOM ≤ length w.old) × ((t : ℕ) → t < k → nth (drop NNLS_PERM iw.now) t < c) }
    ensures { SolvedPart m c k w.old w.new iw.now }
{
    workspace::copy_up(w, NNLS_SIDE, NNLS_QR_SIDE, m);
    householder::solve(&mut w[NNLS_QR..], &iw[NNLS_PERM..], m, c, k);
}

// The c entries of the solution into z, at the listed columns.
fn spread(w: &mut [f64], iw: &[u32], n: usize, c: usize)
    requires { (n ≤ 66) × (c ≤ 66) × (NNLS_WORDS ≤ length iw.now) × (NNLS_ROOM ≤ length w.old) × ((t : ℕ) → t < c → nth iw.now (NNLS_COLUMNS + t) < n) }
    ensures { Spread n c c iw.now w.old w.new }
{
    for t in 0..c {
        let j = iw[NNLS_COLUMNS + t] as usize;
        let v = w[NNLS_QR_SOLUTION + t];
        w[NNLS_Z + j] = v;
    }
}

// The solve on the passive columns, into z. The answer says whether they have full rank.
pub fn solve_passive(w: &mut [f64], iw: &mut [u32], m: usize, n: usize) -> bool
    requires { (m ≤ 18) × (n ≤ 66) × (NNLS_WORDS ≤ length iw.old) × (NNLS_ROOM ≤ length w.old) }
    ensures { PassiveSolved m n result w.old w.new iw.old iw.new }
{
    let c = list_columns(iw, n);
    collect(w, iw, m, c);
    let k = factor_part(w, iw, m, c);
    solve_part(w, iw, m, c, k);
    workspace::blank(w, NNLS_Z, n);
    spread(w, iw, n, c);
    k == c
}
