// Householder QR with column pivoting, in a lent part of the workspaces.
#![tactic(auto)]

mod fours;
mod search;
mod vectors;

ghost use Rattle.std.specs.Prelude.{◌≡◌, cond, List, ℕ, ◌+◌, ◌-◌, ◌*◌, ◌/◌, ◌<◌, ◌≤◌, min, max, eqb, Float, length};
ghost use Rattle.numbers.specs.Numbers.{at, nth, tab};
ghost use Rattle.workspace.specs.Readings.{vec, mat, nums, Block};
ghost use Rattle.householder.specs.Qr.{pivot, tolerance, signed, advance, factor, solve};
ghost use Rattle.householder.specs.inner.Search.{product, four};
ghost use Rattle.householder.specs.inner.Work.{held, Unmade, Turned, Prepared, AppliedQt, AppliedFour, AppliedQ, SolvedR, SolvedRt, SolvedFour, Placed};
ghost use Rattle.householder.specs.inner.Places.{QR_MATRIX, QR_SIDE, QR_SOLUTION};

use crate::fours::reflect_four;
use crate::search::pivot;
use crate::vectors::{move_down, reflect, swap, swap_at};

// ---- where things stand in a QR part of the workspaces
//
// The u of the reflectors stand at 0, 18 places each; the permutation stands in the u32 workspace at 0.

// The b of the reflectors.
pub const QR_B: usize = 18 * 18;
// A right-hand side.
pub const QR_SIDE: usize = QR_B + 18;
// A solution.
pub const QR_SOLUTION: usize = QR_SIDE + 18;
// The columns of the matrix, and then of R, 18 places each.
pub const QR_MATRIX: usize = QR_SOLUTION + 66;
// The roots that are remembered from one factoring to the next, behind 18 columns, where no more are factored.
pub const QR_ROOTS: usize = QR_MATRIX + 18 * 18;

// ---- shared by the search for the pivot and the step

// A column and its norm.
#[derive(Clone, Copy)]
pub struct Candidate {
    pub index: usize,
    pub norm: f64,
}

// Four sums, one for each of four columns.
#[derive(Clone, Copy)]
pub struct Four {
    pub a: f64,
    pub b: f64,
    pub c: f64,
    pub d: f64,
}

// The sums of the products of the n numbers from q on, and from 18, 36 and 54 behind q on, with those from
// p on, and from s, 2 s and 3 s behind p on, side by side: each is summed in its own order.
fn products_four(w: &[f64], p: usize, s: usize, q: usize, n: usize) -> Four
    requires { (p + s * 3 + n ≤ length w.now) × (q + 54 + n ≤ length w.now) }
    ensures { result ≡ four n p s q w.now }
{
    let mut a = -0.0;
    let mut b = -0.0;
    let mut c = -0.0;
    let mut d = -0.0;
    for t in 0..n {
        a = a + w[p + t] * w[q + t];
        b = b + w[p + s + t] * w[q + 18 + t];
        c = c + w[p + s * 2 + t] * w[q + 36 + t];
        d = d + w[p + s * 3 + t] * w[q + 54 + t];
    }
    Four { a, b, c, d }
}

// ---- one step

// Columns j to j + 3 under reflector k.
fn turn_four(w: &mut [f64], m: usize, k: usize, j: usize)
    requires { (m ≤ 18) × (k < m) × (k < j) × (QR_MATRIX + (j + 4) * 18 ≤ length w.old) }
    ensures { (w₀ : List Float) → Turned m k j w₀ w.old → Turned m k (j + 4) w₀ w.new }
{
    reflect_four(w, m, k, QR_MATRIX + j * 18);
}

// The columns past k under reflector k, by fours: up to three columns are left.
fn turn_fours(w: &mut [f64], m: usize, n: usize, k: usize)
    requires { (m ≤ 18) × (k < m) × (k < n) × (QR_MATRIX + n * 18 ≤ length w.old) }
    ensures { Turned m k (k + 1 + (n - (k + 1)) / 4 * 4) w.old w.new }
{
    let c = (n - (k + 1)) / 4;
    for q in 0..c {
        turn_four(w, m, k, k + 1 + q * 4);
    }
}

// Each column past k under reflector k.
fn turn(w: &mut [f64], m: usize, n: usize, k: usize)
    requires { (m ≤ 18) × (k < m) × (k < n) × (QR_MATRIX + n * 18 ≤ length w.old) }
    ensures { Turned m k n w.old w.new }
{
    turn_fours(w, m, n, k);
    for j in k + 1 + (n - (k + 1)) / 4 * 4..n {
        reflect(w, m, k, QR_MATRIX + j * 18);
    }
}

// The new diagonal entry.
fn signed_of(head: f64, largest: f64) -> f64
    ensures { result ≡ signed head largest }
{
    if head > 0.0 {
        return -largest;
    }
    largest
}

// Algorithm H1: reflector k from column k, and column k under it; before row k the reflector is +0 already.
fn prepare(w: &mut [f64], m: usize, k: usize, largest: f64)
    requires { (m ≤ 18) × (k < m) × (QR_MATRIX + k * 18 + 18 ≤ length w.old) × Unmade k (k + 1) w.old }
    ensures { Prepared m k largest w.old w.new }
{
    let o = k * 18;
    let q = QR_MATRIX + o + k;
    let head = w[q];
    let s = signed_of(head, largest);
    let u = head - s;
    move_down(w, q + 1, o + k + 1, m - (k + 1));
    w[o + k] = u;
    w[QR_B + k] = s * u;
    w[q] = s;
}

// Step k, on the column of the candidate.
fn step(w: &mut [f64], iw: &mut [u32], m: usize, n: usize, k: usize, top: Candidate)
    requires { (m ≤ 18) × (k < m) × (k < n) × (top.index < n) × (QR_MATRIX + n * 18 ≤ length w.old) × (n ≤ length iw.old) × Unmade k (min m n) w.old }
    ensures { (held m n (k + 1) w.new iw.new ≡ advance m n k top (held m n k w.old iw.old)) × Unmade (k + 1) (min m n) w.new }
{
    let p = top.index;
    let largest = top.norm;
    swap(w, m, k, p);
    swap_at(iw, k, p);
    prepare(w, m, k, largest);
    turn(w, m, n, k);
}

// ---- all steps

// 0, 1, .., n - 1.
fn count(iw: &mut [u32], n: usize)
    requires { (n ≤ 66) × (n ≤ length iw.old) }
    ensures { nums 0 n «iw».new ≡ tab n (λ j. j) }
{
    for i in 0..n {
        iw[i] = i as u32;
    }
}

// The tolerance, which is fixed at step 0.
fn tolerance_of(m: usize, n: usize, k: usize, largest: f64, old: f64) -> f64
    requires { (m ≤ 18) × (n ≤ 66) }
    ensures { result ≡ cond (eqb k 0) (tolerance m n largest) old }
{
    if k == 0 {
        let most = m.max(n);
        let x = most as f64;
        return x * numbers::Binary64::EPSILON * largest;
    }
    old
}

// The factors of the m by n matrix in the part, and their rank.
pub fn factor_in(w: &mut [f64], iw: &mut [u32], m: usize, n: usize) -> usize
    requires { (m ≤ 18) × (n ≤ 66) × (QR_MATRIX + n * 18 ≤ length w.old) × (n ≤ length iw.old) }
    ensures { held m n result w.new iw.new ≡ factor m n (mat QR_MATRIX m n w.old) }
{
    let c = m.min(n);
    workspace::blank(w, 0, c * 18);
    workspace::blank(w, QR_B, c);
    count(iw, n);
    let mut tol = 0.0;
    for k in 0..c {
        let top = pivot(w, m, n, k);
        let largest = top.norm;
        tol = tolerance_of(m, n, k, largest, tol);
        if largest <= tol {
            return k;
        }
        step(w, iw, m, n, k, top);
    }
    c
}

// ---- Q and R applied

// The vector at o under Q', of k reflectors.
pub fn apply_qt(w: &mut [f64], m: usize, k: usize, o: usize)
    requires { (m ≤ 18) × (k ≤ m) × (QR_SIDE ≤ o) × (o + m ≤ length w.old) }
    ensures { AppliedQt m k o w.old w.new }
{
    for i in 0..k {
        reflect(w, m, i, o);
    }
}

// The same on four vectors from o on, 18 places apart.
pub fn apply_qt_four(w: &mut [f64], m: usize, k: usize, o: usize)
    requires { (m ≤ 18) × (k ≤ m) × (QR_SIDE ≤ o) × (o + 54 + m ≤ length w.old) }
    ensures { AppliedFour m k o w.old w.new }
{
    for i in 0..k {
        reflect_four(w, m, i, o);
    }
}

// The vector at o under Q, of k reflectors.
pub fn apply_q(w: &mut [f64], m: usize, k: usize, o: usize)
    requires { (m ≤ 18) × (k ≤ m) × (QR_SIDE ≤ o) × (o + m ≤ length w.old) }
    ensures { AppliedQ m k o w.old w.new }
{
    for i in (0..k).rev() {
        reflect(w, m, i, o);
    }
}

// Back substitution on the first k entries of the right-hand side.
pub fn solve_r(w: &mut [f64], k: usize)
    requires { (k ≤ 18) × (QR_MATRIX + k * 18 ≤ length w.old) }
    ensures { SolvedR k w.old w.new }
{
    for i in (0..k).rev() {
        let t = i + 1;
        let o = QR_MATRIX + i * 18 + i;
        let tail = numbers::dot_strided(w, o + 18, 18, w, QR_SIDE + t, 1, k - t);
        w[QR_SIDE + i] = (w[QR_SIDE + i] - tail) / w[o];
    }
}

// Forward substitution on the k entries of the vector at o, which lies behind R.
pub fn solve_rt(w: &mut [f64], n: usize, k: usize, o: usize)
    requires { (k ≤ 18) × (k ≤ n) × (QR_MATRIX + n * 18 ≤ o) × (o + k ≤ length w.old) }
    ensures { SolvedRt n k o w.old w.new }
{
    for i in 0..k {
        let p = QR_MATRIX + i * 18;
        let head = numbers::dot_within(w, p, o, i);
        w[o + i] = (w[o + i] - head) / w[p + i];
    }
}

// The same on four vectors from o on, 18 places apart, side by side: none waits for another.
pub fn solve_rt_four(w: &mut [f64], n: usize, k: usize, o: usize)
    requires { (k ≤ 18) × (k ≤ n) × (QR_MATRIX + n * 18 ≤ o) × (o + 54 + k ≤ length w.old) }
    ensures { SolvedFour n k o w.old w.new }
{
    for i in 0..k {
        let p = QR_MATRIX + i * 18;
        let head = products_four(w, p, 0, o, i);
        let d = w[p + i];
        w[o + i] = (w[o + i] - head.a) / d;
        w[o + 18 + i] = (w[o + 18 + i] - head.b) / d;
        w[o + 36 + i] = (w[o + 36 + i] - head.c) / d;
        w[o + 54 + i] = (w[o + 54 + i] - head.d) / d;
    }
}

// The first k entries of the right-hand side into the n places of the solution, where iw says.
pub fn place(w: &mut [f64], iw: &[u32], n: usize, k: usize)
    requires { (k ≤ 18) × (n ≤ 66) × (QR_MATRIX ≤ length w.old) × (k ≤ length iw.now) × ((t : ℕ) → t < k → nth iw.now t < n) }
    ensures { Placed n k iw.now w.old w.new }
{
    for t in 0..k {
        let j = iw[t] as usize;
        let v = w[QR_SIDE + t];
        w[QR_SOLUTION + j] = v;
    }
}

// The n entries that iw names of the vector at o, into the solution.
pub fn pick(w: &mut [f64], iw: &[u32], o: usize, n: usize)
    requires { (n ≤ 66) × (QR_MATRIX ≤ o) × (n ≤ length iw.now) × ((t : ℕ) → t < n → o + nth iw.now t < length w.old) }
    ensures { Block QR_SOLUTION n (λ t. at w.old (o + nth iw.now t)) w.old w.new }
{
    for t in 0..n {
        let j = iw[t] as usize;
        let v = w[o + j];
        w[QR_SOLUTION + t] = v;
    }
}

// The solution for the right-hand side, with the factors of n columns and their rank k.
pub fn solve(w: &mut [f64], iw: &[u32], m: usize, n: usize, k: usize)
    requires { (m ≤ 18) × (n ≤ 66) × (k ≤ m) × (k ≤ n) × (QR_MATRIX + n * 18 ≤ length w.old) × (n ≤ length iw.now) × ((t : ℕ) → t < k → nth iw.now t < n) }
    ensures { vec QR_SOLUTION n w.new ≡ solve m n (held m n k w.old iw.now) (vec QR_SIDE m w.old) }
{
    apply_qt(w, m, k, QR_SIDE);
    solve_r(w, k);
    workspace::blank(w, QR_SOLUTION, n);
    place(w, iw, n, k);
}
