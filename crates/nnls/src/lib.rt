// Nonnegative least squares in one part of each workspace.
#![tactic(auto)]

mod back;
mod dual;
mod memory;

ghost use Rattle.std.specs.Prelude.{◌≡◌, ◌+◌, ◌*◌, ◌<◌, ◌≤◌, length, replicate};
ghost use Rattle.numbers.specs.Numbers.{+0, nth};
ghost use Rattle.workspace.specs.Readings.{vec, mat, nums};
ghost use Rattle.nnls.specs.Nnls as Nnls;
ghost use Rattle.nnls.specs.inner.State.{read, solve_in, dual_in, Rounded};
ghost use Rattle.nnls.specs.inner.Work.{leads, better_of, nearer_of, obstacle_of, Moved, TriedColumn, Passed, TurnsTaken};
ghost use Rattle.nnls_passive.specs.inner.Places.{NNLS_DUAL, NNLS_REJECTED, NNLS_ROOM, NNLS_SIDE, NNLS_WORDS, NNLS_X, NNLS_Z};

use crate::back::turn_back;
use crate::dual::{write_dual, write_residual};
use crate::memory::{Course, look_back};
pub use dual::{put_four, row_sums_four, sums_four};
pub use memory::Counts;

// ---- which column to try

// A column that may be tried, with its dual.
#[derive(Clone, Copy)]
pub struct Candidate {
    pub index: usize,
    pub dual: f64,
}

// Whether the best so far has a dual above this one.
fn leads(best: Option<Candidate>, dual: f64) -> bool
    ensures { result ≡ leads best dual }
{
    match best {
        Some(leader) => dual < leader.dual,
        None => false,
    }
}

// The best after column j, whose dual and marks are given: a tie takes the later. Most columns fail the first
// test, so a processor foresees it.
fn better(
    best: Option<Candidate>,
    j: usize,
    dual: f64,
    passive: u32,
    rejected: u32,
) -> Option<Candidate>
    ensures { result ≡ better_of best j dual passive rejected }
{
    let behind = leads(best, dual);
    if behind {
        return best;
    }
    if !(dual > 0.0) {
        return best;
    }
    if passive != 0 {
        return best;
    }
    if rejected != 0 {
        return best;
    }
    Some(Candidate { index: j, dual })
}

// The column of largest dual among those that may be tried, the last of equals.
fn choose(w: &[f64], iw: &[u32], n: usize) -> Option<usize>
    requires { (n ≤ 66) × (NNLS_ROOM ≤ length w.now) × (NNLS_WORDS ≤ length iw.now) }
    ensures { result ≡ Nnls.choose (vec NNLS_DUAL n w.now) (nums 0 n iw.now) (nums NNLS_REJECTED n iw.now) n }
{
    let mut best = None;
    for j in 0..n {
        best = better(
            best,
            j,
            w[nnls_passive::NNLS_DUAL + j],
            iw[j],
            iw[nnls_passive::NNLS_REJECTED + j],
        );
    }
    let chosen = best?;
    Some(chosen.index)
}

// ---- which column blocks

// A column that blocks, with its ratio.
#[derive(Clone, Copy)]
pub struct Nearest {
    pub index: usize,
    pub ratio: f64,
}

// x / (x - z) where x - z is above zero, else 0.
fn ratio_of(x: f64, z: f64) -> f64
    ensures { result ≡ Nnls.ratio_of x z }
{
    let gap = x - z;
    if gap > 0.0 { x / gap } else { 0.0 }
}

// Whether r ranks before s, a NaN after every number.
fn ranks_before(r: f64, s: f64) -> bool
    ensures { result ≡ Nnls.ranks_before r s }
{
    if r != r {
        return false;
    }
    if s != s {
        return true;
    }
    r < s
}

// The nearest after column j, at x and headed for z: a tie keeps the earlier.
fn nearer(best: Option<Nearest>, j: usize, x: f64, z: f64, passive: u32) -> Option<Nearest>
    ensures { result ≡ nearer_of best j x z passive }
{
    if passive == 0 {
        return best;
    }
    if !(z <= 0.0) {
        return best;
    }
    let ratio = ratio_of(x, z);
    if let Some(leader) = best {
        let sooner = ranks_before(ratio, leader.ratio);
        if !sooner {
            return best;
        }
    }
    Some(Nearest { index: j, ratio })
}

// The passive column with a trial value <= 0 whose ratio is smallest, the first of equals.
fn blocking(w: &[f64], iw: &[u32], n: usize) -> Option<Nearest>
    requires { (n ≤ 66) × (NNLS_ROOM ≤ length w.now) × (NNLS_WORDS ≤ length iw.now) }
    ensures { obstacle_of result ≡ Nnls.blocking (vec NNLS_X n w.now) (vec NNLS_Z n w.now) (nums 0 n iw.now) n }
{
    let mut best = None;
    for j in 0..n {
        best = nearer(
            best,
            j,
            w[nnls_passive::NNLS_X + j],
            w[nnls_passive::NNLS_Z + j],
            iw[j],
        );
    }
    best
}

// ---- a move

// What becomes of a column and its mark.
#[derive(Clone, Copy)]
pub struct Next {
    pub x: f64,
    pub mark: u32,
}

// Column j, at x and headed for z, moved by the ratio: it leaves with +0 if it is q, or comes to <= 0.
fn move_one(q: usize, j: usize, ratio: f64, x: f64, z: f64, mark: u32) -> Next
    ensures { (result.x ≡ Nnls.next_x q j ratio x z mark) × (result.mark ≡ Nnls.next_mark q j ratio x z mark) }
{
    if mark == 0 {
        return Next { x, mark };
    }
    let v = x + ratio * (z - x);
    if j == q {
        return Next { x: 0.0, mark: 0 };
    }
    if v <= 0.0 {
        return Next { x: 0.0, mark: 0 };
    }
    Next { x: v, mark }
}

// Each passive column moved; column q and those that come to <= 0 leave.
fn move_all(w: &mut [f64], iw: &mut [u32], n: usize, q: usize, ratio: f64)
    requires { (n ≤ 66) × (NNLS_ROOM ≤ length w.old) × (NNLS_WORDS ≤ length iw.old) }
    ensures { Moved n q ratio w.old w.new iw.old iw.new }
{
    for j in 0..n {
        let next = move_one(
            q,
            j,
            ratio,
            w[nnls_passive::NNLS_X + j],
            w[nnls_passive::NNLS_Z + j],
            iw[j],
        );
        w[nnls_passive::NNLS_X + j] = next.x;
        iw[j] = next.mark;
    }
}

// ---- a pass

// Tries column t: it stays among the passive, and the answer is true; or it is turned back and marked.
fn try_column(w: &mut [f64], iw: &mut [u32], m: usize, n: usize, t: usize) -> bool
    requires { (m ≤ 18) × (n ≤ 66) × (t < n) × (NNLS_ROOM ≤ length w.old) × (NNLS_WORDS ≤ length iw.old) × (nth iw.old t ≡ 0) }
    ensures { TriedColumn m n t result (read m n w.old iw.old) (read m n w.new iw.new) }
{
    iw[t] = 1;
    let full = nnls_passive::solve_passive(w, iw, m, n);
    if full {
        if w[nnls_passive::NNLS_Z + t] > 0.0 {
            return true;
        }
    }
    iw[t] = 0;
    iw[nnls_passive::NNLS_REJECTED + t] = 1;
    false
}

// How a pass ended: whether a column was kept, and the factorings so far.
#[derive(Clone, Copy)]
pub struct Pass {
    pub kept: bool,
    pub factorings: usize,
}

// Tries columns until one is kept or none is left.
fn try_all(w: &mut [f64], iw: &mut [u32], m: usize, n: usize, f: usize) -> Pass
    requires { (m ≤ 18) × (n ≤ 66) × (NNLS_ROOM ≤ length w.old) × (NNLS_WORDS ≤ length iw.old) × (f ≤ 1000000) }
    ensures { Passed (Nnls.tries n (solve_in m n (read m n w.old iw.old)) n (vec NNLS_DUAL n w.old) (nums 0 n iw.old) (nums NNLS_REJECTED n iw.old) f)
        (f + n) result (read m n w.old iw.old) (read m n w.new iw.new) }
{
    for count in 0..n {
        let trial = choose(w, iw, n);
        let Some(t) = trial else {
            return Pass {
                kept: false,
                factorings: f + count,
            };
        };
        let kept = try_column(w, iw, m, n, t);
        if kept {
            return Pass {
                kept: true,
                factorings: f + (count + 1),
            };
        }
    }
    Pass {
        kept: false,
        factorings: f + n,
    }
}

// One pass: the dual at x, no column rejected, and the tries; where no column has room, all are turned back at once.
fn one_pass(w: &mut [f64], iw: &mut [u32], m: usize, n: usize, f: usize) -> Pass
    requires { (m ≤ 18) × (n ≤ 66) × (NNLS_ROOM ≤ length w.old) × (NNLS_WORDS ≤ length iw.old) × (f ≤ 1000000) }
    ensures { Passed (Nnls.pass n (dual_in m n (read m n w.old iw.old)) (solve_in m n (read m n w.old iw.old)) (vec NNLS_X n w.old) (nums 0 n iw.old) f)
        (f + n) result (read m n w.old iw.old) (read m n w.new iw.new) }
{
    write_residual(w, m, n);
    write_dual(w, m, n);
    workspace::blank_words(iw, nnls_passive::NNLS_REJECTED, n);
    let room = nnls_passive::has_room(iw, m, n);
    if !room {
        let c = turn_back(w, iw, n);
        return Pass {
            kept: false,
            factorings: f + c,
        };
    }
    try_all(w, iw, m, n, f)
}

// ---- the turns

// Moves, lets columns leave and solves again until none blocks. The answer is the factorings so far.
fn turn_all(w: &mut [f64], iw: &mut [u32], m: usize, n: usize, f: usize) -> usize
    requires { (m ≤ 18) × (n ≤ 66) × (NNLS_ROOM ≤ length w.old) × (NNLS_WORDS ≤ length iw.old) × (f ≤ 1000000) }
    ensures { TurnsTaken (Nnls.turns n (solve_in m n (read m n w.old iw.old)) n (vec NNLS_X n w.old) (vec NNLS_Z n w.old) (nums 0 n iw.old) f)
        (f + n) result (read m n w.old iw.old) (read m n w.new iw.new) }
{
    for count in 0..n {
        let blocker = blocking(w, iw, n);
        let Some(nearest) = blocker else {
            return f + count;
        };
        move_all(w, iw, n, nearest.index, nearest.ratio);
        let full = nnls_passive::solve_passive(w, iw, m, n);
    }
    f + n
}

// ---- the rounds

// Rounds, at most k, from x = +0 and no passive column on; whole periods of rounds that repeat are counted and not run.
// With what they took: `Err` where their limit was reached.
fn run_rounds(w: &mut [f64], iw: &mut [u32], m: usize, n: usize, k: usize) -> Result<Counts, Counts>
    requires { (m ≤ 18) × (n ≤ 66) × (NNLS_ROOM ≤ length w.old) × (NNLS_WORDS ≤ length iw.old) × (k ≤ 198) × (vec NNLS_X n w.old ≡ replicate n +0) × (nums 0 n iw.old ≡ replicate n 0) }
    ensures { Rounded (Nnls.rounds n (dual_in m n (read m n w.old iw.old)) (solve_in m n (read m n w.old iw.old)) k (vec NNLS_X n w.old) (nums 0 n iw.old) 0 0)
        result (read m n w.old iw.old) (read m n w.new iw.new) }
{
    let mut memory = [0usize; 80];
    let mut c = Course {
        past: 0,
        factorings: 0,
        held: 0,
        low: 0,
        high: 0,
    };
    while c.past < k {
        let pass = one_pass(w, iw, m, n, c.factorings);
        let g = pass.factorings;
        if !pass.kept {
            return Ok(Counts {
                past: c.past,
                factorings: g,
            });
        }
        let f = turn_all(w, iw, m, n, g);
        workspace::copy_down(w, nnls_passive::NNLS_Z, nnls_passive::NNLS_X, n);
        c = look_back(iw, n, k, &mut memory, c, g, f)?;
    }
    let pass = one_pass(w, iw, m, n, c.factorings);
    let counts = Counts {
        past: c.past,
        factorings: pass.factorings,
    };
    if pass.kept {
        return Err(counts);
    }
    Ok(counts)
}

// Nonnegative least squares of the A and b in the workspace, with k rounds allowed; both stay. With the rounds and
// factorings that it took: `Err` where the limit was reached.
pub fn solve_in(
    w: &mut [f64],
    iw: &mut [u32],
    m: usize,
    n: usize,
    k: usize,
) -> Result<Counts, Counts>
    requires { (m ≤ 18) × (n ≤ 66) × (NNLS_ROOM ≤ length w.old) × (NNLS_WORDS ≤ length iw.old) × (k ≤ 198) }
    ensures { Rounded (Nnls.nnls m n (mat 0 m n w.old) (vec NNLS_SIDE m w.old) k)
        result (read m n w.old iw.old) (read m n w.new iw.new) }
{
    workspace::blank(w, nnls_passive::NNLS_X, n);
    workspace::blank_words(iw, 0, n);
    run_rounds(w, iw, m, n, k)
}
