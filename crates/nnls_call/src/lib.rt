// The public nonnegative least squares: min ||A x - b|| with x >= 0.
#![tactic(auto)]

ghost use Rattle.std.specs.Prelude.{◌≡◌, ◌&&◌, ℕ, ◌+◌, ◌*◌, ◌≤◌, leb, eqb, length};
ghost use Rattle.workspace.specs.Tables.{is_matrix};
ghost use Rattle.nnls.specs.Nnls as Definition;
ghost use Rattle.nnls.specs.inner.State.{read, ended_answer};
ghost use Rattle.nnls_call.specs.Promise as Promise;
ghost use Rattle.nnls_passive.specs.inner.Places.{NNLS_ROOM, NNLS_WORDS};

use nnls::Counts;
use workspace::Refusal;

// The sizes, and k within three rounds a column.
fn is_problem(m: usize, n: usize, k: usize) -> bool
    ensures { result ≡ (is_matrix m n && leb k (3 * n)) }
{
    if !workspace::is_matrix(m, n) {
        return false;
    }
    k <= 3 * n
}

// The lengths of A, b and x.
fn are_lengths(m: usize, n: usize, a: usize, b: usize, x: usize) -> bool
    requires { (m ≤ 18) × (n ≤ 66) }
    ensures { result ≡ (eqb a (m * n) && eqb b m && eqb x n) }
{
    if a != m * n {
        return false;
    }
    if b != m {
        return false;
    }
    x == n
}

// Loads A and b and runs the kernel; the answer's x stands in the part.
fn run(
    a: &[f64],
    b: &[f64],
    w: &mut [f64],
    iw: &mut [u32],
    m: usize,
    n: usize,
    k: usize,
) -> Result<Counts, Counts>
    requires { (m ≤ 18) × (n ≤ 66) × (k ≤ 198) × (length a.now ≡ m * n) × (length b.now ≡ m) × (NNLS_ROOM ≤ length w.old) × (NNLS_WORDS ≤ length iw.old) }
    ensures { ended_answer result (read m n w.new iw.new) ≡ Definition.nnls m n a.now b.now k }
{
    workspace::load_matrix(a, w, 0, m, n);
    workspace::load(b, w, nnls_passive::NNLS_SIDE, m);
    nnls::solve_in(w, iw, m, n, k)
}

// The call where no test refuses: x out where the answer is accepted, and the workspaces cleared.
fn solve_all(
    a: &[f64],
    b: &[f64],
    x: &mut [f64],
    w: &mut [f64],
    iw: &mut [u32],
    m: usize,
    n: usize,
    k: usize,
) -> Result<Counts, Refusal>
    requires { (m ≤ 18) × (n ≤ 66) × (k ≤ 198) × (length a.now ≡ m * n) × (length b.now ≡ m) × (length x.old ≡ n) × (8192 ≤ length w.old) × (512 ≤ length iw.old) }
    ensures { Promise.Nnls (Promise.tell (Definition.nnls m n a.now b.now k)) result x.old x.new w.old w.new iw.old iw.new }
{
    let ended = run(a, b, &mut w[..8192], &mut iw[..512], m, n, k);
    let Ok(counts) = ended else {
        workspace::clear(w, iw);
        return Err(Refusal::Capped);
    };
    workspace::unload(w, x, nnls_passive::NNLS_X, n);
    workspace::clear(w, iw);
    Ok(counts)
}

// The solver.
#[derive(Clone, Copy)]
pub struct Nnls {}

impl Nnls {
    // The x of least ||A x - b|| with x >= 0, of an m by n matrix A, with k rounds allowed. The answer is its rounds and
    // factorings.
    pub fn solve(
        m: usize,
        n: usize,
        k: usize,
        a: &[f64],
        b: &[f64],
        x: &mut [f64],
        w: &mut [f64],
        iw: &mut [u32],
    ) -> Result<Counts, Refusal>
        ensures { Promise.Nnls (Promise.nnls_call m n k a.now b.now x.old w.old iw.old) result x.old x.new w.old w.new iw.old iw.new }
    {
        if !is_problem(m, n, k) {
            return Err(Refusal::Size);
        }
        if !are_lengths(m, n, a.len(), b.len(), x.len()) {
            return Err(Refusal::Length);
        }
        if !workspace::is_room(w.len(), iw.len()) {
            return Err(Refusal::Room);
        }
        solve_all(a, b, x, w, iw, m, n, k)
    }
}
