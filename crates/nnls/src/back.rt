// A pass over as many passive columns as rows: any further column makes too many for full rank, so that each column that
// may be tried is turned back unfactored, and counts as one.
ghost use Rattle.std.specs.Prelude.{◌≡◌, cond, ◌≤◌, length};
ghost use Rattle.nnls.specs.inner.Back.{open_to, TurnedBack};
ghost use Rattle.nnls_passive.specs.inner.Places.{NNLS_ROOM, NNLS_WORDS};

// What becomes of a column's mark, and how many tries that is.
#[derive(Clone, Copy)]
pub struct Tried {
    pub mark: u32,
    pub count: usize,
}

// A column of the given dual and marks, turned back if it may be tried.
fn turn_one(dual: f64, passive: u32, rejected: u32) -> Tried
    ensures { (result.mark ≡ cond (open_to dual passive rejected) 1 rejected) × (result.count ≡ cond (open_to dual passive rejected) 1 0) × (result.count ≤ 1) }
{
    if passive == 0 {
        if rejected == 0 {
            if dual > 0.0 {
                return Tried { mark: 1, count: 1 };
            }
        }
    }
    Tried {
        mark: rejected,
        count: 0,
    }
}

// Turns back each column that may be tried. The answer says how many there are.
pub fn turn_back(w: &[f64], iw: &mut [u32], n: usize) -> usize
    requires { (n ≤ 66) × (NNLS_ROOM ≤ length w.now) × (NNLS_WORDS ≤ length iw.old) }
    ensures { TurnedBack n result w.now iw.old iw.new }
{
    let mut c = 0;
    for j in 0..n {
        let t = turn_one(
            w[nnls_passive::NNLS_DUAL + j],
            iw[j],
            iw[nnls_passive::NNLS_REJECTED + j],
        );
        iw[nnls_passive::NNLS_REJECTED + j] = t.mark;
        c = c + t.count;
    }
    c
}
