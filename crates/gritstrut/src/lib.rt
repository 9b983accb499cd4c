// The C interface: every public operation, each slice a pointer and a length. include/gritstrut.h declares it.
#![tactic(auto)]

mod check;
mod day;
mod meters;
pub mod problems;
pub mod readings;
mod report;
mod runs;
mod steps;
mod volumes;

ghost use Rattle.std.specs.Prelude.{◌≡◌};
ghost use Rattle.numbers.specs.Root.{sqrt_of, sum_of};
ghost use Rattle.norms.specs.Norm.{norm};
ghost use Rattle.householder_call.specs.Promise.{qr_call};
ghost use Rattle.nnls_call.specs.Promise.{nnls_call};
ghost use Rattle.lsei_call.specs.Promise.{ldp_call, lsi_call, lsei_call};
ghost use Rattle.hessian_call.specs.Promise.{identity_call, times_call, cholesky_call, update_call};
ghost use Rattle.hessian_packed_call.specs.Promise.{packed_identity_call, packed_times_call, packed_cholesky_call, packed_update_call};
ghost use Rattle.workspace.specs.Tables.{outcome_number};
ghost use Rattle.gritstrut.specs.Interface.{QrLeaves, NnlsLeaves, SolveLeaves, place_left, PlaceLeaves, WriteLeaves};

pub use check::gritstrut_check;
pub use day::gritstrut_reconcile;
use hessian_call::Hessian;
use hessian_packed_call::Packed;
use householder_call::Qr;
use lsei_call::{Ldp, Lsei, Lsi};
pub use meters::gritstrut_suspect;
use nnls_call::Nnls;
pub use report::gritstrut_report;
pub use runs::{gritstrut_search_begin, gritstrut_search_tell};
pub use steps::{gritstrut_step, gritstrut_strict_step, gritstrut_tally_raise};
pub use volumes::{gritstrut_certify, gritstrut_settle};

// The version that include/gritstrut.h names: major, minor and patch, two digits each.
pub fn gritstrut_version() -> u32
    ensures { result ≡ 300 }
{
    300
}

// The square root.
pub fn gritstrut_sqrt(x: f64) -> f64
    ensures { result ≡ sqrt_of x }
{
    numbers::sqrt(x)
}

// The sum of a slice, left to right from -0.
pub fn gritstrut_sum(x: &[f64]) -> f64
    ensures { result ≡ sum_of x.now }
{
    numbers::sum(x)
}

// The norm of a slice.
pub fn gritstrut_norm(x: &[f64]) -> f64
    ensures { result ≡ norm x.now }
{
    norms::norm(x)
}

// ---- least squares

// Householder QR with column pivoting.
pub fn gritstrut_qr(
    m: usize,
    n: usize,
    a: &[f64],
    r: &mut [f64],
    perm: &mut [u32],
    u: &mut [f64],
    b: &mut [f64],
    rank: &mut u32,
    w: &mut [f64],
    iw: &mut [u32],
) -> u32
    ensures { QrLeaves (qr_call m n a.now r.old perm.old u.old b.old w.old iw.old) result rank.old rank.new
        r.old r.new perm.old perm.new u.old u.new b.old b.new w.old w.new iw.old iw.new }
{
    let answer = Qr::factor(m, n, a, r, perm, u, b, w, iw);
    match answer {
        Ok(found) => {
            *rank = found as u32;
            0
        }
        Err(why) => why.number(),
    }
}

// Nonnegative least squares.
pub fn gritstrut_nnls(
    m: usize,
    n: usize,
    k: usize,
    a: &[f64],
    b: &[f64],
    x: &mut [f64],
    rounds: &mut u32,
    factorings: &mut u32,
    w: &mut [f64],
    iw: &mut [u32],
) -> u32
    ensures { NnlsLeaves (nnls_call m n k a.now b.now x.old w.old iw.old) result
        rounds.old rounds.new factorings.old factorings.new x.old x.new w.old w.new iw.old iw.new }
{
    let answer = Nnls::solve(m, n, k, a, b, x, w, iw);
    match answer {
        Ok(counts) => {
            *rounds = counts.past as u32;
            *factorings = counts.factorings as u32;
            0
        }
        Err(why) => why.number(),
    }
}

// Least distance programming.
pub fn gritstrut_ldp(
    m: usize,
    n: usize,
    g: &[f64],
    h: &[f64],
    x: &mut [f64],
    multipliers: &mut [f64],
    w: &mut [f64],
    iw: &mut [u32],
) -> u32
    ensures { SolveLeaves (ldp_call m n g.now h.now x.old multipliers.old w.old iw.old) result x.old x.new multipliers.old multipliers.new w.old w.new iw.old iw.new }
{
    let answer = Ldp::solve(m, n, g, h, x, multipliers, w, iw);
    workspace::outcome_number(answer)
}

// The number of an outcome; the place that comes with it is stored.
fn number_with_place(o: Result<(), workspace::Refusal>, place: &mut u32) -> u32
    ensures { (result ≡ outcome_number o) × (place.new ≡ place_left o place.old) }
{
    match o {
        Ok(()) => 0,
        Err(why) => {
            let number = why.number();
            let at = why.place();
            if at != workspace::NOWHERE {
                *place = at;
            }
            number
        }
    }
}

// Least squares with inequalities.
pub fn gritstrut_lsi(
    n: usize,
    me: usize,
    mg: usize,
    e: &[f64],
    f: &[f64],
    g: &[f64],
    h: &[f64],
    x: &mut [f64],
    multipliers: &mut [f64],
    place: &mut u32,
    w: &mut [f64],
    iw: &mut [u32],
) -> u32
    ensures { PlaceLeaves (lsi_call n me mg e.now f.now g.now h.now x.old multipliers.old w.old iw.old) result place.old place.new x.old x.new multipliers.old multipliers.new w.old w.new iw.old iw.new }
{
    let answer = Lsi::solve(n, me, mg, e, f, g, h, x, multipliers, w, iw);
    number_with_place(answer, place)
}

// Least squares with equalities and inequalities.
pub fn gritstrut_lsei(
    n: usize,
    mc: usize,
    me: usize,
    mg: usize,
    c: &[f64],
    d: &[f64],
    e: &[f64],
    f: &[f64],
    g: &[f64],
    h: &[f64],
    x: &mut [f64],
    multipliers: &mut [f64],
    place: &mut u32,
    w: &mut [f64],
    iw: &mut [u32],
) -> u32
    ensures { PlaceLeaves (lsei_call n mc me mg c.now d.now e.now f.now g.now h.now x.old multipliers.old w.old iw.old) result place.old place.new x.old x.new multipliers.old multipliers.new w.old w.new iw.old iw.new }
{
    let answer = Lsei::solve(n, mc, me, mg, c, d, e, f, g, h, x, multipliers, w, iw);
    number_with_place(answer, place)
}

// ---- the approximation B

// The identity.
pub fn gritstrut_identity(n: usize, b: &mut [f64], w: &mut [f64], iw: &mut [u32]) -> u32
    ensures { WriteLeaves (identity_call n b.old w.old iw.old) result b.old b.new w.old w.new iw.old iw.new }
{
    let answer = Hessian::identity(n, b, w, iw);
    workspace::outcome_number(answer)
}

// The product B v.
pub fn gritstrut_times(
    n: usize,
    b: &[f64],
    v: &[f64],
    out: &mut [f64],
    w: &mut [f64],
    iw: &mut [u32],
) -> u32
    ensures { WriteLeaves (times_call n b.now v.now out.old w.old iw.old) result out.old out.new w.old w.new iw.old iw.new }
{
    let answer = Hessian::times(n, b, v, out, w, iw);
    workspace::outcome_number(answer)
}

// The Cholesky factor of B.
pub fn gritstrut_cholesky(n: usize, b: &[f64], l: &mut [f64], w: &mut [f64], iw: &mut [u32]) -> u32
    ensures { WriteLeaves (cholesky_call n b.now l.old w.old iw.old) result l.old l.new w.old w.new iw.old iw.new }
{
    let answer = Hessian::cholesky(n, b, l, w, iw);
    workspace::outcome_number(answer)
}

// The damped update of B.
pub fn gritstrut_update(
    n: usize,
    b: &mut [f64],
    s: &[f64],
    y: &[f64],
    w: &mut [f64],
    iw: &mut [u32],
) -> u32
    ensures { WriteLeaves (update_call n b.old s.now y.now w.old iw.old) result b.old b.new w.old w.new iw.old iw.new }
{
    let answer = Hessian::update(n, b, s, y, w, iw);
    workspace::outcome_number(answer)
}

// ---- the approximation B as its lower triangle

// The identity.
pub fn gritstrut_packed_identity(n: usize, b: &mut [f64], w: &mut [f64], iw: &mut [u32]) -> u32
    ensures { WriteLeaves (packed_identity_call n b.old w.old iw.old) result b.old b.new w.old w.new iw.old iw.new }
{
    let answer = Packed::identity(n, b, w, iw);
    workspace::outcome_number(answer)
}

// The product B v.
pub fn gritstrut_packed_times(
    n: usize,
    b: &[f64],
    v: &[f64],
    out: &mut [f64],
    w: &mut [f64],
    iw: &mut [u32],
) -> u32
    ensures { WriteLeaves (packed_times_call n b.now v.now out.old w.old iw.old) result out.old out.new w.old w.new iw.old iw.new }
{
    let answer = Packed::times(n, b, v, out, w, iw);
    workspace::outcome_number(answer)
}

// The Cholesky factor of B, square.
pub fn gritstrut_packed_cholesky(
    n: usize,
    b: &[f64],
    l: &mut [f64],
    w: &mut [f64],
    iw: &mut [u32],
) -> u32
    ensures { WriteLeaves (packed_cholesky_call n b.now l.old w.old iw.old) result l.old l.new w.old w.new iw.old iw.new }
{
    let answer = Packed::cholesky(n, b, l, w, iw);
    workspace::outcome_number(answer)
}

// The damped update of B.
pub fn gritstrut_packed_update(
    n: usize,
    b: &mut [f64],
    s: &[f64],
    y: &[f64],
    w: &mut [f64],
    iw: &mut [u32],
) -> u32
    ensures { WriteLeaves (packed_update_call n b.old s.now y.now w.old iw.old) result b.old b.new w.old w.new iw.old iw.new }
{
    let answer = Packed::update(n, b, s, y, w, iw);
    workspace::outcome_number(answer)
}
