// The exports of the C interface, which include/gritstrut.h declares: each calls the function of its name in the crate
// gritstrut and states its clauses.
#![tactic(auto)]

mod check;
mod day;
mod meters;
mod problems;
mod readings;
mod report;
mod runs;
mod steps;
mod volumes;

ghost use Rattle.std.specs.Prelude.{◌≡◌};
ghost use Rattle.numbers.specs.Root.{sqrt_of, sum_of};
ghost use Rattle.norms.specs.Norm.{norm};
ghost use Rattle.householder_call.specs.Promise.{qr_call};
ghost use Rattle.nnls_call.specs.Promise.{nnls_call};
ghost use Rattle.lsei_call.specs.Promise.{ldp_call, lsi_call, lsei_call};
ghost use Rattle.hessian_call.specs.Promise.{identity_call, times_call, cholesky_call, update_call};
ghost use Rattle.hessian_packed_call.specs.Promise.{packed_identity_call, packed_times_call, packed_cholesky_call, packed_update_call};
ghost use Rattle.gritstrut.specs.Interface.{QrLeaves, NnlsLeaves, SolveLeaves, PlaceLeaves, WriteLeaves};

// The version that include/gritstrut.h names: major, minor and patch, two digits each.
#[unsafe(no_mangle)]
pub extern "C" fn gritstrut_version() -> u32
    ensures { result ≡ 300 }
{
    gritstrut::gritstrut_version()
}

// The square root.
#[unsafe(no_mangle)]
pub extern "C" fn gritstrut_sqrt(x: f64) -> f64
    ensures { result ≡ sqrt_of x }
{
    gritstrut::gritstrut_sqrt(x)
}

// The sum of a slice, left to right from -0.
#[unsafe(no_mangle)]
pub extern "C" fn gritstrut_sum(x: &[f64]) -> f64
    ensures { result ≡ sum_of x.now }
{
    gritstrut::gritstrut_sum(x)
}

// The norm of a slice.
#[unsafe(no_mangle)]
pub extern "C" fn gritstrut_norm(x: &[f64]) -> f64
    ensures { result ≡ norm x.now }
{
    gritstrut::gritstrut_norm(x)
}

// Householder QR with column pivoting.
#[unsafe(no_mangle)]
pub extern "C" fn gritstrut_qr(
    m: usize,
    n: usize,
    a: &[f64],
    r: &mut [f64],
    perm: &mut [u32],
    u: &mut [f64],
    b: &mut [f64],
    rank: &mut u32,
    w: &mut [f64],
    iw: &mut [u32],
) -> u32
    ensures { QrLeaves (qr_call m n a.now r.old perm.old u.old b.old w.old iw.old) result rank.old rank.new
        r.old r.new perm.old perm.new u.old u.new b.old b.new w.old w.new iw.old iw.new }
{
    gritstrut::gritstrut_qr(m, n, a, r, perm, u, b, rank, w, iw)
}

// Nonnegative least squares.
#[unsafe(no_mangle)]
pub extern "C" fn gritstrut_nnls(
    m: usize,
    n: usize,
    k: usize,
    a: &[f64],
    b: &[f64],
    x: &mut [f64],
    rounds: &mut u32,
    factorings: &mut u32,
    w: &mut [f64],
    iw: &mut [u32],
) -> u32
    ensures { NnlsLeaves (nnls_call m n k a.now b.now x.old w.old iw.old) result
        rounds.old rounds.new factorings.old factorings.new x.old x.new w.old w.new iw.old iw.new }
{
    gritstrut::gritstrut_nnls(m, n, k, a, b, x, rounds, factorings, w, iw)
}

// Least distance programming.
#[unsafe(no_mangle)]
pub extern "C" fn gritstrut_ldp(
    m: usize,
    n: usize,
    g: &[f64],
    h: &[f64],
    x: &mut [f64],
    multipliers: &mut [f64],
    w: &mut [f64],
    iw: &mut [u32],
) -> u32
    ensures { SolveLeaves (ldp_call m n g.now h.now x.old multipliers.old w.old iw.old) result x.old x.new multipliers.old multipliers.new w.old w.new iw.old iw.new }
{
    gritstrut::gritstrut_ldp(m, n, g, h, x, multipliers, w, iw)
}

// Least squares with inequalities.
#[unsafe(no_mangle)]
pub extern "C" fn gritstrut_lsi(
    n: usize,
    me: usize,
    mg: usize,
    e: &[f64],
    f: &[f64],
    g: &[f64],
    h: &[f64],
    x: &mut [f64],
    multipliers: &mut [f64],
    place: &mut u32,
    w: &mut [f64],
    iw: &mut [u32],
) -> u32
    ensures { PlaceLeaves (lsi_call n me mg e.now f.now g.now h.now x.old multipliers.old w.old iw.old) result place.old place.new x.old x.new multipliers.old multipliers.new w.old w.new iw.old iw.new }
{
    gritstrut::gritstrut_lsi(n, me, mg, e, f, g, h, x, multipliers, place, w, iw)
}

// Least squares with equalities and inequalities.
#[unsafe(no_mangle)]
pub extern "C" fn gritstrut_lsei(
    n: usize,
    mc: usize,
    me: usize,
    mg: usize,
    c: &[f64],
    d: &[f64],
    e: &[f64],
    f: &[f64],
    g: &[f64],
    h: &[f64],
    x: &mut [f64],
    multipliers: &mut [f64],
    place: &mut u32,
    w: &mut [f64],
    iw: &mut [u32],
) -> u32
    ensures { PlaceLeaves (lsei_call n mc me mg c.now d.now e.now f.now g.now h.now x.old multipliers.old w.old iw.old) result place.old place.new x.old x.new multipliers.old multipliers.new w.old w.new iw.old iw.new }
{
    gritstrut::gritstrut_lsei(
        n,
        mc,
        me,
        mg,
        c,
        d,
        e,
        f,
        g,
        h,
        x,
        multipliers,
        place,
        w,
        iw,
    )
}

// The identity.
#[unsafe(no_mangle)]
pub extern "C" fn gritstrut_identity(n: usize, b: &mut [f64], w: &mut [f64], iw: &mut [u32]) -> u32
    ensures { WriteLeaves (identity_call n b.old w.old iw.old) result b.old b.new w.old w.new iw.old iw.new }
{
    gritstrut::gritstrut_identity(n, b, w, iw)
}

// The product B v.
#[unsafe(no_mangle)]
pub extern "C" fn gritstrut_times(
    n: usize,
    b: &[f64],
    v: &[f64],
    out: &mut [f64],
    w: &mut [f64],
    iw: &mut [u32],
) -> u32
    ensures { WriteLeaves (times_call n b.now v.now out.old w.old iw.old) result out.old out.new w.old w.new iw.old iw.new }
{
    gritstrut::gritstrut_times(n, b, v, out, w, iw)
}

// The Cholesky factor of B.
#[unsafe(no_mangle)]
pub extern "C" fn gritstrut_cholesky(
    n: usize,
    b: &[f64],
    l: &mut [f64],
    w: &mut [f64],
    iw: &mut [u32],
) -> u32
    ensures { WriteLeaves (cholesky_call n b.now l.old w.old iw.old) result l.old l.new w.old w.new iw.old iw.new }
{
    gritstrut::gritstrut_cholesky(n, b, l, w, iw)
}

// The damped update of B.
#[unsafe(no_mangle)]
pub extern "C" fn gritstrut_update(
    n: usize,
    b: &mut [f64],
    s: &[f64],
    y: &[f64],
    w: &mut [f64],
    iw: &mut [u32],
) -> u32
    ensures { WriteLeaves (update_call n b.old s.now y.now w.old iw.old) result b.old b.new w.old w.new iw.old iw.new }
{
    gritstrut::gritstrut_update(n, b, s, y, w, iw)
}

// The identity.
#[unsafe(no_mangle)]
pub extern "C" fn gritstrut_packed_identity(
    n: usize,
    b: &mut [f64],
    w: &mut [f64],
    iw: &mut [u32],
) -> u32
    ensures { WriteLeaves (packed_identity_call n b.old w.old iw.old) result b.old b.new w.old w.new iw.old iw.new }
{
    gritstrut::gritstrut_packed_identity(n, b, w, iw)
}

// The product B v.
#[unsafe(no_mangle)]
pub extern "C" fn gritstrut_packed_times(
    n: usize,
    b: &[f64],
    v: &[f64],
    out: &mut [f64],
    w: &mut [f64],
    iw: &mut [u32],
) -> u32
    ensures { WriteLeaves (packed_times_call n b.now v.now out.old w.old iw.old) result out.old out.new w.old w.new iw.old iw.new }
{
    gritstrut::gritstrut_packed_times(n, b, v, out, w, iw)
}

// The Cholesky factor of B, square.
#[unsafe(no_mangle)]
pub extern "C" fn gritstrut_packed_cholesky(
    n: usize,
    b: &[f64],
    l: &mut [f64],
    w: &mut [f64],
    iw: &mut [u32],
) -> u32
    ensures { WriteLeaves (packed_cholesky_call n b.now l.old w.old iw.old) result l.old l.new w.old w.new iw.old iw.new }
{
    gritstrut::gritstrut_packed_cholesky(n, b, l, w, iw)
}

// The damped update of B.
#[unsafe(no_mangle)]
pub extern "C" fn gritstrut_packed_update(
    n: usize,
    b: &mut [f64],
    s: &[f64],
    y: &[f64],
    w: &mut [f64],
    iw: &mut [u32],
) -> u32
    ensures { WriteLeaves (packed_update_call n b.old s.now y.now w.old iw.old) result b.old b.new w.old w.new iw.old iw.new }
{
    gritstrut::gritstrut_packed_update(n, b, s, y, w, iw)
}
