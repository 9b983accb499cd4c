// The public LDP, LSI and LSEI: tests, the problem into the lent workspaces, and the answer out.
#![tactic(auto)]

mod arguments;
mod inputs;

ghost use Rattle.std.specs.Prelude.{◌≡◌, ◌++◌, ℕ, ◌+◌, ◌*◌, ◌<◌, ◌≤◌, length};
ghost use Rattle.workspace.specs.Readings.{vec};
ghost use Rattle.lsei.specs.Lsei as Definition;
ghost use Rattle.lsei_call.specs.Promise.{ldp_call, lsi_call, lsei_call, Solves};
ghost use Rattle.lsei.specs.inner.Work.{ending_answer, ended_solution, distance_in, squares_in};
ghost use Rattle.lsei_nullspace.specs.inner.Work.{solution_in};
ghost use Rattle.lsei_call.specs.inner.Work.{LdpInput, LsiInput, LseiInput, SolutionGiven};

use crate::arguments::{
    are_lengths_ldp, are_lengths_lsei, are_lengths_lsi, is_ldp, is_lsei, is_lsi,
};
use crate::inputs::{load_lsei, load_lsi, load_rows};
use workspace::Refusal;

// ---- problems in, answers out

// The c numbers at q and the m numbers at r, out to l.
fn give_multipliers(w: &[f64], l: &mut [f64], q: usize, c: usize, r: usize, m: usize)
    requires { (q + c ≤ length w.now) × (r + m ≤ length w.now) × (length l.old ≡ c + m) }
    ensures { l.new ≡ vec q c w.now ++ vec r m w.now }
{
    workspace::copy_strided(w, l, q, 1, 0, c);
    workspace::copy_strided(w, l, r, 1, c, m);
}

// Where the solve ended well, the n numbers at p out to x, and the multipliers out to l.
fn give(
    w: &[f64],
    x: &mut [f64],
    l: &mut [f64],
    ending: Result<(), lsei::Unsolved>,
    p: usize,
    n: usize,
    q: usize,
    c: usize,
    r: usize,
    m: usize,
) -> Result<(), Refusal>
    requires { (p + n ≤ length w.now) × (q + c ≤ length w.now) × (r + m ≤ length w.now) × (length x.old ≡ n) × (length l.old ≡ c + m) }
    ensures { SolutionGiven (ending_answer ending (record { x = vec p n w.now; multipliers = vec q c w.now ++ vec r m w.now })) result x.old x.new l.old l.new }
{
    ending?;
    workspace::unload(w, x, p, n);
    give_multipliers(w, l, q, c, r, m);
    Ok(())
}

// ---- least distance programming

// The problem in, and the kernel's answer.
fn run_ldp(g: &[f64], h: &[f64], w: &mut [f64], iw: &mut [u32], m: usize, n: usize) -> lsei::Ended
    requires { LdpInput m n g.now h.now × (8192 ≤ length w.old) × (512 ≤ length iw.old) }
    ensures { ended_solution result (distance_in m n w.new) ≡ Definition.ldp m n g.now h.now }
{
    load_rows(g, h, w, 0, m, n);
    lsei::solve_ldp(w, iw, m, n)
}

// The call where no test refuses.
fn solve_all_ldp(
    g: &[f64],
    h: &[f64],
    x: &mut [f64],
    l: &mut [f64],
    w: &mut [f64],
    iw: &mut [u32],
    m: usize,
    n: usize,
) -> Result<(), Refusal>
    requires { LdpInput m n g.now h.now × (length x.old ≡ n) × (length l.old ≡ m) × (8192 ≤ length w.old) × (512 ≤ length iw.old) }
    ensures { Solves (Definition.ldp m n g.now h.now).answer result x.old x.new l.old l.new w.old w.new iw.old iw.new }
{
    let e = run_ldp(g, h, &mut w[..8192], &mut iw[..512], m, n);
    let ending = e.ending;
    let r = give(
        w,
        x,
        l,
        ending,
        lsei::LDP_X,
        n,
        0,
        0,
        lsei::LDP_MULTIPLIERS,
        m,
    );
    workspace::clear(w, iw);
    r
}

// The solver of min ||x|| with G x >= h.
#[derive(Clone, Copy)]
pub struct Ldp {}

impl Ldp {
    // x and the multipliers l, for the m by n matrix G.
    pub fn solve(
        m: usize,
        n: usize,
        g: &[f64],
        h: &[f64],
        x: &mut [f64],
        l: &mut [f64],
        w: &mut [f64],
        iw: &mut [u32],
    ) -> Result<(), Refusal>
        ensures { Solves (ldp_call m n g.now h.now x.old l.old w.old iw.old) result x.old x.new l.old l.new w.old w.new iw.old iw.new }
    {
        if !is_ldp(m, n) {
            return Err(Refusal::Size);
        }
        if !are_lengths_ldp(m, n, g.len(), h.len(), x.len(), l.len()) {
            return Err(Refusal::Length);
        }
        if !workspace::is_room(w.len(), iw.len()) {
            return Err(Refusal::Room);
        }
        solve_all_ldp(g, h, x, l, w, iw, m, n)
    }
}

// ---- least squares with inequalities

// The problem in, and the kernel's answer.
fn run_lsi(
    e: &[f64],
    f: &[f64],
    g: &[f64],
    h: &[f64],
    w: &mut [f64],
    iw: &mut [u32],
    n: usize,
    me: usize,
    mg: usize,
) -> lsei::Ended
    requires { LsiInput n me mg e.now f.now g.now h.now × (8192 ≤ length w.old) × (512 ≤ length iw.old) }
    ensures { ended_solution result (squares_in n mg w.new) ≡ Definition.lsi n me mg e.now f.now g.now h.now }
{
    load_lsi(e, f, g, h, w, n, me, mg);
    lsei::solve_lsi(w, iw, n, me, mg)
}

// The call where no test refuses.
fn solve_all_lsi(
    e: &[f64],
    f: &[f64],
    g: &[f64],
    h: &[f64],
    x: &mut [f64],
    l: &mut [f64],
    w: &mut [f64],
    iw: &mut [u32],
    n: usize,
    me: usize,
    mg: usize,
) -> Result<(), Refusal>
    requires { LsiInput n me mg e.now f.now g.now h.now × (length x.old ≡ n) × (length l.old ≡ mg) × (8192 ≤ length w.old) × (512 ≤ length iw.old) }
    ensures { Solves (Definition.lsi n me mg e.now f.now g.now h.now).answer result x.old x.new l.old l.new w.old w.new iw.old iw.new }
{
    let e = run_lsi(e, f, g, h, &mut w[..8192], &mut iw[..512], n, me, mg);
    let ending = e.ending;
    let r = give(
        w,
        x,
        l,
        ending,
        lsei::LSI_X,
        n,
        0,
        0,
        lsei::LSI_MULTIPLIERS,
        mg,
    );
    workspace::clear(w, iw);
    r
}

// The solver of min ||E x - f|| with G x >= h.
#[derive(Clone, Copy)]
pub struct Lsi {}

impl Lsi {
    // x and the multipliers l, for n unknowns, me rows of E and mg of G.
    pub fn solve(
        n: usize,
        me: usize,
        mg: usize,
        e: &[f64],
        f: &[f64],
        g: &[f64],
        h: &[f64],
        x: &mut [f64],
        l: &mut [f64],
        w: &mut [f64],
        iw: &mut [u32],
    ) -> Result<(), Refusal>
        ensures { Solves (lsi_call n me mg e.now f.now g.now h.now x.old l.old w.old iw.old) result x.old x.new l.old l.new w.old w.new iw.old iw.new }
    {
        if !is_lsi(n, me, mg) {
            return Err(Refusal::Size);
        }
        if !are_lengths_lsi(
            n,
            me,
            mg,
            e.len(),
            f.len(),
            g.len(),
            h.len(),
            x.len(),
            l.len(),
        ) {
            return Err(Refusal::Length);
        }
        if !workspace::is_room(w.len(), iw.len()) {
            return Err(Refusal::Room);
        }
        solve_all_lsi(e, f, g, h, x, l, w, iw, n, me, mg)
    }
}

// ---- least squares with equalities and inequalities

// The problem in, and the kernel's answer.
fn run_lsei(
    c: &[f64],
    d: &[f64],
    e: &[f64],
    f: &[f64],
    g: &[f64],
    h: &[f64],
    w: &mut [f64],
    iw: &mut [u32],
    n: usize,
    mc: usize,
    me: usize,
    mg: usize,
) -> lsei::Ended
    requires { LseiInput n mc me mg c.now d.now e.now f.now g.now h.now × (8192 ≤ length w.old) × (512 ≤ length iw.old) }
    ensures { ended_solution result (solution_in n mc mg w.new) ≡ Definition.lsei n mc me mg c.now d.now e.now f.now g.now h.now }
{
    load_lsei(c, d, e, f, g, h, w, n, mc, me, mg);
    lsei_nullspace::solve_lsei(w, iw, n, mc, me, mg)
}

// The call where no test refuses.
fn solve_all_lsei(
    c: &[f64],
    d: &[f64],
    e: &[f64],
    f: &[f64],
    g: &[f64],
    h: &[f64],
    x: &mut [f64],
    l: &mut [f64],
    w: &mut [f64],
    iw: &mut [u32],
    n: usize,
    mc: usize,
    me: usize,
    mg: usize,
) -> Result<(), Refusal>
    requires { LseiInput n mc me mg c.now d.now e.now f.now g.now h.now × (length x.old ≡ n) × (length l.old ≡ mc + mg) × (8192 ≤ length w.old) × (512 ≤ length iw.old) }
    ensures { Solves (Definition.lsei n mc me mg c.now d.now e.now f.now g.now h.now).answer result x.old x.new l.old l.new w.old w.new iw.old iw.new }
{
    let e = run_lsei(
        c,
        d,
        e,
        f,
        g,
        h,
        &mut w[..8192],
        &mut iw[..512],
        n,
        mc,
        me,
        mg,
    );
    let ending = e.ending;
    let r = give(
        w,
        x,
        l,
        ending,
        lsei_nullspace::LSEI_X,
        n,
        lsei_nullspace::LSEI_EQUALITY_MULTIPLIERS,
        mc,
        lsei_nullspace::LSEI_MULTIPLIERS,
        mg,
    );
    workspace::clear(w, iw);
    r
}

// The solver of min ||E x - f|| with C x = d and G x >= h.
#[derive(Clone, Copy)]
pub struct Lsei {}

impl Lsei {
    // x and the multipliers l, the equalities' and then the inequalities', for n unknowns, mc rows of C, me of E and mg of G.
    pub fn solve(
        n: usize,
        mc: usize,
        me: usize,
        mg: usize,
        c: &[f64],
        d: &[f64],
        e: &[f64],
        f: &[f64],
        g: &[f64],
        h: &[f64],
        x: &mut [f64],
        l: &mut [f64],
        w: &mut [f64],
        iw: &mut [u32],
    ) -> Result<(), Refusal>
        ensures { Solves (lsei_call n mc me mg c.now d.now e.now f.now g.now h.now x.old l.old w.old iw.old) result x.old x.new l.old l.new w.old w.new iw.old iw.new }
    {
        if !is_lsei(n, mc, me, mg) {
            return Err(Refusal::Size);
        }
        if !are_lengths_lsei(
            n,
            mc,
            me,
            mg,
            c.len(),
            d.len(),
            e.len(),
            f.len(),
            g.len(),
            h.len(),
            x.len(),
            l.len(),
        ) {
            return Err(Refusal::Length);
        }
        if !workspace::is_room(w.len(), iw.len()) {
            return Err(Refusal::Room);
        }
        solve_all_lsei(c, d, e, f, g, h, x, l, w, iw, n, mc, me, mg)
    }
}
