// The problems in, where the kernels read them.
ghost use Rattle.std.specs.Prelude.{◌≡◌, ◌+◌, ◌*◌, ◌≤◌, length};
ghost use Rattle.numbers.specs.Numbers.{at};
ghost use Rattle.lsei.specs.inner.Work.{Spaced};
ghost use Rattle.lsei_call.specs.inner.Work.{LdpInput, LsiInput, LseiInput, RowsLoaded, LsiLoaded, LseiLoaded};

// The m sides h, to w from q on, 18 apart.
pub fn load_sides(h: &[f64], w: &mut [f64], q: usize, m: usize)
    requires { (m ≤ length h.now) × (q + m * 18 ≤ length w.old) }
    ensures { Spaced q m (λ t. at h.now t) w.old w.new }
{
    for t in 0..m {
        w[q + t * 18] = h[t];
    }
}

// The m rows of g with the sides h behind them, to w from o on.
pub fn load_rows(g: &[f64], h: &[f64], w: &mut [f64], o: usize, m: usize, n: usize)
    requires { LdpInput m n g.now h.now × (o + n + m * 18 ≤ length w.old) }
    ensures { RowsLoaded o m n g.now h.now w.old w.new }
{
    workspace::load_stack(g, w, o, m, n);
    load_sides(h, w, o + n, m);
}

// The problem in.
pub fn load_lsi(
    e: &[f64],
    f: &[f64],
    g: &[f64],
    h: &[f64],
    w: &mut [f64],
    n: usize,
    me: usize,
    mg: usize,
)
    requires { LsiInput n me mg e.now f.now g.now h.now × (8192 ≤ length w.old) }
    ensures { LsiLoaded n me mg e.now f.now g.now h.now w.new }
{
    workspace::load_matrix(e, w, lsei::LSI_E, me, n);
    workspace::load(f, w, lsei::LSI_F, me);
    load_rows(g, h, w, lsei::LSI_G, mg, n);
}

// The problem in.
pub fn load_lsei(
    c: &[f64],
    d: &[f64],
    e: &[f64],
    f: &[f64],
    g: &[f64],
    h: &[f64],
    w: &mut [f64],
    n: usize,
    mc: usize,
    me: usize,
    mg: usize,
)
    requires { LseiInput n mc me mg c.now d.now e.now f.now g.now h.now × (8192 ≤ length w.old) }
    ensures { LseiLoaded n mc me mg c.now d.now e.now f.now g.now h.now w.new }
{
    workspace::load_stack(c, w, lsei_nullspace::LSEI_C, mc, n);
    workspace::load(d, w, lsei_nullspace::LSEI_X, mc);
    workspace::load_stack(e, w, lsei_nullspace::LSEI_E, me, n);
    workspace::load(f, w, lsei_nullspace::LSEI_F, me);
    load_rows(g, h, w, lsei_nullspace::LSEI_G, mg, n);
}
