// The search around the step: the iterate that a run begins with, and the next one, with B updated.
#![tactic(auto)]

ghost use Rattle.std.specs.Prelude.{◌≡◌, true, false, suc, ◌+◌, ◌*◌, ◌≤◌, ◌<◌, length};
ghost use Rattle.workspace.specs.Readings.{vec};
ghost use Rattle.hessian.specs.Hessian.{identity, update};
ghost use Rattle.search.specs.Places.{SEARCH_ALL_SLOPES, SEARCH_B, SEARCH_MACHINE, SEARCH_MULTIPLIERS};
ghost use Rattle.search.specs.Turn.{lagrangian_at, first, moved};
ghost use Rattle.search.specs.Layout.{setup_in, new_in, iterate_in, laid, point_floats, iterate_floats};
ghost use Rattle.search.specs.inner.Work.{Ready, fresh_words};
ghost use Rattle.search_move.specs.inner.Work.{move_in, change_in};

use search::{
    SEARCH_ALL_SLOPES, SEARCH_B, SEARCH_FRESH, SEARCH_MULTIPLIERS, SEARCH_NEW_VALUES, SEARCH_NEW_X,
    SEARCH_PENALTIES, SEARCH_VALUES, SEARCH_X,
};

// ---- s and y

// Entry i of the gradient of the Lagrangian, of the slopes in g from o on.
fn lagrangian_at(g: &[f64], f: &[f64], o: usize, n: usize, m: usize, i: usize) -> f64
    requires { (o + suc m * n ≤ length g.now) × (length f.now ≡ SEARCH_MACHINE) × (o ≤ SEARCH_ALL_SLOPES) × (n ≤ 16) × (m ≤ 16) × (i < n) }
    ensures { result ≡ lagrangian_at n (vec o (suc m * n) g.now) (vec SEARCH_MULTIPLIERS m f.now) i m }
{
    let mut total = g[o + i];
    for j in 0..m {
        total = total - f[SEARCH_MULTIPLIERS + j] * g[o + (j + 1) * n + i];
    }
    total
}

// The move from the accepted point to the new one.
fn move_into(s: &mut [f64], f: &[f64], n: usize)
    requires { (length s.old ≡ n) × (length f.now ≡ SEARCH_MACHINE) × (n ≤ 16) }
    ensures { s.new ≡ move_in n f.now }
{
    for i in 0..n {
        s[i] = f[SEARCH_NEW_X + i] - f[SEARCH_X + i];
    }
}

// The change of the gradient of the Lagrangian, from the slopes that stand to those in w.
fn change_into(y: &mut [f64], f: &[f64], w: &[f64], n: usize, m: usize)
    requires { (length y.old ≡ n) × (length f.now ≡ SEARCH_MACHINE) × (suc m * n ≤ length w.now) × (n ≤ 16) × (m ≤ 16) }
    ensures { y.new ≡ change_in n m f.now w.now }
{
    for i in 0..n {
        y[i] = lagrangian_at(w, f, 0, n, m, i) - lagrangian_at(f, f, SEARCH_ALL_SLOPES, n, m, i);
    }
}

// ---- parts of the machine's slice

// Room for a number of each variable, or of each constraint.
pub fn vector_room() -> [f64; 16]
    ensures { 16 ≡ length result }
{
    [0.0; 16]
}

// Room for Bs and r.
fn side_room() -> [f64; 32]
    ensures { 32 ≡ length result }
{
    [0.0; 32]
}

// The update of B where it stands.
fn renew_in(f: &mut [f64], s: &[f64], y: &[f64], n: usize)
    requires { (length f.old ≡ SEARCH_MACHINE) × (length s.now ≡ n) × (length y.now ≡ n) × (n ≤ 16) }
    ensures { f.new ≡ laid SEARCH_B (update n (vec SEARCH_B (n * n) f.old) s.now y.now) f.old }
{
    let mut room = side_room();
    let k = n + n;
    let e = SEARCH_B + n * n;
    hessian::renew(n, &mut f[SEARCH_B..e], s, y, &mut room[..k]);
}

// The identity where B stands.
pub fn identity_in(f: &mut [f64], n: usize)
    requires { (length f.old ≡ SEARCH_MACHINE) × (n ≤ 16) }
    ensures { f.new ≡ laid SEARCH_B (identity n) f.old }
{
    let e = SEARCH_B + n * n;
    hessian::identity_into(n, &mut f[SEARCH_B..e]);
}

// The new point, with its values, where the accepted one stands.
pub fn accept(f: &mut [f64], n: usize, m: usize)
    requires { (length f.old ≡ SEARCH_MACHINE) × (n ≤ 16) × (m ≤ 16) }
    ensures { f.new ≡ point_floats (new_in n m f.old) f.old }
{
    workspace::copy_down(f, SEARCH_NEW_VALUES, SEARCH_VALUES, m + 1);
    workspace::copy_down(f, SEARCH_NEW_X, SEARCH_X, n);
}

// B's update for the move to the new point, whose slopes stand in w.
fn renew_for(f: &mut [f64], w: &[f64], n: usize, m: usize)
    requires { (length f.old ≡ SEARCH_MACHINE) × (suc m * n ≤ length w.now) × (n ≤ 16) × (m ≤ 16) }
    ensures { f.new ≡ laid SEARCH_B (update n (vec SEARCH_B (n * n) f.old) (move_in n f.old) (change_in n m f.old w.now)) f.old }
{
    let mut s = vector_room();
    let mut y = vector_room();
    move_into(&mut s[..n], f, n);
    change_into(&mut y[..n], f, w, n, m);
    renew_in(f, &s[..n], &y[..n], n);
}

// ---- iterates

// The first iterate, at the new point, whose slopes stand in w.
pub fn start_turn(f: &mut [f64], u: &mut [u32], w: &[f64], n: usize, m: usize)
    requires { Ready n m f.old u.old × (8192 ≤ length w.now) }
    ensures { (f.new ≡ iterate_floats (first (setup_in f.old u.old) (new_in n m f.old) (vec 0 (suc m * n) w.now)) f.old) × (u.new ≡ fresh_words true u.old) }
{
    accept(f, n, m);
    workspace::blank(f, SEARCH_MULTIPLIERS, m);
    workspace::blank(f, SEARCH_PENALTIES, m);
    identity_in(f, n);
    workspace::load(w, f, SEARCH_ALL_SLOPES, (m + 1) * n);
    u[SEARCH_FRESH] = 1;
}

// The iterate moves to the new point, whose slopes stand in w, and B is updated.
pub fn move_turn(f: &mut [f64], u: &mut [u32], w: &[f64], n: usize, m: usize)
    requires { Ready n m f.old u.old × (8192 ≤ length w.now) }
    ensures { (f.new ≡ iterate_floats (moved (setup_in f.old u.old) (iterate_in n m f.old u.old) (new_in n m f.old) (vec 0 (suc m * n) w.now)) f.old) × (u.new ≡ fresh_words false u.old) }
{
    renew_for(f, w, n, m);
    accept(f, n, m);
    workspace::load(w, f, SEARCH_ALL_SLOPES, (m + 1) * n);
    u[SEARCH_FRESH] = 0;
}
