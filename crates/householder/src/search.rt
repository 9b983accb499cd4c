// The search for the pivot: the column of the largest norm. Columns are compared by their sums of squares where these settle
// the norm, so that it takes one root for all of them but for near ties.
ghost use Rattle.std.specs.Prelude.{◌≡◌, true, false, ◌+◌, ◌-◌, ◌*◌, ◌/◌, ◌^◌, ◌<◌, ◌≤◌, length};
ghost use Rattle.std.specs.Float.Ieee.{le};
ghost use Rattle.numbers.specs.Root.{sqrt_of};
ghost use Rattle.numbers.specs.Rounded.{IsUnits};
ghost use Rattle.workspace.specs.Readings.{mat};
ghost use Rattle.householder.specs.Qr.{pivot};
ghost use Rattle.householder.specs.inner.Search.{shown, weighed, compared, IsAhead, squares, four, SureFour, Judged, JudgedFour, Leads};
ghost use Rattle.householder.specs.inner.Work.{Kept};
ghost use Rattle.householder.specs.inner.Places.{QR_MATRIX};

use crate::{Candidate, Four, QR_MATRIX, QR_ROOTS, products_four};

// The best column so far: by its sum of squares, or by its norm where the sum does not decide it.
#[derive(Clone, Copy)]
enum Lead {
    Squares(usize, f64),
    Norm(Candidate),
}

impl Lead {
    // 1 + 2^-47: a sum that is larger by more than this factor has a strictly larger root.
    const GAP: f64 = 1.0000000000000071;
    // 2^-60
    const CLEAR: f64 = 8.673617379884035e-19;

    // The lead's sum is 2^-60 at least.
    fn ahead(old: Option<Lead>) -> bool
        ensures { result ≡ true → IsAhead old }
    {
        match old {
            Some(Lead::Squares(_, sum)) => sum >= Lead::CLEAR,
            _ => false,
        }
    }
}

// Column j with the sum of squares s, whose root is its norm, against the lead: only a strictly larger norm
// replaces it, and roots are taken only of a near tie. The first column leads that has a root at all.
fn weigh(old: Option<Lead>, j: usize, s: f64) -> Option<Lead>
    ensures { result ≡ weighed old j s }
{
    let new = Some(Lead::Squares(j, s));
    match old {
        Some(Lead::Squares(_, sum)) => {
            if s > sum {
                if s > sum * Lead::GAP {
                    return new;
                }
                let x = numbers::sqrt(sum);
                let y = numbers::sqrt(s);
                if y > x {
                    return new;
                }
            }
            old
        }
        Some(Lead::Norm(best)) => {
            let z = numbers::sqrt(s);
            if z > best.norm { new } else { old }
        }
        None => { if s >= 0.0 { new } else { old } }
    }
}

// The lead with its norm; where no column from k on leads, column k with -1.
fn show(top: Option<Lead>, k: usize) -> Candidate
    ensures { result ≡ shown k top }
{
    match top {
        Some(Lead::Squares(index, sum)) => {
            let norm = numbers::sqrt(sum);
            Candidate { index, norm }
        }
        Some(Lead::Norm(best)) => best,
        None => Candidate {
            index: k,
            norm: -1.0,
        },
    }
}

// Column j with the norm y, against the lead of those from k on.
fn compare(old: Option<Lead>, k: usize, j: usize, y: f64) -> Option<Lead>
    ensures { result ≡ compared k old j y }
{
    let c = show(old, k);
    let most = c.norm;
    if y > most {
        return Some(Lead::Norm(Candidate { index: j, norm: y }));
    }
    old
}

// Column j from row k on, with the sum s of its squares, against the lead. f is the floor for m - k squares.
fn judge(
    w: &[f64],
    m: usize,
    n: usize,
    k: usize,
    j: usize,
    old: Option<Lead>,
    f: f64,
    s: f64,
) -> Option<Lead>
    requires { (m ≤ 18) × (k < m) × (j < n) × (QR_MATRIX + n * 18 ≤ length w.now) × (s ≡ squares (m - k) (QR_MATRIX + j * 18 + k) w.now) × IsUnits f (2 ^ (55 * (m - k) - 1)) }
    ensures { Judged m n k j w.now old result }
{
    let p = QR_MATRIX + j * 18 + k;
    let sure = norms::Deciding::holds(f, s);
    if sure {
        norms::known_within(w, p, m - k);
        return weigh(old, j, s);
    }
    let dim = norms::Deciding::bounds(s);
    if dim {
        let ahead = Lead::ahead(old);
        if ahead {
            norms::known_within(w, p, m - k);
            return old;
        }
    }
    let e = p + (m - k);
    let part = &w[p..e];
    let y = norms::scaled_norm(part);
    compare(old, k, j, y)
}

// Each of the four sums decides its column's norm.
fn sure_four(f: f64, s: Four) -> bool
    ensures { result ≡ true → SureFour f s }
{
    let a = norms::Deciding::holds(f, s.a);
    let b = norms::Deciding::holds(f, s.b);
    let c = norms::Deciding::holds(f, s.c);
    let d = norms::Deciding::holds(f, s.d);
    a && b && c && d
}

// Columns j to j + 3 from row k on, with the sums of their squares, against the lead.
fn judge_four(
    w: &[f64],
    m: usize,
    n: usize,
    k: usize,
    j: usize,
    old: Option<Lead>,
    f: f64,
    s: Four,
) -> Option<Lead>
    requires { (m ≤ 18) × (k < m) × (j + 3 < n) × (QR_MATRIX + n * 18 ≤ length w.now) × (s ≡ four (m - k) (QR_MATRIX + j * 18 + k) 18 (QR_MATRIX + j * 18 + k) w.now) × IsUnits f (2 ^ (55 * (m - k) - 1)) }
    ensures { JudgedFour m n k j w.now old result }
{
    let sure = sure_four(f, s);
    if sure {
        norms::known_within(w, QR_MATRIX + j * 18 + k, 54 + (m - k));
        let x = weigh(old, j, s.a);
        let y = weigh(x, j + 1, s.b);
        let z = weigh(y, j + 2, s.c);
        return weigh(z, j + 3, s.d);
    }
    let x = judge(w, m, n, k, j, old, f, s.a);
    let y = judge(w, m, n, k, j + 1, x, f, s.b);
    let z = judge(w, m, n, k, j + 2, y, f, s.c);
    judge(w, m, n, k, j + 3, z, f, s.d)
}

// The lead among the columns from k on, by fours: up to three columns are left.
fn pivot_fours(w: &[f64], m: usize, n: usize, k: usize, f: f64) -> Option<Lead>
    requires { (m ≤ 18) × (n ≤ 66) × (k < m) × (k < n) × (QR_MATRIX + n * 18 ≤ length w.now) × IsUnits f (2 ^ (55 * (m - k) - 1)) }
    ensures { Leads m n k ((n - k) / 4 * 4) w.now result }
{
    let mut top = None;
    let c = (n - k) / 4;
    for q in 0..c {
        let j = k + q * 4;
        let o = QR_MATRIX + j * 18 + k;
        let s = products_four(w, o, 18, o, m - k);
        top = judge_four(w, m, n, k, j, top, f, s);
    }
    top
}

// The lead among the columns from k on.
fn lead_from(w: &[f64], m: usize, n: usize, k: usize) -> Option<Lead>
    requires { (m ≤ 18) × (n ≤ 66) × (k < m) × (k < n) × (QR_MATRIX + n * 18 ≤ length w.now) }
    ensures { shown k result ≡ pivot m n k (mat QR_MATRIX m n w.now) (n - k) }
{
    let f = norms::Deciding::least(m - k);
    let mut top = pivot_fours(w, m, n, k, f);
    let c = n - k;
    for t in c / 4 * 4..c {
        let p = QR_MATRIX + (k + t) * 18 + k;
        let s = numbers::dot_within(w, p, p, m - k);
        top = judge(w, m, n, k, k + t, top, f, s);
    }
    top
}

// The root of x, tried with what is remembered in its place, where there is room for that, and remembered there.
fn root_in(w: &mut [f64], n: usize, x: f64) -> f64
    ensures { (result ≡ sqrt_of x) × Kept n w.old w.new }
{
    if 18 < n {
        return numbers::sqrt(x);
    }
    if w.len() < QR_ROOTS + root_known::ROOT_PLACES {
        return numbers::sqrt(x);
    }
    let o = QR_ROOTS + root_known::place_of(x);
    let r = root_known::root_of(x, w[o]);
    w[o] = r;
    r
}

// The lead with its norm, whose root may be remembered.
fn show_in(w: &mut [f64], n: usize, top: Option<Lead>, k: usize) -> Candidate
    ensures { (result ≡ shown k top) × Kept n w.old w.new }
{
    match top {
        Some(Lead::Squares(index, sum)) => {
            let norm = root_in(w, n, sum);
            Candidate { index, norm }
        }
        Some(Lead::Norm(best)) => best,
        None => Candidate {
            index: k,
            norm: -1.0,
        },
    }
}

// The column of the largest norm among those from k on, and that norm.
pub fn pivot(w: &mut [f64], m: usize, n: usize, k: usize) -> Candidate
    requires { (m ≤ 18) × (n ≤ 66) × (k < m) × (k < n) × (QR_MATRIX + n * 18 ≤ length w.old) }
    ensures { (result ≡ pivot m n k (mat QR_MATRIX m n w.old) (n - k)) × Kept n w.old w.new }
{
    let top = lead_from(w, m, n, k);
    show_in(w, n, top, k)
}
