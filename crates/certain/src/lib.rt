// The bound of reported volumes: in any volumes that are as good, no meter is more than that many spreads off. And
// whether volumes are kept within a tolerance. Every contract is an equation with a definition; what the two say of
// exact numbers is in `specs/Claims.antt`.
#![tactic(auto)]

mod test;

ghost use Rattle.std.specs.Prelude.{◌≡◌, ℕ, ◌+◌, ◌*◌, ◌<◌, ◌≤◌, length};
ghost use Rattle.certain.specs.Bound as Definition;
ghost use Rattle.certain.specs.inner.Lengths.{Pulls, Volumes};

use crate::test::{all_positive, day_finite, none_negative, report_finite};
use interval::Interval;

// ---- rows and columns

// Row j of a matrix of n columns times x.
fn row_within(n: usize, j: usize, rows: &[f64], x: &[f64]) -> Interval
    requires { ((i : ℕ) → i < n → j * n + i * 1 < length rows.now) × (n ≤ length x.now) × (j * n ≤ length rows.now) }
    ensures { result ≡ Definition.row_within n j rows.now x.now }
{
    interval::dot_strided(rows, j * n, 1, x, 0, 1, n)
}

// What the balances and the limits ask of volume i: two columns.
fn pull_within(
    i: usize,
    n: usize,
    m: usize,
    p: usize,
    balances: &[f64],
    limits: &[f64],
    y: &[f64],
    z: &[f64],
) -> Interval
    requires { (i < n) × Pulls n m p balances.now limits.now y.now z.now }
    ensures { result ≡ Definition.pull_within n m p i balances.now limits.now y.now z.now }
{
    let of_balances = interval::dot_strided(balances, i, n, y, 0, 1, m);
    let of_limits = interval::dot_strided(limits, i, n, z, 0, 1, p);
    of_balances.add(of_limits)
}

// ---- the terms of the reach

fn fit_term(x: f64, v: f64, s: f64, g: Interval) -> f64
    ensures { result ≡ Definition.fit_term x v s g }
{
    let moved = Interval::of(x).sub(Interval::of(v));
    let explained = Interval::product(s, s).mul(g);
    let left = moved.sub(explained);
    let u = interval::div_up(left.magnitude(), s);
    interval::mul_up(u, u)
}

fn open_term(y: f64, c: Interval) -> f64
    ensures { result ≡ Definition.open_term y c }
{
    interval::mul_up(Interval::of(y).magnitude(), c.magnitude())
}

fn slack_term(z: f64, b: f64, a: Interval) -> f64
    ensures { result ≡ Definition.slack_term z b a }
{
    if 0.0 <= z {
        let over = a.sub(Interval::of(b));
        return interval::mul_up(z, interval::larger(over.hi, 0.0));
    }
    1.0 / 0.0
}

// ---- and their sums

fn fit_up(
    n: usize,
    m: usize,
    p: usize,
    values: &[f64],
    spreads: &[f64],
    balances: &[f64],
    limits: &[f64],
    x: &[f64],
    y: &[f64],
    z: &[f64],
) -> f64
    requires { Volumes n values.now spreads.now x.now × Pulls n m p balances.now limits.now y.now z.now }
    ensures { result ≡ Definition.fit_up n m p values.now spreads.now balances.now limits.now x.now y.now z.now }
{
    let mut sum = 0.0;
    for i in 0..n {
        let g = pull_within(i, n, m, p, balances, limits, y, z);
        sum = interval::add_up(sum, fit_term(x[i], values[i], spreads[i], g));
    }
    sum
}

fn open_up(n: usize, m: usize, balances: &[f64], x: &[f64], y: &[f64]) -> f64
    requires { (m * n ≤ length balances.now) × (n ≤ length x.now) × (m ≤ length y.now) }
    ensures { result ≡ Definition.open_up n m balances.now x.now y.now }
{
    let mut sum = 0.0;
    for j in 0..m {
        let c = row_within(n, j, balances, x);
        sum = interval::add_up(sum, open_term(y[j], c));
    }
    sum
}

fn slack_up(n: usize, p: usize, limits: &[f64], least: &[f64], x: &[f64], z: &[f64]) -> f64
    requires { (p * n ≤ length limits.now) × (p ≤ length least.now) × (n ≤ length x.now) × (p ≤ length z.now) }
    ensures { result ≡ Definition.slack_up n p limits.now least.now x.now z.now }
{
    let mut sum = 0.0;
    for k in 0..p {
        let a = row_within(n, k, limits, x);
        sum = interval::add_up(sum, slack_term(z[k], least[k], a));
    }
    sum
}

fn fourfold(f: f64, o: f64, s: f64) -> f64
    ensures { result ≡ Definition.fourfold f o s }
{
    let q = interval::add_up(f, interval::add_up(interval::add_up(o, o), s));
    let h = interval::add_up(q, q);
    interval::add_up(h, h)
}

// ---- the bound

// How far apart volumes that are as good may lie, or more.
pub fn reach_up(
    n: usize,
    m: usize,
    p: usize,
    values: &[f64],
    spreads: &[f64],
    balances: &[f64],
    limits: &[f64],
    least: &[f64],
    x: &[f64],
    y: &[f64],
    z: &[f64],
) -> f64
    requires { Volumes n values.now spreads.now x.now × Pulls n m p balances.now limits.now y.now z.now × (p ≤ length least.now) }
    ensures { result ≡ Definition.reach_up n m p values.now spreads.now balances.now limits.now least.now x.now y.now z.now }
{
    if !all_positive(spreads, n) {
        return 1.0 / 0.0;
    }
    if !none_negative(z, p) {
        return 1.0 / 0.0;
    }
    if !day_finite(n, m, p, values, balances, limits, least) {
        return 1.0 / 0.0;
    }
    if !report_finite(n, m, p, x, y, z) {
        return 1.0 / 0.0;
    }
    let squares = fit_up(n, m, p, values, spreads, balances, limits, x, y, z);
    let opened = open_up(n, m, balances, x, y);
    let slack = slack_up(n, p, limits, least, x, z);
    fourfold(squares, opened, slack)
}

// In spreads; +infinity where nothing is certain.
pub fn bound(
    n: usize,
    m: usize,
    p: usize,
    values: &[f64],
    spreads: &[f64],
    balances: &[f64],
    limits: &[f64],
    least: &[f64],
    x: &[f64],
    y: &[f64],
    z: &[f64],
) -> f64
    requires { Volumes n values.now spreads.now x.now × Pulls n m p balances.now limits.now y.now z.now × (p ≤ length least.now) }
    ensures { result ≡ Definition.bound n m p values.now spreads.now balances.now limits.now least.now x.now y.now z.now }
{
    let r = reach_up(n, m, p, values, spreads, balances, limits, least, x, y, z);
    interval::root_up(r)
}

// ---- kept within a tolerance

// What balance j comes to is at most t in size.
pub fn closes(n: usize, j: usize, balances: &[f64], x: &[f64], t: f64) -> bool
    requires { (j * n + n ≤ length balances.now) × (n ≤ length x.now) }
    ensures { result ≡ Definition.closes n j balances.now x.now t }
{
    let c = row_within(n, j, balances, x);
    c.magnitude() <= t
}

// What limit k comes to is not below its least by more than t.
pub fn keeps(n: usize, k: usize, limits: &[f64], least: &[f64], x: &[f64], t: f64) -> bool
    requires { (k * n + n ≤ length limits.now) × (k < length least.now) × (n ≤ length x.now) }
    ensures { result ≡ Definition.keeps n k limits.now least.now x.now t }
{
    let a = row_within(n, k, limits, x);
    let missed = Interval::of(least[k]).sub(a);
    missed.hi <= t
}

fn all_close(n: usize, m: usize, balances: &[f64], x: &[f64], t: f64) -> bool
    requires { (m * n ≤ length balances.now) × (n ≤ length x.now) }
    ensures { result ≡ Definition.all_below m (λ j. Definition.closes n j balances.now x.now t) }
{
    for j in 0..m {
        if !closes(n, j, balances, x, t) {
            return false;
        }
    }
    true
}

fn all_keep(n: usize, p: usize, limits: &[f64], least: &[f64], x: &[f64], t: f64) -> bool
    requires { (p * n ≤ length limits.now) × (p ≤ length least.now) × (n ≤ length x.now) }
    ensures { result ≡ Definition.all_below p (λ k. Definition.keeps n k limits.now least.now x.now t) }
{
    for k in 0..p {
        if !keeps(n, k, limits, least, x, t) {
            return false;
        }
    }
    true
}

// Whether every balance's sum is within t, and no limit's is below its least by more.
pub fn kept(
    n: usize,
    m: usize,
    p: usize,
    balances: &[f64],
    limits: &[f64],
    least: &[f64],
    x: &[f64],
    t: f64,
) -> bool
    requires { (m * n ≤ length balances.now) × (p * n ≤ length limits.now) × (p ≤ length least.now) × (n ≤ length x.now) }
    ensures { result ≡ Definition.kept n m p balances.now limits.now least.now x.now t }
{
    if !all_close(n, m, balances, x, t) {
        return false;
    }
    all_keep(n, p, limits, least, x, t)
}
