// The balances in spreads: their matrix K, its factors, what they lack, and the directions that they see.
ghost use Rattle.std.specs.Prelude.{ℕ, ◌≡◌, ◌+◌, ◌*◌, ◌<◌, ◌≤◌, length};
ghost use Rattle.std.specs.Float.Ieee.{neg};
ghost use Rattle.numbers.specs.Numbers.{at, nth, entry};
ghost use Rattle.workspace.specs.Readings.{mat, Block};
ghost use Rattle.householder.specs.inner.Places.{QR_MATRIX};
ghost use Rattle.suspect.specs.Suspect.{weight, weights, gap, are_finite};
ghost use Rattle.suspect.specs.inner.Places.{SUSPECT_GAPS, SUSPECT_ROOM, SUSPECT_WORDS};
ghost use Rattle.suspect.specs.inner.Work.{DirectionWritten, DirectionsWritten, Prepared};

use crate::day::MeteredDay;
use crate::decide::{is_finite, weight_of};
use crate::{SUSPECT_DIRECTIONS, SUSPECT_GAPS};

// Column k of K.
fn write_column(day: &MeteredDay, w: &mut [f64], k: usize)
    requires { (k < day.now.m) × (QR_MATRIX + day.now.m * 18 ≤ length w.old) }
    ensures { Block (QR_MATRIX + k * 18) day.now.n (λ i. weight (nth day.now.still.now i) (at day.now.spreads.now i) (entry day.now.n day.now.balances.now k i)) w.old w.new }
{
    let p = k * day.n;
    let o = householder::QR_MATRIX + k * 18;
    for i in 0..day.n {
        w[o + i] = weight_of(day.still[i], day.spreads[i], day.balances[p + i]);
    }
}

// K.
fn write_weights(day: &MeteredDay, w: &mut [f64])
    requires { QR_MATRIX + day.now.m * 18 ≤ length w.old }
    ensures { mat QR_MATRIX day.now.n day.now.m w.new ≡ weights day.now.n day.now.m day.now.spreads.now day.now.balances.now day.now.still.now }
{
    for k in 0..day.m {
        write_column(day, w, k);
    }
}

// What each balance lacks is finite.
pub fn all_finite(day: &MeteredDay) -> bool
    ensures { result ≡ are_finite day.now.n day.now.values.now day.now.balances.now day.now.m }
{
    let mut all = true;
    for k in 0..day.m {
        let g = numbers::dot_strided(day.balances, k * day.n, 1, day.values, 0, 1, day.n);
        all = all && is_finite(g);
    }
    all
}

// What r balances lack, in the order of the factors, with the other sign.
fn write_gaps(day: &MeteredDay, w: &mut [f64], iw: &[u32], r: usize)
    requires { (r ≤ 16) × (SUSPECT_ROOM ≤ length w.old) × (r ≤ length iw.now) × ((t : ℕ) → t < r → nth iw.now t < day.now.m) }
    ensures { Block SUSPECT_GAPS r (λ t. neg (gap day.now.n day.now.values.now day.now.balances.now (nth iw.now t))) w.old w.new }
{
    for t in 0..r {
        let k = iw[t] as usize;
        let g = numbers::dot_strided(day.balances, k * day.n, 1, day.values, 0, 1, day.n);
        w[SUSPECT_GAPS + t] = -g;
    }
}

// Row i of Q.
fn write_direction(w: &mut [f64], n: usize, r: usize, i: usize)
    requires { (n ≤ 16) × (r ≤ n) × (i < n) × (SUSPECT_ROOM ≤ length w.old) }
    ensures { DirectionWritten n r i w.old w.new }
{
    step_rows::write_unit(w, SUSPECT_DIRECTIONS + i * 18, n, i, 1.0);
    householder::apply_qt(w, n, r, SUSPECT_DIRECTIONS + i * 18);
}

// The rows of Q.
fn write_directions(w: &mut [f64], n: usize, r: usize)
    requires { (n ≤ 16) × (r ≤ n) × (SUSPECT_ROOM ≤ length w.old) }
    ensures { DirectionsWritten n r w.old w.new }
{
    for i in 0..n {
        write_direction(w, n, r, i);
    }
}

// The factors of K, y and Q; and the rank.
pub fn prepare(day: &MeteredDay, w: &mut [f64], iw: &mut [u32]) -> usize
    requires { (SUSPECT_ROOM ≤ length w.old) × (SUSPECT_WORDS ≤ length iw.old) }
    ensures { Prepared day.now.n day.now.m result day.now.values.now day.now.spreads.now day.now.balances.now day.now.still.now w.new }
{
    write_weights(day, w);
    let r = householder::factor_in(w, iw, day.n, day.m);
    write_gaps(day, w, iw, r);
    householder::solve_rt(w, day.m, r, SUSPECT_GAPS);
    write_directions(w, day.n, r);
    r
}
