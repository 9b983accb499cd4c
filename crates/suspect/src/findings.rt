// What is found of all meters together, and which meters are meant.
ghost use Rattle.std.specs.Prelude.{◌≡◌, ℕ, ◌<◌, ◌≤◌, length};
ghost use Rattle.workspace.specs.Readings.{vec, stack, Span};
ghost use Rattle.suspect.specs.Suspect.{largest, are_within, is_tied, group_of, mark_unless, finding_of};
ghost use Rattle.suspect.specs.inner.Places.{SUSPECT_GAPS, SUSPECT_DIRECTIONS, SUSPECT_SHARES, SUSPECT_TESTS, SUSPECT_GROUPS, SUSPECT_MARKS, SUSPECT_ROOM, SUSPECT_WORDS};

use crate::decide::{agree_of, explained_of, mark_of, square_of, tie_of};
use crate::measure::overlap_of;
use crate::{
    Finding, Lead, SUSPECT_GAPS, SUSPECT_GROUPS, SUSPECT_MARKS, SUSPECT_SHARES, SUSPECT_TESTS,
};

// The first meter whose test is largest.
fn find_lead(w: &[f64], n: usize) -> Lead
    requires { (n ≤ 16) × (SUSPECT_ROOM ≤ length w.now) }
    ensures { result ≡ largest (vec SUSPECT_SHARES n w.now) (vec SUSPECT_TESTS n w.now) n }
{
    let mut best = Lead {
        index: 0,
        square: -1.0,
    };
    for i in 0..n {
        let s = square_of(w[SUSPECT_SHARES + i], w[SUSPECT_TESTS + i]);
        if best.square < s {
            best = Lead {
                index: i,
                square: s,
            };
        }
    }
    best
}

// Every test is within 3.
fn all_within(w: &[f64], n: usize) -> bool
    requires { (n ≤ 16) × (SUSPECT_ROOM ≤ length w.now) }
    ensures { result ≡ are_within (vec SUSPECT_SHARES n w.now) (vec SUSPECT_TESTS n w.now) n }
{
    let mut all = true;
    for i in 0..n {
        let s = square_of(w[SUSPECT_SHARES + i], w[SUSPECT_TESTS + i]);
        all = all && s <= 9.0;
    }
    all
}

// What is found of all meters together; finite says whether every gap is.
pub fn judge(w: &[f64], n: usize, r: usize, finite: bool) -> Finding
    requires { (n ≤ 16) × (r ≤ n) × (SUSPECT_ROOM ≤ length w.now) }
    ensures { result ≡ finding_of n r (vec SUSPECT_GAPS r w.now) (vec SUSPECT_SHARES n w.now) (vec SUSPECT_TESTS n w.now) finite }
{
    let misfit = numbers::dot_within(w, SUSPECT_GAPS, SUSPECT_GAPS, r);
    let best = find_lead(w, n);
    let within = all_within(w, n);
    let agree = agree_of(r, misfit, within, finite);
    let explained = explained_of(r, misfit, best.square);
    let freedom = r as u32;
    let first = best.index as u32;
    Finding {
        freedom: freedom,
        misfit: misfit,
        first: first,
        square: best.square,
        agree: agree,
        explained: explained,
    }
}

// Meters i and j are not told apart.
fn tied(w: &[f64], n: usize, r: usize, i: usize, j: usize) -> bool
    requires { (n ≤ 16) × (r ≤ n) × (i < n) × (j < n) × (SUSPECT_ROOM ≤ length w.now) }
    ensures { result ≡ is_tied n r (stack SUSPECT_DIRECTIONS n n w.now) (vec SUSPECT_SHARES n w.now) i j }
{
    let p = overlap_of(w, n, r, i, j);
    tie_of(w[SUSPECT_SHARES + i], w[SUSPECT_SHARES + j], p)
}

// The first meter that is not told apart from meter i.
fn group_of(w: &[f64], n: usize, r: usize, i: usize) -> usize
    requires { (n ≤ 16) × (r ≤ n) × (i < n) × (SUSPECT_ROOM ≤ length w.now) }
    ensures { (result ≡ group_of n r (stack SUSPECT_DIRECTIONS n n w.now) (vec SUSPECT_SHARES n w.now) i i) × (result ≤ i) }
{
    let mut l = i;
    for d in 0..i {
        let j = i - (d + 1);
        if tied(w, n, r, i, j) {
            l = j;
        }
    }
    l
}

// The groups.
pub fn write_groups(w: &[f64], iw: &mut [u32], n: usize, r: usize)
    requires { (n ≤ 16) × (r ≤ n) × (SUSPECT_ROOM ≤ length w.now) × (SUSPECT_WORDS ≤ length iw.old) }
    ensures { Span SUSPECT_GROUPS n (λ i. group_of n r (stack SUSPECT_DIRECTIONS n n w.now) (vec SUSPECT_SHARES n w.now) i i) iw.old iw.new }
{
    for i in 0..n {
        let l = group_of(w, n, r, i);
        iw[SUSPECT_GROUPS + i] = l as u32;
    }
}

// The mark of meter i.
fn mark_at(w: &[f64], n: usize, r: usize, best: Lead, agree: bool, i: usize) -> u32
    requires { (n ≤ 16) × (r ≤ n) × (i < n) × (best.index < n) × (SUSPECT_ROOM ≤ length w.now) }
    ensures { result ≡ mark_unless agree n r (stack SUSPECT_DIRECTIONS n n w.now) (vec SUSPECT_SHARES n w.now) (vec SUSPECT_TESTS n w.now) best i }
{
    if agree {
        return 0;
    }
    let f = best.index;
    let same = tied(w, n, r, i, f);
    mark_of(
        w[SUSPECT_SHARES + i],
        w[SUSPECT_TESTS + i],
        best.square,
        same,
    )
}

// The marks.
pub fn write_marks(w: &[f64], iw: &mut [u32], n: usize, r: usize, best: Lead, agree: bool)
    requires { (n ≤ 16) × (r ≤ n) × (SUSPECT_ROOM ≤ length w.now) × (SUSPECT_WORDS ≤ length iw.old) × ((i : ℕ) → i < n → best.index < n) }
    ensures { Span SUSPECT_MARKS n (mark_unless agree n r (stack SUSPECT_DIRECTIONS n n w.now) (vec SUSPECT_SHARES n w.now) (vec SUSPECT_TESTS n w.now) best) iw.old iw.new }
{
    for i in 0..n {
        let k = mark_at(w, n, r, best, agree, i);
        iw[SUSPECT_MARKS + i] = k;
    }
}
