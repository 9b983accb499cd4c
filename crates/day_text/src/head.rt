// What stands between the verdict and the tables.
ghost use Rattle.std.specs.Prelude.{◌≡◌, ◌+◌, ◌≤◌, ◌<◌, length};
ghost use Rattle.numbers.specs.Numbers.{at as numbers_at};
ghost use Rattle.suspect.specs.Suspect.{limits};
ghost use Rattle.ascii.specs.inner.Work.{Wrote};
ghost use Rattle.day_text.specs.Report.{title_text, doubt_text, doubts_text, large_powers, middle_powers, certain_text, misfit_text, head_text};

use crate::cells::{put_inline, put_words};
use crate::places::{DOUBTS, FIGURE_BOUND, FIGURE_MISFIT, SIGN_FREEDOM, TITLE};
use ascii::{put_byte, put_text};

// The 95 % limits of chi-square, as the tests of meters have them.
const LIMITS: [f64; 17] = [
    0.0, 3.841, 5.991, 7.815, 9.488, 11.07, 12.592, 14.067, 15.507, 16.919, 18.307, 19.675, 21.026,
    22.362, 23.685, 24.996, 26.296,
];

// The title.
fn put_title(out: &mut [u8], at: usize, texts: &[u8]) -> usize
    requires { (at + 79 ≤ length out.old) × (length texts.now ≡ 1992) }
    ensures wrote { Wrote out.old at (title_text texts.now) out.new result }
    ensures upper_bound { result ≤ at + 79 }
{
    let a = put_text(out, at, b"title ");
    let b = put_words(out, a, texts, TITLE);
    put_byte(out, b, b'\n')
}

// Doubt j.
fn put_doubt(out: &mut [u8], at: usize, j: usize, texts: &[u8]) -> usize
    requires { (at + 79 ≤ length out.old) × (j < 16) × (length texts.now ≡ 1992) }
    ensures wrote { Wrote out.old at (doubt_text j texts.now) out.new result }
    ensures upper_bound { result ≤ at + 79 }
{
    let a = put_text(out, at, b"doubt ");
    let b = put_words(out, a, texts, DOUBTS + 72 * j);
    put_byte(out, b, b'\n')
}

// A line for each doubt.
fn put_doubts(out: &mut [u8], at: usize, d: usize, texts: &[u8]) -> usize
    requires { (at + 1264 ≤ length out.old) × (d ≤ 16) × (length texts.now ≡ 1992) }
    ensures wrote { Wrote out.old at (doubts_text d 0 texts.now) out.new result }
    ensures upper_bound { result ≤ at + 1264 }
{
    let mut to = at;
    for j in 0..d {
        to = put_doubt(out, to, j, texts);
    }
    to
}

// The power of ten above the bound, from 1 on.
fn put_large_power(out: &mut [u8], at: usize, bound: f64) -> usize
    requires { at + 32 ≤ length out.old }
    ensures wrote { Wrote out.old at (large_powers bound) out.new result }
    ensures upper_bound { result ≤ at + 32 }
{
    if bound < 1.0 {
        return put_text(out, at, b"certain to 1 spreads\n");
    }
    if bound < 10.0 {
        return put_text(out, at, b"certain to 10 spreads\n");
    }
    if bound < 100.0 {
        return put_text(out, at, b"certain to 100 spreads\n");
    }
    if bound < 1000.0 {
        return put_text(out, at, b"certain to 1000 spreads\n");
    }
    put_text(out, at, b"not certain to 1000 spreads\n")
}

// The same from 0.0001 on.
fn put_middle_power(out: &mut [u8], at: usize, bound: f64) -> usize
    requires { at + 32 ≤ length out.old }
    ensures wrote { Wrote out.old at (middle_powers bound) out.new result }
    ensures upper_bound { result ≤ at + 32 }
{
    if bound < 0.0001 {
        return put_text(out, at, b"certain to 0.0001 spreads\n");
    }
    if bound < 0.001 {
        return put_text(out, at, b"certain to 0.001 spreads\n");
    }
    if bound < 0.01 {
        return put_text(out, at, b"certain to 0.01 spreads\n");
    }
    if bound < 0.1 {
        return put_text(out, at, b"certain to 0.1 spreads\n");
    }
    put_large_power(out, at, bound)
}

// How certain the volumes are.
fn put_certain(out: &mut [u8], at: usize, bound: f64) -> usize
    requires { at + 32 ≤ length out.old }
    ensures wrote { Wrote out.old at (certain_text bound) out.new result }
    ensures upper_bound { result ≤ at + 32 }
{
    if bound < 0.000000001 {
        return put_text(out, at, b"certain to 0.000000001 spreads\n");
    }
    if bound < 0.00000001 {
        return put_text(out, at, b"certain to 0.00000001 spreads\n");
    }
    if bound < 0.0000001 {
        return put_text(out, at, b"certain to 0.0000001 spreads\n");
    }
    if bound < 0.000001 {
        return put_text(out, at, b"certain to 0.000001 spreads\n");
    }
    if bound < 0.00001 {
        return put_text(out, at, b"certain to 0.00001 spreads\n");
    }
    put_middle_power(out, at, bound)
}

// The limit of so many degrees of freedom; past the table NaN.
fn limit(freedom: usize) -> f64
    ensures { result ≡ numbers_at limits freedom }
{
    if 17 <= freedom {
        return 0.0 / 0.0;
    }
    LIMITS[freedom]
}

// How well the meters agree.
fn put_misfit(out: &mut [u8], at: usize, freedom: u32, misfit: f64) -> usize
    requires { at + 64 ≤ length out.old }
    ensures wrote { Wrote out.old at (misfit_text freedom misfit) out.new result }
    ensures upper_bound { result ≤ at + 64 }
{
    if freedom == 0 {
        return put_text(out, at, b"misfit: no meter is checked\n");
    }
    let usual = limit(freedom as usize);
    let a = put_text(out, at, b"misfit ");
    let b = put_inline(out, a, misfit);
    let c = put_text(out, b, b", usual up to ");
    let d = put_inline(out, c, usual);
    put_byte(out, d, b'\n')
}

// All of it, from the empty line after the verdict to that before the tables.
pub fn put_head(
    out: &mut [u8],
    at: usize,
    d: usize,
    texts: &[u8],
    figures: &[f64],
    signs: &[u32],
) -> usize
    requires { (at + 1441 ≤ length out.old) × (d ≤ 16) × (length texts.now ≡ 1992) × (length figures.now ≡ 130) × (length signs.now ≡ 51) }
    ensures wrote { Wrote out.old at (head_text d texts.now figures.now signs.now) out.new result }
    ensures upper_bound { result ≤ at + 1441 }
{
    let a = put_byte(out, at, b'\n');
    let b = put_title(out, a, texts);
    let c = put_doubts(out, b, d, texts);
    let e = put_certain(out, c, figures[FIGURE_BOUND]);
    let f = put_misfit(out, e, signs[SIGN_FREEDOM], figures[FIGURE_MISFIT]);
    put_byte(out, f, b'\n')
}
