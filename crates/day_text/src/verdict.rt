// The verdict, the first line of the report.
ghost use Rattle.std.specs.Prelude.{◌≡◌, ◌+◌, ◌-◌, ◌*◌, ◌≤◌, ◌<◌, length};
ghost use Rattle.ascii.specs.inner.Work.{Wrote};
ghost use Rattle.day_text.specs.Verdict.{first_suspect, suspect_text, other_suspects, look_at, verdict_of, verdict_text};

use crate::cells::put_name;
use crate::places::{FIGURE_BOUND, SIGN_AGREE, SIGN_FREEDOM, SIGN_KEPT};
use ascii::put_text;

// 2^-10: volumes that are less certain are not said to close.
const CERTAIN_ENOUGH: f64 = 0.0009765625;

// The first of n items to look at, and n where there is none.
fn first_suspect(n: usize, signs: &[u32]) -> usize
    requires { (n ≤ 16) × (length signs.now ≡ 51) }
    ensures value { result ≡ first_suspect n 0 signs.now }
    ensures upper_bound { result ≤ n }
{
    for i in 0..n {
        if signs[i] == 2 {
            return i;
        }
    }
    n
}

// One more to look at, if item i is.
fn put_suspect(out: &mut [u8], at: usize, i: usize, texts: &[u8], signs: &[u32]) -> usize
    requires { (at + 20 ≤ length out.old) × (i < 16) × (length texts.now ≡ 1992) × (length signs.now ≡ 51) }
    ensures wrote { Wrote out.old at (suspect_text i texts.now signs.now) out.new result }
    ensures upper_bound { result ≤ at + 20 }
{
    if signs[i] != 2 {
        return at;
    }
    let a = put_text(out, at, b" or ");
    put_name(out, a, texts, i)
}

// All more from item k on.
fn put_others(out: &mut [u8], at: usize, k: usize, n: usize, texts: &[u8], signs: &[u32]) -> usize
    requires { (at + 320 ≤ length out.old) × (k ≤ n) × (n ≤ 16) × (length texts.now ≡ 1992) × (length signs.now ≡ 51) }
    ensures wrote { Wrote out.old at (other_suspects (n - k) k texts.now signs.now) out.new result }
    ensures upper_bound { result ≤ at + 320 }
{
    let mut to = at;
    for i in k..n {
        to = put_suspect(out, to, i, texts, signs);
    }
    to
}

// Whom to look at first, where k is the first of them.
fn put_look(out: &mut [u8], at: usize, n: usize, k: usize, texts: &[u8], signs: &[u32]) -> usize
    requires { (at + 352 ≤ length out.old) × (k ≤ n) × (n ≤ 16) × (length texts.now ≡ 1992) × (length signs.now ≡ 51) }
    ensures wrote { Wrote out.old at (look_at n k texts.now signs.now) out.new result }
    ensures upper_bound { result ≤ at + 352 }
{
    if n <= k {
        return at;
    }
    let a = put_text(out, at, b": look at ");
    let b = put_name(out, a, texts, k);
    let c = put_others(out, b, k + 1, n, texts, signs);
    put_text(out, c, b" first")
}

// The verdict, without its line feed.
pub fn put_verdict(out: &mut [u8], n: usize, texts: &[u8], figures: &[f64], signs: &[u32]) -> usize
    requires { (400 ≤ length out.old) × (n ≤ 16) × (length texts.now ≡ 1992) × (length figures.now ≡ 130) × (length signs.now ≡ 51) }
    ensures wrote { Wrote out.old 0 (verdict_text (verdict_of figures.now signs.now) n texts.now signs.now) out.new result }
    ensures upper_bound { result ≤ 400 }
{
    if signs[SIGN_KEPT] == 0 {
        return put_text(out, 0, b"does not close");
    }
    if !(figures[FIGURE_BOUND] <= CERTAIN_ENOUGH) {
        return put_text(out, 0, b"not certain");
    }
    if signs[SIGN_AGREE] == 1 {
        return put_text(out, 0, b"closes");
    }
    if signs[SIGN_FREEDOM] == 0 {
        return put_text(out, 0, b"closes, but no meter is checked");
    }
    let k = first_suspect(n, signs);
    let a = put_text(out, 0, b"closes, but the meters disagree");
    put_look(out, a, n, k, texts, signs)
}
