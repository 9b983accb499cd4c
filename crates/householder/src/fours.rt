// What is done to four vectors side by side, 18 places apart: none waits for another.
ghost use Rattle.std.specs.Prelude.{◌≡◌, false, ◌+◌, ◌-◌, ◌*◌, ◌<◌, ◌≤◌, length};
ghost use Rattle.std.specs.Float.{binary64};
ghost use Rattle.std.specs.Float.Ieee.{eq, of_bits};
ghost use Rattle.householder.specs.inner.Search.{four, NonzeroFour};
ghost use Rattle.householder.specs.inner.Work.{PutTwo, Lifted, ReflectedFour};
ghost use Rattle.householder.specs.inner.Places.{QR_SIDE};

use crate::vectors::reflect_by;
use crate::{Four, products_four};

// Two numbers into the places from o on.
fn put_two(w: &mut [f64], o: usize, x: f64, y: f64)
    requires { o + 2 ≤ length w.old }
    ensures { PutTwo o x y w.old w.new }
{
    w[o] = x;
    w[o + 1] = y;
}

// Adds the two numbers from p on, times each of the four numbers, to the two from q on, and from 18, 36 and 54
// behind q on. All are read before one is written, so that two of them go together.
fn lift_two(w: &mut [f64], p: usize, q: usize, s: Four)
    requires { (p + 2 ≤ q) × (q + 56 ≤ length w.old) }
    ensures { Lifted p q 2 s w.old w.new }
{
    let x = w[p];
    let y = w[p + 1];
    let a = w[q];
    let aa = w[q + 1];
    let b = w[q + 18];
    let bb = w[q + 18 + 1];
    let c = w[q + 36];
    let cc = w[q + 36 + 1];
    let d = w[q + 54];
    let dd = w[q + 54 + 1];
    put_two(w, q, a + s.a * x, aa + s.a * y);
    put_two(w, q + 18, b + s.b * x, bb + s.b * y);
    put_two(w, q + 36, c + s.c * x, cc + s.c * y);
    put_two(w, q + 54, d + s.d * x, dd + s.d * y);
}

// The same with one number of each.
fn lift_one(w: &mut [f64], p: usize, q: usize, s: Four)
    requires { (p + 1 ≤ q) × (q + 55 ≤ length w.old) }
    ensures { Lifted p q 1 s w.old w.new }
{
    let x = w[p];
    w[q] = w[q] + s.a * x;
    w[q + 18] = w[q + 18] + s.b * x;
    w[q + 36] = w[q + 36] + s.c * x;
    w[q + 54] = w[q + 54] + s.d * x;
}

// The same with n numbers of each.
fn lift_four(w: &mut [f64], p: usize, q: usize, n: usize, s: Four)
    requires { (n ≤ 18) × (p + n ≤ q) × (q + 54 + n ≤ length w.old) }
    ensures { Lifted p q n s w.old w.new }
{
    let h = n / 2;
    for i in 0..h {
        lift_two(w, p + i * 2, q + i * 2, s);
    }
    if n <= h * 2 {
        return;
    }
    lift_one(w, p + h * 2, q + h * 2, s);
}

// Whether one of the four numbers is zero.
fn some_zero(s: Four) -> bool
    ensures { result ≡ false → NonzeroFour s }
{
    if s.a == 0.0 {
        return true;
    }
    if s.b == 0.0 {
        return true;
    }
    if s.c == 0.0 {
        return true;
    }
    s.d == 0.0
}

// The four vectors from o on under reflector k, whose dot products with them are s, one after the other: none of
// them changes the dot product of another.
fn reflect_each(w: &mut [f64], m: usize, k: usize, o: usize, s: Four)
    requires { (m ≤ 18) × (k < m) × (QR_SIDE ≤ o) × (o + 54 + m ≤ length w.old) × (s ≡ four (m - k) (k * 18 + k) 0 (o + k) w.old) }
    ensures { ReflectedFour m k o w.old w.new }
{
    reflect_by(w, m, k, o, s.a);
    reflect_by(w, m, k, o + 18, s.b);
    reflect_by(w, m, k, o + 36, s.c);
    reflect_by(w, m, k, o + 54, s.d);
}

// The four vectors from o on under reflector k, together unless one of them stays as it is.
pub fn reflect_four(w: &mut [f64], m: usize, k: usize, o: usize)
    requires { (m ≤ 18) × (k < m) × (QR_SIDE ≤ o) × (o + 54 + m ≤ length w.old) }
    ensures { ReflectedFour m k o w.old w.new }
{
    let s = products_four(w, k * 18 + k, 0, o + k, m - k);
    let stays = some_zero(s);
    if stays {
        reflect_each(w, m, k, o, s);
        return;
    }
    let b = w[crate::QR_B + k];
    let f = Four {
        a: s.a / b,
        b: s.b / b,
        c: s.c / b,
        d: s.d / b,
    };
    lift_four(w, k * 18 + k, o + k, m - k, f);
}
