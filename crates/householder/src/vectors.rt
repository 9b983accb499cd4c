// What is done to one vector or two: a reflector is applied, a vector is moved, and two columns change places.
ghost use Rattle.std.specs.Prelude.{◌≡◌, ◌+◌, ◌-◌, ◌*◌, ◌<◌, ◌≤◌, length, set};
ghost use Rattle.numbers.specs.Numbers.{at, nth, ◌⊕◌, ◌⊗◌};
ghost use Rattle.workspace.specs.Readings.{Block};
ghost use Rattle.householder.specs.inner.Search.{product};
ghost use Rattle.householder.specs.inner.Work.{Reflected, Exchanged, Moved};
ghost use Rattle.householder.specs.inner.Places.{QR_SIDE, QR_MATRIX};

// Adds s times the c numbers from p on to the c numbers from q on, which lie behind them.
pub fn lift(w: &mut [f64], p: usize, q: usize, c: usize, s: f64)
    requires { (p + c ≤ q) × (q + c ≤ length w.old) }
    ensures { Block q c (λ t. at w.old (q + t) ⊕ s ⊗ at w.old (p + t)) w.old w.new }
{
    for t in 0..c {
        w[q + t] = w[q + t] + s * w[p + t];
    }
}

// Algorithm H2: the vector at o under reflector k, whose dot product with it is d.
pub fn reflect_by(w: &mut [f64], m: usize, k: usize, o: usize, d: f64)
    requires { (m ≤ 18) × (k < m) × (QR_SIDE ≤ o) × (o + m ≤ length w.old) × (d ≡ product (m - k) (k * 18 + k) (o + k) w.old) }
    ensures { Reflected m k o w.old w.new }
{
    if d == 0.0 {
        return;
    }
    let s = d / w[crate::QR_B + k];
    lift(w, k * 18 + k, o + k, m - k, s);
}

// The vector at o under reflector k.
pub fn reflect(w: &mut [f64], m: usize, k: usize, o: usize)
    requires { (m ≤ 18) × (k < m) × (QR_SIDE ≤ o) × (o + m ≤ length w.old) }
    ensures { Reflected m k o w.old w.new }
{
    let d = numbers::dot_within(w, k * 18 + k, o + k, m - k);
    reflect_by(w, m, k, o, d);
}

// Moves the c numbers from p on to q on, which lies before them, and leaves +0 where they stood.
pub fn move_down(w: &mut [f64], p: usize, q: usize, c: usize)
    requires { (q + c ≤ p) × (p + c ≤ length w.old) }
    ensures { Moved p q c w.old w.new }
{
    for t in 0..c {
        w[q + t] = w[p + t];
        w[p + t] = 0.0;
    }
}

// Columns k and p exchanged.
pub fn swap(w: &mut [f64], m: usize, k: usize, p: usize)
    requires { (m ≤ 18) × (QR_MATRIX + k * 18 + m ≤ length w.old) × (QR_MATRIX + p * 18 + m ≤ length w.old) }
    ensures { Exchanged m k p w.old w.new }
{
    if k == p {
        return;
    }
    for i in 0..m {
        let x = w[crate::QR_MATRIX + k * 18 + i];
        w[crate::QR_MATRIX + k * 18 + i] = w[crate::QR_MATRIX + p * 18 + i];
        w[crate::QR_MATRIX + p * 18 + i] = x;
    }
}

// Entries k and p of the permutation exchanged.
pub fn swap_at(iw: &mut [u32], k: usize, p: usize)
    requires { (k < length iw.old) × (p < length iw.old) }
    ensures { «iw».new ≡ set (set «iw».old k (nth «iw».old p)) p (nth «iw».old k) }
{
    let x = iw[k];
    iw[k] = iw[p];
    iw[p] = x;
}
