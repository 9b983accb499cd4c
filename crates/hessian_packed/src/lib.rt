// The approximation B kept as its lower triangle, row by row: where its entries stand, the square that it stands for, and the square form's kernels on that.
#![tactic(auto)]

ghost use Rattle.std.specs.Prelude.{◌≡◌, ℕ, ◌+◌, ◌*◌, ◌-◌, ◌≤◌, ◌<◌, ◌++◌, length, take};
ghost use Rattle.numbers.specs.Numbers.{Σ, at, tab, ◌⊗◌};
ghost use Rattle.hessian.specs.inner.Work.{FactorMade};
ghost use Rattle.hessian_packed.specs.Packed.{count, place, packed, unpacked, identity, times, cholesky, update};

// ---- where the entries stand

// How many numbers n rows have.
pub fn count_of(n: usize) -> usize
    requires { n ≤ 16 }
    ensures { result ≡ count n }
{
    n * (n + 1) / 2
}

// Row i of the square from the diagonal on: column i of the triangle.
fn cross(n: usize, p: &[f64], x: &mut [f64], i: usize)
    requires { (n ≤ 16) × (i < n) × (length p.now ≡ count n) × (length x.old ≡ n) }
    ensures { x.new ≡ take i x.old ++ tab (n - i) (λ t. at p.now (count (i + t) + i)) }
{
    let mut q = count_of(i) + i;
    let c = n - i;
    for t in 0..c {
        x[i + t] = p[q];
        q += i + t + 1;
    }
}

// Row i of the square that p stands for.
fn unpack_row(n: usize, p: &[f64], x: &mut [f64], i: usize)
    requires { (n ≤ 16) × (i < n) × (length p.now ≡ count n) × (length x.old ≡ n) }
    ensures { x.new ≡ tab n (λ j. at p.now (place i j)) }
{
    let a = count_of(i);
    let e = a + (i + 1);
    workspace::load(&p[a..e], x, 0, i + 1);
    cross(n, p, x, i);
}

// The square that p stands for.
fn unpack(n: usize, p: &[f64], square: &mut [f64])
    requires { (n ≤ 16) × (length p.now ≡ count n) × (length square.old ≡ n * n) }
    ensures { square.new ≡ unpacked n p.now }
{
    for i in 0..n {
        let a = i * n;
        let e = a + n;
        unpack_row(n, p, &mut square[a..e], i);
    }
}

// The lower triangle of the square.
fn pack(n: usize, square: &[f64], p: &mut [f64])
    requires { (n ≤ 16) × (length square.now ≡ n * n) × (length p.old ≡ count n) }
    ensures { p.new ≡ packed n square.now }
{
    for i in 0..n {
        let a = count_of(i);
        let e = a + (i + 1);
        workspace::unload(square, &mut p[a..e], i * n, i + 1);
    }
}

// ---- the product

// The product of row i of the square and v, from what it is up to the diagonal.
fn go_on(n: usize, p: &[f64], v: &[f64], i: usize, start: f64) -> f64
    requires { (n ≤ 16) × (i < n) × (length p.now ≡ count n) × (length v.now ≡ n) × (start ≡ Σ (i + 1) (λ j. at p.now (place i j) ⊗ at v.now j)) }
    ensures { result ≡ Σ n (λ j. at p.now (place i j) ⊗ at v.now j) }
{
    let mut total = start;
    let a = i + 1;
    let mut q = count_of(a) + i;
    for j in a..n {
        total = total + p[q] * v[j];
        q += j + 1;
    }
    total
}

// The product of row i of the square and v.
fn row_times(n: usize, p: &[f64], v: &[f64], i: usize) -> f64
    requires { (n ≤ 16) × (i < n) × (length p.now ≡ count n) × (length v.now ≡ n) }
    ensures { result ≡ Σ n (λ j. at p.now (place i j) ⊗ at v.now j) }
{
    let a = count_of(i);
    let e = a + (i + 1);
    let start = numbers::dot(i + 1, &p[a..e], v);
    go_on(n, p, v, i, start)
}

// B v, written to `out`.
pub fn times_into(n: usize, p: &[f64], v: &[f64], out: &mut [f64])
    requires { (n ≤ 16) × (length p.now ≡ count n) × (length v.now ≡ n) × (length out.old ≡ n) }
    ensures { out.new ≡ times n p.now v.now }
{
    for i in 0..n {
        out[i] = row_times(n, p, v, i);
    }
}

// ---- the others, each by the square form's kernel, with room for the square

// The identity, written to `out`.
pub fn identity_into(n: usize, out: &mut [f64], square: &mut [f64])
    requires { (n ≤ 16) × (length out.old ≡ count n) × (length square.old ≡ n * n) }
    ensures { out.new ≡ identity n }
{
    hessian::identity_into(n, square);
    pack(n, square, out);
}

// Room for a factor that may break off.
fn factor_room() -> [f64; 256]
    ensures { 256 ≡ length result }
{
    [0.0; 256]
}

// The factor, square, written to `out` where it is whole.
pub fn factor_into(
    n: usize,
    p: &[f64],
    out: &mut [f64],
    square: &mut [f64],
) -> Result<(), workspace::Refusal>
    requires { (n ≤ 16) × (length p.now ≡ count n) × (length out.old ≡ n * n) × (length square.old ≡ n * n) }
    ensures { FactorMade (cholesky n p.now) result out.old out.new }
{
    unpack(n, p, square);
    let mut room = factor_room();
    let m = n * n;
    hessian::factor_into(n, square, out, &mut room[..m])
}

// Room for Bs and r.
fn side_room() -> [f64; 32]
    ensures { 32 ≡ length result }
{
    [0.0; 32]
}

// The damped update of p, in its place.
pub fn renew(n: usize, p: &mut [f64], s: &[f64], y: &[f64], square: &mut [f64])
    requires { (n ≤ 16) × (length p.old ≡ count n) × (length s.now ≡ n) × (length y.now ≡ n) × (length square.old ≡ n * n) }
    ensures { p.new ≡ update n p.old s.now y.now }
{
    unpack(n, p, square);
    let mut room = side_room();
    let m = n + n;
    hessian::renew(n, square, s, y, &mut room[..m]);
    pack(n, square, p);
}
