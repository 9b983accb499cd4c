// What a sheet poses, from its whole numbers and its numbers.
ghost use Rattle.std.specs.Prelude.{◌≡◌, cond, ◌+◌, ◌*◌, ◌≤◌, ◌<◌, eqb, length};
ghost use Rattle.numbers.specs.Numbers.{+0, at, nth, tab};
ghost use Rattle.workspace.specs.Readings.{Block};
ghost use Rattle.totaliser.specs.Volume.{volume};
ghost use Rattle.day_volumes.specs.Posed.{is_stock, value_of, values as posed_values, balances as posed_balances, is_limit, turned, limit_entry, least_of};
ghost use Rattle.day_volumes.specs.inner.Work.{Tables, Limiting, LimitsIn};

// ---- where things stand in a sheet's tables

// The new readings.
const NEW: usize = 16;
// The kinds of items.
const KIND: usize = 32;
// The kinds of limits.
const LIMIT_KIND: usize = 48;
// What stocks held before, and after.
const BEFORE: usize = 16;

const AFTER: usize = 32;
// The rows of balances.
pub const BALANCES: usize = 48;
// The amounts of limits.
const AMOUNTS: usize = 304;
// The rows of limits.
pub const LIMITS: usize = 320;
// The tolerance.
pub const TOLERANCE: usize = 576;

// ---- values

// The volume between any two numbers, as if they were readings.
fn volume_of(old: u32, new: u32) -> u32
    ensures { result ≡ volume old new }
{
    if old <= new {
        return new - old;
    }
    let back = old - new;
    if 1000000 < back {
        return 0;
    }
    1000000 - back
}

// The value of an item of a kind.
fn value_of(kind: u32, old: u32, new: u32, spread: f64, before: f64, after: f64) -> f64
    ensures { result ≡ value_of kind old new spread before after }
{
    if kind == 0 {
        return volume_of(old, new) as f64;
    }
    if kind == 1 {
        return spread / 2.0;
    }
    before - after
}

// The values of n items.
pub fn fill_values(z: &[u32], f: &[f64], v: &mut [f64], n: usize)
    requires { (n ≤ 16) × Tables z.now f.now × (length v.old ≡ n) }
    ensures { v.new ≡ posed_values n z.now f.now }
{
    for i in 0..n {
        v[i] = value_of(
            z[KIND + i],
            z[i],
            z[NEW + i],
            f[i],
            f[BEFORE + i],
            f[AFTER + i],
        );
    }
}

// ---- balances

// The rows of m balances.
pub fn fill_balances(f: &[f64], out: &mut [f64], n: usize, m: usize)
    requires { (n ≤ 16) × (m ≤ 16) × (length f.now ≡ 577) × (length out.old ≡ m * n) }
    ensures { out.new ≡ posed_balances n m f.now }
{
    for j in 0..m {
        workspace::copy_strided(f, out, BALANCES + 16 * j, 1, j * n, n);
    }
}

// ---- limits

// Whether number k is a limit.
fn is_limit(z: &[u32], n: usize, k: usize) -> bool
    requires { (n ≤ 16) × (length z.now ≡ 64) }
    ensures { result ≡ is_limit n z.now k }
{
    if k < n {
        return z[KIND + k] != 2;
    }
    if k < n + n {
        return z[KIND + k - n] == 1;
    }
    true
}

// A coefficient of an item itself, and +0 elsewhere.
fn own(same: bool, c: f64) -> f64
    ensures { result ≡ cond same c +0 }
{
    if same {
        return c;
    }
    0.0
}

// A number with its sign changed where it belongs to a ceiling.
fn turn(kind: u32, x: f64) -> f64
    ensures { result ≡ turned (eqb kind 1) x }
{
    if kind == 1 {
        return -x;
    }
    x
}

// The coefficient of item i in limit k.
fn limit_entry(z: &[u32], f: &[f64], n: usize, k: usize, i: usize) -> f64
    requires { (n ≤ 16) × (k < n + n + 16) × (i < n) × Tables z.now f.now }
    ensures { result ≡ limit_entry n z.now f.now k i }
{
    if k < n {
        return own(i == k, 1.0);
    }
    if k < n + n {
        return own(i == k - n, -1.0);
    }
    let j = k - (n + n);
    turn(z[LIMIT_KIND + j], f[LIMITS + 16 * j + i])
}

// What limit k is at least.
fn least_of(z: &[u32], f: &[f64], n: usize, k: usize) -> f64
    requires { (n ≤ 16) × (k < n + n + 16) × Tables z.now f.now }
    ensures { result ≡ least_of n z.now f.now k }
{
    if k < n {
        return 0.0;
    }
    if k < n + n {
        return -f[k - n];
    }
    let j = k - (n + n);
    turn(z[LIMIT_KIND + j], f[AMOUNTS + j])
}

// The row of limit k, to `out` from o on.
fn put_limit(z: &[u32], f: &[f64], out: &mut [f64], o: usize, n: usize, k: usize)
    requires { (n ≤ 16) × (k < n + n + 16) × Tables z.now f.now × (o + n ≤ length out.old) }
    ensures { Block o n (limit_entry n z.now f.now k) out.old out.new }
{
    for i in 0..n {
        out[o + i] = limit_entry(z, f, n, k, i);
    }
}

// Where number k is a limit, its row and what it is at least, behind those of the p limits before it; and how many they are then.
fn take_limit(
    z: &[u32],
    f: &[f64],
    rows: &mut [f64],
    least: &mut [f64],
    n: usize,
    k: usize,
    p: usize,
) -> usize
    requires { (n ≤ 16) × (k < n + n + 16) × Tables z.now f.now × (length rows.old ≡ 768) × (length least.old ≡ 48) × Limiting n z.now f.now k p rows.old least.old }
    ensures { Limiting n z.now f.now (k + 1) result rows.new least.new }
{
    if !is_limit(z, n, k) {
        return p;
    }
    put_limit(z, f, rows, p * n, n, k);
    least[p] = least_of(z, f, n, k);
    p + 1
}

// The rows of all limits and what they are at least, to the front of their rooms; and how many they are.
pub fn fill_limits(
    z: &[u32],
    f: &[f64],
    rows: &mut [f64],
    least: &mut [f64],
    n: usize,
    q: usize,
) -> usize
    requires { (n ≤ 16) × (q ≤ 16) × Tables z.now f.now × (length rows.old ≡ 768) × (length least.old ≡ 48) }
    ensures { LimitsIn n q z.now f.now result rows.new least.new }
{
    let mut p = 0;
    for k in 0..n + n + q {
        p = take_limit(z, f, rows, least, n, k, p);
    }
    p
}

// ---- which items stand still

// A mark, which a stock never has.
fn unless_stock(kind: u32, mark: u8) -> u8
    ensures { result ≡ cond (eqb kind 2) 0 mark }
{
    if kind == 2 {
        return 0;
    }
    mark
}

// The marks of n items without those of stocks.
pub fn forget_stocks(z: &[u32], still: &mut [u8], n: usize)
    requires { (n ≤ 16) × (length z.now ≡ 64) × (length still.old ≡ n) }
    ensures { still.new ≡ tab n (λ i. cond (is_stock z.now i) 0 (nth still.old i)) }
{
    for i in 0..n {
        still[i] = unless_stock(z[KIND + i], still[i]);
    }
}
