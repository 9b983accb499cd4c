// The copies, the clearing and the tests that all operations share.
#![tactic(auto)]

ghost use Rattle.std.specs.Prelude.{◌≡◌, ◌&&◌, ℕ, ◌+◌, ◌*◌, ◌≤◌, ◌<◌, leb, length};
ghost use Rattle.numbers.specs.Numbers.{+0, at};
ghost use Rattle.workspace.specs.Tables.{number_of, place_of, outcome_number, cleared, is_dimension, is_matrix, is_constraints, is_tolerance};
ghost use Rattle.workspace.specs.Readings.{vec, mat, stack, nums, Block, Span, Loaded, Stacked, Cleared};

// ---- answers

// The place of a refusal that has none.
pub const NOWHERE: u32 = 4294967295;

// Why a call is refused, some with a place: a column, an equality, a meter or a variable.
#[derive(Clone, Copy, Debug, PartialEq, Eq)]
pub enum Refusal {
    Size,
    Length,
    Room,
    Kind,
    Deficient(u32),
    Infeasible,
    Capped,
    Pivot,
    Tolerance,
    Dependent(u32),
    Reading(u32),
    Spread(u32),
    Width,
    Bound(u32),
    Crossed,
    Nonfinite,
    Unasked,
    Output,
    Triangle,
}

impl Refusal {
    // Its number in docs/RULES.md.
    pub fn number(self) -> u32
        ensures { result ≡ number_of self }
    {
        match self {
            Refusal::Size => 1,
            Refusal::Length => 2,
            Refusal::Room => 3,
            Refusal::Kind => 4,
            Refusal::Deficient(_) => 5,
            Refusal::Infeasible => 6,
            Refusal::Capped => 7,
            Refusal::Pivot => 8,
            Refusal::Tolerance => 10,
            Refusal::Dependent(_) => 11,
            Refusal::Reading(_) => 12,
            Refusal::Spread(_) => 13,
            Refusal::Width => 14,
            Refusal::Bound(_) => 15,
            Refusal::Crossed => 16,
            Refusal::Nonfinite => 17,
            Refusal::Unasked => 18,
            Refusal::Output => 19,
            Refusal::Triangle => 20,
        }
    }

    // The place that comes with it, or NOWHERE.
    pub fn place(self) -> u32
        ensures { result ≡ place_of self }
    {
        match self {
            Refusal::Size => NOWHERE,
            Refusal::Length => NOWHERE,
            Refusal::Room => NOWHERE,
            Refusal::Kind => NOWHERE,
            Refusal::Deficient(place) => place,
            Refusal::Infeasible => NOWHERE,
            Refusal::Capped => NOWHERE,
            Refusal::Pivot => NOWHERE,
            Refusal::Tolerance => NOWHERE,
            Refusal::Dependent(place) => place,
            Refusal::Reading(meter) => meter,
            Refusal::Spread(meter) => meter,
            Refusal::Width => NOWHERE,
            Refusal::Bound(variable) => variable,
            Refusal::Crossed => NOWHERE,
            Refusal::Nonfinite => NOWHERE,
            Refusal::Unasked => NOWHERE,
            Refusal::Output => NOWHERE,
            Refusal::Triangle => NOWHERE,
        }
    }
}

// 0 where an operation is done, else the refusal's number.
pub fn outcome_number(answer: Result<(), Refusal>) -> u32
    ensures { result ≡ outcome_number answer }
{
    match answer {
        Ok(()) => 0,
        Err(why) => why.number(),
    }
}

// ---- tests

// A dimension of B, or a number of variables.
pub fn is_dimension(n: usize) -> bool
    ensures { result ≡ is_dimension n }
{
    n >= 1 && n <= 16
}

// Rows and columns of QR and NNLS.
pub fn is_matrix(m: usize, n: usize) -> bool
    ensures { result ≡ is_matrix m n }
{
    m <= 18 && n <= 66
}

// Constraints of a step.
pub fn is_constraints(m: usize) -> bool
    ensures { result ≡ is_constraints m }
{
    m <= 16
}

// The lengths of the two workspaces.
pub fn is_room(w: usize, iw: usize) -> bool
    ensures { result ≡ (leb 8192 w && leb 512 iw) }
{
    w >= 8192 && iw >= 512
}

// A tolerance is not NaN and not below zero.
pub fn is_tolerance(tolerance: f64) -> bool
    ensures { result ≡ is_tolerance tolerance }
{
    0.0 <= tolerance
}

// ---- clearing

// +0 into the first n entries.
pub fn wipe(w: &mut [f64], n: usize)
    requires { n ≤ length w.old }
    ensures { w.new ≡ cleared +0 n w.old }
{
    for i in 0..n {
        w[i] = 0.0;
    }
}

// 0 into the first n entries.
pub fn wipe_words(iw: &mut [u32], n: usize)
    requires { n ≤ length iw.old }
    ensures { «iw».new ≡ cleared 0 n «iw».old }
{
    for i in 0..n {
        iw[i] = 0;
    }
}

// Both workspaces, as every call leaves them that reached the arithmetic.
pub fn clear(w: &mut [f64], iw: &mut [u32])
    requires { (8192 ≤ length w.old) × (512 ≤ length iw.old) }
    ensures { Cleared w.old w.new iw.old iw.new }
{
    wipe(w, 8192);
    wipe_words(iw, 512);
}

// +0 into c entries from o on.
pub fn blank(w: &mut [f64], o: usize, c: usize)
    requires { o + c ≤ length w.old }
    ensures { Block o c (λ _. +0) w.old w.new }
{
    for t in 0..c {
        w[o + t] = 0.0;
    }
}

// 0 into c entries from o on.
pub fn blank_words(iw: &mut [u32], o: usize, c: usize)
    requires { o + c ≤ length iw.old }
    ensures { Span o c (λ _. 0) iw.old iw.new }
{
    for t in 0..c {
        iw[o + t] = 0;
    }
}

// ---- copies within a workspace

// c entries from p on, to q on, which lies behind them.
pub fn copy_up(w: &mut [f64], p: usize, q: usize, c: usize)
    requires { (p + c ≤ q) × (q + c ≤ length w.old) }
    ensures { Block q c (λ t. at w.old (p + t)) w.old w.new }
{
    for t in 0..c {
        w[q + t] = w[p + t];
    }
}

// c entries from p on, to q on, which lies before them.
pub fn copy_down(w: &mut [f64], p: usize, q: usize, c: usize)
    requires { (q ≤ p) × (p + c ≤ length w.old) }
    ensures { Block q c (λ t. at w.old (p + t)) w.old w.new }
{
    for t in 0..c {
        w[q + t] = w[p + t];
    }
}

// ---- copies in and out

// c entries of src from p on, s apart, to dst from q on.
pub fn copy_strided(src: &[f64], dst: &mut [f64], p: usize, s: usize, q: usize, c: usize)
    requires { ((t : ℕ) → t < c → p + t * s < length src.now) × (q + c ≤ length dst.old) }
    ensures { Block q c (λ t. at src.now (p + t * s)) dst.old dst.new }
{
    for t in 0..c {
        dst[q + t] = src[p + t * s];
    }
}

// The first n entries of v, to w from o on.
pub fn load(v: &[f64], w: &mut [f64], o: usize, n: usize)
    requires { (n ≤ length v.now) × (o + n ≤ length w.old) }
    ensures { Block o n (λ t. at v.now t) w.old w.new }
{
    copy_strided(v, w, 0, 1, o, n);
}

// The row-major m by n matrix a, to w by columns from o on.
pub fn load_matrix(a: &[f64], w: &mut [f64], o: usize, m: usize, n: usize)
    requires { (m ≤ 18) × (n ≤ 66) × (length a.now ≡ m * n) × (o + n * 18 ≤ length w.old) }
    ensures { Loaded o m n a.now w.old w.new }
{
    for j in 0..n {
        copy_strided(a, w, j, n, o + j * 18, m);
    }
}

// The c rows of m entries of a, to w as vectors from o on.
pub fn load_stack(a: &[f64], w: &mut [f64], o: usize, c: usize, m: usize)
    requires { (c ≤ 66) × (m ≤ 18) × (length a.now ≡ c * m) × (o + c * 18 ≤ length w.old) }
    ensures { Stacked o c m a.now w.old w.new }
{
    for k in 0..c {
        copy_strided(a, w, k * m, 1, o + k * 18, m);
    }
}

// The vector at o, out to v.
pub fn unload(w: &[f64], v: &mut [f64], o: usize, n: usize)
    requires { (o + n ≤ length w.now) × (length v.old ≡ n) }
    ensures { v.new ≡ vec o n w.now }
{
    copy_strided(w, v, o, 1, 0, n);
}

// The matrix at o, out to the row-major a.
pub fn unload_matrix(w: &[f64], a: &mut [f64], o: usize, m: usize, n: usize)
    requires { (m ≤ 18) × (n ≤ 66) × (o + n * 18 ≤ length w.now) × (length a.old ≡ m * n) }
    ensures { a.new ≡ mat o m n w.now }
{
    for i in 0..m {
        copy_strided(w, a, o + i, 18, i * n, n);
    }
}

// The c vectors of m entries from o on, out to the rows of a.
pub fn unload_stack(w: &[f64], a: &mut [f64], o: usize, c: usize, m: usize)
    requires { (c ≤ 66) × (m ≤ 18) × (o + c * 18 ≤ length w.now) × (length a.old ≡ c * m) }
    ensures { a.new ≡ stack o c m w.now }
{
    for k in 0..c {
        copy_strided(w, a, o + k * 18, 1, k * m, m);
    }
}

// The n numbers from o on, out to l.
pub fn unload_words(iw: &[u32], l: &mut [u32], o: usize, n: usize)
    requires { (o + n ≤ length iw.now) × (length l.old ≡ n) }
    ensures { l.new ≡ nums o n iw.now }
{
    for t in 0..n {
        l[t] = iw[o + t];
    }
}
