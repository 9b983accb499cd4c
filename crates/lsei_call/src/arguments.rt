// The tests of sizes and lengths.
ghost use Rattle.std.specs.Prelude.{◌≡◌, ◌&&◌, ◌+◌, ◌*◌, ◌≤◌, eqb};
ghost use Rattle.workspace.specs.Tables.{is_width, is_equalities, is_inequalities};

// The sizes.
pub fn is_ldp(m: usize, n: usize) -> bool
    ensures { result ≡ (is_inequalities m && is_width n) }
{
    m <= 66 && n <= 17
}

// The lengths of G, h, x and the multipliers.
pub fn are_lengths_ldp(m: usize, n: usize, g: usize, h: usize, x: usize, l: usize) -> bool
    requires { (m ≤ 66) × (n ≤ 17) }
    ensures { result ≡ (eqb g (m * n) && eqb h m && eqb x n && eqb l m) }
{
    if g != m * n {
        return false;
    }
    if h != m {
        return false;
    }
    if x != n {
        return false;
    }
    l == m
}

// The sizes.
pub fn is_lsi(n: usize, me: usize, mg: usize) -> bool
    ensures { result ≡ (is_width n && is_width me && is_inequalities mg) }
{
    if n > 17 {
        return false;
    }
    if me > 17 {
        return false;
    }
    mg <= 66
}

// The lengths of E, f, G, h, x and the multipliers.
pub fn are_lengths_lsi(
    n: usize,
    me: usize,
    mg: usize,
    e: usize,
    f: usize,
    g: usize,
    h: usize,
    x: usize,
    l: usize,
) -> bool
    requires { (n ≤ 17) × (me ≤ 17) × (mg ≤ 66) }
    ensures { result ≡ (eqb e (me * n) && eqb f me && eqb g (mg * n) && eqb h mg && eqb x n && eqb l mg) }
{
    if e != me * n {
        return false;
    }
    if f != me {
        return false;
    }
    if g != mg * n {
        return false;
    }
    if h != mg {
        return false;
    }
    if x != n {
        return false;
    }
    l == mg
}

// The sizes.
pub fn is_lsei(n: usize, mc: usize, me: usize, mg: usize) -> bool
    ensures { result ≡ (is_width n && is_equalities mc && is_width me && is_inequalities mg) }
{
    if n > 17 {
        return false;
    }
    if mc > 16 {
        return false;
    }
    if me > 17 {
        return false;
    }
    mg <= 66
}

// The lengths of C, d, E and f.
pub fn are_lengths_ce(
    n: usize,
    mc: usize,
    me: usize,
    c: usize,
    d: usize,
    e: usize,
    f: usize,
) -> bool
    requires { (n ≤ 17) × (mc ≤ 16) × (me ≤ 17) }
    ensures { result ≡ (eqb c (mc * n) && eqb d mc && eqb e (me * n) && eqb f me) }
{
    if c != mc * n {
        return false;
    }
    if d != mc {
        return false;
    }
    if e != me * n {
        return false;
    }
    f == me
}

// The lengths of C, d, E, f, G, h, x and the multipliers.
pub fn are_lengths_lsei(
    n: usize,
    mc: usize,
    me: usize,
    mg: usize,
    c: usize,
    d: usize,
    e: usize,
    f: usize,
    g: usize,
    h: usize,
    x: usize,
    l: usize,
) -> bool
    requires { (n ≤ 17) × (mc ≤ 16) × (me ≤ 17) × (mg ≤ 66) }
    ensures { result ≡ (eqb c (mc * n) && eqb d mc && eqb e (me * n) && eqb f me && eqb g (mg * n) && eqb h mg && eqb x n && eqb l (mc + mg)) }
{
    if !are_lengths_ce(n, mc, me, c, d, e, f) {
        return false;
    }
    if g != mg * n {
        return false;
    }
    if h != mg {
        return false;
    }
    if x != n {
        return false;
    }
    l == mc + mg
}
