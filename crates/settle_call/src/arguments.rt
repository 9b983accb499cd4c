// The tests before the arithmetic, which both calls share.
ghost use Rattle.std.specs.Prelude.{◌≡◌, ◌&&◌, ◌+◌, ◌*◌, ◌≤◌, eqb, leb, length};
ghost use Rattle.workspace.specs.Tables.{done, outcome_of, is_equalities};
ghost use Rattle.settle.specs.Settle.{measured};
ghost use Rattle.settle_call.specs.Promise.{value_told, least_told};
ghost use Rattle.settle_call.specs.inner.Work.{called_on, told_from, values_told, leasts_told};

use workspace::Refusal;

// ---- sizes and lengths

fn are_sizes(n: usize, m: usize, p: usize) -> bool
    ensures { result ≡ (leb n 16 && is_equalities m && leb p 48) }
{
    if n > 16 {
        return false;
    }
    if m > 16 {
        return false;
    }
    p <= 48
}

// Of the data.
fn are_lengths(
    n: usize,
    m: usize,
    p: usize,
    values: usize,
    spreads: usize,
    balances: usize,
    limits: usize,
    least: usize,
) -> bool
    requires { (n ≤ 16) × (m ≤ 16) × (p ≤ 48) }
    ensures { result ≡ (eqb values n && eqb spreads n && eqb balances (m * n) && eqb limits (p * n) && eqb least p) }
{
    if values != n {
        return false;
    }
    if spreads != n {
        return false;
    }
    if balances != m * n {
        return false;
    }
    if limits != p * n {
        return false;
    }
    least == p
}

// Of the volumes and the multipliers.
fn are_answers(n: usize, m: usize, p: usize, volumes: usize, multipliers: usize) -> bool
    requires { (m ≤ 16) × (p ≤ 48) }
    ensures { result ≡ (eqb volumes n && eqb multipliers (m + p)) }
{
    if volumes != n {
        return false;
    }
    multipliers == m + p
}

// ---- numbers

// One value: where it is not finite, that is told before a wrong spread.
fn test_value(value: f64, spread: f64, i: u32) -> Result<(), Refusal>
    ensures { result ≡ value_told value spread i }
{
    let finite = interval::is_finite(value);
    let positive = interval::is_positive(spread);
    if !finite {
        return Err(Refusal::Reading(i));
    }
    if !positive {
        return Err(Refusal::Spread(i));
    }
    Ok(())
}

// All values, the lowest first.
fn test_values(values: &[f64], spreads: &[f64], n: usize) -> Result<(), Refusal>
    requires { (n ≤ 16) × (length values.now ≡ n) × (length spreads.now ≡ n) }
    ensures { result ≡ told_from (values_told values.now spreads.now) n 0 }
{
    for i in 0..n {
        test_value(values[i], spreads[i], i as u32)?;
    }
    Ok(())
}

fn test_least(least: f64, k: u32) -> Result<(), Refusal>
    ensures { result ≡ least_told least k }
{
    if !interval::is_finite(least) {
        return Err(Refusal::Bound(k));
    }
    Ok(())
}

// The least of all limits, the lowest first.
fn test_leasts(least: &[f64], p: usize) -> Result<(), Refusal>
    requires { (p ≤ 48) × (length least.now ≡ p) }
    ensures { result ≡ told_from (leasts_told least.now) p 0 }
{
    for k in 0..p {
        test_least(least[k], k as u32)?;
    }
    Ok(())
}

// ---- all of them

pub fn test_call(
    values: &[f64],
    spreads: &[f64],
    balances: &[f64],
    limits: &[f64],
    least: &[f64],
    n: usize,
    m: usize,
    p: usize,
    volumes: usize,
    multipliers: usize,
    w: usize,
    iw: usize,
    tolerance: f64,
) -> Result<(), Refusal>
    ensures { result ≡ outcome_of {A = Unit} (called_on (measured n m p values.now spreads.now balances.now limits.now least.now) tolerance volumes multipliers w iw (done tt)) }
{
    if !are_sizes(n, m, p) {
        return Err(Refusal::Size);
    }
    if !are_lengths(
        n,
        m,
        p,
        values.len(),
        spreads.len(),
        balances.len(),
        limits.len(),
        least.len(),
    ) {
        return Err(Refusal::Length);
    }
    if !are_answers(n, m, p, volumes, multipliers) {
        return Err(Refusal::Length);
    }
    if !workspace::is_room(w, iw) {
        return Err(Refusal::Room);
    }
    if !workspace::is_tolerance(tolerance) {
        return Err(Refusal::Tolerance);
    }
    test_values(values, spreads, n)?;
    test_leasts(least, p)
}
