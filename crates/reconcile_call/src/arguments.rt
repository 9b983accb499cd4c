// The tests before the arithmetic.
ghost use Rattle.std.specs.Prelude.{◌≡◌, ◌&&◌, ◌*◌, ◌≤◌, eqb, length};
ghost use Rattle.workspace.specs.Tables.{done, test, outcome_of, is_equalities};
ghost use Rattle.workspace.specs.declared.Refusal.TheVariants.{Reading, Spread};
ghost use Rattle.reconcile_call.specs.Promise.{is_meters, is_reading, is_spread};
ghost use Rattle.reconcile_call.specs.inner.Work.{tested_outcome};

use workspace::Refusal;

// The sizes.
pub fn are_sizes(n: usize, m: usize) -> bool
    ensures { result ≡ (is_meters n && is_equalities m) }
{
    n <= 16 && m <= 16
}

// The lengths of readings, spreads, balances, volumes and marks.
pub fn are_lengths(
    n: usize,
    m: usize,
    before: usize,
    after: usize,
    spreads: usize,
    balances: usize,
    volumes: usize,
    marks: usize,
) -> bool
    requires { (n ≤ 16) × (m ≤ 16) }
    ensures { result ≡ (eqb before n && eqb after n && eqb spreads n && eqb balances (m * n) && eqb volumes n && eqb marks n) }
{
    if before != n {
        return false;
    }
    if after != n {
        return false;
    }
    if spreads != n {
        return false;
    }
    if balances != m * n {
        return false;
    }
    if volumes != n {
        return false;
    }
    marks == n
}

// Both readings of a meter.
fn are_readings(old: u32, new: u32) -> bool
    ensures { result ≡ (is_reading old && is_reading new) }
{
    old <= totaliser::LARGEST && new <= totaliser::LARGEST
}

// A spread that is finite and positive.
pub fn is_spread(s: f64) -> bool
    ensures { result ≡ is_spread s }
{
    0.0 < s && s < 1.0 / 0.0
}

// One meter: a wrong reading is told before a wrong spread.
fn test_meter(old: u32, new: u32, spread: f64, i: u32) -> Result<(), Refusal>
    ensures { result ≡ outcome_of {A = Unit} (test (is_reading old && is_reading new) (Reading i) (test (is_spread spread) (Spread i) (done tt))) }
{
    let read = are_readings(old, new);
    let spreads = is_spread(spread);
    if !read {
        return Err(Refusal::Reading(i));
    }
    if !spreads {
        return Err(Refusal::Spread(i));
    }
    Ok(())
}

// All meters, the lowest first.
pub fn test_meters(before: &[u32], after: &[u32], spreads: &[f64], n: usize) -> Result<(), Refusal>
    requires { (n ≤ 16) × (length before.now ≡ n) × (length after.now ≡ n) × (length spreads.now ≡ n) }
    ensures { result ≡ tested_outcome before.now after.now spreads.now n 0 }
{
    for i in 0..n {
        test_meter(before[i], after[i], spreads[i], i as u32)?;
    }
    Ok(())
}
