// The tests before the arithmetic.
ghost use Rattle.std.specs.Prelude.{◌≡◌, ◌&&◌, ◌*◌, ◌≤◌, eqb, length};
ghost use Rattle.workspace.specs.Tables.{done, test, outcome_of};
ghost use Rattle.workspace.specs.declared.Refusal.TheVariants.{Reading, Spread};
ghost use Rattle.reconcile_call.specs.Promise.{is_spread};
ghost use Rattle.suspect.specs.Suspect.{is_finite};
ghost use Rattle.suspect_call.specs.inner.Work.{tested_outcome};

use workspace::Refusal;

// The lengths of values, spreads, balances and marks of the still.
pub fn are_inputs(
    n: usize,
    m: usize,
    values: usize,
    spreads: usize,
    balances: usize,
    still: usize,
) -> bool
    requires { (n ≤ 16) × (m ≤ 16) }
    ensures { result ≡ (eqb values n && eqb spreads n && eqb balances (m * n) && eqb still n) }
{
    if values != n {
        return false;
    }
    if spreads != n {
        return false;
    }
    if balances != m * n {
        return false;
    }
    still == n
}

// The lengths of numbers, groups and marks.
pub fn are_outputs(n: usize, numbers: usize, groups: usize, marks: usize) -> bool
    requires { n ≤ 16 }
    ensures { result ≡ (eqb numbers (3 * n) && eqb groups n && eqb marks n) }
{
    if numbers != 3 * n {
        return false;
    }
    if groups != n {
        return false;
    }
    marks == n
}

// One meter: a wrong value is told before a wrong spread.
fn test_meter(value: f64, spread: f64, i: u32) -> Result<(), Refusal>
    ensures { result ≡ outcome_of {A = Unit} (test (is_finite value) (Reading i) (test (is_spread spread) (Spread i) (done tt))) }
{
    let read = suspect::is_finite(value);
    let spreads = reconcile_call::is_spread(spread);
    if !read {
        return Err(Refusal::Reading(i));
    }
    if !spreads {
        return Err(Refusal::Spread(i));
    }
    Ok(())
}

// All meters, the lowest first.
pub fn test_all(values: &[f64], spreads: &[f64], n: usize) -> Result<(), Refusal>
    requires { (n ≤ 16) × (length values.now ≡ n) × (length spreads.now ≡ n) }
    ensures { result ≡ tested_outcome values.now spreads.now n 0 }
{
    for i in 0..n {
        test_meter(values[i], spreads[i], i as u32)?;
    }
    Ok(())
}
