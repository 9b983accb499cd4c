// The C functions that settle and certify a day's volumes.
ghost use Rattle.std.specs.Prelude.{◌≡◌};
ghost use Rattle.settle.specs.Settle.{measured};
ghost use Rattle.settle_call.specs.Promise.{settle_call, certify_call};
ghost use Rattle.gritstrut.specs.Settling.{BoundTold, SettleLeaves, CertifyLeaves};

use settle_call::Volumes;

// The bound, where there is no refusal; else the place that comes with it.
fn tell_bound(b: Result<f64, workspace::Refusal>, bound: &mut f64, place: &mut u32) -> u32
    ensures { BoundTold b result bound.old bound.new place.old place.new }
{
    match b {
        Ok(far) => {
            *bound = far;
            0
        }
        Err(why) => crate::number_with_place(Err(why), place),
    }
}

// A day's volumes, and how far they can be from the best.
pub fn gritstrut_settle(
    n: usize,
    m: usize,
    p: usize,
    values: &[f64],
    spreads: &[f64],
    balances: &[f64],
    limits: &[f64],
    least: &[f64],
    tolerance: f64,
    settled: &mut [f64],
    multipliers: &mut [f64],
    bound: &mut f64,
    place: &mut u32,
    w: &mut [f64],
    iw: &mut [u32],
) -> u32
    ensures { SettleLeaves (settle_call (measured n m p values.now spreads.now balances.now limits.now least.now) tolerance settled.old multipliers.old w.old iw.old) result bound.old bound.new place.old place.new settled.old settled.new multipliers.old multipliers.new w.old w.new iw.old iw.new }
{
    let answer = Volumes::settle(
        n,
        m,
        p,
        values,
        spreads,
        balances,
        limits,
        least,
        tolerance,
        settled,
        multipliers,
        w,
        iw,
    );
    tell_bound(answer, bound, place)
}

// The bound of volumes and multipliers from anywhere.
pub fn gritstrut_certify(
    n: usize,
    m: usize,
    p: usize,
    values: &[f64],
    spreads: &[f64],
    balances: &[f64],
    limits: &[f64],
    least: &[f64],
    settled: &[f64],
    multipliers: &[f64],
    bound: &mut f64,
    place: &mut u32,
    w: &mut [f64],
    iw: &mut [u32],
) -> u32
    ensures { CertifyLeaves (certify_call (measured n m p values.now spreads.now balances.now limits.now least.now) settled.now multipliers.now w.old iw.old) result bound.old bound.new place.old place.new w.old w.new iw.old iw.new }
{
    let answer = Volumes::certify(
        n,
        m,
        p,
        values,
        spreads,
        balances,
        limits,
        least,
        settled,
        multipliers,
        w,
        iw,
    );
    tell_bound(answer, bound, place)
}
