// The exports of gritstrut's module `volumes`.
ghost use Rattle.settle.specs.Settle.{measured};
ghost use Rattle.settle_call.specs.Promise.{settle_call, certify_call};
ghost use Rattle.gritstrut.specs.Settling.{SettleLeaves, CertifyLeaves};

// A day's volumes, and how far they can be from the best.
#[unsafe(no_mangle)]
pub extern "C" fn gritstrut_settle(
    n: usize,
    m: usize,
    p: usize,
    values: &[f64],
    spreads: &[f64],
    balances: &[f64],
    limits: &[f64],
    least: &[f64],
    tolerance: f64,
    settled: &mut [f64],
    multipliers: &mut [f64],
    bound: &mut f64,
    place: &mut u32,
    w: &mut [f64],
    iw: &mut [u32],
) -> u32
    ensures { SettleLeaves (settle_call (measured n m p values.now spreads.now balances.now limits.now least.now) tolerance settled.old multipliers.old w.old iw.old) result bound.old bound.new place.old place.new settled.old settled.new multipliers.old multipliers.new w.old w.new iw.old iw.new }
{
    gritstrut::gritstrut_settle(
        n,
        m,
        p,
        values,
        spreads,
        balances,
        limits,
        least,
        tolerance,
        settled,
        multipliers,
        bound,
        place,
        w,
        iw,
    )
}

// The bound of volumes and multipliers from anywhere.
#[unsafe(no_mangle)]
pub extern "C" fn gritstrut_certify(
    n: usize,
    m: usize,
    p: usize,
    values: &[f64],
    spreads: &[f64],
    balances: &[f64],
    limits: &[f64],
    least: &[f64],
    settled: &[f64],
    multipliers: &[f64],
    bound: &mut f64,
    place: &mut u32,
    w: &mut [f64],
    iw: &mut [u32],
) -> u32
    ensures { CertifyLeaves (certify_call (measured n m p values.now spreads.now balances.now limits.now least.now) settled.now multipliers.now w.old iw.old) result bound.old bound.new place.old place.new w.old w.new iw.old iw.new }
{
    gritstrut::gritstrut_certify(
        n,
        m,
        p,
        values,
        spreads,
        balances,
        limits,
        least,
        settled,
        multipliers,
        bound,
        place,
        w,
        iw,
    )
}
