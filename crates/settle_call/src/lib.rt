// The public settling of a day's volumes and the certifying of volumes from anywhere: tests, the kernel in the lent
// workspaces, and the answer out.
#![tactic(auto)]

mod arguments;

ghost use Rattle.std.specs.Prelude.{◌≡◌, ◌+◌, ◌*◌, ◌≤◌, length, take, drop};
ghost use Rattle.workspace.specs.Tables.{done};
ghost use Rattle.settle.specs.Settle.{measured, settled};
ghost use Rattle.settle.specs.Lent.{measured_in};
ghost use Rattle.settle.specs.inner.Places.{SETTLE_ROOM};
ghost use Rattle.settle.specs.inner.Work.{settled_by, settled_in};
ghost use Rattle.settle_call.specs.Promise.{settle_call, Settles, certify_call, Certifies};
ghost use Rattle.settle_call.specs.inner.Work.{SettledGiven};

use crate::arguments::test_call;
use settle::MeasuredDay;
use workspace::Refusal;

// Where there is a bound, the volumes and the multipliers that the kernel left.
fn give(
    day: &MeasuredDay,
    settled: Result<f64, lsei::Unsolved>,
    w: &[f64],
    volumes: &mut [f64],
    multipliers: &mut [f64],
) -> Result<f64, Refusal>
    requires { (SETTLE_ROOM ≤ length w.now) × (length volumes.old ≡ day.now.n) × (length multipliers.old ≡ day.now.m + day.now.p) }
    ensures { SettledGiven (settled_by settled (settled_in day.now.n day.now.m day.now.p w.now)) result volumes.old volumes.new multipliers.old multipliers.new }
{
    let far = settled?;
    workspace::unload(w, volumes, settle::SETTLE_X, day.n);
    workspace::copy_strided(w, multipliers, settle::SETTLE_Y, 1, 0, day.m);
    workspace::copy_strided(w, multipliers, settle::SETTLE_Z, 1, day.m, day.p);
    Ok(far)
}

// The call where no test refuses.
pub fn settle_all(
    day: &MeasuredDay,
    tolerance: f64,
    volumes: &mut [f64],
    multipliers: &mut [f64],
    w: &mut [f64],
    iw: &mut [u32],
) -> Result<f64, Refusal>
    requires { (length volumes.old ≡ day.now.n) × (length multipliers.old ≡ day.now.m + day.now.p) × (8192 ≤ length w.old) × (512 ≤ length iw.old) }
    ensures { Settles (settled (measured_in day.now) tolerance) result volumes.old volumes.new multipliers.old multipliers.new w.old w.new iw.old iw.new }
{
    let s = settle::settle(day, &mut w[..8192], &mut iw[..512], tolerance);
    let r = give(day, s, w, volumes, multipliers);
    workspace::clear(w, iw);
    r
}

// A day's volumes.
#[derive(Clone, Copy)]
pub struct Volumes {}

impl Volumes {
    // The volumes of n values under m balances and p limits, their multipliers, and how far they can be from the best.
    pub fn settle(
        n: usize,
        m: usize,
        p: usize,
        values: &[f64],
        spreads: &[f64],
        balances: &[f64],
        limits: &[f64],
        least: &[f64],
        tolerance: f64,
        volumes: &mut [f64],
        multipliers: &mut [f64],
        w: &mut [f64],
        iw: &mut [u32],
    ) -> Result<f64, Refusal>
        ensures { Settles (settle_call (measured n m p values.now spreads.now balances.now limits.now least.now) tolerance volumes.old multipliers.old w.old iw.old) result volumes.old volumes.new multipliers.old multipliers.new w.old w.new iw.old iw.new }
    {
        test_call(
            values,
            spreads,
            balances,
            limits,
            least,
            n,
            m,
            p,
            volumes.len(),
            multipliers.len(),
            w.len(),
            iw.len(),
            tolerance,
        )?;
        let day = MeasuredDay {
            n,
            m,
            p,
            values,
            spreads,
            balances,
            limits,
            least,
        };
        settle_all(&day, tolerance, volumes, multipliers, w, iw)
    }

    // The bound of volumes and multipliers from anywhere.
    pub fn certify(
        n: usize,
        m: usize,
        p: usize,
        values: &[f64],
        spreads: &[f64],
        balances: &[f64],
        limits: &[f64],
        least: &[f64],
        volumes: &[f64],
        multipliers: &[f64],
        w: &mut [f64],
        iw: &mut [u32],
    ) -> Result<f64, Refusal>
        ensures { Certifies (certify_call (measured n m p values.now spreads.now balances.now limits.now least.now) volumes.now multipliers.now w.old iw.old) result w.old w.new iw.old iw.new }
    {
        test_call(
            values,
            spreads,
            balances,
            limits,
            least,
            n,
            m,
            p,
            volumes.len(),
            multipliers.len(),
            w.len(),
            iw.len(),
            0.0,
        )?;
        let day = MeasuredDay {
            n,
            m,
            p,
            values,
            spreads,
            balances,
            limits,
            least,
        };
        let y = &multipliers[..m];
        let z = &multipliers[m..];
        let far = day.bound(volumes, y, z);
        workspace::clear(w, iw);
        Ok(far)
    }
}
