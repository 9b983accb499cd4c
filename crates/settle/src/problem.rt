// The two problems, where LSEI reads them: of the day as it is, and with the limits that are held as equalities.
ghost use Rattle.std.specs.Prelude.{ℕ, ◌+◌, ◌<◌, ◌≤◌, length};
ghost use Rattle.numbers.specs.Numbers.{at};
ghost use Rattle.workspace.specs.Readings.{Block};
ghost use Rattle.lsei.specs.inner.Work.{Spaced};
ghost use Rattle.lsei_nullspace.specs.inner.Places.{LSEI_F, LSEI_G, LSEI_ROOM};
ghost use Rattle.settle.specs.Settle.{target};
ghost use Rattle.settle.specs.Lent.{measured_in};
ghost use Rattle.settle.specs.inner.Work.{Held, FirstIn, HeldIn, PinnedIn};

use crate::day::MeasuredDay;

// f: each value over its spread.
fn write_targets(day: &MeasuredDay, w: &mut [f64])
    requires { LSEI_ROOM ≤ length w.old }
    ensures { Block LSEI_F day.now.n (target day.now.values.now day.now.spreads.now) w.old w.new }
{
    for i in 0..day.n {
        w[lsei_nullspace::LSEI_F + i] = day.values[i] / day.spreads[i];
    }
}

// The sides of the limits, each behind its row.
fn load_sides(day: &MeasuredDay, w: &mut [f64])
    requires { LSEI_ROOM ≤ length w.old }
    ensures { Spaced (LSEI_G + day.now.n) day.now.p (λ k. at day.now.least.now k) w.old w.new }
{
    for k in 0..day.p {
        w[lsei_nullspace::LSEI_G + day.n + k * 18] = day.least[k];
    }
}

// The day as it is.
pub fn write_first(day: &MeasuredDay, w: &mut [f64])
    requires { LSEI_ROOM ≤ length w.old }
    ensures { FirstIn (measured_in day.now) w.new }
{
    workspace::load_stack(day.balances, w, lsei_nullspace::LSEI_C, day.m, day.n);
    workspace::blank(w, lsei_nullspace::LSEI_X, day.m);
    reconcile::write_scales(day.spreads, w, day.n);
    write_targets(day, w);
    workspace::load_stack(day.limits, w, lsei_nullspace::LSEI_G, day.p, day.n);
    load_sides(day, w);
}

// The c limits that are held, as equalities behind the balances, and their sides.
fn write_held(day: &MeasuredDay, w: &mut [f64], iw: &[u32], c: usize)
    requires { (day.now.m + c ≤ 16) × Held day.now.p c iw.now × (LSEI_ROOM ≤ length w.old) }
    ensures { HeldIn (measured_in day.now) c iw.now w.old w.new }
{
    for t in 0..c {
        let k = iw[crate::SETTLE_HELD + t] as usize;
        workspace::copy_strided(
            day.limits,
            w,
            k * day.n,
            1,
            lsei_nullspace::LSEI_C + (day.m + t) * 18,
            day.n,
        );
        w[lsei_nullspace::LSEI_X + (day.m + t)] = day.least[k];
    }
}

// The day with these as equalities, and no inequality.
pub fn write_pinned(day: &MeasuredDay, w: &mut [f64], iw: &[u32], c: usize)
    requires { (day.now.m + c ≤ 16) × Held day.now.p c iw.now × (LSEI_ROOM ≤ length w.old) }
    ensures { PinnedIn (measured_in day.now) c iw.now w.old w.new }
{
    workspace::load_stack(day.balances, w, lsei_nullspace::LSEI_C, day.m, day.n);
    workspace::blank(w, lsei_nullspace::LSEI_X, day.m);
    write_held(day, w, iw, c);
    reconcile::write_scales(day.spreads, w, day.n);
    write_targets(day, w);
}
