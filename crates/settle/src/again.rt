// The second working: the limits whose witness is above zero as equalities, and one let go where it depends on the others.
ghost use Rattle.std.specs.Prelude.{◌≡◌, ℕ, ◌+◌, ◌*◌, ◌<◌, ◌≤◌, length};
ghost use Rattle.numbers.specs.Numbers.{at};
ghost use Rattle.workspace.specs.Readings.{vec, nums, Block};
ghost use Rattle.settle.specs.Settle as Definition;
ghost use Rattle.settle.specs.Lent.{measured_in};
ghost use Rattle.lsei_nullspace.specs.inner.Places.{LSEI_X, LSEI_EQUALITY_MULTIPLIERS};
ghost use Rattle.settle.specs.inner.Places.{SETTLE_Z, SETTLE_AGAIN_X, SETTLE_AGAIN_Z, SETTLE_HELD, SETTLE_ROOM, SETTLE_WORDS};
ghost use Rattle.settle.specs.inner.Work.{Held, HeldFound, LetGo, AgainStored, step_of, Tried, TriedAll, WorkedAgain};

use crate::Step;
use crate::day::MeasuredDay;
use crate::problem::write_pinned;

// ---- the limits that are held

// The limits whose witness is above zero: how many, and which.
fn find_held(w: &[f64], iw: &mut [u32], p: usize) -> usize
    requires { (p ≤ 48) × (SETTLE_ROOM ≤ length w.now) × (SETTLE_WORDS ≤ length iw.old) }
    ensures { HeldFound p result (vec SETTLE_Z p w.now) iw.new }
{
    let mut c = 0;
    for k in 0..p {
        if 0.0 < w[crate::SETTLE_Z + k] {
            iw[crate::SETTLE_HELD + c] = k as u32;
            c += 1;
        }
    }
    c
}

// Entry t of those held goes, and c are left.
fn let_go(iw: &mut [u32], c: usize, t: usize)
    requires { (c < 48) × (SETTLE_WORDS ≤ length iw.old) }
    ensures { LetGo c t iw.old iw.new }
{
    for i in t..c {
        iw[crate::SETTLE_HELD + i] = iw[crate::SETTLE_HELD + i + 1];
    }
}

// ---- the answer, where it is stored

// Whether limit k is the floor of value i alone: 1 there, and else 0.
fn is_own(limits: &[f64], n: usize, k: usize, i: usize) -> bool
    requires { (k * n + n ≤ length limits.now) × (n ≤ 16) }
    ensures { result ≡ Definition.is_own n limits.now k i }
{
    for j in 0..n {
        let wanted = if j == i { 1.0 } else { 0.0 };
        if !(limits[k * n + j] == wanted) {
            return false;
        }
    }
    true
}

// Value i, or its own floor where that is held.
fn own(day: &MeasuredDay, iw: &[u32], c: usize, i: usize, v: f64) -> f64
    requires { Held day.now.p c iw.now }
    ensures { result ≡ Definition.owned day.now.n day.now.limits.now day.now.least.now c (nums SETTLE_HELD c iw.now) i v }
{
    let mut settled = v;
    for t in 0..c {
        let k = iw[crate::SETTLE_HELD + t] as usize;
        if is_own(day.limits, day.n, k, i) {
            settled = day.least[k];
        }
    }
    settled
}

fn not_below(v: f64) -> f64
    ensures { result ≡ Definition.not_below v }
{
    if v < 0.0 {
        return 0.0;
    }
    v
}

// The witness of limit k.
fn witness(w: &[f64], iw: &[u32], m: usize, c: usize, k: usize) -> f64
    requires { (m + c ≤ 16) × (SETTLE_ROOM ≤ length w.now) × (SETTLE_WORDS ≤ length iw.now) }
    ensures { result ≡ Definition.witness m c (nums SETTLE_HELD c iw.now) (vec LSEI_EQUALITY_MULTIPLIERS (m + c) w.now) k }
{
    let mut z = 0.0;
    for t in 0..c {
        if iw[crate::SETTLE_HELD + t] as usize == k {
            z = not_below(w[lsei_nullspace::LSEI_EQUALITY_MULTIPLIERS + (m + t)]);
        }
    }
    z
}

fn store_x(day: &MeasuredDay, w: &mut [f64], iw: &[u32], c: usize)
    requires { Held day.now.p c iw.now × (SETTLE_ROOM ≤ length w.old) }
    ensures { Block SETTLE_AGAIN_X day.now.n (λ i. Definition.owned day.now.n day.now.limits.now day.now.least.now c (nums SETTLE_HELD c iw.now) i (at w.old (LSEI_X + i))) w.old w.new }
{
    for i in 0..day.n {
        let v = own(day, iw, c, i, w[lsei_nullspace::LSEI_X + i]);
        w[crate::SETTLE_AGAIN_X + i] = v;
    }
}

fn store_z(w: &mut [f64], iw: &[u32], m: usize, p: usize, c: usize)
    requires { (m + c ≤ 16) × (p ≤ 48) × (SETTLE_ROOM ≤ length w.old) × (SETTLE_WORDS ≤ length iw.now) }
    ensures { Block SETTLE_AGAIN_Z p (λ k. Definition.witness m c (nums SETTLE_HELD c iw.now) (vec LSEI_EQUALITY_MULTIPLIERS (m + c) w.old) k) w.old w.new }
{
    for k in 0..p {
        let v = witness(w, iw, m, c, k);
        w[crate::SETTLE_AGAIN_Z + k] = v;
    }
}

fn store_again(day: &MeasuredDay, w: &mut [f64], iw: &[u32], c: usize)
    requires { (day.now.m + c ≤ 16) × Held day.now.p c iw.now × (SETTLE_ROOM ≤ length w.old) }
    ensures { AgainStored (measured_in day.now) c iw.now w.old w.new }
{
    store_x(day, w, iw, c);
    workspace::copy_up(
        w,
        lsei_nullspace::LSEI_EQUALITY_MULTIPLIERS,
        crate::SETTLE_AGAIN_Y,
        day.m,
    );
    store_z(w, iw, day.m, day.p, c);
}

// ---- the tries

// Only a limit that depends on others is let go.
fn step_of(ending: Result<(), lsei::Unsolved>, m: usize) -> Step
    ensures { result ≡ step_of m ending }
{
    match ending {
        Ok(()) => Step::Found,
        Err(lsei::Unsolved::Dependent(place)) => {
            let k = place as usize;
            if m <= k {
                return Step::Let(k - m);
            }
            Step::Stop
        }
        Err(lsei::Unsolved::Deficient(_)) => Step::Stop,
        Err(lsei::Unsolved::Infeasible) => Step::Stop,
        Err(lsei::Unsolved::Capped) => Step::Stop,
    }
}

// One try, with the c limits that are held.
fn try_once(day: &MeasuredDay, w: &mut [f64], iw: &mut [u32], c: usize) -> Step
    requires { (day.now.m + c ≤ 16) × Held day.now.p c iw.old × (SETTLE_ROOM ≤ length w.old) }
    ensures { Tried (measured_in day.now) c result iw.old iw.new w.old w.new }
{
    write_pinned(day, w, iw, c);
    let e = lsei_nullspace::solve_lsei(
        &mut w[..crate::SETTLE_X],
        &mut iw[..crate::SETTLE_HELD],
        day.n,
        day.m + c,
        day.n,
        0,
    );
    let ending = e.ending;
    let s = step_of(ending, day.m);
    let Step::Found = s else {
        return s;
    };
    store_again(day, w, iw, c);
    s
}

// Tries with ever fewer limits held, until one comes to an answer or to none.
fn try_all(day: &MeasuredDay, w: &mut [f64], iw: &mut [u32], held: usize) -> bool
    requires { (day.now.m + held ≤ 16) × Held day.now.p held iw.old × (SETTLE_ROOM ≤ length w.old) }
    ensures { TriedAll (measured_in day.now) held (nums SETTLE_HELD held iw.old) result w.old w.new }
{
    for gone in 0..held + 1 {
        let c = held - gone;
        match try_once(day, w, iw, c) {
            Step::Found => {
                return true;
            }
            Step::Stop => {
                return false;
            }
            Step::Let(t) => {
                if 0 < c {
                    let_go(iw, c - 1, t);
                }
            }
        }
    }
    false
}

// Whether there is a second answer, which is stored.
pub fn work_again(day: &MeasuredDay, w: &mut [f64], iw: &mut [u32]) -> bool
    requires { (SETTLE_ROOM ≤ length w.old) × (SETTLE_WORDS ≤ length iw.old) }
    ensures { WorkedAgain (measured_in day.now) (vec SETTLE_Z day.now.p w.old) result w.old w.new }
{
    let c = find_held(w, iw, day.p);
    if day.m + c > 16 {
        return false;
    }
    try_all(day, w, iw, c)
}
