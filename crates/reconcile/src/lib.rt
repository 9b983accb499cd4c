// The day's reconciliation: the meters' volumes as a problem for LSEI, and the marks of its answer.
#![tactic(auto)]

ghost use Rattle.std.specs.Prelude.{◌≡◌, ◌+◌, ◌*◌, ◌≤◌, length};
ghost use Rattle.workspace.specs.Readings.{Block};
ghost use Rattle.lsei.specs.inner.Work.{ended_solution};
ghost use Rattle.lsei_nullspace.specs.inner.Places.{LSEI_F, LSEI_ROOM, LSEI_WORDS};
ghost use Rattle.lsei_nullspace.specs.inner.Work.{solution_in};
ghost use Rattle.reconcile.specs.Day.{day_of, target, corrected, mark, named};
ghost use Rattle.reconcile.specs.inner.Work.{Readable, Scaled, Floored, DayIn};

// ---- the problem, where LSEI reads it

// The rows of E: 1 / spread on the diagonal.
pub fn write_scales(spreads: &[f64], w: &mut [f64], n: usize)
    requires { (n ≤ 16) × (length spreads.now ≡ n) × (LSEI_ROOM ≤ length w.old) }
    ensures { Scaled n spreads.now w.old w.new }
{
    for i in 0..n {
        step_rows::write_unit(w, lsei_nullspace::LSEI_E + i * 18, n, i, 1.0 / spreads[i]);
    }
}

// f: each volume over its spread.
fn write_targets(before: &[u32], after: &[u32], spreads: &[f64], w: &mut [f64], n: usize)
    requires { Readable n before.now after.now spreads.now × (LSEI_ROOM ≤ length w.old) }
    ensures { Block LSEI_F n (target before.now after.now spreads.now) w.old w.new }
{
    for i in 0..n {
        let v = totaliser::volume_between(before[i], after[i]) as f64;
        w[lsei_nullspace::LSEI_F + i] = v / spreads[i];
    }
}

// The rows of G: each volume is at least zero.
fn write_floors(w: &mut [f64], n: usize)
    requires { (n ≤ 16) × (LSEI_ROOM ≤ length w.old) }
    ensures { Floored n w.old w.new }
{
    for i in 0..n {
        step_rows::write_unit(w, lsei_nullspace::LSEI_G + i * 18, n + 1, i, 1.0);
    }
}

// All of it.
fn write_day(
    before: &[u32],
    after: &[u32],
    spreads: &[f64],
    balances: &[f64],
    w: &mut [f64],
    n: usize,
    m: usize,
)
    requires { Readable n before.now after.now spreads.now × (m ≤ 16) × (length balances.now ≡ m * n) × (LSEI_ROOM ≤ length w.old) }
    ensures { DayIn n m before.now after.now spreads.now balances.now w.new }
{
    workspace::load_stack(balances, w, lsei_nullspace::LSEI_C, m, n);
    workspace::blank(w, lsei_nullspace::LSEI_X, m);
    write_scales(spreads, w, n);
    write_targets(before, after, spreads, w, n);
    write_floors(w, n);
}

// ---- the whole

// The corrected volumes of n meters under m balances, as LSEI leaves them.
pub fn solve_day(
    before: &[u32],
    after: &[u32],
    spreads: &[f64],
    balances: &[f64],
    w: &mut [f64],
    iw: &mut [u32],
    n: usize,
    m: usize,
) -> lsei::Ended
    requires { Readable n before.now after.now spreads.now × (m ≤ 16) × (length balances.now ≡ m * n) × (LSEI_ROOM ≤ length w.old) × (LSEI_WORDS ≤ length iw.old) }
    ensures { ended_solution result (solution_in n m n w.new) ≡ corrected (day_of n m before.now after.now spreads.now balances.now) }
{
    write_day(before, after, spreads, balances, w, n, m);
    lsei_nullspace::solve_lsei(w, iw, n, m, n, n)
}

// ---- names

// 1 for a volume below zero or NaN, else 0.
fn mark_of(v: f64) -> u8
    ensures { result ≡ mark v }
{
    if v < 0.0 {
        return 1;
    }
    if v != v {
        return 1;
    }
    0
}

// The marks of n volumes.
pub fn mark_all(volumes: &[f64], marks: &mut [u8], n: usize)
    requires { (length volumes.now ≡ n) × (length marks.old ≡ n) }
    ensures { marks.new ≡ named n volumes.now }
{
    for i in 0..n {
        marks[i] = mark_of(volumes[i]);
    }
}
