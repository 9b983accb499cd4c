// The problem into the machine's slices, and its first question.
ghost use Rattle.std.specs.Prelude.{◌≡◌, List, ℕ, suc, ◌+◌, ◌≤◌, length, replicate, Float};
ghost use Rattle.std.specs.Float.{nan};
ghost use Rattle.search.specs.Places.{SCHEME_CENTRAL, SEARCH_KINDS, SEARCH_MACHINE, SEARCH_VALUES, SEARCH_WORDS};
ghost use Rattle.search.specs.Layout.{setup_floats, setup_words, laid};
ghost use Rattle.search.specs.Promise.{setup_of};
ghost use Rattle.search_call.specs.inner.Work.{clipped_in, unknown_floats, Begins, Unknown, Asks, Started};

use search::{
    PHASE_EXHAUSTED, PHASE_NONFINITE, PHASE_START, SEARCH_ASKED, SEARCH_CONSTRAINTS, SEARCH_KINDS,
    SEARCH_LEFT, SEARCH_LOWER, SEARCH_MACHINE, SEARCH_NEW_X, SEARCH_POINT, SEARCH_SCHEME,
    SEARCH_TOLERANCE, SEARCH_UPPER, SEARCH_VALUES, SEARCH_VARIABLES, SEARCH_WORDS, SEARCH_X,
};
use workspace::Refusal;

// A kind as a word.
fn word_of(kind: u8) -> u32
    ensures { result ≡ kind }
{
    kind as u32
}

// The tolerance and the bounds, in a slice that is otherwise zero.
fn pose_floats(f: &mut [f64], lower: &[f64], upper: &[f64], ftol: f64, n: usize)
    requires { (length f.old ≡ SEARCH_MACHINE) × (length lower.now ≡ n) × (length upper.now ≡ n) × (n ≤ 16) }
    ensures { (m scheme : ℕ) (kinds : List ℕ) → f.new ≡ setup_floats (setup_of n m kinds lower.now upper.now ftol scheme) }
{
    workspace::wipe(f, SEARCH_MACHINE);
    workspace::load(upper, f, SEARCH_UPPER, n);
    workspace::load(lower, f, SEARCH_LOWER, n);
    f[SEARCH_TOLERANCE] = ftol;
}

// The kinds, to where they stand among the words.
fn kinds_into(u: &mut [u32], kinds: &[u8], m: usize)
    requires { (length u.old ≡ SEARCH_WORDS) × (length kinds.now ≡ m) × (m ≤ 16) }
    ensures { u.new ≡ laid SEARCH_KINDS kinds.now u.old }
{
    for j in 0..m {
        u[SEARCH_KINDS + j] = word_of(kinds[j]);
    }
}

// The sizes, the scheme and the kinds, in words that are otherwise zero.
fn pose_words(u: &mut [u32], kinds: &[u8], n: usize, m: usize, scheme: u32)
    requires { (length u.old ≡ SEARCH_WORDS) × (length kinds.now ≡ m) × (n ≤ 16) × (m ≤ 16) × (scheme ≤ SCHEME_CENTRAL) }
    ensures { (lower upper : List Float) (ftol : Float) → u.new ≡ setup_words (setup_of n m kinds.now lower upper ftol scheme) }
{
    workspace::wipe_words(u, SEARCH_WORDS);
    kinds_into(u, kinds, m);
    u[SEARCH_VARIABLES] = n as u32;
    u[SEARCH_CONSTRAINTS] = m as u32;
    u[SEARCH_SCHEME] = scheme;
}

// The start, clipped into the bounds, from o on.
fn clip_into(f: &mut [f64], lower: &[f64], upper: &[f64], x: &[f64], o: usize, n: usize)
    requires { (length f.old ≡ SEARCH_MACHINE) × (length lower.now ≡ n) × (length upper.now ≡ n) × (length x.now ≡ n) × (o + 16 ≤ SEARCH_MACHINE) × (n ≤ 16) }
    ensures { f.new ≡ laid o (clipped_in n lower.now upper.now x.now) f.old }
{
    for i in 0..n {
        f[o + i] = search_turn::clip_to(lower[i], upper[i], x[i]);
    }
}

// Values that are not known.
fn forget_values(f: &mut [f64], m: usize)
    requires { (length f.old ≡ SEARCH_MACHINE) × (m ≤ 16) }
    ensures { f.new ≡ laid SEARCH_VALUES (replicate (suc m) nan) f.old }
{
    for j in 0..m + 1 {
        f[SEARCH_VALUES + j] = 0.0 / 0.0;
    }
}

// The clipped start is reported, with values that are not known.
fn report_unknown(f: &mut [f64], lower: &[f64], upper: &[f64], x: &[f64], n: usize, m: usize)
    requires { (length f.old ≡ SEARCH_MACHINE) × (length lower.now ≡ n) × (length upper.now ≡ n) × (length x.now ≡ n) × (n ≤ 16) × (m ≤ 16) }
    ensures { f.new ≡ unknown_floats m (clipped_in n lower.now upper.now x.now) f.old }
{
    forget_values(f, m);
    clip_into(f, lower, upper, x, SEARCH_X, n);
}

// The run is over before a value was told.
fn end_unknown(
    f: &mut [f64],
    u: &mut [u32],
    lower: &[f64],
    upper: &[f64],
    x: &[f64],
    n: usize,
    m: usize,
    ending: u32,
)
    requires { (length f.old ≡ SEARCH_MACHINE) × (length u.old ≡ SEARCH_WORDS) × (length lower.now ≡ n) × (length upper.now ≡ n) × (length x.now ≡ n) × (n ≤ 16) × (m ≤ 16) }
    ensures { Unknown ending n m (clipped_in n lower.now upper.now x.now) f.old f.new u.old u.new }
{
    report_unknown(f, lower, upper, x, n, m);
    u[SEARCH_ASKED] = ending;
}

// The values at the clipped start are asked for.
fn ask_first(
    f: &mut [f64],
    u: &mut [u32],
    lower: &[f64],
    upper: &[f64],
    x: &[f64],
    n: usize,
    m: usize,
    budget: u32,
)
    requires { (length f.old ≡ SEARCH_MACHINE) × (length u.old ≡ SEARCH_WORDS) × (length lower.now ≡ n) × (length upper.now ≡ n) × (length x.now ≡ n) × (n ≤ 16) × (m ≤ 16) }
    ensures { Asks budget m (clipped_in n lower.now upper.now x.now) f.old f.new u.old u.new }
{
    report_unknown(f, lower, upper, x, n, m);
    clip_into(f, lower, upper, x, SEARCH_NEW_X, n);
    workspace::copy_up(f, SEARCH_NEW_X, SEARCH_POINT, n);
    u[SEARCH_ASKED] = PHASE_START;
    u[SEARCH_LEFT] = budget;
}

// The machine begins: the start is looked at as it was given, and then clipped.
pub fn begin_posed(
    n: usize,
    m: usize,
    kinds: &[u8],
    lower: &[f64],
    upper: &[f64],
    x: &[f64],
    ftol: f64,
    budget: u32,
    scheme: u32,
    f: &mut [f64],
    u: &mut [u32],
) -> Result<(), Refusal>
    requires { Begins (setup_of n m kinds.now lower.now upper.now ftol scheme) x.now f.old u.old × (scheme ≤ SCHEME_CENTRAL) }
    ensures { Started (setup_of n m kinds.now lower.now upper.now ftol scheme) x.now budget result f.new u.new }
{
    pose_floats(f, lower, upper, ftol, n);
    pose_words(u, kinds, n, m, scheme);
    if !search_turn::are_finite(x) {
        end_unknown(f, u, lower, upper, x, n, m, PHASE_NONFINITE);
        return Err(Refusal::Nonfinite);
    }
    if budget == 0 {
        end_unknown(f, u, lower, upper, x, n, m, PHASE_EXHAUSTED);
        return Ok(());
    }
    ask_first(f, u, lower, upper, x, n, m, budget - 1);
    Ok(())
}
