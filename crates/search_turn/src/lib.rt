// The search around the step: what a turn computes between its questions.
#![tactic(auto)]

ghost use Rattle.std.specs.Prelude.{◌≡◌, ◌&&◌, List, ℕ, ◌+◌, ◌≤◌, length, Float};
ghost use Rattle.std.specs.Float.Ieee.{lt};
ghost use Rattle.numbers.specs.Numbers.{at, nth, tab, dot, ◌⊕◌, ◌⊗◌, ◌⊘◌};
ghost use Rattle.workspace.specs.Readings.{vec};
ghost use Rattle.search.specs.Places.{SEARCH_ALPHA, SEARCH_CONSTRAINTS, SEARCH_D, SEARCH_LOWER, SEARCH_MACHINE, SEARCH_MULTIPLIERS, SEARCH_PENALTIES, SEARCH_TOLERANCE, SEARCH_UPPER, SEARCH_WORDS, SEARCH_X};
ghost use Rattle.search.specs.Setup.{is_finite, are_finite};
ghost use Rattle.search.specs.Layout.{setup_in, new_in, iterate_in, line_in, laid};
ghost use Rattle.search.specs.Turn.{magnitude, larger, negative, clip, violation, violations, max_violation, merit, complementarity, move_of, two, penalties, is_enough, shorter, is_settled};

use search::{
    SEARCH_ALPHA, SEARCH_D, SEARCH_KINDS, SEARCH_LOWER, SEARCH_MERIT, SEARCH_MULTIPLIERS,
    SEARCH_NEW_CONSTRAINT_VALUES, SEARCH_NEW_VALUES, SEARCH_PENALTIES, SEARCH_SLOPE,
    SEARCH_TOLERANCE, SEARCH_UPPER, SEARCH_VALUES, SEARCH_X,
};

// The fixed fractions of a turn.
#[derive(Clone, Copy)]
pub struct Fractions {}

impl Fractions {
    // The fraction of the predicted decrease of the merit that a trial must achieve.
    pub const SUFFICIENT_DECREASE: f64 = 0.1;
    // The relaxation at or above which a step has reduced no violation.
    pub const FULL_RELAXATION: f64 = 1.0 - 1e-8;
    // The root of the spacing of numbers at one, 2^-26: the relative move of a coordinate.
    pub const MOVE: f64 = 1.4901161193847656e-8;
}

// A word as a size.
pub fn wide(x: u32) -> usize
    ensures { result ≡ x }
{
    x as usize
}

// |x|, of both zeros +0.
pub fn magnitude_of(x: f64) -> f64
    ensures { result ≡ magnitude x }
{
    if x < 0.0 {
        return -x;
    }
    if x == 0.0 {
        return 0.0;
    }
    x
}

// The larger of two; a NaN gives way to a number.
pub fn larger_of(x: f64, y: f64) -> f64
    ensures { result ≡ larger x y }
{
    if x != x {
        return y;
    }
    if x < y {
        return y;
    }
    x
}

// x where it is below zero, else +0.
pub fn negative_of(x: f64) -> f64
    ensures { result ≡ negative x }
{
    if x < 0.0 {
        return x;
    }
    0.0
}

// x clipped to [low, high].
pub fn clip_to(low: f64, high: f64, x: f64) -> f64
    ensures { result ≡ clip low high x }
{
    if x < low {
        return low;
    }
    if high < x {
        return high;
    }
    x
}

// Neither NaN nor infinite.
pub fn is_finite(x: f64) -> bool
    ensures { result ≡ is_finite x }
{
    if x < 1.0 / 0.0 {
        return -1.0 / 0.0 < x;
    }
    false
}

// How far a constraint of value c is violated; zero is +0.
pub fn violation_of(equality: bool, c: f64) -> f64
    ensures { result ≡ violation equality c }
{
    if equality {
        return magnitude_of(c);
    }
    if c < 0.0 {
        return -c;
    }
    0.0
}

// The move of a coordinate.
pub fn move_of(x: f64) -> f64
    ensures { result ≡ move_of x }
{
    Fractions::MOVE * larger_of(magnitude_of(x), 1.0)
}

// All numbers of a slice are finite.
pub fn are_finite(v: &[f64]) -> bool
    ensures { result ≡ are_finite v.now }
{
    for &x in v {
        if !is_finite(x) {
            return false;
        }
    }
    true
}

// ---- the machine's slice

// The point at alpha on the line, clipped into the bounds, written at o.
pub fn along_into(f: &mut [f64], o: usize, n: usize, alpha: f64)
    requires { (length f.old ≡ SEARCH_MACHINE) × (n ≤ 16) × (SEARCH_PENALTIES ≤ o) × (o + 16 ≤ SEARCH_MACHINE) }
    ensures { f.new ≡ laid o (tab n (λ i. clip (at f.old (SEARCH_LOWER + i)) (at f.old (SEARCH_UPPER + i)) (at f.old (SEARCH_X + i) ⊕ alpha ⊗ at f.old (SEARCH_D + i)))) f.old }
{
    for i in 0..n {
        let y = clip_to(
            f[SEARCH_LOWER + i],
            f[SEARCH_UPPER + i],
            f[SEARCH_X + i] + alpha * f[SEARCH_D + i],
        );
        f[o + i] = y;
    }
}

// The merit has decreased by a tenth of what its slope predicts.
pub fn is_enough(f: &[f64], trial: f64) -> bool
    requires { length f.now ≡ SEARCH_MACHINE }
    ensures { (n : ℕ) → result ≡ is_enough (line_in n f.now) (at f.now SEARCH_ALPHA) trial }
{
    trial
        <= f[SEARCH_MERIT]
            + Fractions::SUFFICIENT_DECREASE * f[SEARCH_ALPHA] * negative_of(f[SEARCH_SLOPE])
}

// The next alpha, where the parabola is least.
pub fn shorter_of(f: &[f64], trial: f64) -> f64
    requires { length f.now ≡ SEARCH_MACHINE }
    ensures { (n : ℕ) → result ≡ shorter (line_in n f.now) (at f.now SEARCH_ALPHA) trial }
{
    let alpha = f[SEARCH_ALPHA];
    let curvature = (trial - f[SEARCH_MERIT] - f[SEARCH_SLOPE] * alpha) / (alpha * alpha);
    let least = -f[SEARCH_SLOPE] / (2.0 * curvature);
    if is_finite(least) {
        return clip_to(0.1 * alpha, 0.5 * alpha, least);
    }
    0.5 * alpha
}

// The larger of a multiplier's magnitude and its mean with the old penalty.
pub fn penalty_of(old: f64, multiplier: f64) -> f64
    ensures { result ≡ larger (magnitude multiplier) ((old ⊕ magnitude multiplier) ⊘ two) }
{
    let size = magnitude_of(multiplier);
    larger_of(size, (old + size) / 2.0)
}

// The penalties of a step, from the multipliers and in place of the old ones.
pub fn penalties_into(f: &mut [f64], m: usize)
    requires { (length f.old ≡ SEARCH_MACHINE) × (m ≤ 16) }
    ensures { f.new ≡ laid SEARCH_PENALTIES (penalties m (vec SEARCH_PENALTIES m f.old) (vec SEARCH_MULTIPLIERS m f.old)) f.old }
{
    for j in 0..m {
        let r = penalty_of(f[SEARCH_PENALTIES + j], f[SEARCH_MULTIPLIERS + j]);
        f[SEARCH_PENALTIES + j] = r;
    }
}

// ---- violations and merit of values v

// The violations, each times its penalty, summed.
pub fn penalized(f: &[f64], u: &[u32], v: &[f64], m: usize) -> f64
    requires { (length f.now ≡ SEARCH_MACHINE) × (length u.now ≡ SEARCH_WORDS) × (length v.now ≡ m + 1) × (m ≤ 16) × (nth u.now SEARCH_CONSTRAINTS ≡ m) }
    ensures { result ≡ dot m (vec SEARCH_PENALTIES m f.now) (violations (setup_in f.now u.now) v.now) }
{
    let mut total = -0.0;
    for j in 0..m {
        total = total + f[SEARCH_PENALTIES + j] * violation_of(u[SEARCH_KINDS + j] == 0, v[1 + j]);
    }
    total
}

// The merit.
pub fn merit_of(f: &[f64], u: &[u32], v: &[f64], m: usize) -> f64
    requires { (length f.now ≡ SEARCH_MACHINE) × (length u.now ≡ SEARCH_WORDS) × (length v.now ≡ m + 1) × (m ≤ 16) × (nth u.now SEARCH_CONSTRAINTS ≡ m) }
    ensures { result ≡ merit (setup_in f.now u.now) (vec SEARCH_PENALTIES m f.now) v.now }
{
    v[0] + penalized(f, u, v, m)
}

// The largest violation, whatever the numbers f of the machine are.
pub fn max_violation_of(u: &[u32], v: &[f64], m: usize) -> f64
    requires { (length u.now ≡ SEARCH_WORDS) × (length v.now ≡ m + 1) × (m ≤ 16) × (nth u.now SEARCH_CONSTRAINTS ≡ m) }
    ensures { (f : List Float) → result ≡ max_violation (setup_in f u.now) v.now }
{
    let mut most = 0.0;
    for j in 0..m {
        most = larger_of(most, violation_of(u[SEARCH_KINDS + j] == 0, v[1 + j]));
    }
    most
}

// ---- what ends a search

// The products of multipliers and values, in magnitude, summed.
pub fn complementarity_of(multipliers: &[f64], v: &[f64], m: usize) -> f64
    requires { (m ≤ length multipliers.now) × (m + 1 ≤ length v.now) }
    ensures { result ≡ complementarity m multipliers.now v.now }
{
    let mut total = -0.0;
    for j in 0..m {
        total = total + magnitude_of(multipliers[j] * v[1 + j]);
    }
    total
}

// A change and the largest violation of values v are both within the tolerance.
pub fn is_within(f: &[f64], u: &[u32], v: &[f64], change: f64, m: usize) -> bool
    requires { (length f.now ≡ SEARCH_MACHINE) × (length u.now ≡ SEARCH_WORDS) × (length v.now ≡ m + 1) × (m ≤ 16) × (nth u.now SEARCH_CONSTRAINTS ≡ m) }
    ensures { result ≡ (lt change (at f.now SEARCH_TOLERANCE) && lt (max_violation (setup_in f.now u.now) v.now) (at f.now SEARCH_TOLERANCE)) }
{
    if change < f[SEARCH_TOLERANCE] {
        return max_violation_of(u, v, m) < f[SEARCH_TOLERANCE];
    }
    false
}

// The objective moved by less than the tolerance from the accepted values to the new ones, and the violation is within it.
pub fn is_settled(f: &[f64], u: &[u32], m: usize) -> bool
    requires { (length f.now ≡ SEARCH_MACHINE) × (length u.now ≡ SEARCH_WORDS) × (m ≤ 16) × (nth u.now SEARCH_CONSTRAINTS ≡ m) }
    ensures { (n : ℕ) → result ≡ is_settled (setup_in f.now u.now) (iterate_in n m f.now u.now) (new_in n m f.now) }
{
    let e = SEARCH_NEW_CONSTRAINT_VALUES + m;
    let v = &f[SEARCH_NEW_VALUES..e];
    is_within(
        f,
        u,
        v,
        magnitude_of(f[SEARCH_NEW_VALUES] - f[SEARCH_VALUES]),
        m,
    )
}
