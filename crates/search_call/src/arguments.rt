// The tests that calls of the search make before they work.
ghost use Rattle.std.specs.Prelude.{◌≡◌, ◌&&◌, cond, suc, ◌+◌, ◌*◌, ◌≤◌, leb, eqb, length};
ghost use Rattle.numbers.specs.Numbers.{nth};
ghost use Rattle.workspace.specs.Tables.{is_dimension, is_constraints};
ghost use Rattle.workspace.specs.Readings.{nums};
ghost use Rattle.search.specs.Places.{PHASE_START, SEARCH_CONSTRAINTS, SEARCH_KINDS, SEARCH_MACHINE, SEARCH_VARIABLES, SEARCH_WORDS};
ghost use Rattle.search.specs.Setup.{is_budget, is_scheme, are_kinds};
ghost use Rattle.search.specs.Turn.{backtracks};
ghost use Rattle.search.specs.Layout.{are_words};
ghost use Rattle.search.specs.Promise.{are_ordered};
ghost use Rattle.search_next.specs.inner.Next.{wanted_at};
ghost use Rattle.search_call.specs.inner.Work.{question_in, is_told};

use search::{
    BACKTRACKS, MOST_VALUES, PHASE_LOWERED, PHASE_NONE, PHASE_SLOPES, SCHEME_CENTRAL, SEARCH_AFTER,
    SEARCH_AGAIN, SEARCH_ASKED, SEARCH_CONSTRAINTS, SEARCH_COORDINATES, SEARCH_FRESH, SEARCH_KINDS,
    SEARCH_LEFT, SEARCH_MACHINE, SEARCH_SCHEME, SEARCH_TAKEN, SEARCH_VARIABLES, SEARCH_WORDS,
};
use search_turn::wide;

// ---- beginning

// The numbers of variables and constraints, the budget and the scheme.
pub fn are_sizes(n: usize, m: usize, budget: u32, scheme: u32) -> bool
    ensures { result ≡ (is_dimension n && is_constraints m && is_budget budget && is_scheme scheme) }
{
    if !step_call::are_sizes(n, m) {
        return false;
    }
    if budget > MOST_VALUES {
        return false;
    }
    if scheme > SCHEME_CENTRAL {
        return false;
    }
    true
}

// The lengths of the kinds, the bounds and the start.
pub fn are_lengths(n: usize, m: usize, kinds: usize, lower: usize, upper: usize, x: usize) -> bool
    ensures { result ≡ (eqb kinds m && eqb lower n && eqb upper n && eqb x n) }
{
    if kinds != m {
        return false;
    }
    if lower != n {
        return false;
    }
    if upper != n {
        return false;
    }
    x == n
}

// The lengths of the machine's two slices.
pub fn are_slices(machine: usize, words: usize) -> bool
    ensures { result ≡ (eqb machine SEARCH_MACHINE && eqb words SEARCH_WORDS) }
{
    if machine != SEARCH_MACHINE {
        return false;
    }
    words == SEARCH_WORDS
}

// Every kind is 0 or 1.
pub fn are_kinds(kinds: &[u8]) -> bool
    ensures { result ≡ are_kinds kinds.now }
{
    for &kind in kinds {
        if kind > 1 {
            return false;
        }
    }
    true
}

// No lower bound is above its upper one.
pub fn are_ordered(lower: &[f64], upper: &[f64], n: usize) -> bool
    requires { (length lower.now ≡ n) × (length upper.now ≡ n) }
    ensures { result ≡ are_ordered n lower.now upper.now }
{
    for i in 0..n {
        if upper[i] < lower[i] {
            return false;
        }
    }
    true
}

// ---- telling

// The sizes, the scheme, the budget that is left and the trials after this one.
fn are_counts(n: usize, m: usize, scheme: u32, budget: u32, again: u32) -> bool
    ensures { result ≡ (is_dimension n && is_constraints m && is_scheme scheme && is_budget budget && leb again backtracks) }
{
    if !step_call::are_sizes(n, m) {
        return false;
    }
    if scheme > SCHEME_CENTRAL {
        return false;
    }
    if budget > MOST_VALUES {
        return false;
    }
    if again > BACKTRACKS {
        return false;
    }
    true
}

// The two truths, and the functions and coordinates still to come.
fn are_places(n: u32, m: u32, fresh: u32, taken: u32, rows: u32, cols: u32) -> bool
    ensures { result ≡ (leb fresh 1 && leb taken 1 && leb rows m && leb (suc cols) n) }
{
    if fresh > 1 {
        return false;
    }
    if taken > 1 {
        return false;
    }
    if rows > m {
        return false;
    }
    if cols >= n {
        return false;
    }
    true
}

// Every kind among the words is 0 or 1.
fn hold_kinds(u: &[u32], m: usize) -> bool
    requires { SEARCH_KINDS + m ≤ length u.now }
    ensures { result ≡ are_kinds (nums SEARCH_KINDS m u.now) }
{
    for j in 0..m {
        if u[SEARCH_KINDS + j] > 1 {
            return false;
        }
    }
    true
}

// Words that a call can work with, whoever wrote them.
pub fn are_words(u: &[u32]) -> bool
    requires { length u.now ≡ SEARCH_WORDS }
    ensures { result ≡ are_words u.now }
{
    let n = wide(u[SEARCH_VARIABLES]);
    let m = wide(u[SEARCH_CONSTRAINTS]);
    if !are_counts(n, m, u[SEARCH_SCHEME], u[SEARCH_LEFT], u[SEARCH_AGAIN]) {
        return false;
    }
    if !are_places(
        u[SEARCH_VARIABLES],
        u[SEARCH_CONSTRAINTS],
        u[SEARCH_FRESH],
        u[SEARCH_TAKEN],
        u[SEARCH_AFTER],
        u[SEARCH_COORDINATES],
    ) {
        return false;
    }
    hold_kinds(u, m)
}

// The phase of the question that stands, or `PHASE_NONE`.
pub fn question_of(u: &[u32]) -> u32
    requires { length u.now ≡ SEARCH_WORDS }
    ensures { result ≡ question_in u.now }
{
    if !are_words(u) {
        return PHASE_NONE;
    }
    if u[SEARCH_ASKED] > PHASE_LOWERED {
        return PHASE_NONE;
    }
    u[SEARCH_ASKED]
}

// How many numbers the question of a phase is told.
fn wanted_of(phase: u32, n: usize, m: usize) -> usize
    requires { (PHASE_START ≤ phase) × (n ≤ 16) × (m ≤ 16) }
    ensures { result ≡ wanted_at phase n m }
{
    if phase < PHASE_SLOPES {
        return m + 1;
    }
    if phase == PHASE_SLOPES {
        return (m + 1) * n;
    }
    1
}

// An answer to the question of a phase is as long as it is to be; where no question stands, any is.
pub fn is_told(u: &[u32], phase: u32, told: usize) -> bool
    requires { (length u.now ≡ SEARCH_WORDS) × (phase ≡ question_in u.now) }
    ensures { result ≡ is_told phase (nth u.now SEARCH_VARIABLES) (nth u.now SEARCH_CONSTRAINTS) told }
{
    if phase == PHASE_NONE {
        return true;
    }
    let n = wide(u[SEARCH_VARIABLES]);
    let m = wide(u[SEARCH_CONSTRAINTS]);
    told == wanted_of(phase, n, m)
}
