// The search around the step: definitions and theorems, and the names of what stands in the machine's two slices.
#![tactic(auto)]

// ---- the machine's f64

// The tolerance.
pub const SEARCH_TOLERANCE: usize = 0;
// Of the line: alpha, the merit at the accepted point, and the merit's slope there.
pub const SEARCH_ALPHA: usize = 1;

pub const SEARCH_MERIT: usize = 2;

pub const SEARCH_SLOPE: usize = 3;
// The value at a raised point, until the one at the lowered point is told.
pub const SEARCH_RAISED_VALUE: usize = 4;
// The lower bounds.
pub const SEARCH_LOWER: usize = 16;
// The upper bounds.
pub const SEARCH_UPPER: usize = SEARCH_LOWER + 16;
// The accepted x, which is reported.
pub const SEARCH_X: usize = SEARCH_UPPER + 16;
// The step d.
pub const SEARCH_D: usize = SEARCH_X + 16;
// The penalties.
pub const SEARCH_PENALTIES: usize = SEARCH_D + 16;
// The multipliers of the last step.
pub const SEARCH_MULTIPLIERS: usize = SEARCH_PENALTIES + 16;
// The new x: the start, or the trial that was taken.
pub const SEARCH_NEW_X: usize = SEARCH_MULTIPLIERS + 16;
// The values at the accepted x, the objective first.
pub const SEARCH_VALUES: usize = SEARCH_NEW_X + 16;
// Those of the constraints.
pub const SEARCH_CONSTRAINT_VALUES: usize = SEARCH_VALUES + 1;
// The values at the new x.
pub const SEARCH_NEW_VALUES: usize = SEARCH_VALUES + 24;
// Those of the constraints.
pub const SEARCH_NEW_CONSTRAINT_VALUES: usize = SEARCH_NEW_VALUES + 1;
// The slopes at the accepted x: the gradient, and then the rows of the Jacobian.
pub const SEARCH_ALL_SLOPES: usize = SEARCH_NEW_VALUES + 24;
// The slopes at the new x that are known so far.
pub const SEARCH_NEW_SLOPES: usize = SEARCH_ALL_SLOPES + 17 * 16;
// B.
pub const SEARCH_B: usize = SEARCH_NEW_SLOPES + 17 * 16;
// The point that is asked about.
pub const SEARCH_POINT: usize = SEARCH_B + 16 * 16;
// How many f64 the machine takes.
pub const SEARCH_MACHINE: usize = SEARCH_POINT + 48;

// ---- its words

// In the words: what is asked, or how the run has ended (`PHASE_START` and those behind it).
pub const SEARCH_ASKED: usize = 0;
// What is left of the budget.
pub const SEARCH_LEFT: usize = 1;
// The trials after this one.
pub const SEARCH_AGAIN: usize = 2;
// Whether B is fresh.
pub const SEARCH_FRESH: usize = 3;
// Whether the slopes are for a trial that was taken, and not for the start.
pub const SEARCH_TAKEN: usize = 4;
// The functions after the one that is asked for.
pub const SEARCH_AFTER: usize = 5;
// The coordinates after the one that is moved.
pub const SEARCH_COORDINATES: usize = 6;
// n.
pub const SEARCH_VARIABLES: usize = 8;
// m.
pub const SEARCH_CONSTRAINTS: usize = 9;
// Where slopes come from (`SCHEME_TOLD` and those behind it).
pub const SEARCH_SCHEME: usize = 10;
// The kinds of the constraints.
pub const SEARCH_KINDS: usize = 16;
// How many words the machine takes.
pub const SEARCH_WORDS: usize = 32;

// ---- what the words say

// Phases and schemes are numbers and no enums: they stand in memory that callers lend and read (docs/SEARCH.md).

// No question, and no machine.
pub const PHASE_NONE: u32 = 0;
// All values at the start are asked for; at a trial; all slopes; one value with a coordinate raised; lowered.
pub const PHASE_START: u32 = 1;

pub const PHASE_TRIAL: u32 = 2;

pub const PHASE_SLOPES: u32 = 3;

pub const PHASE_RAISED: u32 = 4;

pub const PHASE_LOWERED: u32 = 5;
// The run has ended.
pub const PHASE_CONVERGED: u32 = 6;

pub const PHASE_INFEASIBLE: u32 = 7;

pub const PHASE_EXHAUSTED: u32 = 8;

pub const PHASE_NONFINITE: u32 = 9;
// Slopes are asked for.
pub const SCHEME_TOLD: u32 = 0;
// They are worked out by forward differences, or by central ones.
pub const SCHEME_FORWARD: u32 = 1;

pub const SCHEME_CENTRAL: u32 = 2;
// The trials after the first one of a line.
pub const BACKTRACKS: u32 = 10;
// The most objective values that a run may cost.
pub const MOST_VALUES: u32 = 10000;
