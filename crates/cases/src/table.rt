// The cases worked by hand (docs/RULES.md), called through the C interface. The definitions are proved to answer the same
// table (crates/worked); here the compiled code is held to it.
ghost use Rattle.std.specs.Prelude.{◌≡◌, ◌≤◌, length};

use crate::calls;
use crate::calls::{NnlsAnswer, StepAnswer};
use crate::lines::{end_line, tell_call, tell_count, tell_floats, tell_number};

// ---- nonnegative least squares

// What NNLS left.
fn tell_counted(name: &[u8], counted: NnlsAnswer, x: &[f64]) {
    tell_number(name, counted.number);
    if counted.number == 0 {
        tell_floats(b"x", x);
        tell_count(b"rounds", u64::from(counted.rounds));
        tell_count(b"factorings", u64::from(counted.factorings));
    }
    end_line();
}

// One column, by its right side and how many rounds are allowed.
fn tell_one_column(name: &[u8], b: f64, k: usize) {
    let mut x = [0.0];
    let counted = calls::nnls(b, k, &mut x);
    tell_counted(name, counted, &x);
}

// Two columns alike, of which the last enters.
fn tell_tie() {
    let mut x = [0.0, 0.0];
    let counted = calls::nnls(2.0, 6, &mut x);
    tell_counted(b"nnls, A = [1 1], b = [2], k = 6", counted, &x);
}

// No column.
fn tell_no_column() {
    let counted = calls::nnls(2.0, 0, &mut []);
    tell_counted(b"nnls, no columns, b = [2], k = 0", counted, &[]);
}

// One column, with every right side and number of rounds.
fn tell_columns() {
    tell_one_column(b"nnls, A = [1], b = [2], k = 3", 2.0, 3);
    tell_one_column(b"nnls, A = [1], b = [2], k = 0", 2.0, 0);
    tell_one_column(b"nnls, A = [1], b = [-2], k = 0", -2.0, 0);
    tell_one_column(b"nnls, A = [1], b = [2], k = 4", 2.0, 4);
}

// ---- least distance

// A row of zeros that is to be at least 1.
fn tell_distance() {
    tell_number(b"ldp, G = [0], h = [1]", calls::ldp(0.0, 1.0));
    end_line();
}

// ---- the approximation B

// The Cholesky factor of [a b; b c].
fn tell_cholesky(name: &[u8], a: f64, b: f64, c: f64) {
    let matrix = [a, b, b, c];
    let mut l = [0.0; 4];
    let number = calls::cholesky(2, &matrix, &mut l);
    tell_call(name, number, b"L", &l);
}

// 289 zeros.
fn large() -> [f64; 289]
    ensures { 289 ≡ length result }
{
    [0.0; 289]
}

// One dimension too many.
fn tell_too_large() {
    let b = large();
    let mut l = large();
    let number = calls::cholesky(17, &b, &mut l);
    tell_call(b"cholesky, dimension 17", number, b"L", &l);
}

// 256 zeros.
fn full() -> [f64; 256]
    ensures { 256 ≡ length result }
{
    [0.0; 256]
}

// 1 for yes.
fn as_count(yes: bool) -> u64
    ensures { result ≤ 1 }
{
    if yes { 1 } else { 0 }
}

// How many entries of two lists are the same, place by place.
fn count_same(a: &[f64], b: &[f64]) -> u64
    requires { (length a.now ≤ length b.now) × (length a.now ≤ 256) }
    ensures { result ≤ length a.now }
{
    let mut same: u64 = 0;
    for i in 0..a.len() {
        same += as_count(problem_read::is_same(a[i], b[i]));
    }
    same
}

// The largest identity is its own factor.
fn tell_identity() {
    let mut b = full();
    let mut l = full();
    let made = calls::identity(16, &mut b);
    tell_number(b"identity, dimension 16", made);
    end_line();
    let number = calls::cholesky(16, &b, &mut l);
    tell_number(b"cholesky, identity of dimension 16", number);
    tell_count(b"entries as in B", count_same(&b, &l));
    end_line();
}

// The damped update of B = [1] by s and y = [4].
fn tell_update(name: &[u8], s: f64) {
    let mut b = [1.0];
    let number = calls::update(&mut b, s, 4.0);
    tell_call(name, number, b"B", &b);
}

// Two factors, the second with a negative pivot.
fn tell_factors() {
    tell_cholesky(b"cholesky, [4 2; 2 5]", 4.0, 2.0, 5.0);
    tell_cholesky(b"cholesky, [1 2; 2 1]", 1.0, 2.0, 1.0);
}

// A step that counts, none, and one that is a NaN.
fn tell_updates() {
    tell_update(b"update, B = [1], s = [2], y = [4]", 2.0);
    tell_update(b"update, B = [1], s = [0], y = [4]", 0.0);
    tell_update(b"update, B = [1], s = [NaN], y = [4]", 0.0 / 0.0);
}

// ---- the step

// What the step left.
fn tell_stepped(name: &[u8], stepped: StepAnswer, multipliers: &[f64]) {
    tell_number(name, stepped.number);
    if stepped.exact != 0 {
        tell_count(b"exact", u64::from(stepped.exact));
        tell_count(b"place", u64::from(stepped.place));
    }
    if stepped.number == 0 {
        tell_floats(b"relaxation", &[stepped.relaxation]);
        tell_floats(b"d", &[stepped.d]);
        tell_floats(b"multipliers", multipliers);
    }
    end_line();
}

// Two equalities: the exact problem refuses 11 at the first, so the relaxed one answers.
fn tell_relaxed() {
    let kinds = [0u8, 0];
    let values = [1.0, 1.0];
    let jacobian = [0.0, 0.0];
    let mut multipliers = [0.0, 0.0];
    let mut w = problem_answer::float_room();
    let stepped = calls::step(
        &kinds,
        &values,
        &values,
        &jacobian,
        &mut multipliers,
        &mut w,
    );
    tell_stepped(
        b"step, two equalities on one variable, zero Jacobian",
        stepped,
        &multipliers,
    );
}

// A band 0 <= -d <= 1/4, whose ceiling holds: its multiplier is below zero.
fn tell_band() {
    let kinds = [2u8];
    let values = [0.0];
    let widths = [0.25];
    let jacobian = [-1.0];
    let mut multipliers = [0.0];
    let mut w = problem_answer::float_room();
    let stepped = calls::step(
        &kinds,
        &values,
        &widths,
        &jacobian,
        &mut multipliers,
        &mut w,
    );
    tell_stepped(b"step, a band whose ceiling holds", stepped, &multipliers);
}

// No constraint, in a workspace of the length that is tried.
fn tell_room(name: &[u8], w: &mut [f64]) {
    let stepped = calls::step(&[], &[], &[], &[], &mut [], w);
    tell_stepped(name, stepped, &[]);
}

// One entry less than an f64 workspace has.
fn short_room() -> [f64; 8191]
    ensures { 8191 ≡ length result }
{
    [0.0; 8191]
}

// A workspace that is too short, and the shortest that is taken.
fn tell_rooms() {
    let mut short = short_room();
    let mut w = problem_answer::float_room();
    tell_room(b"step, f64 workspace of 8191", &mut short);
    tell_room(b"step, f64 workspace of 8192", &mut w);
}

// ---- all

// A line for each case.
pub fn tell_all() {
    tell_columns();
    tell_tie();
    tell_no_column();
    tell_distance();
    tell_factors();
    tell_identity();
    tell_too_large();
    tell_updates();
    tell_relaxed();
    tell_band();
    tell_rooms();
}
