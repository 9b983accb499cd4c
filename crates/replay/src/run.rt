// Runs a stored call through the C interface on memory full of junk.
use crate::check::run_check;
use crate::day::run_day;
use crate::meters::run_suspect;
use crate::runs::{run_begin, run_tell};
use crate::steps::run_step;
use crate::volumes::{run_certify, run_settle};
use replay_list::{
    Call, Operation, Values, digest_of, first_output, length_at, lent_output, mark, mix_float,
    mix_mark, mix_output, mix_places, mix_room, mix_values, part, places, room, size,
};

// The descriptor of standard output.
pub const STDOUT: i32 = 1;

// Writes a call's number, with which its digest starts.
pub fn told(number: u32) -> u64 {
    io::print_decimal(STDOUT, u64::from(number));
    digest_of(number)
}

// The root of the first value, the sum or the norm of an input; other operations are lent workspaces.
fn run_real(operation: Operation, call: &Call, values: &Values) -> Option<f64> {
    match operation {
        Operation::Sqrt => Some(gritstrut::gritstrut_sqrt(values[0])),
        Operation::Sum => Some(gritstrut::gritstrut_sum(part(call, values, 0))),
        Operation::Norm => Some(gritstrut::gritstrut_norm(part(call, values, 0))),
        _ => None,
    }
}

// Householder QR, whose last output and permutation only this has.
fn run_qr(
    call: &Call,
    values: &Values,
    r: &mut [f64],
    u: &mut [f64],
    w: &mut [f64],
    iw: &mut [u32],
) -> u64 {
    let m = size(call, 0);
    let n = size(call, 1);
    let a = part(call, values, 0);
    let bs = length_at(call, 4, 1200);
    let perms = length_at(call, 5, 551);
    let mut b = lent_output(call);
    let mut perm = places(call);
    let mut rank = mark(call);
    let number = gritstrut::gritstrut_qr(
        m,
        n,
        a,
        r,
        &mut perm[..perms],
        u,
        &mut b[..bs],
        &mut rank,
        w,
        iw,
    );
    let d = mix_mark(told(number), rank);
    mix_places(mix_output(d, &b), &perm)
}

// The number of NNLS and its counts.
fn told_counts(number: u32, rounds: u32, factorings: u32) -> u64 {
    mix_mark(mix_mark(told(number), rounds), factorings)
}

// The number of LSI, of LSEI or of a day, and the place.
pub fn told_place(number: u32, place: u32) -> u64 {
    mix_mark(told(number), place)
}

// The approximation B, square or as its lower triangle: the identity, a product, the factor, or the update of the
// matrix in x.
fn run_hessian(
    operation: Operation,
    call: &Call,
    values: &Values,
    x: &mut [f64],
    w: &mut [f64],
    iw: &mut [u32],
) -> u64 {
    let n = size(call, 0);
    let a = part(call, values, 0);
    let b = part(call, values, 1);
    let c = part(call, values, 2);
    match operation {
        Operation::Identity => told(gritstrut::gritstrut_identity(n, x, w, iw)),
        Operation::Times => told(gritstrut::gritstrut_times(n, a, b, x, w, iw)),
        Operation::Cholesky => told(gritstrut::gritstrut_cholesky(n, a, x, w, iw)),
        Operation::Update => told(gritstrut::gritstrut_update(n, x, b, c, w, iw)),
        Operation::PackedIdentity => told(gritstrut::gritstrut_packed_identity(n, x, w, iw)),
        Operation::PackedTimes => told(gritstrut::gritstrut_packed_times(n, a, b, x, w, iw)),
        Operation::PackedCholesky => told(gritstrut::gritstrut_packed_cholesky(n, a, x, w, iw)),
        _ => told(gritstrut::gritstrut_packed_update(n, x, b, c, w, iw)),
    }
}

// LSI.
fn run_lsi(
    call: &Call,
    values: &Values,
    x: &mut [f64],
    y: &mut [f64],
    w: &mut [f64],
    iw: &mut [u32],
) -> u64 {
    let mut place = mark(call);
    let number = gritstrut::gritstrut_lsi(
        size(call, 0),
        size(call, 1),
        size(call, 2),
        part(call, values, 0),
        part(call, values, 1),
        part(call, values, 2),
        part(call, values, 3),
        x,
        y,
        &mut place,
        w,
        iw,
    );
    told_place(number, place)
}

// LSEI.
fn run_lsei(
    call: &Call,
    values: &Values,
    x: &mut [f64],
    y: &mut [f64],
    w: &mut [f64],
    iw: &mut [u32],
) -> u64 {
    let mut place = mark(call);
    let number = gritstrut::gritstrut_lsei(
        size(call, 0),
        size(call, 1),
        size(call, 2),
        size(call, 3),
        part(call, values, 0),
        part(call, values, 1),
        part(call, values, 2),
        part(call, values, 3),
        part(call, values, 4),
        part(call, values, 5),
        x,
        y,
        &mut place,
        w,
        iw,
    );
    told_place(number, place)
}

// A call that is lent workspaces.
fn run_any(
    operation: Operation,
    call: &Call,
    values: &Values,
    x: &mut [f64],
    y: &mut [f64],
    w: &mut [f64],
    iw: &mut [u32],
) -> u64 {
    let i = size(call, 0);
    let j = size(call, 1);
    let a = part(call, values, 0);
    let b = part(call, values, 1);
    match operation {
        Operation::Qr => run_qr(call, values, x, y, w, iw),
        Operation::Nnls => {
            let k = size(call, 2);
            let mut p = mark(call);
            let mut q = mark(call);
            let number = gritstrut::gritstrut_nnls(i, j, k, a, b, x, &mut p, &mut q, w, iw);
            told_counts(number, p, q)
        }
        Operation::Ldp => told(gritstrut::gritstrut_ldp(i, j, a, b, x, y, w, iw)),
        Operation::Lsi => run_lsi(call, values, x, y, w, iw),
        Operation::Lsei => run_lsei(call, values, x, y, w, iw),
        Operation::Step => run_step(operation, call, values, x, y, w, iw),
        Operation::Day => run_day(call, values, x, w, iw),
        Operation::StrictStep => run_step(operation, call, values, x, y, w, iw),
        Operation::Check => run_check(call, values, w, iw),
        Operation::Begin => run_begin(call, values, x, w, iw),
        Operation::Tell => run_tell(call, values, x, w, iw),
        Operation::Suspect => run_suspect(call, values, x, w, iw),
        Operation::Settle => run_settle(call, values, x, y, w, iw),
        Operation::Certify => run_certify(call, values, w, iw),
        _ => run_hessian(operation, call, values, x, w, iw),
    }
}

// Lends a call its outputs and workspaces, and mixes all that they hold afterwards.
fn run_lent(operation: Operation, call: &Call, values: &Values) -> u64 {
    let xs = length_at(call, 2, 1200);
    let ys = length_at(call, 3, 1200);
    let ws = length_at(call, 0, 8231);
    let iws = length_at(call, 1, 551);
    let mut x = first_output(operation as usize, call, values);
    let mut y = lent_output(call);
    let mut w = room(call);
    let mut iw = places(call);
    let d = run_any(
        operation,
        call,
        values,
        &mut x[..xs],
        &mut y[..ys],
        &mut w[..ws],
        &mut iw[..iws],
    );
    mix_places(mix_room(mix_output(mix_output(d, &x), &y), &w), &iw)
}

// Runs a call, writes its number, and gives the digest of all that it left, its inputs last.
pub fn run(operation: Operation, call: &Call, values: &Values) -> u64 {
    let digest = match run_real(operation, call, values) {
        Some(x) => mix_float(told(0), x),
        None => run_lent(operation, call, values),
    };
    mix_values(digest, values)
}
