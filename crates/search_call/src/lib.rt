// The public operations of the search: tests, then the machine in its two slices, and the workspaces cleared.
#![tactic(auto)]

mod arguments;
mod begin;

ghost use Rattle.std.specs.Prelude.{◌≡◌, true, false, ◌≤◌, length};
ghost use Rattle.numbers.specs.Numbers.{nth};
ghost use Rattle.workspace.specs.declared.Refusal.TheVariants.{Crossed};
ghost use Rattle.workspace.specs.Tables.{done, test};
ghost use Rattle.workspace.specs.Readings.{Cleared};
ghost use Rattle.search.specs.Places.{SCHEME_CENTRAL, SEARCH_ASKED};
ghost use Rattle.search.specs.Machine as Machine;
ghost use Rattle.search.specs.Layout.{setup_in};
ghost use Rattle.search.specs.Promise.{setup_of, are_ordered, begin_call, tell_call, Runs};
ghost use Rattle.search_next.specs.inner.Next.{Heard, Told};
ghost use Rattle.search_call.specs.inner.Work.{Begins, outcome_in};

use crate::arguments::{
    are_kinds, are_lengths, are_ordered, are_sizes, are_slices, is_told, question_of,
};
use crate::begin::begin_posed;
use search::{PHASE_NONE, PHASE_NONFINITE, SEARCH_ASKED};
use workspace::Refusal;

// The search around the step.
#[derive(Clone, Copy)]
pub struct Search {}

// The outcome of a state whose first word is `phase`.
fn outcome_of(phase: u32) -> Result<(), Refusal>
    ensures { result ≡ outcome_in phase }
{
    if phase == PHASE_NONFINITE {
        return Err(Refusal::Nonfinite);
    }
    Ok(())
}

// The call that begins, where the bounds mean something: they are in order, or it is refused.
fn begin_bounded(
    n: usize,
    m: usize,
    kinds: &[u8],
    lower: &[f64],
    upper: &[f64],
    x: &[f64],
    ftol: f64,
    budget: u32,
    scheme: u32,
    machine: &mut [f64],
    words: &mut [u32],
    w: &mut [f64],
    iw: &mut [u32],
) -> Result<(), Refusal>
    requires { Begins (setup_of n m kinds.now lower.now upper.now ftol scheme) x.now machine.old words.old × (scheme ≤ SCHEME_CENTRAL) × (8192 ≤ length w.old) × (512 ≤ length iw.old) }
    ensures { Runs true (setup_of n m kinds.now lower.now upper.now ftol scheme) (test (are_ordered n lower.now upper.now) Crossed (done (Machine.begin (setup_of n m kinds.now lower.now upper.now ftol scheme) x.now budget))) result machine.old machine.new words.old words.new w.old w.new iw.old iw.new }
{
    if !are_ordered(lower, upper, n) {
        return Err(Refusal::Crossed);
    }
    let r = begin_posed(
        n, m, kinds, lower, upper, x, ftol, budget, scheme, machine, words,
    );
    workspace::clear(w, iw);
    r
}

// The answer, where a question stands and it is as long as it is to be.
fn hear_all(
    told: &[f64],
    machine: &mut [f64],
    words: &mut [u32],
    w: &mut [f64],
    iw: &mut [u32],
) -> Result<(), Refusal>
    requires { Heard told.now machine.old words.old × (8192 ≤ length w.old) × (512 ≤ length iw.old) }
    ensures { Told told.now machine.old machine.new words.old words.new × Cleared w.old w.new iw.old iw.new × (result ≡ outcome_in (nth words.new SEARCH_ASKED)) }
{
    let v = &mut w[..8192];
    let l = &mut iw[..512];
    search_next::hear(told, machine, words, v, l);
    workspace::clear(w, iw);
    outcome_of(words[SEARCH_ASKED])
}

impl Search {
    // A search of n variables and m constraints begins, from x.
    pub fn begin(
        n: usize,
        m: usize,
        kinds: &[u8],
        lower: &[f64],
        upper: &[f64],
        x: &[f64],
        ftol: f64,
        budget: u32,
        scheme: u32,
        machine: &mut [f64],
        words: &mut [u32],
        w: &mut [f64],
        iw: &mut [u32],
    ) -> Result<(), Refusal>
        ensures { Runs true (setup_of n m kinds.now lower.now upper.now ftol scheme) (begin_call (setup_of n m kinds.now lower.now upper.now ftol scheme) scheme x.now budget machine.old words.old w.old iw.old) result machine.old machine.new words.old words.new w.old w.new iw.old iw.new }
    {
        if !are_sizes(n, m, budget, scheme) {
            return Err(Refusal::Size);
        }
        if !are_lengths(n, m, kinds.len(), lower.len(), upper.len(), x.len()) {
            return Err(Refusal::Length);
        }
        if !are_slices(machine.len(), words.len()) {
            return Err(Refusal::Length);
        }
        if !workspace::is_room(w.len(), iw.len()) {
            return Err(Refusal::Room);
        }
        if !are_kinds(kinds) {
            return Err(Refusal::Kind);
        }
        if !workspace::is_tolerance(ftol) {
            return Err(Refusal::Tolerance);
        }
        step_call::strict::test_bounds(lower, upper, n)?;
        begin_bounded(
            n, m, kinds, lower, upper, x, ftol, budget, scheme, machine, words, w, iw,
        )
    }

    // The machine is told the answer to its question.
    pub fn tell(
        told: &[f64],
        machine: &mut [f64],
        words: &mut [u32],
        w: &mut [f64],
        iw: &mut [u32],
    ) -> Result<(), Refusal>
        ensures { Runs false (setup_in machine.old words.old) (tell_call told.now machine.old words.old w.old iw.old) result machine.old machine.new words.old words.new w.old w.new iw.old iw.new }
    {
        if !are_slices(machine.len(), words.len()) {
            return Err(Refusal::Length);
        }
        let phase = question_of(words);
        if !is_told(words, phase, told.len()) {
            return Err(Refusal::Length);
        }
        if !workspace::is_room(w.len(), iw.len()) {
            return Err(Refusal::Room);
        }
        if phase == PHASE_NONE {
            return Err(Refusal::Unasked);
        }
        hear_all(told, machine, words, w, iw)
    }
}
