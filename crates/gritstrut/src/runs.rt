// The C functions of the search.
ghost use Rattle.std.specs.Prelude.{false};
ghost use Rattle.search.specs.Layout.{setup_in};
ghost use Rattle.search.specs.Promise.{setup_of, begin_call, tell_call};
ghost use Rattle.gritstrut.specs.Searching.{RunLeaves, BeginLeaves};

use search_call::Search;

// A search begins.
pub fn gritstrut_search_begin(
    n: usize,
    m: usize,
    kinds: &[u8],
    lower: &[f64],
    upper: &[f64],
    x: &[f64],
    ftol: f64,
    budget: u32,
    scheme: u32,
    machine: &mut [f64],
    words: &mut [u32],
    place: &mut u32,
    w: &mut [f64],
    iw: &mut [u32],
) -> u32
    ensures { BeginLeaves (setup_of n m kinds.now lower.now upper.now ftol scheme) (begin_call (setup_of n m kinds.now lower.now upper.now ftol scheme) scheme x.now budget machine.old words.old w.old iw.old) result place.old place.new machine.old machine.new words.old words.new w.old w.new iw.old iw.new }
{
    let answer = Search::begin(
        n, m, kinds, lower, upper, x, ftol, budget, scheme, machine, words, w, iw,
    );
    crate::number_with_place(answer, place)
}

// A search is told the answer to its question.
pub fn gritstrut_search_tell(
    told: &[f64],
    machine: &mut [f64],
    words: &mut [u32],
    w: &mut [f64],
    iw: &mut [u32],
) -> u32
    ensures { RunLeaves false (setup_in machine.old words.old) (tell_call told.now machine.old words.old w.old iw.old) result machine.old machine.new words.old words.new w.old w.new iw.old iw.new }
{
    let answer = Search::tell(told, machine, words, w, iw);
    workspace::outcome_number(answer)
}
