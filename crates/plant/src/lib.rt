// The sheet of a day from its kept records and a plant file: what it is (specs/Plant.antt), and what was expected in a plant file.
#![tactic(auto)]

// What was expected where the first fault of a plant file is.
#[derive(Clone, Copy)]
pub enum Wanted {
    Number,
    NewNumber,
    Name,
    Spread,
    Minutes,
    End,
    Meter,
}
