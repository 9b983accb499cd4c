// Definitions and theorems.
#![tactic(auto)]
