// Tells of an input of report frames, block by block, what `tally` prints.
#![tactic(auto)]

pub mod tally;
mod telling;

pub use tally::Tally;
pub use telling::keep_rest;
