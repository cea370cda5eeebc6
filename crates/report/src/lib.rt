// What a report says, which reports a frame can hold, and how a call is refused.
#![tactic(auto)]

pub mod limits;
pub mod refusal;
pub mod report;

pub use refusal::{Cause, Fault, Refusal};
pub use report::{Address, Elapsed, Report, Standing};
