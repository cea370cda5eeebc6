// The plain table of an engine's connections: every operation and every firing by the rules. Whether a report has a free place is
// told by the caller, so nothing here knows of a link.
#![tactic(auto)]

mod act;
mod changes;
mod firings;
mod lookup;
mod orders;
mod periods;
pub mod place;
mod ranges;
mod refusals;
mod reports;
mod search;
pub mod table;
mod tick;
mod writes;

pub use place::{Outcome, Place};
pub use table::Table;
