// Lines of text about accounts and faults, written into lent bytes.
#![tactic(auto)]

mod decimal;
mod line;
mod page;
mod put;

pub use line::{LINE, Layer};
pub use page::{NoRoom, Page};
