// Accounts of connections, read from their reports.
#![tactic(auto)]

mod open_account;
pub mod reading;
pub mod record;

pub use reading::{read_all, read_one};
pub use record::{AccountRecord, Reading, Status, Stop, closed_records};
