// Report links: what each of them promises, and the ring of records in lent memory.
#![tactic(auto)]

mod link;
mod records;

pub use link::Link;
pub use records::append_record;
