// Report frames: a report as 24 bytes, each number with its least byte first.
#![tactic(auto)]

mod flags;
mod layout;
mod reader;
mod roundtrip;
mod writer;

pub use layout::FRAME;
pub use reader::read;
pub use roundtrip::frames_read_back;
pub use writer::write;
