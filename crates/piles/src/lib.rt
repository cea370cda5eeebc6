// Code that is written once for every report link, and what it comes to at piles: a ring of records or of frames,
// bare or under any number of reserves.
#![tactic(auto)]

mod batches;
mod filled;

pub use batches::{Unsent, send_all, take_all};
pub use filled::{fill_frames, fill_records};
