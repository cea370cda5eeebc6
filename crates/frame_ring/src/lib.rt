// The ring of frames in lent bytes, as a report link.
#![tactic(auto)]

mod places;
mod queue;

pub use queue::{FrameRing, send_once};
