// Lists of warning tones: how long one sounds, and when each of its tones starts.
#![tactic(auto)]

pub mod limits;
pub mod list;
pub mod make;
pub mod plan;

pub use list::BurstList;
pub use make::BurstNumbers;
pub use plan::Tone;
