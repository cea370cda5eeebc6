// A layer of eight places above any report link.
#![tactic(auto)]

mod held;
mod layer;

pub use held::RESERVE_PLACES;
pub use layer::Reserve;
