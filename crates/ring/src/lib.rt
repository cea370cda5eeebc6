// A bounded queue in a row of places that the host lends, for any kind of element.
#![tactic(auto)]

mod fifo;
mod window;

pub use fifo::{Fifo, Full};
pub use window::{Turn, Window, append, first};
