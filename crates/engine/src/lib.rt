// The engine: every call over any report link.
#![tactic(auto)]

pub mod consultation;
pub mod engine;
pub mod whole_run;

pub use consultation::{Consultation, Returned};
pub use engine::Engine;
pub use whole_run::{CallRecord, run};
