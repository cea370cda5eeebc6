// The rules of the calls, over values: what each call carries, when it is refused, and what it changes, sends and orders.
#![tactic(auto)]

ghost use Rattle.rules.specs.Known.{KnownOutcomes};

pub mod call;
pub mod connection;
pub mod due;
pub mod limits;

pub use call::{Advice, Call, EValues, Instruction, Operation, Order, OrderKind, Reply, SecondSet};
pub use connection::{Connection, Grant, Meter, Period, Stage, StoredSets};
pub use due::{Dues, Item, Timer};

// The calls with known outcomes come out so. No code calls this: its contract has the check ask for the proof.
fn known_outcomes_stand()
    ensures { KnownOutcomes }
{}
