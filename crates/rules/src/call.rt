// The values that calls carry, and what they are answered with.
use crate::limits::E_VALUES;
use bursts::BurstList;
use report::{Address, Refusal, Report};

// What the controller grants: the period's longest time in ticks, whether the connection is released at its end, the party
// that the reports speak of, the seconds to a tariff switch, and the tones that warn of the period's end.
// `party` is no enum: the rules refuse one out of its range with a number, so an instruction has to be able to hold it.
#[derive(Clone, Copy, PartialEq, Eq, Debug)]
pub struct Instruction {
    pub maximum: u32,
    pub release: bool,
    pub party: u8,
    pub switch: Option<u32>,
    pub bursts: Option<BurstList>,
}

// A set of seven e-values, each absent or 0 to 8,191.
#[derive(Clone, Copy, PartialEq, Eq, Debug)]
pub struct EValues {
    pub values: [Option<u16>; E_VALUES],
}

// The set that an advice switch brings, and the seconds until then.
#[derive(Clone, Copy, PartialEq, Eq, Debug)]
pub struct SecondSet {
    pub set: EValues,
    pub seconds: u32,
}

// One e-value set, or two with a switch between them.
#[derive(Clone, Copy, PartialEq, Eq, Debug)]
pub struct Advice {
    pub first: EValues,
    pub second: Option<SecondSet>,
}

// What a call does at an address. A confirmation names a report by its number.
#[derive(Clone, Copy, PartialEq, Eq, Debug)]
pub enum Operation {
    SetUp,
    Continue,
    Bar,
    Instruct(Instruction),
    Advise(Advice),
    Answer,
    Disconnect,
    Confirm(u16),
    Repeat,
}

// A call with its values: every call but take carries a tick.
#[derive(Clone, Copy, PartialEq, Eq, Debug)]
pub enum Call {
    On {
        tick: u32,
        address: Address,
        operation: Operation,
    },
    Fire(u32),
    Take,
}

// What the host is to do: note that the connection ended, send an e-value set, sound a burst list, or nothing.
// `Nothing` is a case: the rules name four orders, and it is one of them.
#[derive(Clone, Copy, PartialEq, Eq, Debug)]
pub enum OrderKind {
    Ended,
    Advise(EValues),
    Sound(BurstList),
    Nothing,
}

// What an admitted timed call asks of the host, and for which address.
#[derive(Clone, Copy, PartialEq, Eq, Debug)]
pub struct Order {
    pub address: Address,
    pub kind: OrderKind,
}

// The answer to a call: a refusal, an order, or a report that was taken.
// A reply is one of three in the rules' definitions: a `Result` would put two of them one level down in each, no plainer.
#[derive(Clone, Copy, PartialEq, Eq, Debug)]
pub enum Reply {
    Refused(Refusal),
    Done(Order),
    Took(Report),
}
