// What an engine keeps of a connection.
use crate::call::EValues;
use crate::due::Dues;
use bursts::BurstList;
use report::Report;

// How far a connection has come; an answered one has the tick of its answer.
#[derive(Clone, Copy, PartialEq, Eq, Debug)]
pub enum Stage {
    Consultation,
    Waiting,
    Answered(u32),
}

// An open period: what its instruction said, and the tick at which that was given.
#[derive(Clone, Copy, PartialEq, Eq, Debug)]
pub struct Period {
    pub maximum: u32,
    pub release: bool,
    pub bursts: Option<BurstList>,
    pub given: u32,
}

// How many instructions came, the party of the newest, the open period, and the previous period's end.
// `had` is a number that is compared with a limit: 0 needs no `Option`.
#[derive(Clone, Copy, PartialEq, Eq, Default, Debug)]
pub struct Grant {
    pub had: u16,
    pub party: u8,
    pub period: Option<Period>,
    pub previous: Option<u32>,
}

// How many tariff switches counted, the tick of the last one, and the interval that the next report holds.
// `switches` is a number that is compared with a limit: 0 needs no `Option`.
#[derive(Clone, Copy, PartialEq, Eq, Default, Debug)]
pub struct Meter {
    pub switches: u8,
    pub last: Option<u32>,
    pub interval: Option<u32>,
}

// The e-value sets that are still to be ordered.
#[derive(Clone, Copy, PartialEq, Eq, Default, Debug)]
pub struct StoredSets {
    pub first: Option<EValues>,
    pub second: Option<EValues>,
}

// A connection: its stage, what it was granted and metered, its e-value sets and timers, how many reports it made, and
// the one that awaits confirmation.
#[derive(Clone, Copy, PartialEq, Eq, Debug)]
pub struct Connection {
    pub stage: Stage,
    pub grant: Grant,
    pub meter: Meter,
    pub sets: StoredSets,
    pub dues: Dues,
    pub sent: u16,
    pub awaiting: Option<Report>,
}
