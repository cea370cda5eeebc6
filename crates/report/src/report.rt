// Reports, and which of them a frame can hold.
ghost use Rattle.std.specs.Prelude.{◌≡◌};
ghost use Rattle.report.specs.Lawful.{lawful_address, same, time_of, interval_of, counted, is_active, lawful};

use crate::limits::{ADDRESS_KINDS, ADDRESS_NUMBERS, LAST_TICK, PARTIES, REPORT_NUMBERS};

// A kind (1 a leg, 2 a temporary or SRF connection) and a number from 1 to 127.
// `kind` is no enum: the rules refuse one out of its range with a number of its own, so an address has to be able to hold it.
#[derive(Clone, Copy, PartialEq, Eq, PartialOrd, Ord, Debug)]
pub struct Address {
    pub kind: u8,
    pub number: u8,
}

// The elapsed time: plain until the connection's first tariff switch, then the switch form.
// An interval is there where a switch fired after the answer in the reported period.
#[derive(Clone, Copy, PartialEq, Eq, Debug)]
pub enum Elapsed {
    Plain(u32),
    Switched { time: u32, interval: Option<u32> },
}

// Whether the connection goes on, has ended, or was released at a period's end.
#[derive(Clone, Copy, PartialEq, Eq, Debug)]
pub enum Standing {
    Active,
    Ended,
    Released,
}

// One report of a connection: its number in the connection, the party of the newest instruction,
// the tick it is as of, whether the connection goes on, and the elapsed time.
// `party` is no enum: the rules refuse one out of its range with a number of its own, so a report has to be able to hold it.
#[derive(Clone, Copy, PartialEq, Eq, Debug)]
pub struct Report {
    pub address: Address,
    pub number: u16,
    pub party: u8,
    pub tick: u32,
    pub standing: Standing,
    pub elapsed: Elapsed,
}

impl Address {
    // Whether kind and number are within their ranges.
    pub fn is_lawful(self) -> bool
        ensures { result ≡ lawful_address self }
    {
        (1..=ADDRESS_KINDS).contains(&self.kind) && (1..=ADDRESS_NUMBERS).contains(&self.number)
    }

    // Whether both are one address. It stays beside `==`, which other code uses: it is public, and its contract names `same`.
    pub fn is(self, other: Address) -> bool
        ensures { result ≡ same self other }
    {
        self == other
    }
}

impl Elapsed {
    // The time, in either form.
    pub fn time(self) -> u32
        ensures { result ≡ time_of self }
    {
        match self {
            Elapsed::Plain(time) => time,
            Elapsed::Switched { time, interval: _ } => time,
        }
    }

    // The interval, or 0 where there is none: 0 is what a frame holds there. The name and its contract are public.
    pub fn interval(self) -> u32
        ensures { result ≡ interval_of self }
    {
        match self {
            Elapsed::Plain(_) => 0,
            Elapsed::Switched { time: _, interval } => interval.unwrap_or(0),
        }
    }

    // Whether an interval that is there counts at least one tick.
    pub fn is_counted(self) -> bool
        ensures { result ≡ counted self }
    {
        match self {
            Elapsed::Switched {
                time: _,
                interval: Some(ticks),
            } => 1 <= ticks,
            _ => true,
        }
    }
}

impl Standing {
    // Whether more reports may follow: clear in a last report.
    pub fn is_active(self) -> bool
        ensures { result ≡ is_active self }
    {
        self == Standing::Active
    }
}

impl Report {
    // What stands in a place that no report was written to.
    pub const BLANK: Report = Report {
        address: Address { kind: 0, number: 0 },
        number: 0,
        party: 0,
        tick: 0,
        standing: Standing::Ended,
        elapsed: Elapsed::Plain(0),
    };

    // Whether the frame's rules admit the report.
    pub fn is_lawful(self) -> bool
        ensures { result ≡ lawful self }
    {
        let time = self.elapsed.time();
        self.address.is_lawful()
            && (1..=REPORT_NUMBERS).contains(&self.number)
            && (1..=PARTIES).contains(&self.party)
            && self.tick <= LAST_TICK
            && self.elapsed.is_counted()
            && time <= self.tick
            && self.elapsed.interval() <= self.tick - time
    }
}
