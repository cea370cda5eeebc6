// What becomes due, and when.
use report::Address;

// The timers of a connection, in the order in which those due on one tick fire.
#[derive(Clone, Copy, PartialEq, Eq, PartialOrd, Ord, Debug)]
pub enum Timer {
    TariffSwitch,
    AdviceSwitch,
    Sound,
    PeriodEnd,
    ConfirmationLimit,
}

impl Timer {
    // All timers, in their order.
    pub const ALL: [Timer; 5] = [
        Timer::TariffSwitch,
        Timer::AdviceSwitch,
        Timer::Sound,
        Timer::PeriodEnd,
        Timer::ConfirmationLimit,
    ];
}

// The ticks at which the timers of a connection are due, those of them that run.
#[derive(Clone, Copy, PartialEq, Eq, Default, Debug)]
pub struct Dues {
    pub tariff: Option<u32>,
    pub advice: Option<u32>,
    pub sound: Option<u32>,
    pub end: Option<u32>,
    pub limit: Option<u32>,
}

// A timer that runs, with its address and the tick at which it is due. Items go by tick, then address
// kind, then address number, then timer.
#[derive(Clone, Copy, PartialEq, Eq, PartialOrd, Ord, Debug)]
pub struct Item {
    pub tick: u32,
    pub address: Address,
    pub timer: Timer,
}
