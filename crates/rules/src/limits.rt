// The numbers that bound an engine's calls, each under one name.
use report::limits::TARIFFS;

// A second has so many ticks.
pub const SECOND: u32 = 10;

// An engine holds up to so many connections.
pub const CONNECTIONS: usize = 16;

// A connection has up to so many instructions.
pub const INSTRUCTIONS: u16 = 9_999;

// A connection has up to so many tariff switches: each leads to one tariff more.
pub const TARIFF_SWITCHES: u8 = TARIFFS as u8 - 1;

// The longest period, in ticks.
pub const PERIOD_TICKS: u32 = 864_000;

// A switch comes at most so many seconds after its call.
pub const SWITCH_SECONDS: u32 = 86_400;

// The largest e-value, of which a set has so many.
pub const E_VALUE: u16 = 8_191;

pub const E_VALUES: usize = 7;

// The longest wait for a confirmation, in ticks; the shortest is 1.
pub const WAIT_TICKS: u32 = 600;
