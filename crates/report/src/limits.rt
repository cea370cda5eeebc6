// The numbers that bound a call, each under one name.

// The last tick that a call or a report can carry; a tick is a tenth of a second.
pub const LAST_TICK: u32 = 2_000_000_000;

// Kinds of address: 1 a leg, 2 a temporary or SRF connection.
pub const ADDRESS_KINDS: u8 = 2;

// Addresses of one kind are numbered from 1 up to this.
pub const ADDRESS_NUMBERS: u8 = 127;

// The reports of one connection are numbered from 1 up to this.
pub const REPORT_NUMBERS: u16 = 10_000;

// A report speaks of party 1 or 2.
pub const PARTIES: u8 = 2;

// An account has ticks for tariffs 1 up to this.
pub const TARIFFS: usize = 16;

// So many accounts can be open at once.
pub const OPEN_ACCOUNTS: usize = 16;
