// The numbers that bound a burst list, each under one name. Every range starts at 1.

// The longest warning, in seconds.
pub const WARNING_SECONDS: u16 = 1_200;

// The most bursts of a list.
pub const BURSTS: u8 = 3;

// The most tones of a burst.
pub const BURST_TONES: u8 = 3;

// The longest gap between bursts, in ticks.
pub const BURST_GAP: u16 = 1_200;

// The longest tone, in ticks.
pub const TONE_LENGTH: u8 = 20;

// The longest gap between tones, in ticks.
pub const TONE_GAP: u8 = 20;

// The most tones of a list: a place for so many is long enough for every plan.
pub const TONES: usize = BURSTS as usize * BURST_TONES as usize;
