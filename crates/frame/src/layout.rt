// The numbers that every frame begins with.

// A frame begins with its length, in two bytes.
pub(crate) const LENGTH: u16 = 24;

// Then comes the frame kind of a report, in two bytes.
pub(crate) const REPORT_KIND: u16 = 1;

// So many bytes are a frame.
pub const FRAME: usize = LENGTH as usize;
