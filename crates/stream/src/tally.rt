// How far an input of frames is read.
ghost use Rattle.std.specs.Prelude.{◌≡◌};

use account::AccountRecord;
use report::limits::OPEN_ACCOUNTS;

// The open accounts, the place of the next byte in the input, and whether a fault ended it. A flag: an Option around the
// rest would be taken apart where the flag is tested now, and again where the rest is used, which is no plainer.
// No Model: the records mean a book only by the relation `Stands`.
#[derive(Clone, Copy)]
pub struct Tally {
    pub(crate) records: [AccountRecord; OPEN_ACCOUNTS],
    pub(crate) place: u64,
    pub(crate) ended: bool,
}

impl Tally {
    // Whether a fault ended the input.
    pub fn has_ended(&self) -> bool
        ensures { result ≡ self.now.ended }
    {
        self.ended
    }
}
