// The right to end one consultation.
ghost use Rattle.std.specs.Prelude.{◌≡◌, true, false};

use report::{Address, Refusal};

// Handed out by set-up, and taken back by continue or bar. It can only be let go once it is ended, so
// a host that forgets one does not get through the check; and none is ended twice, since the call that
// ends it takes it.
#[derive(Debug)]
pub struct Consultation {
    address: Address,
    // A rule of the project keeps this flag: the contract of `drop` reads it.
    ended: bool,
}

impl Drop for Consultation {
    fn drop(self)
        requires { self.ended ≡ true }
    {
        let Consultation {
            address: _,
            ended: _,
        } = self;
    }
}

impl Consultation {
    // The consultation of a connection, still to be ended.
    pub(crate) fn at(address: Address) -> Consultation
        ensures { (result.address ≡ address) × (result.ended ≡ false) }
    {
        Consultation {
            address,
            ended: false,
        }
    }

    // The address of the connection.
    pub fn address(&self) -> Address
        ensures { result ≡ self.now.address }
    {
        self.address
    }

    // For a host that stops: never refused, and no engine is touched, so that the connection stays in
    // consultation. Returns its address.
    pub fn surrender(mut self) -> Address
        ensures { result ≡ self.address }
    {
        let address = self.address;
        self.ended = true;
        address
    }
}

// A refused call: why, and the consultation back as it was.
#[derive(Debug, Drop)]
pub struct Returned {
    pub refusal: Refusal,
    pub consultation: Consultation,
}
