// The records that open accounts lie in, and what is said of a report that is read.
ghost use Rattle.std.specs.Prelude.{◌≡◌, replicate};
ghost use Rattle.report.specs.Limits.{open_accounts};
ghost use Rattle.account.specs.Records.{open_record, closed_record};

use report::limits::{OPEN_ACCOUNTS, TARIFFS};
use report::{Address, Refusal};

// An account in a record of the host's. It is open while its tariff, the current one, is a tariff;
// every other record is closed, whatever else it holds. The records are lent by the host as they are,
// and every value of one has a meaning, so that nothing is asked of callers. The ticks of tariff 1
// come first.
#[derive(Clone, Copy, PartialEq, Eq, Debug)]
pub struct AccountRecord {
    pub address: Address,
    pub last: u16,
    pub tariff: u8,
    pub ticks: [u32; TARIFFS],
}

// What became of the account of a report: it is open, it was closed by this report, or the report
// is a repeat.
#[derive(Clone, Copy, PartialEq, Eq, Debug)]
pub enum Status {
    Open,
    Closed,
    Repeat,
}

// A report that was read, and its account after it.
#[derive(Clone, Copy, PartialEq, Eq, Debug)]
pub struct Reading {
    pub status: Status,
    pub account: AccountRecord,
}

// The first report of some that was refused, by its index.
#[derive(Clone, Copy, PartialEq, Eq, Debug)]
pub struct Stop {
    pub index: usize,
    pub refusal: Refusal,
}

impl AccountRecord {
    // A record that is closed.
    pub const CLOSED: AccountRecord = AccountRecord {
        address: Address { kind: 0, number: 0 },
        last: 0,
        tariff: 0,
        ticks: [0; TARIFFS],
    };

    // A public name, which stays, with the promise: a constant has no clauses.
    pub fn closed() -> AccountRecord
        ensures { result ≡ closed_record }
    {
        AccountRecord::CLOSED
    }

    // Whether an account is open in the record.
    pub fn is_open(&self) -> bool
        ensures { result ≡ open_record self.now }
    {
        (1..=TARIFFS).contains(&usize::from(self.tariff))
    }
}

// As many closed records as accounts can be open.
pub fn closed_records() -> [AccountRecord; OPEN_ACCOUNTS]
    ensures { result ≡ replicate open_accounts closed_record }
{
    [AccountRecord::CLOSED; OPEN_ACCOUNTS]
}
