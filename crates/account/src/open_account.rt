// An account that is open, and what the account rule makes of it.
ghost use Rattle.std.specs.Prelude.{◌≡◌, true};
ghost use Rattle.account.specs.Records.{open_record};

use crate::record::{AccountRecord, Reading, Status};
use report::limits::TARIFFS;
use report::{Address, Elapsed, Refusal, Report};

// A copy of the record of an account that is open: its tariff is a tariff. A refused report may leave
// the copy half changed; it is then let go, and the record stays as it was.
#[derive(Drop)]
pub(crate) struct OpenAccount {
    pub(crate) record: AccountRecord,
    ghost is_open: { open_record «record» ≡ true },
}

impl OpenAccount {
    ghost use Rattle.account.specs.Rule.{becomes, next, past_first, read, opened};
    ghost use Rattle.account.specs.Records.{account_of, said_of_left, said_of_open, said_of_first, Answers};
    ghost use Rattle.account.specs.Open.{Moves, TakesReport};

    // A new account of an address, with nothing read into it.
    fn new(address: Address) -> OpenAccount
        ensures account { account_of result.record ≡ opened }
        ensures address { result.record.address ≡ address }
    {
        OpenAccount {
            record: AccountRecord {
                address,
                tariff: 1,
                ..AccountRecord::CLOSED
            },
        }
    }

    // The current ticks become `ticks`, unless these are fewer.
    fn become_ticks(&mut self, ticks: u32) -> Result<(), Refusal>
        ensures { Moves self.old (becomes ticks (account_of self.old.record)) result self.new }
    {
        let at = usize::from(self.record.tariff) - 1;
        if ticks < self.record.ticks[at] {
            return Err(Refusal::AccountRule);
        }
        self.record.ticks[at] = ticks;
        Ok(())
    }

    // The next tariff becomes current, unless the last one is.
    fn next_tariff(&mut self) -> Result<(), Refusal>
        ensures { Moves self.old (next (account_of self.old.record)) result self.new }
    {
        if usize::from(self.record.tariff) >= TARIFFS {
            return Err(Refusal::AccountRule);
        }
        self.record.tariff += 1;
        Ok(())
    }

    // Tariff 2 becomes current if tariff 1 is, which must then be without ticks.
    fn pass_first(&mut self) -> Result<(), Refusal>
        ensures { Moves self.old (past_first (account_of self.old.record)) result self.new }
    {
        match (self.record.tariff, self.record.ticks[0]) {
            (1, 0) => self.next_tariff(),
            (1, _) => Err(Refusal::AccountRule),
            _ => Ok(()),
        }
    }

    // Reads a report's elapsed time, which breaks the rule where this refuses it.
    fn read_elapsed(&mut self, elapsed: Elapsed) -> Result<(), Refusal>
        ensures { Moves self.old (read elapsed (account_of self.old.record)) result self.new }
    {
        match elapsed {
            Elapsed::Plain(time) if self.record.tariff == 1 => self.become_ticks(time),
            Elapsed::Plain(_) => Err(Refusal::AccountRule),
            Elapsed::Switched {
                time,
                interval: None,
            } => {
                self.pass_first()?;
                self.become_ticks(time)
            }
            Elapsed::Switched {
                time,
                interval: Some(ticks),
            } => {
                self.become_ticks(ticks)?;
                self.next_tariff()?;
                self.become_ticks(time)
            }
        }
    }

    // What becomes of the account by a report that it does not repeat.
    fn grow(&mut self, report: &Report) -> Result<Status, Refusal>
        ensures { TakesReport self.old (said_of_left report.now (read report.now.elapsed (account_of self.old.record))) result self.new }
    {
        self.read_elapsed(report.elapsed)?;
        self.record.last = report.number;
        Ok(if report.standing.is_active() {
            Status::Open
        } else {
            Status::Closed
        })
    }

    // What becomes of the account by a report.
    pub(crate) fn read(&mut self, report: &Report) -> Result<Status, Refusal>
        ensures { TakesReport self.old (said_of_open (account_of self.old.record) report.now) result self.new }
    {
        if report.number == self.record.last {
            return Ok(Status::Repeat);
        }
        if self.record.last.checked_add(1) != Some(report.number) {
            return Err(Refusal::AccountRule);
        }
        self.grow(report)
    }

    // What becomes of a new account by a report.
    pub(crate) fn read_first(report: &Report) -> Result<Reading, Refusal>
        ensures { Answers (said_of_first report.now) report.now result }
    {
        if report.number != 1 {
            return Err(Refusal::AccountRule);
        }
        let mut account = OpenAccount::new(report.address);
        let status = account.grow(report)?;
        let account = account.record;
        Ok(Reading { status, account })
    }
}
