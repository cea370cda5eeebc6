// The lines about a report that was read, and about a fault.
ghost use Rattle.std.specs.Prelude.{◌≡◌, ℕ, ◌+◌, ◌*◌, ◌<◌, ◌≤◌, min, length, MatchResult};
ghost use Rattle.report.specs.Limits.{tariffs};
ghost use Rattle.account.specs.Records.{account_of, ticks_of};
ghost use Rattle.lines.specs.Line.{head_text, status_text, tariff_text, tariffs_text, line_text, layer_text, fault_text, head_size, tariff_size, line_size, Placed};
ghost use Rattle.lines.specs.Page.{room, Adds};

use crate::page::{NoRoom, Page};
use account::{Reading, Status};
use report::limits::TARIFFS;
use report::{Address, Refusal};

// No line is longer.
pub const LINE: usize = 800;

// What found a fault.
#[derive(Clone, Copy, PartialEq, Eq, Debug)]
pub enum Layer {
    Frame,
    Account,
}

impl Layer {
    // What a line calls it.
    fn name(self) -> &'static [u8]
        ensures is { result.now ≡ layer_text self }
        ensures few { length result.now ≤ 7 }
    {
        match self {
            Layer::Frame => b"frame",
            Layer::Account => b"account",
        }
    }
}

// What a line calls a status.
fn name_of(status: Status) -> &'static [u8]
    ensures is { result.now ≡ status_text status }
    ensures few { length result.now ≤ 6 }
{
    match status {
        Status::Open => b"open",
        Status::Closed => b"closed",
        Status::Repeat => b"repeat",
    }
}

// The text is written by these functions: through `core::fmt` `tally` takes three times as long as the plain Rust program.
#[tactic(auto, using(crate::proofs::Decimals::lengths))]
impl Page<'_> {
    // Whether a longest line fits.
    fn check_room(&self) -> Result<(), NoRoom>
        ensures { MatchResult result (λ _. line_size ≤ room self.now) (λ _. room self.now < line_size) }
    {
        if self.room() < LINE {
            return Err(NoRoom);
        }
        Ok(())
    }

    #[inline(always)]
    fn put_head(&mut self, address: Address, number: u16)
        requires { head_size ≤ room self.old }
        ensures adds { Adds self.old (head_text address number) self.new }
        ensures few { length (head_text address number) ≤ head_size }
    {
        self.put_decimal(u32::from(address.kind));
        self.put_byte(b'.');
        self.put_decimal(u32::from(address.number));
        self.put_text(b" #");
        self.put_decimal(u32::from(number));
    }

    #[inline(always)]
    fn put_tariff(&mut self, tariff: u32, ticks: u32)
        requires small { tariff < 100 }
        requires room { tariff_size ≤ room self.old }
        ensures adds { Adds self.old (tariff_text tariff ticks) self.new }
        ensures few { length (tariff_text tariff ticks) ≤ tariff_size }
    {
        self.put_byte(b' ');
        self.put_up_to_two(tariff);
        self.put_byte(b':');
        self.put_decimal(ticks);
    }

    // The ticks of the first tariffs.
    #[inline(always)]
    fn put_tariffs(&mut self, ticks: &[u32])
        requires few { length ticks.now ≤ tariffs }
        requires room { tariff_size * length ticks.now ≤ room self.old }
        ensures adds { Adds self.old (tariffs_text 1 (length ticks.now) (ticks_of ticks.now)) self.new }
        ensures few { length (tariffs_text 1 (length ticks.now) (ticks_of ticks.now)) ≤ tariff_size * length ticks.now }
    {
        for (k, ticks) in ticks.iter().enumerate() {
            self.put_tariff(k as u32 + 1, *ticks);
        }
    }

    #[inline(always)]
    fn put_line(&mut self, number: u16, reading: &Reading)
        requires { line_size ≤ room self.old }
        ensures adds { Adds self.old (line_text reading.now.account.address number reading.now.status (account_of reading.now.account)) self.new }
        ensures few { length (line_text reading.now.account.address number reading.now.status (account_of reading.now.account)) ≤ line_size }
    {
        let account = &reading.account;
        self.put_head(account.address, number);
        self.put_byte(b' ');
        self.put_text(name_of(reading.status));
        let count = usize::from(account.tariff).min(TARIFFS);
        self.put_tariffs(&account.ticks[..count]);
        self.put_byte(b'\n');
    }

    // Puts the line about a report that was read, by its number.
    pub fn put_reading(&mut self, number: u16, reading: &Reading) -> Result<(), NoRoom>
        ensures { Placed self.old (line_text reading.now.account.address number reading.now.status (account_of reading.now.account)) result self.new }
    {
        self.check_room()?;
        // A page of this function's own, so that its end stays in a register: `tally` takes 97 ms for a million frames, and
        // 112 ms without it.
        let bytes = &mut *self.bytes;
        let mut page = Page {
            bytes,
            end: self.end,
        };
        page.put_line(number, reading);
        self.end = page.end;
        Ok(())
    }

    // Puts the line about a fault at the place of a byte.
    pub fn put_fault(&mut self, layer: Layer, refusal: Refusal, place: u64) -> Result<(), NoRoom>
        ensures { Placed self.old (fault_text layer refusal place) result self.new }
    {
        self.check_room()?;
        self.put_text(b"fault ");
        self.put_text(layer.name());
        self.put_byte(b' ');
        self.put_decimal(u32::from(refusal.number()));
        self.put_byte(b' ');
        self.put_long_decimal(place);
        self.put_byte(b'\n');
        Ok(())
    }
}
