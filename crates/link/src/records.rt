// The ring of records in lent memory, as a link.
ghost use Rattle.std.specs.Prelude.{◌≡◌, length, MatchOption, MatchResult, nat_lt};
ghost use Rattle.ring.specs.Slots.{Appends, Refused};
ghost use Rattle.ring.specs.Queue.{Pushed, Popped};
ghost use Rattle.link.specs.Links.{Sends, Takes, MakesUp};
ghost use Rattle.link.specs.Records.{record_view, record_whole};

use crate::link::Link;
use report::{Refusal, Report};
use ring::{Fifo, Window, append};

// Writes a report into the place behind those that wait, and leaves every other place as it is;
// writes nothing where every place is taken. A function over the lent reports, as a rule of the project has it.
pub fn append_record(places: &mut [Report], window: Window, r: Report) -> Option<Window>
    ensures { MatchOption result (Refused places.old window places.new) (Appends places.old window r places.new) }
{
    append(places, window, r)
}

// Its capacity is the records handed. Free places and waiting reports always make it up, as clauses say: a `Fifo` has no ghost
// field that could.
// A refused call leaves its whole value as it was, the lent memory included.
impl<'a> Link for Fifo<'a, Report> {
    ghost view = { record_view };

    ghost whole = { record_whole };

    fn send(&mut self, r: Report) -> Result<(), Refusal>
        ensures sends { Sends (record_view self.old) r result (record_view self.new) }
        ensures wrote { MatchResult result (λ _. Pushed self.old r self.new) (λ _. self.new ≡ self.old) }
        ensures lender { self.new.places.ghost_name ≡ self.old.places.ghost_name }
    {
        if !r.is_lawful() {
            return Err(Refusal::OutOfRange);
        }
        self.window = append_record(self.places, self.window, r).ok_or(Refusal::NoFreePlace)?;
        Ok(())
    }

    fn take(&mut self) -> Result<Report, Refusal>
        ensures takes { Takes (record_view self.old) result (record_view self.new) }
        ensures moved { MatchResult result (λ r. Popped self.old r self.new) (λ _. self.new ≡ self.old) }
        ensures lender { self.new.places.ghost_name ≡ self.old.places.ghost_name }
    {
        self.pop().ok_or(Refusal::NothingWaits)
    }

    fn has_room(&self) -> bool
        ensures is { result ≡ nat_lt 0 (record_view self.now).free }
        ensures sum { MakesUp (record_view self.now) }
    {
        self.room() > 0
    }

    fn has_waiting(&self) -> bool
        ensures is { result ≡ nat_lt 0 (length (record_view self.now).waiting) }
        ensures sum { MakesUp (record_view self.now) }
    {
        self.len() > 0
    }
}
