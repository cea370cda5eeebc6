// What a table holds at an address.
ghost use Rattle.std.specs.Prelude.{◌≡◌, [], ◌∷◌, nat_le, position};
ghost use Rattle.std.specs.Option.{option_copied};
ghost use Rattle.rules.specs.Core.{start};
ghost use Rattle.rules.specs.Limits.{connections};
ghost use Rattle.rules.specs.Rows.{untimely, first};
ghost use Rattle.table.specs.Places.{holds, in_place, is_free, used};
ghost use Rattle.table.specs.State.{core_of, admitted, tick_of};

use crate::place::Place;
use crate::ranges::clamp_wait;
use crate::table::Table;
use crate::tick::Tick;
use report::limits::LAST_TICK;
use report::{Address, Refusal};
use rules::limits::CONNECTIONS;

// Whether a place has the address.
fn is_at(slot: &Option<Place>, address: Address) -> bool
    ensures { result ≡ holds address slot.now }
{
    slot.as_ref().is_some_and(|p| p.address == address)
}

impl Table {
    // A table with no connection yet, whose clock is at 0. The wait for confirmations is clamped to 1 to 600 ticks.
    #[tactic(auto, unfolding(crate::specs::Places::used))]
    pub fn new(wait: u32) -> Table
        ensures { core_of result ≡ start wait }
    {
        Table {
            clock: 0,
            wait: clamp_wait(wait),
            slots: [None; CONNECTIONS],
        }
    }

    // The tick of a call, unless it is past its limit or before the clock.
    pub(crate) fn timely(&self, tick: u32) -> Result<Tick, Refusal>
        ensures { tick_of result ≡ admitted tick (first (untimely tick (core_of self.now) ∷ [])) }
    {
        if tick > LAST_TICK || tick < self.clock {
            return Err(Refusal::Untimely);
        }
        Ok(Tick { at: tick })
    }

    // The place of an address, if it has one.
    pub(crate) fn place_of(&self, address: Address) -> Option<usize>
        ensures { result ≡ position (holds address) self.now.slots }
    {
        self.slots.iter().position(|slot| is_at(slot, address))
    }

    // The first free place, if there is one.
    pub(crate) fn free_place(&self) -> Option<usize>
        ensures { result ≡ position is_free self.now.slots }
    {
        self.slots.iter().position(|slot| slot.is_none())
    }

    // Whether every place is taken.
    pub(crate) fn is_full(&self) -> bool
        ensures { result ≡ nat_le connections (used self.now.slots) }
    {
        self.free_place().is_none()
    }

    // The connection in a place, with its address.
    pub(crate) fn place_in(&self, at: Option<usize>) -> Option<&Place>
        ensures { option_copied result ≡ in_place self.now.slots at }
    {
        self.slots.get(at?)?.as_ref()
    }
}
