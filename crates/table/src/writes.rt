// The write of a table: it changes the clock and one place.
ghost use Rattle.std.specs.Prelude.{◌≡◌, ◌≤◌, true, is_some, position};
ghost use Rattle.rules.specs.Fit.{fit_in};
ghost use Rattle.rules.specs.Sound.{sound};
ghost use Rattle.table.specs.Places.{find, holds, used};
ghost use Rattle.table.specs.State.{core_of, moved, RoomFor};

use crate::place::Place;
use crate::table::Table;
use crate::tick::Tick;
use report::Address;
use rules::Connection;

impl Table {
    // At the tick the connection at an address becomes `next`: in `at`, the place of the address, or else in the first
    // free place. `at` is handed in, so that the address is searched once.
    pub(crate) fn settle(
        &mut self,
        tick: Tick,
        at: Option<usize>,
        address: Address,
        next: Option<Connection>,
    )
        requires on_time { self.old.clock ≤ tick.at }
        requires placed { at ≡ position (holds address) self.old.slots }
        requires fitting { fit_in tick.at address next ≡ true }
        requires room { RoomFor (is_some (find self.old.slots address)) (used self.old.slots) next }
        ensures { core_of self.new ≡ moved tick.at address next (core_of self.old) }
    {
        // Where the address has no place, one is free.
        let place = at.or_else(|| self.free_place()).unwrap();
        self.clock = tick.at;
        self.slots[place] = next.map(
            |connection|
                requires { sound connection ≡ true }
            {
                Place {
                    address,
                    connection,
                }
            },
        );
    }
}
