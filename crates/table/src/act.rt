// Any operation at an address, and any firing, by the rules.
ghost use Rattle.std.specs.Prelude.{◌≡◌};
ghost use Rattle.std.specs.Option.{option_copied};
ghost use Rattle.rules.specs.declared.call.Call.TheVariants.{On, Fire};
ghost use Rattle.rules.specs.Ranges.{fits};
ghost use Rattle.rules.specs.Rows.{operation_rows, first};
ghost use Rattle.table.specs.Places.{used, within};
ghost use Rattle.table.specs.State.{core_of, heads, admitted, tick_of, FollowsRule};

use crate::changes::operate;
use crate::firings::fire_timer;
use crate::orders::{order_at, order_by};
use crate::place::{Outcome, Place};
use crate::ranges::operation_fits;
use crate::refusals::{admit_at, refuse_if};
use crate::reports::{report_at, report_by};
use crate::table::Table;
use crate::tick::Tick;
use report::{Address, Refusal};
use rules::{Operation, Order};

impl Table {
    // Every operation begins with these rows.
    fn admit_early(
        &self,
        tick: u32,
        address: Address,
        operation: &Operation,
    ) -> Result<Tick, Refusal>
        ensures { tick_of result ≡ admitted tick (first (heads tick address (fits operation.now) (core_of self.now))) }
    {
        let now = self.timely(tick)?;
        let in_range = address.is_lawful() && operation_fits(operation);
        refuse_if(!in_range, Refusal::OutOfRange)?;
        refuse_if(self.earliest(tick).is_some(), Refusal::ItemDue)?;
        Ok(now)
    }

    // Then come the rows of the operation, at the connection that may be there.
    fn admit(&self, room: bool, operation: &Operation, place: Option<&Place>) -> Result<(), Refusal>
        ensures { result ≡ admitted tt (first (operation_rows room operation.now (within (option_copied place.entry)) (used self.now.slots))) }
    {
        match (place, operation) {
            (Some(p), _) => admit_at(room, operation, &p.connection),
            (None, Operation::SetUp) => refuse_if(self.is_full(), Refusal::ConnectionsFull),
            (None, _) => Err(Refusal::NoConnection),
        }
    }

    // An operation at an address. `room` is whether a report has a free place: the caller says so, as a table knows no link.
    pub fn act(
        &mut self,
        room: bool,
        tick: u32,
        address: Address,
        operation: &Operation,
    ) -> Result<Outcome, Refusal>
        ensures { FollowsRule room (On tick address operation.now) self.old result self.new }
    {
        let now = self.admit_early(tick, address, operation)?;
        let at = self.place_of(address);
        let place = self.place_in(at);
        self.admit(room, operation, place)?;
        let report = place.and_then(|p| report_by(operation, tick, p));
        let kind = order_by(operation, place);
        let next = operate(operation, now, place);
        self.settle(now, at, address, next);
        Ok(Outcome {
            order: Order { address, kind },
            report,
        })
    }

    // The firing of the earliest item that is due at or before the tick. `room` is whether a report has a free place.
    pub fn fire(&mut self, room: bool, tick: u32) -> Result<Outcome, Refusal>
        ensures { FollowsRule room (Fire tick) self.old result self.new }
    {
        let now = self.timely(tick)?;
        let item = self.earliest(tick).ok_or(Refusal::NothingDue)?;
        let at = self.place_of(item.address);
        // A timer runs only at a connection that is there.
        let place = self.place_in(at).unwrap();
        let report = report_at(&item, place);
        refuse_if(report.is_some() && !room, Refusal::NoFreePlace)?;
        let kind = order_at(item.timer, &place.connection);
        let next = fire_timer(self.wait, &item, now, place);
        self.settle(now, at, item.address, next);
        Ok(Outcome {
            order: Order {
                address: item.address,
                kind,
            },
            report,
        })
    }
}
