// The engine over a link: it asks the link for a free place, lets the table carry out the call, and
// hands the report on.
ghost use Rattle.std.specs.Prelude.{◌≡◌, false, IfErr, IfOk, OnErr};
ghost use Rattle.std.specs.Option.{option_map};
ghost use Rattle.rules.specs.Core.{start, dues_at};
ghost use Rattle.rules.specs.Dues.{earliest, soonest};
ghost use Rattle.rules.specs.Earliest.{Earliest};
ghost use Rattle.rules.specs.Steps.{Does, took};
ghost use Rattle.rules.specs.declared.call.Call.TheVariants.{On, Fire, Take};
ghost use Rattle.rules.specs.declared.call.Operation.TheVariants.{SetUp, Continue, Bar, Instruct, Advise, Answer, Disconnect, Confirm, Repeat};
ghost use Rattle.engine.specs.Engines.{state};
ghost use Rattle.engine.specs.Answers.{Hands, replied, returned_replied, Leaves};

use crate::consultation::{Consultation, Returned};
use link::Link;
use report::{Address, Refusal, Report};
use rules::due::Item;
use rules::{Advice, Instruction, Operation, Order};
use table::place::Outcome;
use table::table::Table;

// An engine over a link. Each call that carries a tick is handed its tick, its address and a place for
// its order as values of their own: a rule of the project. No `Model`: clauses would see the state
// alone, and a refusal leaves the whole engine as it was.
pub struct Engine<L> {
    table: Table,
    link: L,
}

impl<L: Link> Engine<L> {
    // No connection yet; the wait for a confirmation is clamped to 1 to 600 ticks.
    pub fn new(wait: u32, link: L) -> Engine<L>
        ensures starts { state L.Link.view result ≡ record { core = start wait; view = L.Link.view link } }
        ensures link { result.link ≡ link }
    {
        Engine {
            table: Table::new(wait),
            link,
        }
    }

    // The link, as the engine leaves it.
    pub fn stop(self) -> L
        ensures { result ≡ self.link }
    {
        let Engine { table, link } = self;
        drop(table);
        link
    }

    // Hands on the report of an admitted call and writes its order.
    fn finish(&mut self, outcome: Outcome, order: &mut Order)
        ensures order { order.new ≡ outcome.order }
        ensures table { self.new.table ≡ self.old.table }
        ensures link { Hands (L.Link.view self.old.link) outcome.report (L.Link.view self.new.link) }
    {
        hand_on(&mut self.link, outcome.report);
        *order = outcome.order;
    }

    // Carries out an operation by its value.
    fn operate(
        &mut self,
        tick: u32,
        address: Address,
        operation: &Operation,
        order: &mut Order,
    ) -> Result<(), Refusal>
        ensures does { Does (On tick address operation.now) (state L.Link.view self.old) (replied result order.new) (state L.Link.view self.new) }
        ensures leaves { Leaves result self.old self.new order.old order.new }
    {
        let room = self.link.has_room();
        let outcome = self.table.act(room, tick, address, operation)?;
        self.finish(outcome, order);
        Ok(())
    }

    // Makes a connection in consultation, and hands out the consultation.
    pub fn set_up(
        &mut self,
        tick: u32,
        address: Address,
        order: &mut Order,
    ) -> Result<Consultation, Refusal>
        ensures does { Does (On tick address SetUp) (state L.Link.view self.old) (replied result order.new) (state L.Link.view self.new) }
        ensures consultation { IfOk result (λ c. (c.address ≡ address) × (c.ended ≡ false)) }
        ensures leaves { Leaves result self.old self.new order.old order.new }
    {
        self.operate(tick, address, &Operation::SetUp, order)?;
        Ok(Consultation::at(address))
    }

    // Ends a consultation by an operation, or hands it back.
    fn end_consultation(
        &mut self,
        tick: u32,
        consultation: Consultation,
        operation: &Operation,
        order: &mut Order,
    ) -> Result<(), Returned>
        ensures does { Does (On tick consultation.address operation.now) (state L.Link.view self.old) (returned_replied result order.new) (state L.Link.view self.new) }
        ensures returned { IfErr result (λ e. e.consultation ≡ consultation) }
        ensures leaves { Leaves result self.old self.new order.old order.new }
    {
        match self.operate(tick, consultation.address(), operation, order) {
            Ok(()) => {
                let _ = consultation.surrender();
                Ok(())
            }
            Err(refusal) => Err(Returned {
                refusal,
                consultation,
            }),
        }
    }

    // Leaves the connection waiting for its answer. This and `bar` are public calls of one form, each with its own contract.
    pub fn continue_call(
        &mut self,
        tick: u32,
        consultation: Consultation,
        order: &mut Order,
    ) -> Result<(), Returned>
        ensures does { Does (On tick consultation.address Continue) (state L.Link.view self.old) (returned_replied result order.new) (state L.Link.view self.new) }
        ensures returned { IfErr result (λ e. e.consultation ≡ consultation) }
        ensures leaves { Leaves result self.old self.new order.old order.new }
    {
        self.end_consultation(tick, consultation, &Operation::Continue, order)
    }

    // Ends the connection.
    pub fn bar(
        &mut self,
        tick: u32,
        consultation: Consultation,
        order: &mut Order,
    ) -> Result<(), Returned>
        ensures does { Does (On tick consultation.address Bar) (state L.Link.view self.old) (returned_replied result order.new) (state L.Link.view self.new) }
        ensures returned { IfErr result (λ e. e.consultation ≡ consultation) }
        ensures leaves { Leaves result self.old self.new order.old order.new }
    {
        self.end_consultation(tick, consultation, &Operation::Bar, order)
    }

    // Opens a period, at every stage, and confirms a report that awaits.
    pub fn instruct(
        &mut self,
        tick: u32,
        address: Address,
        instruction: &Instruction,
        order: &mut Order,
    ) -> Result<(), Refusal>
        ensures does { Does (On tick address (Instruct instruction.now)) (state L.Link.view self.old) (replied result order.new) (state L.Link.view self.new) }
        ensures leaves { Leaves result self.old self.new order.old order.new }
    {
        self.operate(tick, address, &Operation::Instruct(*instruction), order)
    }

    // Stores e-value sets before the answer, or orders the first sent after it.
    pub fn advise(
        &mut self,
        tick: u32,
        address: Address,
        advice: &Advice,
        order: &mut Order,
    ) -> Result<(), Refusal>
        ensures does { Does (On tick address (Advise advice.now)) (state L.Link.view self.old) (replied result order.new) (state L.Link.view self.new) }
        ensures leaves { Leaves result self.old self.new order.old order.new }
    {
        self.operate(tick, address, &Operation::Advise(*advice), order)
    }

    // Makes a waiting connection answered. This, `disconnect` and `repeat` are public calls of one form, each with its own
    // contract.
    pub fn answer(&mut self, tick: u32, address: Address, order: &mut Order) -> Result<(), Refusal>
        ensures does { Does (On tick address Answer) (state L.Link.view self.old) (replied result order.new) (state L.Link.view self.new) }
        ensures leaves { Leaves result self.old self.new order.old order.new }
    {
        self.operate(tick, address, &Operation::Answer, order)
    }

    // Ends a waiting or answered connection.
    pub fn disconnect(
        &mut self,
        tick: u32,
        address: Address,
        order: &mut Order,
    ) -> Result<(), Refusal>
        ensures does { Does (On tick address Disconnect) (state L.Link.view self.old) (replied result order.new) (state L.Link.view self.new) }
        ensures leaves { Leaves result self.old self.new order.old order.new }
    {
        self.operate(tick, address, &Operation::Disconnect, order)
    }

    // Ends the wait of the report with this number.
    pub fn confirm(
        &mut self,
        tick: u32,
        address: Address,
        number: u16,
        order: &mut Order,
    ) -> Result<(), Refusal>
        ensures does { Does (On tick address (Confirm number)) (state L.Link.view self.old) (replied result order.new) (state L.Link.view self.new) }
        ensures leaves { Leaves result self.old self.new order.old order.new }
    {
        self.operate(tick, address, &Operation::Confirm(number), order)
    }

    // Sends the report that awaits confirmation once more, unchanged.
    pub fn repeat(&mut self, tick: u32, address: Address, order: &mut Order) -> Result<(), Refusal>
        ensures does { Does (On tick address Repeat) (state L.Link.view self.old) (replied result order.new) (state L.Link.view self.new) }
        ensures leaves { Leaves result self.old self.new order.old order.new }
    {
        self.operate(tick, address, &Operation::Repeat, order)
    }

    // Carries out the earliest item that is due at or before the tick, as of its due tick.
    pub fn fire(&mut self, tick: u32, order: &mut Order) -> Result<(), Refusal>
        ensures does { Does (Fire tick) (state L.Link.view self.old) (replied result order.new) (state L.Link.view self.new) }
        ensures leaves { Leaves result self.old self.new order.old order.new }
    {
        let room = self.link.has_room();
        let outcome = self.table.fire(room, tick)?;
        self.finish(outcome, order);
        Ok(())
    }

    // The earliest item that is due at or before the tick.
    pub fn earliest(&self, tick: u32) -> Option<Item>
        ensures value { result ≡ earliest (dues_at (state L.Link.view self.now).core) tick }
        ensures least { Earliest (dues_at (state L.Link.view self.now).core) tick result }
    {
        self.table.earliest(tick)
    }

    // The tick of the next item, whatever the clock: when the host has to fire.
    pub fn next_due(&self) -> Option<u32>
        ensures { result ≡ option_map (λ i. i.tick) (soonest (dues_at (state L.Link.view self.now).core)) }
    {
        self.table.next_due()
    }

    // Hands out the oldest waiting report.
    pub fn take(&mut self) -> Result<Report, Refusal>
        ensures does { Does Take (state L.Link.view self.old) (took result) (state L.Link.view self.new) }
        ensures leaves { OnErr result (self.new ≡ self.old) }
    {
        // A link of the host's own may note that it refused: it is not asked where nothing waits.
        if !self.link.has_waiting() {
            return Err(Refusal::NothingWaits);
        }
        self.link.take()
    }
}

// Hands a report on, if there is one.
fn hand_on<L: Link>(link: &mut L, report: Option<Report>)
    ensures { Hands (L.Link.view link.old) report (L.Link.view link.new) }
{
    if let Some(report) = report {
        let _ = link.send(report);
    }
}
