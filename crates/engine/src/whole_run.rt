// A whole run: a new engine over a link, and calls in order.
ghost use Rattle.std.specs.Prelude.{◌≡◌};
ghost use Rattle.rules.specs.Core.{start};
ghost use Rattle.rules.specs.Steps.{Does, Run};
ghost use Rattle.rules.specs.declared.call.Call.TheVariants.{On};
ghost use Rattle.engine.specs.Answers.{replied};
ghost use Rattle.engine.specs.Engines.{state};
ghost use Rattle.engine.specs.Runs.{calls_of, replies_of, Ran};

use crate::consultation::{Consultation, Returned};
use crate::engine::Engine;
use link::Link;
use report::{Address, Refusal};
use rules::{Call, Operation, Order, OrderKind, Reply};

// A call, and what it was answered. `reply` is no `Option`: a host lends the records, and `run` writes every reply before it
// is read.
#[derive(Clone, Copy, PartialEq, Eq, Debug)]
pub struct CallRecord {
    pub call: Call,
    pub reply: Reply,
}

// What stands in the place for an order that no call has written.
const BLANK: Order = Order {
    address: Address { kind: 0, number: 0 },
    kind: OrderKind::Nothing,
};

// The reply of a call that writes an order.
fn reply_of(answer: Result<(), Refusal>, order: Order) -> Reply
    ensures { result ≡ replied answer order }
{
    answer.map_or_else(Reply::Refused, |()| Reply::Done(order))
}

// Why a call was refused. Nobody waits for the consultation that comes back, so it is surrendered.
fn refusal_of(returned: Returned) -> Refusal
    ensures { result ≡ returned.refusal }
{
    let Returned {
        refusal,
        consultation,
    } = returned;
    let _ = consultation.surrender();
    refusal
}

impl<L: Link> Engine<L> {
    // An operation by its value, through the public call for it. A continue or a bar takes a consultation, so one is made
    // here, for whatever connection the engine has at the address.
    fn carry_out_at(
        &mut self,
        tick: u32,
        address: Address,
        operation: &Operation,
        order: &mut Order,
    ) -> Result<(), Refusal>
        ensures { Does (On tick address operation.now) (state L.Link.view self.old) (replied result order.new) (state L.Link.view self.new) }
    {
        match operation {
            Operation::SetUp => {
                let consultation = self.set_up(tick, address, order)?;
                let _ = consultation.surrender();
                Ok(())
            }
            Operation::Continue => self
                .continue_call(tick, Consultation::at(address), order)
                .map_err(refusal_of),
            Operation::Bar => self
                .bar(tick, Consultation::at(address), order)
                .map_err(refusal_of),
            Operation::Instruct(instruction) => self.instruct(tick, address, instruction, order),
            Operation::Advise(advice) => self.advise(tick, address, advice, order),
            Operation::Answer => self.answer(tick, address, order),
            Operation::Disconnect => self.disconnect(tick, address, order),
            Operation::Confirm(number) => self.confirm(tick, address, *number, order),
            Operation::Repeat => self.repeat(tick, address, order),
        }
    }

    // A call by its value.
    fn carry_out(&mut self, call: &Call) -> Reply
        ensures { Does call.now (state L.Link.view self.old) result (state L.Link.view self.new) }
    {
        let mut order = BLANK;
        match call {
            Call::On {
                tick,
                address,
                operation,
            } => {
                let answer = self.carry_out_at(*tick, *address, operation, &mut order);
                reply_of(answer, order)
            }
            Call::Fire(tick) => {
                let answer = self.fire(*tick, &mut order);
                reply_of(answer, order)
            }
            Call::Take => self.take().map_or_else(Reply::Refused, Reply::Took),
        }
    }

    // Calls in order, each with its reply written beside it.
    fn carry_out_all(&mut self, records: &mut [CallRecord])
        ensures calls { calls_of records.new ≡ calls_of records.old }
        ensures ran { Run (state L.Link.view self.old) (calls_of records.old) (replies_of records.new) (state L.Link.view self.new) }
    {
        for record in records.iter_mut() {
            record.reply = self.carry_out(&record.call);
        }
    }
}

// Makes a new engine over a link, carries out the calls in order and writes each reply beside its
// call, and gives the link back. The engine is gone then, as for a host that stops.
pub fn run<L: Link>(wait: u32, link: L, records: &mut [CallRecord]) -> L
    ensures calls { calls_of records.new ≡ calls_of records.old }
    ensures ran { Ran (record { core = start wait; view = L.Link.view link }) (calls_of records.old) (replies_of records.new) (L.Link.view result) }
{
    let mut engine = Engine::new(wait, link);
    engine.carry_out_all(records);
    engine.stop()
}
