// When an operation is refused at a connection.
ghost use Rattle.std.specs.Prelude.{◌≡◌, true, [], ◌∷◌, Some};
ghost use Rattle.rules.specs.declared.call.Operation.TheVariants.{Instruct};
ghost use Rattle.rules.specs.Rows.{awaits, too_long, no_place, reports_last, operation_rows, first};
ghost use Rattle.table.specs.State.{admitted};

use crate::periods::warning_of;
use bursts::BurstList;
use report::{Refusal, Report};
use rules::limits::{INSTRUCTIONS, TARIFF_SWITCHES};
use rules::{Connection, Instruction, Operation, Stage};

// Refused where the test holds.
pub(crate) fn refuse_if(test: bool, refusal: Refusal) -> Result<(), Refusal>
    ensures { result ≡ admitted tt (first ((test, refusal) ∷ [])) }
{
    if test { Err(refusal) } else { Ok(()) }
}

// Whether a report with the number `n` awaits confirmation.
fn is_awaiting(n: u16, awaiting: &Option<Report>) -> bool
    ensures { result ≡ awaits n awaiting.now }
{
    awaiting.as_ref().is_some_and(|r| r.number == n)
}

// A burst list is longer than its warning.
fn is_too_long(bursts: &Option<BurstList>) -> bool
    ensures { result ≡ too_long bursts.now }
{
    bursts.as_ref().is_some_and(|b| warning_of(b) < b.length())
}

// An instruction is refused while a period is open, where its tones outlast their warning, and past either limit.
fn admit_instruct(i: &Instruction, c: &Connection) -> Result<(), Refusal>
    ensures { result ≡ admitted tt (first (operation_rows true (Instruct i.now) (Some c.now) 0)) }
{
    let no_switch_left = i.switch.is_some() && c.meter.switches >= TARIFF_SWITCHES;
    refuse_if(c.grant.period.is_some(), Refusal::Pending)?;
    refuse_if(is_too_long(&i.bursts), Refusal::BurstsTooLong)?;
    refuse_if(
        c.grant.had >= INSTRUCTIONS || no_switch_left,
        Refusal::LimitReached,
    )
}

// The end of a connection is refused where its last report has no place.
fn admit_last(room: bool, c: &Connection) -> Result<(), Refusal>
    ensures { result ≡ admitted tt (first (no_place (reports_last (Some c.now)) room ∷ [])) }
{
    refuse_if(c.grant.had != 0 && !room, Refusal::NoFreePlace)
}

// The first of the rows of an operation that holds refuses it, at a connection that is there.
pub(crate) fn admit_at(room: bool, operation: &Operation, c: &Connection) -> Result<(), Refusal>
    ensures { result ≡ admitted tt (first (operation_rows room operation.now (Some c.now) 0)) }
{
    match operation {
        Operation::SetUp => Err(Refusal::AddressConnected),
        Operation::Continue => refuse_if(c.stage != Stage::Consultation, Refusal::WrongStage),
        Operation::Bar => {
            refuse_if(c.stage != Stage::Consultation, Refusal::WrongStage)?;
            admit_last(room, c)
        }
        Operation::Instruct(i) => admit_instruct(i, c),
        Operation::Advise(_) => refuse_if(c.dues.advice.is_some(), Refusal::Pending),
        Operation::Answer => refuse_if(c.stage != Stage::Waiting, Refusal::WrongStage),
        Operation::Disconnect => {
            refuse_if(c.stage == Stage::Consultation, Refusal::WrongStage)?;
            admit_last(room, c)
        }
        Operation::Confirm(n) => refuse_if(!is_awaiting(*n, &c.awaiting), Refusal::WrongStage),
        Operation::Repeat => {
            refuse_if(c.awaiting.is_none(), Refusal::WrongStage)?;
            refuse_if(!room, Refusal::NoFreePlace)
        }
    }
}
