// Which values of a call are within their ranges.
ghost use Rattle.std.specs.Prelude.{◌≡◌, ◌≤◌};
ghost use Rattle.rules.specs.declared.call.Operation.TheVariants.{Instruct};
ghost use Rattle.rules.specs.Limits.{longest_wait};
ghost use Rattle.rules.specs.Ranges.{clamped, seconds_fit, values_fit, second_fits, fits};

use report::limits::{PARTIES, REPORT_NUMBERS};
use rules::limits::{E_VALUE, PERIOD_TICKS, SWITCH_SECONDS, WAIT_TICKS};
use rules::{Instruction, Operation, SecondSet};

// The wait for a confirmation that a table keeps to.
pub(crate) fn clamp_wait(wait: u32) -> u32
    ensures value { result ≡ clamped wait }
    ensures most { result ≤ longest_wait }
{
    wait.clamp(1, WAIT_TICKS)
}

// A tariff switch comes within a day, if one is asked.
fn seconds_fit(seconds: Option<u32>) -> bool
    ensures { result ≡ seconds_fit seconds }
{
    seconds.is_none_or(|n| (1..=SWITCH_SECONDS).contains(&n))
}

fn instruction_fits(i: &Instruction) -> bool
    ensures { result ≡ fits (Instruct i.now) }
{
    (1..=PERIOD_TICKS).contains(&i.maximum)
        && (1..=PARTIES).contains(&i.party)
        && seconds_fit(i.switch)
}

fn e_values_fit(values: &[Option<u16>]) -> bool
    ensures { result ≡ values_fit values.now }
{
    values
        .iter()
        .all(|value| value.is_none_or(|v| v <= E_VALUE))
}

fn second_fits(second: &Option<SecondSet>) -> bool
    ensures { result ≡ second_fits second.now }
{
    second.as_ref().is_none_or(|s| e_values_fit(&s.set.values)
        && (1..=SWITCH_SECONDS).contains(&s.seconds))
}

// Whether every value that an operation carries is within its range.
pub(crate) fn operation_fits(operation: &Operation) -> bool
    ensures { result ≡ fits operation.now }
{
    match operation {
        Operation::Instruct(i) => instruction_fits(i),
        Operation::Advise(a) => e_values_fit(&a.first.values) && second_fits(&a.second),
        Operation::Confirm(n) => (1..=REPORT_NUMBERS).contains(n),
        Operation::SetUp
        | Operation::Continue
        | Operation::Bar
        | Operation::Answer
        | Operation::Disconnect
        | Operation::Repeat => true,
    }
}
