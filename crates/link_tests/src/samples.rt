// Numbered reports, what a link answers, and examples that are written once for every link.
use link::Link;
use piles::{send_all, take_all};
use report::{Address, Elapsed, Refusal, Report, Standing};
use std::process::Abort;
use std::test::Fail;
use std::{array, iter};

// Samples like these stand in `pile_demo` too: a crate of its own for so few lines would be no plainer.

// More reports than any pile of these tests has places.
pub(crate) const ROW: usize = 20;

// Not the number of a report that a test sends.
pub(crate) const UNWRITTEN: u16 = 9_000;

pub(crate) fn numbered(number: u16) -> Report {
    Report {
        address: Address { kind: 1, number: 2 },
        number,
        party: 1,
        tick: 1_000,
        standing: Standing::Active,
        elapsed: Elapsed::Plain(600),
    }
}

// A report whose elapsed time is past its tick.
pub(crate) fn lawless() -> Report {
    Report {
        tick: 599,
        ..numbered(1)
    }
}

// Reports that are numbered from 1 on.
pub(crate) fn row() -> [Report; ROW] {
    array::from_fn(|i| numbered(i as u16 + 1))
}

// Whether the first `count` are numbered from `first` on, and nothing was written behind them.
pub(crate) fn in_order(reports: &[Report], first: u16, count: usize) -> bool {
    let numbers = (first..).take(count).chain(iter::repeat(UNWRITTEN));
    reports
        .iter()
        .map(|report| report.number)
        .eq(numbers.take(reports.len()))
}

// Sends a report, or says the number that it is refused with.
// Refusals are compared by the returned numbers, since these are tested.
pub(crate) fn sent<L: Link>(link: &mut L, report: Report) -> Result<(), u8> {
    link.send(report).map_err(Refusal::number)
}

// The number of the report that is taken, or the number that the take is refused with.
pub(crate) fn taken<L: Link>(link: &mut L) -> Result<u16, u8> {
    link.take()
        .map(|report| report.number)
        .map_err(Refusal::number)
}

// Sends the row, or says how many reports of it went, and the number that the next one was refused with.
pub(crate) fn filled<L: Link>(link: &mut L) -> Result<(), (usize, u8)> {
    send_all(link, &row()).map_err(|unsent| (unsent.count, unsent.refusal.number()))
}

// Takes all that waits: `count` reports, numbered from `first` on.
pub(crate) fn holds<L: Link>(
    rt: &impl Abort,
    link: &mut L,
    first: u16,
    count: usize,
) -> Result<(), Fail> {
    let mut place = [numbered(UNWRITTEN); ROW];
    assert_eq!(rt; take_all(link, &mut place), count);
    assert!(rt; in_order(&place, first, count), "the order");
    assert!(rt; !link.has_waiting());
    assert_eq!(rt; taken(link), Err(13), "a take after the last");
    Ok(())
}

// An empty link of so many places: filled, refused, emptied and filled again.
pub(crate) fn fills_and_empties<L: Link>(
    rt: &impl Abort,
    link: &mut L,
    places: usize,
) -> Result<(), Fail> {
    assert_eq!(rt; taken(link), Err(13));
    assert_eq!(rt; link.has_room(), places > 0);
    assert_eq!(rt; filled(link), Err((places, 11)));
    assert!(rt; !link.has_room());
    assert_eq!(rt;
        sent(link, lawless()),
        Err(2),
        "a lawless report is refused as such, though no place is free"
    );
    holds(rt, link, 1, places)?;
    assert_eq!(rt; filled(link), Err((places, 11)), "filled again");
    holds(rt, link, 1, places)
}

// An empty link of at least one place: filled, then one out and one in, over and over.
pub(crate) fn goes_round<L: Link>(
    rt: &impl Abort,
    link: &mut L,
    places: usize,
    next: u16,
) -> Result<(), Fail> {
    assert_eq!(rt; filled(link), Err((places, 11)));
    for i in 0..5u16 {
        assert_eq!(rt; taken(link), Ok(i + 1));
        assert_eq!(rt; sent(link, numbered(next.saturating_add(i))), Ok(()));
        assert_eq!(rt; sent(link, numbered(1)), Err(11));
    }
    holds(rt, link, 6, places)
}
