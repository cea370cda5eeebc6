// Accounts: growing, switching, closing, repeats, and every way to be refused.
use account::{AccountRecord, Status, closed_records, read_all, read_one};
use report::{Address, Elapsed, Refusal, Report, Standing};
use std::test::Fail;

fn report(address: u8, number: u16, standing: Standing, elapsed: Elapsed) -> Report {
    Report {
        address: Address {
            kind: 1,
            number: address,
        },
        number,
        party: 1,
        tick: 1_000_000,
        standing,
        elapsed,
    }
}

fn active(number: u16, elapsed: Elapsed) -> Report {
    report(2, number, Standing::Active, elapsed)
}

fn switched(time: u32, interval: Option<u32>) -> Elapsed {
    Elapsed::Switched { time, interval }
}

// The number that a report is refused with, if it is: the returned numbers are what is tested.
fn refused(records: &mut [AccountRecord], report: &Report) -> Option<u8> {
    read_one(records, report).err().map(Refusal::number)
}

// How many of some reports are read, and the number that the next one is refused with, if one is.
fn stopped(reports: &[Report]) -> Option<(usize, u8)> {
    read_all(&mut closed_records(), reports)
        .err()
        .map(|stop| (stop.index, stop.refusal.number()))
}

#[test]
fn an_account_grows_switches_and_closes(rt: HostRuntime) -> Result<(), Fail> {
    let mut records = closed_records();
    let first = read_one(&mut records, &active(1, Elapsed::Plain(600)));
    assert!(rt; first.is_ok());
    let second = read_one(&mut records, &active(2, switched(400, Some(800))));
    assert!(rt; second.is_ok());
    let again = read_one(&mut records, &active(2, Elapsed::Plain(1))).map_err(|_| Fail::new(
        "a repeat is refused",
    ))?;
    assert_eq!(rt; again.status, Status::Repeat);
    let last = report(2, 3, Standing::Released, switched(450, None));
    let closed = read_one(&mut records, &last).map_err(|_| Fail::new(
        "the last report is refused",
    ))?;
    assert_eq!(rt; closed.status, Status::Closed);
    assert_eq!(rt; closed.account.tariff, 2);
    let [one, two, ..] = closed.account.ticks;
    assert_eq!(rt; (one, two), (800, 450));
    assert_eq!(rt;
        refused(&mut records, &active(1, Elapsed::Plain(0))),
        None,
        "the address is free again"
    );
    Ok(())
}

#[test]
fn a_broken_rule_is_refused(rt: HostRuntime) {
    assert_eq!(rt;
        stopped(&[active(2, Elapsed::Plain(0))]),
        Some((0, 16)),
        "no account is open"
    );
    assert_eq!(rt;
        stopped(&[
            active(1, Elapsed::Plain(600)),
            active(3, Elapsed::Plain(700)),
        ]),
        Some((1, 16)),
        "a number is left out"
    );
    assert_eq!(rt;
        stopped(&[
            active(1, Elapsed::Plain(600)),
            active(2, Elapsed::Plain(599)),
        ]),
        Some((1, 16)),
        "fewer ticks"
    );
    assert_eq!(rt;
        stopped(&[
            active(1, switched(5, Some(6))),
            active(2, Elapsed::Plain(7)),
        ]),
        Some((1, 16)),
        "plain after a switch"
    );
    assert_eq!(rt;
        stopped(&[active(1, Elapsed::Plain(6)), active(2, switched(7, None))]),
        Some((1, 16)),
        "a switch before the answer, but ticks"
    );
    assert_eq!(rt;
        stopped(&[
            active(1, switched(9, None)),
            active(2, switched(1, Some(8))),
        ]),
        Some((1, 16)),
        "an interval with fewer ticks"
    );
    let mut lawless = active(1, Elapsed::Plain(0));
    lawless.party = 3;
    assert_eq!(rt;
        stopped(&[lawless]),
        Some((0, 2)),
        "outside the frame's rules"
    );
}

// Reads the first report of each address from 1 on, as many as asked for: the first refusal's number.
fn open_all(records: &mut [AccountRecord], count: u8) -> Option<u8> {
    (1..=count).find_map(|address| refused(
        records,
        &report(address, 1, Standing::Active, Elapsed::Plain(0)),
    ))
}

// Reads reports that each switch once more, as many as asked for: the first refusal's number.
fn switch_all(records: &mut [AccountRecord], count: u16) -> Option<u8> {
    (1..=count).find_map(|number| refused(records, &active(number, switched(1, Some(1)))))
}

#[test]
fn the_last_tariff_has_none_after_it(rt: HostRuntime) {
    let mut records = closed_records();
    assert_eq!(rt; switch_all(&mut records, 15), None);
    assert_eq!(rt;
        refused(&mut records, &active(16, switched(1, Some(1)))),
        Some(16)
    );
    assert_eq!(rt; refused(&mut records, &active(16, switched(1, None))), None);
}

#[test]
fn only_so_many_accounts_are_open(rt: HostRuntime) {
    let mut records = closed_records();
    assert_eq!(rt; open_all(&mut records, 16), None);
    assert_eq!(rt;
        refused(
            &mut records,
            &report(17, 1, Standing::Active, Elapsed::Plain(0)),
        ),
        Some(17)
    );
    assert_eq!(rt;
        refused(
            &mut records,
            &report(17, 1, Standing::Ended, Elapsed::Plain(0)),
        ),
        Some(17)
    );
    assert_eq!(rt;
        refused(
            &mut records,
            &report(3, 2, Standing::Ended, Elapsed::Plain(0)),
        ),
        None
    );
    assert_eq!(rt;
        refused(
            &mut records,
            &report(17, 1, Standing::Active, Elapsed::Plain(0)),
        ),
        None
    );
}

#[test]
fn fewer_records_hold_fewer_accounts(rt: HostRuntime) {
    let mut records = [AccountRecord::closed()];
    assert_eq!(rt; open_all(&mut records, 1), None);
    assert_eq!(rt;
        refused(
            &mut records,
            &report(2, 1, Standing::Active, Elapsed::Plain(0)),
        ),
        Some(17)
    );
}
