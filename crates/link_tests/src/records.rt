// Rings of records.
use crate::samples::{fills_and_empties, goes_round, numbered, taken};
use link::Link;
use report::Refusal;
use ring::Fifo;
use std::test::Fail;

#[test]
fn no_record_is_no_place(rt: HostRuntime) -> Result<(), Fail> {
    fills_and_empties(&rt, &mut Fifo::new(&mut []), 0)
}

#[test]
fn one_record_is_one_place(rt: HostRuntime) -> Result<(), Fail> {
    let mut memory = [numbered(1); 1];
    fills_and_empties(&rt, &mut Fifo::new(&mut memory), 1)?;
    goes_round(&rt, &mut Fifo::new(&mut memory), 1, 2)
}

#[test]
fn two_records_go_round(rt: HostRuntime) -> Result<(), Fail> {
    let mut memory = [numbered(1); 2];
    fills_and_empties(&rt, &mut Fifo::new(&mut memory), 2)?;
    goes_round(&rt, &mut Fifo::new(&mut memory), 2, 3)
}

#[test]
fn a_report_comes_out_whole(rt: HostRuntime) {
    let mut memory = [numbered(1); 2];
    let mut link = Fifo::new(&mut memory);
    assert_eq!(rt; link.send(numbered(7)), Ok(()));
    assert_eq!(rt; link.take(), Ok(numbered(7)));
    assert_eq!(rt; link.take(), Err(Refusal::NothingWaits));
    assert_eq!(rt; taken(&mut link), Err(13));
}
