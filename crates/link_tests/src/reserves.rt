// Reserves above rings and above reserves.
use crate::samples::{
    filled, fills_and_empties, goes_round, holds, lawless, numbered, row, sent, taken,
};
use frame_ring::FrameRing;
use link::Link;
use piles::{Unsent, fill_frames, fill_records};
use report::Refusal;
use reserve::{RESERVE_PLACES, Reserve};
use ring::Fifo;
use std::process::Abort;
use std::test::Fail;

#[test]
fn a_reserve_above_no_place(rt: HostRuntime) -> Result<(), Fail> {
    let mut layer = Reserve::new(Fifo::new(&mut []));
    fills_and_empties(&rt, &mut layer, RESERVE_PLACES)?;
    goes_round(&rt, &mut layer, RESERVE_PLACES, 9)?;
    assert_eq!(rt; sent(&mut layer, numbered(1)), Ok(()));
    assert_eq!(rt; layer.held(), 1, "it has nowhere to go");
    Ok(())
}

#[test]
fn a_full_reserve_above_a_full_ring(rt: HostRuntime) -> Result<(), Fail> {
    let mut memory = [numbered(1); 2];
    let mut layer = Reserve::new(Fifo::new(&mut memory));
    assert_eq!(rt; filled(&mut layer), Err((10, 11)));
    assert_eq!(rt; layer.held(), RESERVE_PLACES);
    assert_eq!(rt; taken(&mut layer), Ok(1));
    assert_eq!(rt; layer.held(), 7, "the oldest held report moved down");
    assert_eq!(rt; sent(&mut layer, numbered(11)), Ok(()));
    assert_eq!(rt; layer.held(), 8, "behind those that are held");
    assert_eq!(rt; sent(&mut layer, numbered(12)), Err(11));
    holds(&rt, &mut layer, 2, 10)
}

#[test]
fn a_reserve_that_holds_reports_is_kept(rt: HostRuntime) -> Result<(), Fail> {
    let mut memory = [numbered(1); 2];
    let mut layer = Reserve::new(Fifo::new(&mut memory));
    assert_eq!(rt; sent(&mut layer, numbered(1)), Ok(()));
    assert_eq!(rt; sent(&mut layer, numbered(2)), Ok(()));
    assert_eq!(rt; layer.held(), 0, "the ring has places");
    assert_eq!(rt; sent(&mut layer, numbered(3)), Ok(()));
    let Err(mut layer) = layer.into_below() else {
        return Err(Fail::new("a held report is lost"));
    };
    assert_eq!(rt; taken(&mut layer), Ok(1));
    let Ok(mut ring) = layer.into_below() else {
        return Err(Fail::new("the held report did not move down"));
    };
    holds(&rt, &mut ring, 2, 2)
}

#[test]
fn reserves_above_records(rt: HostRuntime) -> Result<(), Fail> {
    let mut one = [numbered(1); 1];
    fills_and_empties(&rt, &mut Reserve::new(Fifo::new(&mut one)), 9)?;
    let mut two = [numbered(1); 2];
    goes_round(&rt, &mut Reserve::new(Fifo::new(&mut two)), 10, 11)?;
    let mut pile = Reserve::new(Reserve::new(Fifo::new(&mut two)));
    fills_and_empties(&rt, &mut pile, 18)?;
    goes_round(&rt, &mut pile, 18, 19)
}

// A reserve above the places in some bytes.
fn above_bytes(rt: &impl Abort, bytes: &mut [u8], places: usize) -> Result<(), Fail> {
    fills_and_empties(rt, &mut Reserve::new(FrameRing::new(bytes)), places)
}

#[test]
fn a_reserve_above_frames(rt: HostRuntime) -> Result<(), Fail> {
    above_bytes(&rt, &mut [0u8; 23], 8)?;
    above_bytes(&rt, &mut [0u8; 24], 9)?;
    above_bytes(&rt, &mut [0u8; 47], 9)?;
    above_bytes(&rt, &mut [0u8; 48], 10)
}

#[test]
fn two_reserves_above_frames(rt: HostRuntime) -> Result<(), Fail> {
    let mut bytes = [0u8; 48];
    let mut pile = Reserve::new(Reserve::new(FrameRing::new(&mut bytes)));
    fills_and_empties(&rt, &mut pile, 18)?;
    goes_round(&rt, &mut pile, 18, 19)
}

#[test]
fn filled_piles_say_why_they_stop(rt: HostRuntime) -> Result<(), Fail> {
    let mut memory = [numbered(1); 2];
    let (mut pile, sent) = fill_records(&mut memory, &row());
    assert_eq!(rt;
        sent,
        Err(Unsent {
            count: 18,
            refusal: Refusal::NoFreePlace
        })
    );
    assert_eq!(rt; pile.held(), RESERVE_PLACES);
    holds(&rt, &mut pile, 1, 18)?;
    let mut bytes = [0u8; 47];
    let (mut layer, sent) = fill_frames(
        &mut bytes,
        &[numbered(1), numbered(2), lawless(), numbered(3)],
    );
    assert_eq!(rt;
        sent,
        Err(Unsent {
            count: 2,
            refusal: Refusal::OutOfRange
        })
    );
    holds(&rt, &mut layer, 1, 2)
}
