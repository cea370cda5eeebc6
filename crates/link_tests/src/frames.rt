// Rings of frames in bytes: 23 bytes make no place, 24 and 47 make one, 48 make two.
use crate::samples::{fills_and_empties, goes_round, lawless, numbered, sent};
use frame_ring::FrameRing;
use link::Link;
use std::test::Fail;

// A report numbered 1 as a frame.
const FIRST: [u8; 24] = [
    0x18, 0, 1, 0, 1, 2, 1, 0, 1, 1, 0, 0, 0xE8, 3, 0, 0, 0x58, 2, 0, 0, 0, 0, 0, 0,
];

// What stands in bytes that nothing was written to.
const UNTOUCHED: u8 = 7;

// Whether the bytes begin with some, and nothing was written behind them.
fn holds_only(bytes: &[u8], front: &[u8]) -> bool {
    bytes
        .strip_prefix(front)
        .is_some_and(|rest| rest.iter().all(|byte| *byte == UNTOUCHED))
}

// Sends one report and the lawless one, each twice: what each is answered.
fn send_four(bytes: &mut [u8]) -> [Result<(), u8>; 4] {
    let mut ring = FrameRing::new(bytes);
    [
        sent(&mut ring, lawless()),
        sent(&mut ring, numbered(1)),
        sent(&mut ring, numbered(2)),
        sent(&mut ring, lawless()),
    ]
}

// A host's function that is handed a ring, and calls it: how many wait once the oldest is taken.
fn left_after_one(mut ring: FrameRing<'_>) -> usize {
    let _ = ring.take();
    ring.len()
}

#[test]
fn too_few_bytes_are_no_place(rt: HostRuntime) -> Result<(), Fail> {
    fills_and_empties(&rt, &mut FrameRing::new(&mut []), 0)?;
    let mut bytes = [UNTOUCHED; 23];
    fills_and_empties(&rt, &mut FrameRing::new(&mut bytes), 0)?;
    assert!(rt; holds_only(&bytes, &[]));
    assert!(rt; send_four(&mut bytes) == [Err(2), Err(11), Err(11), Err(2)]);
    assert!(rt; holds_only(&bytes, &[]), "a refused send writes nothing");
    Ok(())
}

#[test]
fn one_place_in_24_bytes(rt: HostRuntime) -> Result<(), Fail> {
    let mut bytes = [UNTOUCHED; 24];
    assert!(rt; send_four(&mut bytes) == [Err(2), Ok(()), Err(11), Err(2)]);
    assert!(rt; holds_only(&bytes, &FIRST));
    fills_and_empties(&rt, &mut FrameRing::new(&mut bytes), 1)?;
    goes_round(&rt, &mut FrameRing::new(&mut bytes), 1, 2)
}

#[test]
fn one_place_in_47_bytes(rt: HostRuntime) -> Result<(), Fail> {
    let mut bytes = [UNTOUCHED; 47];
    assert!(rt; send_four(&mut bytes) == [Err(2), Ok(()), Err(11), Err(2)]);
    assert!(rt;
        holds_only(&bytes, &FIRST),
        "past the last whole place nothing is written"
    );
    fills_and_empties(&rt, &mut FrameRing::new(&mut bytes), 1)?;
    assert!(rt; holds_only(&bytes[24..], &[]));
    Ok(())
}

#[test]
fn two_places_in_48_bytes(rt: HostRuntime) -> Result<(), Fail> {
    let mut bytes = [UNTOUCHED; 48];
    fills_and_empties(&rt, &mut FrameRing::new(&mut bytes), 2)?;
    goes_round(&rt, &mut FrameRing::new(&mut bytes), 2, 3)
}

#[test]
fn a_ring_is_handed_on_and_called(rt: HostRuntime) -> Result<(), Fail> {
    let mut bytes = [UNTOUCHED; 48];
    let mut ring = FrameRing::new(&mut bytes);
    assert!(rt; sent(&mut ring, numbered(1)) == Ok(()));
    assert!(rt; sent(&mut ring, numbered(2)) == Ok(()));
    assert!(rt; left_after_one(ring) == 1);
    Ok(())
}
