// Frames: every field wrong once, at its place; cut frames; the writer's refusals.
use frame::{FRAME, read, write};
use report::{Address, Elapsed, Refusal, Report, Standing};
use std::test::Fail;

// Address 1.2, number 1, party 1, tick 1,000, the last report, plain, 600 ticks.
const SAMPLE: [u8; 24] = [
    0x18, 0, 1, 0, 1, 2, 1, 0, 0, 1, 0, 0, 0xE8, 3, 0, 0, 0x58, 2, 0, 0, 0, 0, 0, 0,
];

fn sample() -> Report {
    Report {
        address: Address { kind: 1, number: 2 },
        number: 1,
        party: 1,
        tick: 1_000,
        standing: Standing::Ended,
        elapsed: Elapsed::Plain(600),
    }
}

// The number and the place, or 0 where there is none, of the refusal of some bytes, if they are refused: the returned numbers
// are what is tested.
fn refused(bytes: &[u8]) -> Option<(u8, usize)> {
    let refusal = read(bytes).err()?;
    Some((refusal.number(), refusal.place().unwrap_or(0)))
}

// A byte of the sample changed: where it is refused.
fn refused_with(at: usize, byte: u8) -> Option<(u8, usize)> {
    let mut bytes = SAMPLE;
    if at < bytes.len() {
        bytes[at] = byte;
    }
    refused(&bytes)
}

#[test]
fn the_sample_is_read_and_written(rt: HostRuntime) -> Result<(), Fail> {
    let (report, rest) = read(&SAMPLE).map_err(|_| Fail::new("the sample is refused"))?;
    assert_eq!(rt; report, sample());
    assert!(rt; rest.is_empty());
    let mut place = [7u8; 26];
    assert_eq!(rt; write(sample(), &mut place), Ok(()));
    assert!(rt; place[0..24] == SAMPLE[0..24]);
    assert_eq!(rt; place[24], 7);
    assert_eq!(rt; place[25], 7);
    Ok(())
}

#[test]
fn each_field_is_wrong_at_its_place(rt: HostRuntime) {
    let wrong = [
        (0, 23, 0),
        (1, 1, 0),
        (2, 2, 2),
        (3, 1, 2),
        (4, 0, 4),
        (4, 3, 4),
        (5, 0, 5),
        (5, 128, 5),
        (6, 0, 6),
        (7, 0x28, 6),
        (8, 0x10, 8),
        (8, 4, 8),
        (8, 9, 8),
        (9, 0, 9),
        (9, 3, 9),
        (10, 1, 10),
        (11, 1, 10),
        (15, 0x78, 12),
        (8, 6, 20),
        (20, 1, 20),
        (17, 4, 20),
    ];
    for (at, byte, place) in wrong {
        assert_eq!(rt; refused_with(at, byte), Some((15, place)), "a changed byte");
    }
    assert_eq!(rt; refused_with(4, 2), None);
}

#[test]
fn cut_frames_are_wrong_at_their_end(rt: HostRuntime) {
    for n in 0..FRAME {
        assert_eq!(rt; refused(&SAMPLE[0..n]), Some((15, n)));
    }
    let [first, ..] = SAMPLE;
    assert_eq!(rt; refused(&[first + 1]), Some((15, 1)));
}

#[test]
fn the_writer_refuses_and_alters_nothing(rt: HostRuntime) {
    let mut place = [7u8; 23];
    assert_eq!(rt; write(sample(), &mut place), Err(Refusal::PlaceTooShort));
    assert!(rt; place == [7u8; 23]);
    let mut lawless = sample();
    lawless.tick = 599;
    assert_eq!(rt; write(lawless, &mut place), Err(Refusal::OutOfRange));
    assert!(rt; place == [7u8; 23]);
}
