// The text of whole inputs, in one block and cut.
use frame::write;
use report::{Address, Elapsed, Report, Standing};
use stream::Tally;

fn frame_of(number: u16, standing: Standing, elapsed: Elapsed) -> [u8; 24] {
    let mut place = [0u8; 24];
    let report = Report {
        address: Address { kind: 1, number: 2 },
        number,
        party: 2,
        tick: 2_000,
        standing,
        elapsed,
    };
    let _ = write(report, &mut place);
    place
}

// What is told of a block of whole frames by a tally.
fn told<'a>(tally: &mut Tally, block: &[u8], page: &'a mut [u8]) -> Option<&'a [u8]> {
    let end = tally.tell_block(block, page)?;
    Some(&page[..end])
}

#[test]
fn lines_of_an_account(rt: HostRuntime) {
    let mut tally = Tally::new();
    let mut page = [0u8; 800];
    let first = frame_of(1, Standing::Active, Elapsed::Plain(600));
    assert!(rt; told(&mut tally, &first, &mut page) == Some(b"1.2 #1 open 1:600\n".as_slice()));
    let second = frame_of(
        2,
        Standing::Released,
        Elapsed::Switched {
            time: 450,
            interval: Some(800),
        },
    );
    assert!(rt;
        told(&mut tally, &second, &mut page) == Some(b"1.2 #2 closed 1:800 2:450\n".as_slice())
    );
    assert!(rt; told(&mut tally, &second, &mut page) == Some(b"fault account 16 48\n".as_slice()));
    assert!(rt; tally.has_ended());
    assert!(rt; told(&mut tally, &first, &mut page) == Some(b"".as_slice()));
}

#[test]
fn a_wrong_frame_ends_the_text(rt: HostRuntime) {
    let mut tally = Tally::new();
    let mut page = [0u8; 800];
    let mut wrong = frame_of(1, Standing::Active, Elapsed::Plain(600));
    wrong[8] = 9;
    assert!(rt; told(&mut tally, &wrong, &mut page) == Some(b"fault frame 15 8\n".as_slice()));
    assert_eq!(rt; tally.tell_rest(&wrong, &mut page), Some(0));
}

#[test]
fn an_input_may_end_between_frames_only(rt: HostRuntime) {
    let mut tally = Tally::new();
    let mut page = [0u8; 1_600];
    let first = frame_of(1, Standing::Active, Elapsed::Plain(600));
    assert_eq!(rt; tally.tell_block(&first, &mut page), Some(18));
    assert_eq!(rt; tally.tell_rest(&[], &mut page), Some(0));
    assert_eq!(rt; tally.tell_rest(&first[0..13], &mut page), Some(18));
    assert!(rt; &page[0..18] == b"fault frame 15 37\n".as_slice());
    assert_eq!(rt; tally.tell_block(&first, &mut [0u8; 799]), None);
}
