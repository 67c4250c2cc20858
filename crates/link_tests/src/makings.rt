use commands::{Command, Commands};
use link::{Link, check as check_link};
use queues::{DelayLine, Ring};
use readings::{Reading, Readings, Side};
use setups::{first_back, first_forward, second_back, second_forward};
use std::test::Fail;
use wire::Refusal;

fn labels_made(labels: u16) -> Result<u16, Fail> {
    let link = Link::new(
        Commands,
        labels,
        first_forward(),
        first_back(),
        Command::new(1, 0)?,
    );
    Ok(link.labels())
}

#[test]
fn a_label_count_out_of_range_becomes_two(rt: HostRuntime) -> Result<(), Fail> {
    assert_eq!(rt; labels_made(0)?, 2);
    assert_eq!(rt; labels_made(1)?, 2);
    assert_eq!(rt; labels_made(2)?, 2);
    assert_eq!(rt; labels_made(256)?, 256);
    assert_eq!(rt; labels_made(257)?, 2);
    assert_eq!(rt; labels_made(65_535)?, 2);
    Ok(())
}

#[test]
fn the_check_wants_two_labels_more_than_places(rt: HostRuntime) {
    assert_eq!(rt; check_link(&first_forward(), &first_back(), 4), Ok(()));
    assert_eq!(rt;
        check_link(&first_forward(), &first_back(), 3),
        Err(Refusal::Labels)
    );
    assert_eq!(rt; check_link(&first_forward(), &first_back(), 256), Ok(()));
    assert_eq!(rt;
        check_link(&first_forward(), &first_back(), 257),
        Err(Refusal::Labels)
    );
    assert_eq!(rt; check_link(&second_forward(), &second_back(), 10), Ok(()));
    assert_eq!(rt;
        check_link(&second_forward(), &second_back(), 9),
        Err(Refusal::Labels)
    );
    assert_eq!(rt;
        check_link(&Ring::new(64), &DelayLine::new(64, 15), 130),
        Ok(())
    );
}

// Words are lost, and each exchange is completed within a hundred rounds all the same.
#[test]
fn readings_cross_the_second_set_up(rt: HostRuntime) -> Result<(), Fail> {
    let first = Reading::new(1, Side::Left, 0, 0)?;
    let mut link = Link::new(Readings, 10, second_forward(), second_back(), first);
    assert_eq!(rt; link.check(), Ok(()));
    for pressure in 1..20u16 {
        let reading = Reading::new(2, Side::Right, 1250, pressure)?;
        assert_eq!(rt; link.offer(reading), Ok(()));
        for _ in 0..100u8 {
            if link.observer().completed < pressure {
                let _ = link.round();
            }
        }
        assert_eq!(rt; link.observer().completed, pressure);
        assert_eq!(rt; link.receiver().delivered, reading);
    }
    assert_eq!(rt; link.observer().first, 1);
    Ok(())
}
