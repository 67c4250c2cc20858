use std::test::Fail;
use wire::bits::{join, low};
use wire::{Refusal, Word, is_whole};

#[test]
fn packs_the_worked_words(rt: HostRuntime) {
    assert_eq!(rt; Word::acknowledge(0).pack(), 0x0000_0000_0000_FFF1);
    assert_eq!(rt; Word::acknowledge(3).pack(), 0x0300_0000_0000_5CD3);
    let reading = Word {
        label: 5,
        kind: 2,
        payload: 0x2_8271_1400,
    };
    assert_eq!(rt; reading.pack(), 0x0522_8271_1400_C3BC);
    assert!(rt; !is_whole(0x0100_0000_0000_1EF0));
}

#[test]
fn reads_at_the_edges_of_every_field(rt: HostRuntime) {
    let top = Word {
        label: 255,
        kind: 15,
        payload: 0xF_FFFF_FFFF,
    };
    assert_eq!(rt; Word::read(top.pack()), Some(top));
    let zero = Word {
        label: 0,
        kind: 0,
        payload: 0,
    };
    assert_eq!(rt; Word::read(zero.pack()), Some(zero));
    assert!(rt; zero.is_acknowledgement());
    assert!(rt;
        !Word {
            label: 0,
            kind: 0,
            payload: 1,
        }
        .is_acknowledgement()
    );
    assert_eq!(rt; Word::read(0), None);
    assert_eq!(rt; Word::read(u64::MAX), None);
}

#[test]
fn sees_every_changed_bit(rt: HostRuntime) {
    let bits = Word {
        label: 200,
        kind: 1,
        payload: 0x2_0000_003C,
    }
    .pack();
    for i in 0..64u32 {
        assert!(rt; !is_whole(bits ^ 1u64.rotate_left(i)));
    }
    assert!(rt; is_whole(bits));
}

#[test]
fn cuts_and_joins_bits(rt: HostRuntime) {
    assert_eq!(rt; low(u64::MAX, 0), 0);
    assert_eq!(rt; low(u64::MAX, 63), u64::MAX / 2);
    assert_eq!(rt; low(u64::MAX, 64), u64::MAX);
    assert_eq!(rt; join(5, 4, 0x3A), 0x5A);
    assert_eq!(rt; join(u64::MAX, 63, 0), 1u64.rotate_left(63));
    assert_eq!(rt; join(7, 64, 9), 9);
}

#[test]
fn numbers_refusals(rt: HostRuntime) -> Result<(), Fail> {
    assert_eq!(rt; Refusal::Size.number(), 1);
    assert_eq!(rt; Refusal::Page.number(), 14);
    let text = Refusal::Spoilt.to_string(rt.alloc())?;
    assert!(rt; text.as_str() == "spoilt");
    Ok(())
}
