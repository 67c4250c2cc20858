use commands::{Action, Command, Commands};
use readings::{Reading, Readings, Side};
use records::RecordKind;
use std::test::Fail;
use wire::Refusal;

// The lowest and highest argument of each code, and one beyond.
#[test]
fn takes_the_commands_of_the_table(rt: HostRuntime) {
    for (code, lowest, highest) in [(1, 0, 0), (2, 1, 60), (3, 1, 12), (4, 0, 0), (5, 0, 7)] {
        assert!(rt; Command::new(code, lowest).is_ok());
        assert!(rt; Command::new(code, highest).is_ok());
        assert!(rt; Command::new(code, highest + 1).is_err());
    }
    assert!(rt; Command::new(2, 0).is_err());
    assert!(rt; Command::new(0, 0).is_err());
    assert!(rt; Command::new(6, 0).is_err());
    assert!(rt; Command::new(16, 0).is_err());
    assert!(rt; Command::new(255, u32::MAX).is_err());
}

#[test]
fn packs_and_unpacks_commands(rt: HostRuntime) -> Result<(), Fail> {
    let run = Command::new(2, 60)?;
    assert_eq!(rt; run.action(), Action::Run);
    assert_eq!(rt; Commands.pack(&run), 0x2_0000_003C);
    assert_eq!(rt; Commands.unpack(0x2_0000_003C), Ok(run));
    assert_eq!(rt; Commands.unpack(0x2_0000_003D), Err(Refusal::Code));
    assert_eq!(rt; Commands.unpack(0x12_0000_003C), Err(Refusal::Code));
    assert_eq!(rt; Commands.unpack(u64::MAX), Err(Refusal::Code));
    Ok(())
}

#[test]
fn takes_readings_in_range(rt: HostRuntime) {
    assert!(rt; Reading::new(1, Side::Left, 0, 0).is_ok());
    assert!(rt; Reading::new(12, Side::Right, 6000, 1500).is_ok());
    assert!(rt; Reading::new(0, Side::Left, 0, 0).is_err());
    assert!(rt; Reading::new(13, Side::Left, 0, 0).is_err());
    assert!(rt; Reading::new(1, Side::Left, 6001, 0).is_err());
    assert!(rt; Reading::new(1, Side::Left, 0, 1501).is_err());
}

#[test]
fn packs_and_unpacks_readings(rt: HostRuntime) -> Result<(), Fail> {
    let right = Reading::new(2, Side::Right, 1250, 640)?;
    assert_eq!(rt; right.force_newtons(), 12_500);
    assert_eq!(rt; Readings.pack(&right), 0x2_8271_1400);
    assert_eq!(rt; Readings.unpack(0x2_8271_1400), Ok(right));
    assert_eq!(rt; Readings.unpack(0x2_8271_1401), Err(Refusal::Code));
    assert_eq!(rt; Readings.unpack(0x12_8271_1400), Err(Refusal::Code));
    Ok(())
}

#[test]
fn shows_plain_units(rt: HostRuntime) -> Result<(), Fail> {
    let reading = Reading::new(2, Side::Right, 1250, 605)?.to_string(rt.alloc())?;
    assert!(rt; reading.as_str() == "axle 2 right, 12500 N, 6.05 bar");
    let run = Command::new(2, 7)?.to_string(rt.alloc())?;
    assert!(rt; run.as_str() == "run at 0.7 km/h");
    Ok(())
}
