use capture::{Content, Fault, decode, report};
use std::test::Fail;

#[test]
fn names_what_is_wrong(rt: HostRuntime) -> Result<(), Fail> {
    assert_eq!(rt; decode(b""), Err(Fault::NoWord));
    assert_eq!(rt; decode(b"0100000000001EF1 "), Err(Fault::NoWord));
    assert_eq!(rt; decode(b"0100000000001ef1"), Err(Fault::NoWord));
    assert_eq!(rt; decode(b"0100000000001EF0"), Err(Fault::NotWhole));
    let acknowledgement = decode(b"0100000000001EF1")?;
    assert_eq!(rt; acknowledgement.label, 1);
    assert_eq!(rt; acknowledgement.content, Content::Acknowledgement);
    Ok(())
}

#[test]
fn counts_a_capture(rt: HostRuntime) -> Result<(), Fail> {
    let none = report(rt.alloc(), b"")?;
    assert!(rt; none.as_str() == "0 records, 0 acknowledgements, 0 unreadable\n");
    let two = report(rt.alloc(), b"\n0100000000001EF1")?;
    assert!(rt;
        two.as_str()
            == "no word\nlabel 1: acknowledgement\n0 records, 1 acknowledgements, 1 unreadable\n"
    );
    Ok(())
}
