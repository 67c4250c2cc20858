use report::report;
use std::process::Abort;
use std::test::*;

// The report of a script is this text, and the rest of the page stays as it is.
pub fn reports(rt: &(impl Abort + AllocGlobal), script: &[u8], text: &[u8]) -> Result<(), Fail> {
    let mut page = vec![in rt.alloc(); 46u8; 50_000]?;
    let length = report(script, &mut page)?;
    assert_eq!(rt; length, text.len());
    assert!(rt; &page[0..length] == text);
    for byte in &page[length..] {
        assert_eq!(rt; *byte, 46);
    }
    Ok(())
}
