// The first line of a case, as `case NAME script LENGTH report LENGTH` or `case NAME script LENGTH refused NUMBER`.
use fields::Fields;

// What comes after the script, by the header: so many bytes of report, or nothing, since the script is refused by a number.
pub type Claim = Result<u64, u64>;

#[derive(Clone, Copy)]
pub struct Header<'a> {
    pub name: &'a [u8],
    pub script: u64,
    pub claim: Claim,
}

// The header that a line is; nothing where it has another form.
pub fn parse_header(line: &[u8]) -> Option<Header<'_>> {
    let mut fields = Fields::new(line);
    if fields.word()? != b"case".as_slice() {
        return None;
    }
    let name = fields.word()?;
    if !is_name(name) || fields.word()? != b"script".as_slice() {
        return None;
    }
    let script = fields.number(u64::MAX)?;
    let claim = match fields.word()? {
        b"report" => Ok(fields.number(u64::MAX)?),
        b"refused" => Err(fields.number(u64::MAX)?),
        _ => return None,
    };
    fields.is_done().then_some(Header {
        name,
        script,
        claim,
    })
}

// A name has letters, digits, `_` and `-`, at least one.
fn is_name(name: &[u8]) -> bool {
    !name.is_empty()
        && name.iter().all(|byte| byte.is_ascii_alphanumeric() || matches!(byte, b'_' | b'-'))
}
