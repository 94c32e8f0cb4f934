// Names that are looked for, and bytes that are printed.

use rk_outside::Bytes;
use rk_script::{Named, find, push_escaped, push_escaped_bytes};
use std::test::Fail;

#[test]
fn the_first_of_a_name_is_found(rt: HostRuntime) -> Result<(), Fail> {
    let alloc = rt.alloc();
    let names = [
        Bytes::from_slice(alloc, b"a")?,
        Bytes::from_slice(alloc, b"b")?,
        Bytes::from_slice(alloc, b"b")?,
    ];
    assert_eq!(rt; find(&names, b"b"), Some(1));
    assert_eq!(rt; find(&names, b"c"), None);
    assert_eq!(rt; names[0].name(), b"a".as_slice());
    Ok(())
}

#[test]
fn bytes_are_printed(rt: HostRuntime) -> Result<(), Fail> {
    let mut out = Vec::new(rt.alloc());
    push_escaped(&mut out, b"")?;
    push_escaped_bytes(&mut out, b"")?;
    push_escaped(&mut out, b"a %\x00\xff~")?;
    push_escaped_bytes(&mut out, b"@5")?;
    assert_eq!(rt; out.as_slice(), b"%-a%20%25%00%ff~@5".as_slice());
    Ok(())
}
