// Keys and suffixes.
use rk_key::{KeyError, Which, compare, read_key, read_suffix, split};
use std::alloc::Global;
use std::cmp::Ordering;
use std::test::Fail;

fn bad(which: Which, at: usize) -> Option<KeyError> {
    Some(KeyError::BadKey { which, at })
}

#[test]
fn keys_and_what_is_refused(rt: HostRuntime) {
    let long = [b'a'; 201];
    let table: [(&[u8], Option<KeyError>); 9] = [
        (&long[..200], None),
        (&long, bad(Which::Key, 200)),
        (b"a", None),
        (b"a@18446744073709551615", None),
        (b"a@18446744073709551616", bad(Which::Key, 21)),
        (b"a@", bad(Which::Key, 2)),
        (b"a@05", bad(Which::Key, 2)),
        (b"@5", bad(Which::Key, 0)),
        (b"", bad(Which::Key, 0)),
    ];
    for (bytes, want) in table {
        assert_eq!(rt; read_key(rt.alloc(), bytes).err(), want);
    }
}

#[test]
fn suffixes_and_what_is_refused(rt: HostRuntime) {
    let table: [(&[u8], Option<KeyError>); 5] = [
        (b"@5", None),
        (b"", None),
        (b"5", bad(Which::Suffix, 0)),
        (b"@5@", bad(Which::Suffix, 2)),
        (b"@", bad(Which::Suffix, 1)),
    ];
    for (bytes, want) in table {
        assert_eq!(rt; read_suffix(rt.alloc(), bytes).err(), want);
    }
}

#[test]
fn parts_of_a_key(rt: HostRuntime) -> Result<(), Fail> {
    let key = read_key(rt.alloc(), b"apple@12")?;
    assert_eq!(rt; key.bytes(), b"apple@12".as_slice());
    assert_eq!(rt; key.prefix(), b"apple".as_slice());
    assert_eq!(rt; key.suffix(), b"@12".as_slice());
    assert_eq!(rt; split(key.bytes()), 5);
    Ok(())
}

#[test]
fn copies_are_equal(rt: HostRuntime) -> Result<(), Fail> {
    let key = read_key(rt.alloc(), b"apple@12")?;
    assert!(rt; key.copy()? == key);
    let suffix = read_suffix(rt.alloc(), b"@12")?;
    assert_eq!(rt; suffix.copy().bytes(), b"@12".as_slice());
    Ok(())
}

fn order(alloc: Global, a: &[u8], b: &[u8]) -> Result<Ordering, KeyError> {
    let a = read_key(alloc, a)?;
    let b = read_key(alloc, b)?;
    Ok(compare(a.bytes(), b.bytes()))
}

#[test]
fn keys_ascend(rt: HostRuntime) {
    let ascending: [&[u8]; 6] = [b"a", b"a@10", b"a@9", b"a@5", b"aa@20", b"b"];
    for pair in ascending.windows(2) {
        assert_eq!(rt; order(rt.alloc(), pair[0], pair[1]), Ok(Ordering::Less));
    }
}

#[test]
fn comparisons(rt: HostRuntime) -> Result<(), Fail> {
    assert!(rt; read_key(rt.alloc(), b"a@9")? < read_key(rt.alloc(), b"a@5")?);
    assert!(rt; read_suffix(rt.alloc(), b"@9")? < read_suffix(rt.alloc(), b"@5")?);
    Ok(())
}
