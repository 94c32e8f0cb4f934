// How many names a file may have at once.

use crate::files::refusal;
use rk_outside::NoMemory;
use rk_script::Why;
use std::alloc::Global;
use std::test::Fail;

// Lines that differ by two letters after their first words, and the rest of a file.
fn many_names(
    alloc: Global,
    verb: &[u8],
    count: u16,
    rest: &[u8],
    last: &[u8],
) -> Result<Vec<u8>, NoMemory> {
    let mut file = Vec::new(alloc);
    for i in 0..count {
        file.extend_from_slice(verb)?;
        for digit in [i / 676 % 26, i / 26 % 26, i % 26] {
            file.push(b'a' + digit as u8)?;
        }
        file.extend_from_slice(rest)?;
    }
    file.extend_from_slice(last)?;
    Ok(file)
}

#[test]
fn limits_are_kept(rt: HostRuntime) -> Result<(), Fail> {
    let alloc = rt.alloc();
    let too_many = |line| Some((line, Why::TooMany));
    let files = [
        (
            many_names(alloc, b"del ", 64, b" k\n", b"commit aaa")?,
            None,
        ),
        (
            many_names(alloc, b"del ", 64, b" k\n", b"commit b")?,
            too_many(65),
        ),
        (
            many_names(alloc, b"iter ", 100, b"\n", b"close aab\niter b")?,
            None,
        ),
        (
            many_names(alloc, b"iter ", 100, b"\n", b"iter b")?,
            too_many(101),
        ),
        (
            many_names(alloc, b"snap ", 1000, b"\n", b"release aab\nsnap b")?,
            None,
        ),
        (
            many_names(alloc, b"snap ", 1000, b"\n", b"snap b")?,
            too_many(1001),
        ),
    ];
    for (file, wanted) in &files {
        assert_eq!(rt; refusal(alloc, file), *wanted);
    }
    Ok(())
}
