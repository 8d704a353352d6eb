use crate::{MemFiles, MemSink, ReadEnd, read_all, write_all};
use std::test::Fail;

const LONG: [u8; 5000] = [7; 5000];

#[test]
fn files_are_read_whole_or_not_at_all(rt: HostRuntime) -> Result<(), Fail> {
    // The call that fails (0 for none), the limit, and the end where it isn't Ok.
    let rows = [
        ("a file as long as the limit", 0, 5000, None),
        ("one byte too long", 0, 4999, Some(ReadEnd::TooLong)),
        ("the begin fails", 1, 5000, Some(ReadEnd::Failed)),
        ("the second read fails", 3, 5000, Some(ReadEnd::Failed)),
        ("a call after the last read", 5, 5000, None),
    ];
    for (name, call, limit, end) in rows {
        let mut files = MemFiles::new(rt.alloc());
        files.add("b", b"other")?;
        files.add("a", &LONG)?;
        files.add("a", b"second")?;
        files.fail_at(call)?;
        let read = read_all(rt.alloc(), &mut files, "a", limit);
        match read {
            Ok(bytes) => {
                assert_eq!(rt; end, None, "at {name}");
                assert_eq!(rt; bytes.as_slice(), LONG.as_slice(), "at {name}");
            }
            Err(e) => assert_eq!(rt; Some(e), end, "at {name}"),
        }
        assert_eq!(rt;
            read_all(rt.alloc(), &mut files, "c", 9).err(),
            Some(ReadEnd::Failed),
            "at {name}, a file that isn't there"
        );
    }
    Ok(())
}

#[test]
fn sinks_take_what_fits(rt: HostRuntime) -> Result<(), Fail> {
    // The room, the write that fails, and what is there after the pieces "abc" and "def".
    let rows = [
        ("both fit", 6, 9, "abcdef"),
        ("the second write fails", 6, 2, "abc"),
        ("the second fits in part", 4, 9, "abcd"),
        ("no room, and the first fails", 0, 1, ""),
    ];
    for (name, room, fails, want) in rows {
        let mut sink = MemSink::new(rt.alloc(), room, &[fails])?;
        let all = write_all(&mut sink, b"abc").and_then(|_| write_all(&mut sink, b"def"));
        assert_eq!(rt; sink.bytes(), want.as_bytes(), "at {name}");
        assert_eq!(rt; all.is_ok(), want.len() == 6, "at {name}");
    }
    Ok(())
}
