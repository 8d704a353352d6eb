use crate::{AccessKind, PmpRegs, allow};

// The registers with these configuration bytes and addresses in the first three entries.
fn entries(cfg: [u8; 3], addr: [u32; 3]) -> PmpRegs {
    PmpRegs {
        cfg: [
            cfg[0], cfg[1], cfg[2], 0, 0, 0, 0, 0, 0, 0, 0, 0, 0, 0, 0, 0,
        ],
        addr: [
            addr[0], addr[1], addr[2], 0, 0, 0, 0, 0, 0, 0, 0, 0, 0, 0, 0, 0,
        ],
        sec: 0,
    }
}

// Bytes at the edges of a range that U may read, and whether it may.
#[test]
fn ranges_end_where_the_manual_says(rt: HostRuntime) {
    let off = entries([0x07, 0, 0], [0xffff_ffff, 0, 0]);
    let top = entries([0, 0x09, 0], [0x400, 0x404, 0]);
    let first_top = entries([0x09, 0, 0], [0x404, 0, 0]);
    let empty_top = entries([0, 0x09, 0], [0x404, 0x400, 0]);
    let four = entries([0x11, 0, 0], [0x400, 0, 0]);
    let eight = entries([0x19, 0, 0], [0x400, 0, 0]);
    let sixteen = entries([0x19, 0, 0], [0x401, 0, 0]);
    let half = entries([0x19, 0, 0], [0x1fff_ffff, 0, 0]);
    let all = entries([0x19, 0, 0], [0xffff_ffff, 0, 0]);
    let table = [
        ("an entry that is off", off, 0x1000, false),
        ("TOR, the byte before", top, 0xfff, false),
        ("TOR, its first byte", top, 0x1000, true),
        ("TOR, its last byte", top, 0x100f, true),
        ("TOR, the byte after", top, 0x1010, false),
        ("TOR of entry 0, from 0 on", first_top, 0, true),
        ("TOR of entry 0, its last byte", first_top, 0x100f, true),
        ("TOR of entry 0, the byte after", first_top, 0x1010, false),
        ("TOR that ends before it begins", empty_top, 0x1000, false),
        (
            "TOR that ends before it begins, at its end",
            empty_top,
            0x1010,
            false,
        ),
        ("NA4, the byte before", four, 0xfff, false),
        ("NA4, its first byte", four, 0x1000, true),
        ("NA4, its last byte", four, 0x1003, true),
        ("NA4, the byte after", four, 0x1004, false),
        ("NAPOT of 8, its last byte", eight, 0x1007, true),
        ("NAPOT of 8, the byte after", eight, 0x1008, false),
        ("NAPOT of 16, its first byte", sixteen, 0x1000, true),
        ("NAPOT of 16, its last byte", sixteen, 0x100f, true),
        ("NAPOT of 16, the byte after", sixteen, 0x1010, false),
        ("NAPOT of 2 ^ 32, its last byte", half, 0xffff_ffff, true),
        ("NAPOT of all, its first byte", all, 0, true),
        (
            "NAPOT of all, the last byte of 32 bits",
            all,
            0xffff_ffff,
            true,
        ),
    ];
    for (name, entries, addr, want) in table {
        assert_eq!(rt;
            allow(&entries, addr, 1, AccessKind::Read, false),
            want,
            "at {name}"
        );
    }
}

// Rights of a word under the first entry that matches it, and where none does.
#[test]
fn rights_follow_the_first_match(rt: HostRuntime) {
    let none = entries([0, 0, 0], [0, 0, 0]);
    let open = entries([0x18, 0x1f, 0], [0xffff_ffff, 0xffff_ffff, 0]);
    let locked = entries([0x9a, 0, 0], [0xffff_ffff, 0, 0]);
    let later = entries([0x11, 0x1c, 0], [0x400, 0xffff_ffff, 0]);
    let table = [
        ("no entry, M", none, 0x1000, AccessKind::Read, true, true),
        (
            "no entry, U",
            none,
            0x1000,
            AccessKind::Execute,
            false,
            false,
        ),
        (
            "an open entry, M",
            open,
            0x1000,
            AccessKind::Write,
            true,
            true,
        ),
        (
            "an open entry, U",
            open,
            0x1000,
            AccessKind::Write,
            false,
            false,
        ),
        (
            "a locked entry, M writes",
            locked,
            0x1000,
            AccessKind::Write,
            true,
            true,
        ),
        (
            "a locked entry, M executes",
            locked,
            0x1000,
            AccessKind::Execute,
            true,
            false,
        ),
        (
            "a locked entry, M reads",
            locked,
            0x1000,
            AccessKind::Read,
            true,
            false,
        ),
        (
            "a locked entry, U",
            locked,
            0x1000,
            AccessKind::Write,
            false,
            true,
        ),
        (
            "the first of two",
            later,
            0x1000,
            AccessKind::Read,
            false,
            true,
        ),
        (
            "the first of two has no right",
            later,
            0x1000,
            AccessKind::Execute,
            false,
            false,
        ),
        (
            "the second, where the first doesn't match",
            later,
            0x1004,
            AccessKind::Execute,
            false,
            true,
        ),
    ];
    for (name, entries, addr, kind, machine, want) in table {
        assert_eq!(rt; addr % 4, 0, "at {name}");
        assert_eq!(rt; allow(&entries, addr, 4, kind, machine), want, "at {name}");
    }
}

// What M may do and what U may, as reads, writes and executes, with these bits of mseccfg and one entry of four bytes.
#[test]
fn rights_follow_the_table_of_sixteen_rows(rt: HostRuntime) {
    let table = [
        ("0000", 1, 0x10, [false; 3], [false; 3]),
        ("0001", 1, 0x14, [false; 3], [false, false, true]),
        ("0010", 1, 0x12, [true, true, false], [true, false, false]),
        ("0011", 1, 0x16, [true, true, false], [true, true, false]),
        ("0100", 1, 0x11, [false; 3], [true, false, false]),
        ("0101", 1, 0x15, [false; 3], [true, false, true]),
        ("0110", 1, 0x13, [false; 3], [true, true, false]),
        ("0111", 1, 0x17, [false; 3], [true; 3]),
        ("1000", 1, 0x90, [false; 3], [false; 3]),
        ("1001", 1, 0x94, [false, false, true], [false; 3]),
        ("1010", 1, 0x92, [false, false, true], [false, false, true]),
        ("1011", 1, 0x96, [true, false, true], [false, false, true]),
        ("1100", 1, 0x91, [true, false, false], [false; 3]),
        ("1101", 1, 0x95, [true, false, true], [false; 3]),
        ("1110", 1, 0x93, [true, true, false], [false; 3]),
        ("1111", 1, 0x97, [true, false, false], [true, false, false]),
        ("no match, all 0", 0, 0, [true; 3], [false; 3]),
        ("no match, MML", 1, 0, [true, true, false], [false; 3]),
        ("no match, MMWP", 2, 0, [false; 3], [false; 3]),
        ("no match, MML and MMWP", 3, 0, [false; 3], [false; 3]),
        ("no match, RLB alone", 4, 0, [true; 3], [false; 3]),
        ("no match, higher bits", 0xf8, 0, [true; 3], [false; 3]),
        ("MMWP, an open entry", 2, 0x10, [true; 3], [false; 3]),
    ];
    for (name, sec, cfg, machine, user) in table {
        let mut r = entries([cfg, 0, 0], [0x400, 0, 0]);
        r.sec = sec;
        for (kind, of_machine, of_user) in [
            (AccessKind::Read, machine[0], user[0]),
            (AccessKind::Write, machine[1], user[1]),
            (AccessKind::Execute, machine[2], user[2]),
        ] {
            assert_eq!(rt;
                allow(&r, 0x1000, 4, kind, true),
                of_machine,
                "at {name} from M"
            );
            assert_eq!(rt;
                allow(&r, 0x1000, 4, kind, false),
                of_user,
                "at {name} from U"
            );
        }
    }
}

// An access of no bytes meets no entry, even one that has its address.
#[test]
fn no_bytes_match_no_entry(rt: HostRuntime) {
    let mut r = entries([0x97, 0, 0], [0x400, 0, 0]);
    for (sec, kind, want) in [
        (0, AccessKind::Execute, true),
        (1, AccessKind::Write, true),
        (1, AccessKind::Execute, false),
        (2, AccessKind::Read, false),
    ] {
        r.sec = sec;
        assert_eq!(rt; allow(&r, 0x1000, 0, kind, true), want, "with {sec}");
        assert!(rt; !allow(&r, 0x1000, 0, kind, false), "with {sec} from U");
    }
}
