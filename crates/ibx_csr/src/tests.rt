use crate::Csrs;
use ibx_isa::TrapRegs;

const ONES: u32 = 0xffff_ffff;

// What a row reads at reset with the lines 888, after a write of ones, and after one of zeros.
#[test]
fn each_register_keeps_its_bits(rt: HostRuntime) {
    let table = [
        ("mstatus", 0x300, 0x80, 0x0022_1888, 0),
        ("misa", 0x301, 0x4010_1104, 0x4010_1104, 0x4010_1104),
        ("mie", 0x304, 0, 0x7fff_0888, 0),
        ("mtvec", 0x305, 0x0010_0001, 0xffff_ff01, 1),
        ("mcounteren", 0x306, 0, 0, 0),
        ("menvcfg", 0x30a, 0, 0, 0),
        ("mstatush", 0x310, 0, 0, 0),
        ("menvcfgh", 0x31a, 0, 0, 0),
        ("mcountinhibit", 0x320, 0, 5, 0),
        ("mhpmevent3", 0x323, 0, 0, 0),
        ("mhpmevent31", 0x33f, 0, 0, 0),
        ("mscratch", 0x340, 0, ONES, 0),
        ("mepc", 0x341, 0, 0xffff_fffe, 0),
        ("mcause", 0x342, 0, 0x8000_001f, 0),
        ("mtval", 0x343, 0, ONES, 0),
        ("mip", 0x344, 0x888, 0x888, 0x888),
        ("pmpcfg0", 0x3a0, 0, 0x9f9f_9f9f, 0x9f9f_9f9f),
        ("pmpcfg3", 0x3a3, 0, 0x9f9f_9f9f, 0x9f9f_9f9f),
        ("pmpaddr0", 0x3b0, 0, ONES, 0),
        ("pmpaddr15", 0x3bf, 0, ONES, 0),
        ("mseccfg", 0x747, 0, 7, 3),
        ("mseccfgh", 0x757, 0, 0, 0),
        ("cpuctrl", 0x7c0, 0, 0xff, 0),
        ("secureseed", 0x7c1, 0, 0, 0),
        ("mcycle", 0xb00, 0, ONES, 0),
        ("mcycleh", 0xb80, 0, ONES, 0),
        ("minstret", 0xb02, 0, ONES, 0),
        ("minstreth", 0xb82, 0, ONES, 0),
        ("mhpmcounter3", 0xb03, 0, 0, 0),
        ("mhpmcounter31", 0xb1f, 0, 0, 0),
        ("mhpmcounter3h", 0xb83, 0, 0, 0),
        ("mhpmcounter31h", 0xb9f, 0, 0, 0),
    ];
    for (name, addr, reset, ones, zeros) in table {
        let mut csrs = Csrs::reset(0x0010_0082);
        assert_eq!(rt; csrs.read(addr, 0x888), Some(reset), "at {name}");
        assert!(rt; csrs.can_write(addr), "at {name}");
        assert!(rt; csrs.write(addr, ONES), "at {name}");
        assert_eq!(rt; csrs.read(addr, 0x888), Some(ones), "at {name}");
        assert!(rt; csrs.write(addr, 0), "at {name}");
        assert_eq!(rt; csrs.read(addr, 0x888), Some(zeros), "at {name}");
        assert!(rt; !csrs.glitch(), "at {name}");
        csrs.priv_ = false;
        assert_eq!(rt; csrs.read(addr, 0x888), None, "at {name} from U");
        assert!(rt; !csrs.can_write(addr), "at {name} from U");
        assert!(rt; !csrs.write(addr, ONES), "at {name} from U");
    }
}

// Registers that no write reaches, and addresses without one.
#[test]
fn other_addresses_refuse_a_write(rt: HostRuntime) {
    let table = [
        ("mvendorid", 0xf11, Some(0)),
        ("marchid", 0xf12, Some(0x16)),
        ("mimpid", 0xf13, Some(0)),
        ("mhartid", 0xf14, Some(0)),
        ("mconfigptr", 0xf15, Some(0)),
        ("ustatus", 0x000, None),
        ("sstatus", 0x100, None),
        ("medeleg", 0x302, None),
        ("the address after mcountinhibit", 0x321, None),
        ("the address before mhpmevent3", 0x322, None),
        ("the address after mip", 0x345, None),
        ("the address before pmpcfg0", 0x39f, None),
        ("the address after pmpcfg3", 0x3a4, None),
        ("the address after pmpaddr15", 0x3c0, None),
        ("the address before mseccfg", 0x746, None),
        ("the address after mseccfg", 0x748, None),
        ("the address after mseccfgh", 0x758, None),
        ("the address after secureseed", 0x7c2, None),
        ("the address after mcycle", 0xb01, None),
        ("the address after mhpmcounter31", 0xb20, None),
        ("the address after mcycleh", 0xb81, None),
        ("cycle", 0xc00, None),
        ("the address before mvendorid", 0xf10, None),
        ("the address after mconfigptr", 0xf16, None),
        ("mstatus with a thirteenth bit", 0x1300, None),
    ];
    for (name, addr, value) in table {
        let before = Csrs::reset(0x0010_0080);
        let mut csrs = before;
        assert_eq!(rt; csrs.read(addr, ONES), value, "at {name}");
        assert!(rt; !csrs.can_write(addr), "at {name}");
        assert!(rt; !csrs.write(addr, ONES), "at {name}");
        assert_eq!(rt; csrs, before, "at {name}");
    }
}

// After a write of the first value at the first address, what a write of the second one leaves.
#[test]
fn writes_obey_locks_and_legal_values(rt: HostRuntime) {
    let table = [
        ("MPP 1 becomes U", (0x300, 0x1800), (0x300, 0x0800), 0),
        ("MPP 2 becomes U", (0x300, 0x1800), (0x300, 0x1000), 0),
        ("MPP 3 is M", (0x300, 0), (0x300, 0x1800), 0x1800),
        (
            "W without R becomes neither",
            (0x3a0, 0),
            (0x3a0, 0x1a07_0602),
            0x1807_0400,
        ),
        (
            "bits 6:5 of a byte stay 0",
            (0x3a0, 0),
            (0x3a0, 0x7f01_6019),
            0x1f01_0019,
        ),
        (
            "a locked byte stays",
            (0x3a0, 0x80),
            (0x3a0, 0x0101_0101),
            0x0101_0180,
        ),
        (
            "a locked byte of another word stays",
            (0x3a2, 0x8700_0000),
            (0x3a2, 0x0101_0101),
            0x8701_0101,
        ),
        ("a locked entry's address", (0x3a0, 0x80), (0x3b0, 0x12), 0),
        (
            "the address after a locked entry's",
            (0x3a0, 0x80),
            (0x3b1, 0x12),
            0x12,
        ),
        (
            "the address before a locked TOR entry's",
            (0x3a0, 0x8800),
            (0x3b0, 0x12),
            0,
        ),
        (
            "a locked TOR entry's address",
            (0x3a0, 0x8800),
            (0x3b1, 0x12),
            0,
        ),
        (
            "the address after a locked TOR entry's",
            (0x3a0, 0x8800),
            (0x3b2, 0x12),
            0x12,
        ),
        (
            "the address before a locked NA4 entry's",
            (0x3a0, 0x9000),
            (0x3b0, 0x12),
            0x12,
        ),
        (
            "the address before a locked NAPOT entry's",
            (0x3a0, 0x9800),
            (0x3b0, 0x12),
            0x12,
        ),
        (
            "an unlocked TOR entry's address",
            (0x3a0, 0x0800),
            (0x3b1, 0x12),
            0x12,
        ),
        (
            "the address before a locked TOR entry's of the next word",
            (0x3a1, 0x88),
            (0x3b3, 0x12),
            0,
        ),
        (
            "the last entry's address, which is locked",
            (0x3a3, 0x8000_0000),
            (0x3bf, 0x12),
            0,
        ),
        (
            "the address before the last entry's, which is locked",
            (0x3a3, 0x8000_0000),
            (0x3be, 0x12),
            0x12,
        ),
        (
            "the high half of mcycle",
            (0xb00, 0x1234),
            (0xb80, 0x12),
            0x12,
        ),
    ];
    for (name, (first, before), (addr, value), want) in table {
        let mut csrs = Csrs::reset(0x0010_0080);
        assert!(rt; csrs.write(first, before), "at {name}");
        assert!(rt; csrs.write(addr, value), "at {name}");
        assert_eq!(rt; csrs.read(addr, 0), Some(want), "at {name}");
    }
}

// A byte with the bits L R W X of each row from 0000 on, as it is stored over 18: with MML 0, and with MML 1 and RLB 0.
// With MML 1 and RLB 1 each is stored as it is written.
#[test]
fn bytes_are_stored_by_the_profile(rt: HostRuntime) {
    let table = [
        (0x00, 0x00, 0x00),
        (0x04, 0x04, 0x04),
        (0x02, 0x00, 0x02),
        (0x06, 0x04, 0x06),
        (0x01, 0x01, 0x01),
        (0x05, 0x05, 0x05),
        (0x03, 0x03, 0x03),
        (0x07, 0x07, 0x07),
        (0x80, 0x80, 0x80),
        (0x84, 0x84, 0x18),
        (0x82, 0x80, 0x18),
        (0x86, 0x84, 0x18),
        (0x81, 0x81, 0x81),
        (0x85, 0x85, 0x18),
        (0x83, 0x83, 0x83),
        (0x87, 0x87, 0x87),
    ];
    for (byte, without, with) in table {
        for (sec, want) in [(0, without), (4, without), (1, with), (5, byte)] {
            let mut csrs = Csrs::reset(0x0010_0080);
            assert!(rt; csrs.write(0x3a0, 0x18));
            assert!(rt; csrs.write(0x747, sec));
            assert!(rt; csrs.write(0x3a0, byte));
            assert_eq!(rt; csrs.read(0x3a0, 0), Some(want), "of {byte} with {sec}");
        }
    }
}

// After three writes, what a read of the last address gives.
#[test]
fn the_profile_sticks_and_holds(rt: HostRuntime) {
    let table = [
        ("MML sticks", [(0x747, 1), (0x747, 6), (0x747, 0)], 0x747, 3),
        (
            "MMWP sticks",
            [(0x747, 2), (0x747, 0), (0x747, 0)],
            0x747,
            2,
        ),
        (
            "the other bits read 0",
            [(0x747, ONES << 3), (0x757, ONES), (0x757, 0)],
            0x747,
            0,
        ),
        (
            "RLB is cleared",
            [(0x747, 4), (0x747, 0), (0x747, 0)],
            0x747,
            0,
        ),
        (
            "RLB stays 0 beside a locked entry",
            [(0x3a3, 0x8000_0000), (0x747, 4), (0x747, 4)],
            0x747,
            0,
        ),
        (
            "MML beside it",
            [(0x3a3, 0x8000_0000), (0x747, 5), (0x747, 4)],
            0x747,
            1,
        ),
        (
            "RLB stays 1 beside a locked entry",
            [(0x747, 4), (0x3a0, 0x80), (0x747, 4)],
            0x747,
            4,
        ),
        (
            "RLB is cleared there",
            [(0x747, 4), (0x3a0, 0x80), (0x747, 0)],
            0x747,
            0,
        ),
        (
            "RLB frees a locked byte",
            [(0x747, 4), (0x3a0, 0x80), (0x3a0, 1)],
            0x3a0,
            1,
        ),
        (
            "RLB frees its address",
            [(0x747, 4), (0x3a0, 0x80), (0x3b0, 0x12)],
            0x3b0,
            0x12,
        ),
        (
            "RLB frees the address before",
            [(0x747, 4), (0x3a0, 0x8800), (0x3b0, 0x12)],
            0x3b0,
            0x12,
        ),
        (
            "a held byte under MML",
            [(0x3a0, 0x81), (0x747, 1), (0x3a0, 0)],
            0x3a0,
            0x81,
        ),
        (
            "a held address under MML",
            [(0x3a0, 0x8800), (0x747, 1), (0x3b0, 0x12)],
            0x3b0,
            0,
        ),
        (
            "bytes beside a refused one",
            [(0x747, 1), (0x3a0, 0), (0x3a0, 0x8184_0602)],
            0x3a0,
            0x8100_0602,
        ),
        (
            "A isn't looked at",
            [(0x747, 1), (0x3a0, 0x1f), (0x3a0, 0x9c)],
            0x3a0,
            0x1f,
        ),
    ];
    for (name, writes, addr, want) in table {
        let mut csrs = Csrs::reset(0x0010_0080);
        for (to, value) in writes {
            assert!(rt; csrs.write(to, value), "at {name}");
        }
        assert_eq!(rt; csrs.read(addr, 0), Some(want), "at {name}");
        assert!(rt; !csrs.glitch(), "at {name}");
    }
}

// mcycle and minstret after one cycle that begins with the first pair: whether an instruction retires in
// it, the value of mcountinhibit, and the address that is written, if any.
#[test]
fn counters_count_and_stand(rt: HostRuntime) {
    let low = 0xffff_ffff_u64;
    let table = [
        ("an instruction retires", (7, 3), (true, 0, None), (8, 4)),
        ("none retires", (7, 3), (false, 0, None), (8, 3)),
        (
            "a carry into the high halves",
            (low, low),
            (true, 0, None),
            (low + 1, low + 1),
        ),
        (
            "the counts wrap",
            (u64::MAX, u64::MAX),
            (true, 0, None),
            (0, 0),
        ),
        ("mcycle is inhibited", (7, 3), (true, 1, None), (7, 4)),
        ("minstret is inhibited", (7, 3), (true, 4, None), (8, 3)),
        ("a write of mcycle", (7, 3), (true, 0, Some(0xb00)), (9, 4)),
        (
            "a write of mcycleh",
            (low, 3),
            (true, 0, Some(0xb80)),
            (0x9_ffff_ffff, 4),
        ),
        (
            "a write of minstret",
            (7, 3),
            (true, 0, Some(0xb02)),
            (8, 9),
        ),
        (
            "a write of minstreth",
            (7, low),
            (true, 0, Some(0xb82)),
            (8, 0x9_ffff_ffff),
        ),
        (
            "a write of mcountinhibit",
            (7, 3),
            (true, 0, Some(0x320)),
            (8, 4),
        ),
    ];
    for (name, (mcycle, minstret), (retired, inhibit, wrote), want) in table {
        let mut csrs = Csrs::reset(0x0010_0080);
        csrs.mcycle = mcycle;
        csrs.minstret = minstret;
        csrs.mcountinhibit = inhibit;
        csrs.tick(retired, wrote);
        if let Some(addr) = wrote {
            assert!(rt; csrs.write(addr, 9), "at {name}");
        }
        assert_eq!(rt; (csrs.mcycle, csrs.minstret), want, "at {name}");
    }
}

#[test]
fn traps_and_protection_see_the_registers(rt: HostRuntime) {
    let mut csrs = Csrs::reset(0x0010_0080);
    let ones = TrapRegs {
        machine: false,
        mstatus: ONES,
        mtvec: ONES,
        mepc: ONES,
        mcause: ONES,
        mtval: ONES,
        cpuctrl: ONES,
    };
    let kept = TrapRegs {
        machine: false,
        mstatus: 0x0022_1888,
        mtvec: 0xffff_ff01,
        mepc: 0xffff_fffe,
        mcause: 0x8000_001f,
        mtval: ONES,
        cpuctrl: 0xff,
    };
    csrs.set_regs(&ones);
    assert_eq!(rt; csrs.regs(), kept);
    assert!(rt; !csrs.glitch());
    csrs.mseccfg = 0xffff_fffa;
    assert!(rt; csrs.glitch());
    csrs.mseccfg_n = 5;
    assert!(rt; !csrs.glitch());
    csrs.pmpcfg1 = 0x1f18_0f9f;
    csrs.pmpaddr15 = 0x55;
    let view = csrs.pmp();
    assert_eq!(rt;
        view.cfg,
        [0, 0, 0, 0, 0x9f, 0x0f, 0x18, 0x1f, 0, 0, 0, 0, 0, 0, 0, 0]
    );
    assert_eq!(rt;
        view.addr,
        [0, 0, 0, 0, 0, 0, 0, 0, 0, 0, 0, 0, 0, 0, 0, 0x55]
    );
    assert_eq!(rt; view.sec, 2);
    assert!(rt; csrs.glitch());
}
