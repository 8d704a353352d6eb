use crate::Dummy;

// The register's first values, with the words of these dummies as an assembler gives them.
#[test]
fn dummies_from_reset(rt: HostRuntime) {
    let rows = [
        ("and x0, x7, x11", 0xace1_ace1, 0x00b3_f033),
        ("mul x0, x19, x21", 0xd650_d673, 0x0359_8033),
        ("add x0, x25, x26", 0xeb08_6b3a, 0x01ac_8033),
    ];
    let mut unit = Dummy::reset();
    for (name, lfsr, word) in rows {
        assert_eq!(rt; unit.lfsr, lfsr, "at {name}");
        assert_eq!(rt; unit.pick(), word, "at {name}");
        unit.inserted();
    }
    unit.seed(0x0001_0000);
    assert_eq!(rt; unit.pick(), 0x0200_4033, "at div x0, x0, x0");
}

// The register, the mask, and the real instructions that a dummy waits for, by hand.
#[test]
fn thresholds(rt: HostRuntime) {
    let rows = [
        (0xffff_ffff, 0, 3),
        (0xffff_ffff, 1, 7),
        (0xffff_ffff, 2, 11),
        (0xffff_ffff, 4, 19),
        (0xffff_ffff, 7, 31),
        (0xace1_ace1, 0, 1),
        (0xace1_ace1, 7, 1),
        (0x0000_0016, 0, 2),
        (0x0000_0016, 1, 6),
        (0x0000_0016, 2, 2),
        (0x0000_0016, 4, 18),
        (0x0000_0016, 7, 22),
    ];
    for (lfsr, mask, waits) in rows {
        let at = |dcount: u8| Dummy { lfsr, dcount };
        assert!(rt; at(waits).due(true, mask), "at {lfsr:x}, {mask}");
        assert!(rt; !at(waits).due(false, mask), "at {lfsr:x}, {mask}");
        assert!(rt; waits > 0);
        assert!(rt; !at(waits - 1).due(true, mask), "at {lfsr:x}, {mask}");
    }
}

// A program that enables dummies with the mask 0 as its first instruction.
#[test]
fn first_dummy_of_a_program(rt: HostRuntime) {
    let mut unit = Dummy::reset();
    unit.admitted(false);
    assert!(rt; !unit.due(true, 0));
    unit.admitted(true);
    assert!(rt; unit.due(true, 0));
    assert_eq!(rt; unit.pick(), 0x00b3_f033);
    unit.inserted();
    assert_eq!(rt; (unit.lfsr, unit.dcount), (0xd650_d673, 0));
    assert!(rt; !unit.due(true, 0));
}

#[test]
fn counts_and_seeds(rt: HostRuntime) {
    let mut unit = Dummy::reset();
    for _ in 0..40 {
        unit.admitted(true);
    }
    assert_eq!(rt; unit.dcount, 31);
    unit.seed(5);
    assert_eq!(rt; (unit.lfsr, unit.dcount), (5, 31));
    unit.seed(0);
    assert_eq!(rt; unit.lfsr, 0xace1_ace1);
}
