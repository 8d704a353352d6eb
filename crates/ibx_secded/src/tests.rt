use crate::Code;

#[test]
fn words_of_both_codes(rt: HostRuntime) {
    let codewords = [
        (0, 0x2a_0000_0000),
        (1, 0x2d_0000_0001),
        (0xffff_ffff, 0x29_ffff_ffff),
    ];
    for (value, word) in codewords {
        assert_eq!(rt; Code::<32, 7>::encode(value), word);
    }
    assert_eq!(rt; Code::<32, 7>::syndrome(0x2a_0100_0000), 0x4a);
    assert_eq!(rt;
        Code::<32, 7>::rewrite(0x2a_0100_0000, 0x0100_0001),
        0x2d_0100_0001
    );
    assert_eq!(rt; Code::<32, 7>::payload(0x2d_0100_0001), 0x0100_0001);
    assert_eq!(rt; Code::<32, 7>::flip(0x2d_0000_0001, 38), 0x6d_0000_0001);
    assert_eq!(rt; Code::<22, 6>::encode(0), 0xa80_0000);

    // Columns of the check matrix: the first and the last, alone and with others.
    let checks = [(0x1, 7), (0xf, 15), (0x8000_0000, 98), (0x8000_0001, 101)];
    for (value, check) in checks {
        assert_eq!(rt; Code::<32, 7>::check(value), check);
        assert_eq!(rt; Code::<32, 7>::plain_check(value), check);
    }
    assert_eq!(rt; Code::<22, 6>::check(0x30_0000), 48);
    assert_eq!(rt; Code::<4, 4>::check(0xf), 15);
}
