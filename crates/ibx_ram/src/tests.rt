use crate::{CodedRam, RegFile};

#[test]
fn words_are_put_and_flipped(rt: HostRuntime) {
    let mut ram = CodedRam::<32, 7>::new(rt.alloc(), 4).expect(&rt, "memory");
    ram.flip(3, 24);
    ram.put(1, 0x2d_0000_0001);
    let held = [
        (0, 0x2a_0000_0000),
        (1, 0x2d_0000_0001),
        (3, 0x2a_0100_0000),
    ];
    for (i, word) in held {
        assert_eq!(rt; ram.get(i), word);
    }
    assert_eq!(rt; ram.len(), 4);
    ram.rewrite(3, 0x0100_0001);
    assert_eq!(rt; ram.get(3), 0x2d_0100_0001);

    let tags = CodedRam::<22, 6>::new(rt.alloc(), 1).expect(&rt, "memory");
    assert_eq!(rt; tags.get(0), 0xa80_0000);

    let mut file = RegFile::new(rt.alloc()).expect(&rt, "memory");
    for n in [0, 31] {
        file.put(n, 0x2d_0000_0001);
        file.flip(n, 38);
    }
    assert_eq!(rt; file.get(0), 0x2a_0000_0000);
    assert_eq!(rt; file.get(31), 0x6d_0000_0001);
}
