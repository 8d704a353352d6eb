use crate::{byte_at, host_page_has};

#[test]
fn bytes_and_pages(rt: HostRuntime) {
    for (index, byte) in [(0, 0xdd), (1, 0xcc), (2, 0xbb), (3, 0xaa)] {
        assert!(rt; index < 4);
        assert_eq!(rt; byte_at(0xaabb_ccdd, index), byte, "at byte {index}");
    }
    for (name, addr, is_host) in [
        ("the byte before the page", 0x0001_ffff, false),
        ("the page's first byte", 0x0002_0000, true),
        ("the page's last byte", 0x0002_0fff, true),
        ("the byte after the page", 0x0002_1000, false),
    ] {
        assert_eq!(rt; host_page_has(addr), is_host, "at {name}");
    }
}
