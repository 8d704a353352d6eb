use crate::{laws_of_listings, print_listing};
use ibx_asm::wrap;
use ibx_base::MemSink;
use ibx_elf::{Ram, load};
use std::alloc::Global;
use std::process::Abort;
use std::test::Fail;

// Prints the file around some code, of at most 4096 bytes, and compares the text.
fn check(rt: &impl Abort, alloc: Global, code: &[u8], text: &str) -> Result<(), Fail> {
    if code.len() > 4096 {
        assert!(rt; false, "no code of these tests is as long");
        return Ok(());
    }
    let file = wrap(alloc, code)?;
    let ram = Ram {
        base: 0x0010_0000,
        size: 0x0001_0000,
    };
    let Ok(image) = load(&file, ram) else {
        assert!(rt; false, "the file is refused");
        return Ok(());
    };
    let mut out = MemSink::new(alloc, 8192, &[])?;
    assert!(rt; print_listing(&image, &mut out).is_ok());
    assert_eq!(rt; out.bytes(), text.as_bytes());
    Ok(())
}

#[test]
fn prints_each_instruction(rt: HostRuntime) -> Result<(), Fail> {
    laws_of_listings();
    let rows: [(&[u8], &str); 5] = [
        (&[], "# 0x00100080\n"),
        (
            &[0x37, 0x03, 0x02, 0, 0x7d, 0x14, 0x23, 0x24, 0x73, 0],
            "# 0x00100080\nlui x6, 0x00020\nc.addi x8, -1\nsw x7, 8(x6)\n",
        ),
        // what is no instruction, and a word and a halfword that are cut off
        (
            &[0, 0, 0xff, 0xff, 0xff, 0xff],
            "# 0x00100080\n.half 0x0000\n.word 0xffffffff\n",
        ),
        (
            &[0x37, 0x03, 0x02],
            "# 0x00100080\n.half 0x0337\n.byte 0x02\n",
        ),
        (&[0x37, 0x03], "# 0x00100080\n.half 0x0337\n"),
    ];
    for (code, text) in rows {
        check(&rt, rt.alloc(), code, text)?;
    }
    Ok(())
}
