use crate::{Choice, Machine};
use ibx_elf::{Ram, load};
use ibx_isa::{Access, Event};
use std::test::Fail;

// An ELF file with one segment at 0x00100080: lui x6, 0x20; addi x7, x0, 1; sw x7, 8(x6).
const FILE: [u8; 96] =
    *b"\x7fELF\x01\x01\x01\0\0\0\0\0\0\0\0\0\x02\0\xf3\0\x01\0\0\0\x80\0\x10\0\x34\0\0\0\0\0\0\0\0\0\0\0\x34\0\x20\0\x01\0\0\0\0\0\0\0\x01\0\0\0\x54\0\0\0\x80\0\x10\0\x80\0\x10\0\x0c\0\0\0\x0c\0\0\0\x07\0\0\0\x04\0\0\0\x37\x03\x02\0\x93\x03\x10\0\x23\x24\x73\0";

#[test]
fn three_instructions_retire(rt: HostRuntime) -> Result<(), Fail> {
    let ram = Ram {
        base: 0x10_0000,
        size: 0x10_0000,
    };
    assert!(rt; ram.is_valid());
    let image = load(&FILE, ram)?;
    let mut machine = Machine::reset(rt.alloc(), &image)?;
    let halting = Access {
        addr: 0x2_0008,
        size: 4,
        store: true,
        value: 1,
    };
    let rows = [
        (0x10_0080, 0x0002_0337, 6, 0x2_0000, None, (0, 0)),
        (0x10_0084, 0x0010_0393, 7, 1, None, (0, 0)),
        (0x10_0088, 0x0073_2423, 0, 0, Some(halting), (0x2_0000, 1)),
    ];
    for (cycle, (pc, word, rd, value, mem, ops)) in rows.iter().enumerate() {
        let want = Event::Retire {
            cycle: cycle as u64,
            pc: *pc,
            word: *word,
            rd: *rd,
            value: *value,
            mem: *mem,
            ctl: None,
            ops: Some(*ops),
        };
        assert_eq!(rt; machine.step(cycle as u64), Some(want), "at cycle {cycle}");
    }
    Ok(())
}

#[test]
fn an_interrupt_goes_to_its_entry(rt: HostRuntime) -> Result<(), Fail> {
    let ram = Ram {
        base: 0x10_0000,
        size: 0x10_0000,
    };
    assert!(rt; ram.is_valid());
    let image = load(&FILE, ram)?;
    let mut machine = Machine::reset(rt.alloc(), &image)?;
    let taken = Event::Irq {
        cycle: 0,
        pc: 0x10_0080,
        cause: 7,
    };
    assert_eq!(rt; machine.take(Choice::Interrupt(7), 0, 0x80), taken);
    // C.NOP, at the entry of interrupt 7.
    let nop = Event::Retire {
        cycle: 1,
        pc: 0x10_001c,
        word: 0x0001,
        rd: 0,
        value: 0,
        mem: None,
        ctl: None,
        ops: Some((0, 0)),
    };
    assert_eq!(rt; machine.take(Choice::Parcels(0x0001, 0), 1, 0), nop);
    Ok(())
}
