use crate::{Config, Soc};
use ibx_elf::{Image, Ram, load};
use ibx_isa::{Alerts, MulKind, Req};
use ibx_lockstep::Delay;
use ibx_plan::{Plan, Site};
use std::process::Abort;

/// `lui x6, 0x20`, `addi x7, x0, 1` and `sw x7, 8(x6)`, loaded and entered at 0x00100080.
const FILE: [u8; 96] = [
    0x7f, 0x45, 0x4c, 0x46, 1, 1, 1, 0, 0, 0, 0, 0, 0, 0, 0, 0, 2, 0, 0xf3, 0, 1, 0, 0, 0, 0x80, 0,
    0x10, 0, 0x34, 0, 0, 0, 0, 0, 0, 0, 0, 0, 0, 0, 0x34, 0, 0x20, 0, 1, 0, 0, 0, 0, 0, 0, 0, 1, 0,
    0, 0, 0x54, 0, 0, 0, 0x80, 0, 0x10, 0, 0x80, 0, 0x10, 0, 0x0c, 0, 0, 0, 0x0c, 0, 0, 0, 7, 0, 0,
    0, 4, 0, 0, 0, 0x37, 3, 2, 0, 0x93, 3, 0x10, 0, 0x23, 0x24, 0x73, 0,
];

const RAM: Ram = Ram {
    base: 0x10_0000,
    size: 0x1000,
};

fn image(rt: &impl Abort) -> Image<'static> {
    match load(&FILE, RAM) {
        Ok(image) => image,
        Err(_) => panic!(rt; "a well-formed file"),
    }
}

fn fetch(addr: u32) -> Req {
    Req {
        valid: true,
        write: false,
        be: 15,
        addr,
        word: 0,
    }
}

// The store of 1, which has the codeword 2d00000001, to the host page.
const STORE: Req = Req {
    valid: true,
    write: true,
    be: 15,
    addr: 0x2_0008,
    word: 0x2d_0000_0001,
};

#[test]
fn requests_and_events_of_three_instructions(rt: HostRuntime) {
    let image = image(&rt);
    let plan = Plan::empty(rt.alloc());
    let config = Config {
        ram: image.ram(),
        mul: MulKind::Fast,
        delay: Delay::Two,
    };
    let mut soc = Soc::new(rt.alloc(), &image, &config, &plan).expect(&rt, "memory");
    let rows = [
        (0x10_0080, Req::NONE, false),
        (0x10_0084, Req::NONE, false),
        (0x10_0088, Req::NONE, true),
        (0x10_008c, Req::NONE, true),
        (0x10_0090, STORE, false),
        (0x10_0094, Req::NONE, true),
    ];
    for (cycle, (addr, load_store, happens)) in rows.into_iter().enumerate() {
        assert_eq!(rt; soc.cycle(), cycle as u64);
        let shown = soc.step();
        assert_eq!(rt; shown.bus.fetch, fetch(addr), "cycle {cycle}");
        assert_eq!(rt; shown.bus.load_store, load_store, "cycle {cycle}");
        assert_eq!(rt; shown.event.is_some(), happens, "cycle {cycle}");
        assert_eq!(rt; shown.alerts, Alerts(0), "cycle {cycle}");
    }
}

// A flipped bit of the store's register number makes main differ from its shadow, and this is told three cycles later.
#[test]
fn a_flip_is_told_three_cycles_later(rt: HostRuntime) {
    let image = image(&rt);
    let plan = Plan::empty(rt.alloc());
    let config = Config {
        ram: image.ram(),
        mul: MulKind::Fast,
        delay: Delay::Two,
    };
    let mut soc = Soc::new(rt.alloc(), &image, &config, &plan).expect(&rt, "memory");
    assert_eq!(rt; soc.delay(), 2);
    let next_pc = 31;
    assert_eq!(rt; soc.main().get(next_pc), 0x10_0080);
    assert!(rt; !soc.flip(&Site::Reg { n: 0, bit: 0 }));
    let id_word = 20;
    for cycle in 0..8 {
        if cycle == 4 {
            assert!(rt;
                soc.flip(&Site::Main {
                    field: id_word,
                    bit: 15
                })
            );
        }
        assert_eq!(rt; soc.cycle(), cycle);
        let alerts = if cycle == 7 {
            Alerts::INTERNAL
        } else {
            Alerts(0)
        };
        assert_eq!(rt; soc.step().alerts, alerts, "cycle {cycle}");
    }
}
