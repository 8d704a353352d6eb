ghost use Rattle.ibx_isa.specs.Wires.{IsRequest};

use super::*;
use crate::{Memory, Port};
use ibx_isa::Req;
use ibx_plan::Wait;

const IDLE: Req = Req {
    valid: false,
    write: false,
    be: 0,
    addr: 0,
    word: 0,
};

const LOAD: Req = Req {
    valid: true,
    write: false,
    be: 15,
    addr: 0x100000,
    word: 0,
};

const HOST_LOAD: Req = Req {
    valid: true,
    write: false,
    be: 15,
    addr: 0x20ffc,
    word: 0,
};

const FAR_LOAD: Req = Req {
    valid: true,
    write: false,
    be: 15,
    addr: 0x21000,
    word: 0,
};

const STORE: Req = Req {
    valid: true,
    write: true,
    be: 1,
    addr: 0x100000,
    word: 0x2c_0000_00ff,
};

// The cycles of the grant and of the answer of a load that is issued at cycle 0, in which the last one may answer.
fn times_of(port: &mut Port, mem: &mut Memory) -> (u32, u32) {
    let mut granted = 99;
    for cycle in 0..10 {
        if granted != 99 && port.answer().valid {
            return (granted, cycle);
        }
        let req = if granted == 99 { LOAD } else { IDLE };
        if port.step(&req, mem) {
            granted = cycle;
        }
    }
    (granted, 99)
}

// The grant, the error and the word of a load at a port without waits.
fn load(port: &mut Port, mem: &mut Memory, req: &Req) -> (bool, bool, u64)
    requires { IsRequest req.now }
{
    let granted = port.step(req, mem);
    let answer = port.answer();
    port.step(&IDLE, mem);
    (granted, answer.err, answer.word)
}

#[test]
fn grants_and_answers_come_in_time(rt: HostRuntime) {
    let mut mem = Memory::new(rt.alloc(), &[0], 0x100000).expect(&rt, "memory");
    let waits = [
        Wait {
            grant: 2,
            answer: 1,
        },
        Wait {
            grant: 0,
            answer: 0,
        },
    ];
    let mut port = Port::new(&waits);
    for times in [(2, 4), (0, 1), (2, 4)] {
        assert_eq!(rt; times_of(&mut port, &mut mem), times);
    }
    let mut port = Port::new(&[]);
    for times in [(0, 1), (0, 1)] {
        assert_eq!(rt; times_of(&mut port, &mut mem), times);
    }
}

#[test]
fn stores_keep_what_was_wrong(rt: HostRuntime) {
    let mut mem = Memory::new(rt.alloc(), &[0], 0x100000).expect(&rt, "memory");
    let mut port = Port::new(&[]);
    assert!(rt; port.step(&STORE, &mut mem));
    assert_eq!(rt; port.answer().word, 0x2a_0000_0000);
    assert_eq!(rt;
        load(&mut port, &mut mem, &LOAD),
        (true, false, 0x2c_0000_00ff)
    );

    let mut mem = Memory::new(rt.alloc(), &[0], 0x100000).expect(&rt, "memory");
    mem.flip(0, 24);
    assert!(rt; port.step(&STORE, &mut mem));
    assert_eq!(rt;
        load(&mut port, &mut mem, &LOAD),
        (true, false, 0x2c_0100_00ff)
    );

    assert_eq!(rt;
        load(&mut port, &mut mem, &HOST_LOAD),
        (true, false, 0x2a_0000_0000)
    );
    assert_eq!(rt;
        load(&mut port, &mut mem, &FAR_LOAD),
        (true, true, 0x2a_0000_0000)
    );
    port.flip(0);
}
