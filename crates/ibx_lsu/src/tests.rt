use crate::{Lsu, gather};
use ibx_isa::{Access, LoadOp, Rsp};

// A load of a word in the middle of two: the grant comes a cycle late, and then everything at once. The codewords
// are those of 0xffff_ffff and 1.
#[test]
fn load_in_two_portions(rt: HostRuntime) {
    let want = Access {
        addr: 0x0010_0002,
        size: 4,
        store: false,
        value: 0,
    };
    let none = Rsp {
        valid: false,
        err: false,
        word: 0,
    };
    let ones = Rsp {
        valid: true,
        err: false,
        word: 0x29_ffff_ffff,
    };
    let one = Rsp {
        valid: true,
        err: false,
        word: 0x2d_0000_0001,
    };
    let mut unit = Lsu::idle();
    assert_eq!(rt; unit.turn(&want, &none).req.addr, 0x0010_0000);
    unit.advance(&want, &none, false);
    assert_eq!(rt; unit.turn(&want, &none).req.be, 0xc);
    unit.advance(&want, &none, true);
    let flipped = Rsp {
        word: 0x2d_0000_0003,
        ..one
    };
    assert_eq!(rt; unit.turn(&want, &flipped).fault, 1);
    assert!(rt; !unit.turn(&want, &ones).done);
    unit.advance(&want, &ones, false);
    assert_eq!(rt; unit.turn(&want, &none).req.addr, 0x0010_0004);
    unit.advance(&want, &none, true);
    assert_eq!(rt; unit.turn(&want, &Rsp { err: true, ..one }).fault, 2);
    let last = unit.turn(&want, &one);
    assert!(rt; last.done);
    assert_eq!(rt; (last.fault, last.first, last.second), (0, 0xffff_ffff, 1));
    assert_eq!(rt;
        gather(LoadOp::Lw, want.addr, last.first, last.second),
        0x0001_ffff
    );
    unit.advance(&want, &one, false);
    assert_eq!(rt; unit, Lsu::idle());
}

#[test]
fn store_of_a_word(rt: HostRuntime) {
    let want = Access {
        addr: 0x0002_0008,
        size: 4,
        store: true,
        value: 1,
    };
    let none = Rsp {
        valid: false,
        err: false,
        word: 0,
    };
    let req = Lsu::idle().turn(&want, &none).req;
    assert!(rt; req.valid && req.write);
    assert_eq!(rt;
        (req.be, req.addr, req.word),
        (0xf, 0x0002_0008, 0x2d_0000_0001)
    );
}
