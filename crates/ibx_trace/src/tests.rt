ghost use Rattle.std.specs.Prelude.{◌≡◌};

use crate::{end_line, line, view_line};
use ibx_isa::{Access, Event, View};
use std::process::Abort;

fn expect(rt: &impl Abort, found: &str, expected: &str) {
    assert_eq!(rt; found, expected);
}

// The view of a division, without its operands.
const DIVISION: View = View {
    kind: 0,
    pc: 0x0010_008c,
    word: 0x0285_44b3,
    addr: None,
    ctl: None,
    ops: None,
    cause: 0,
    tval: 0,
};

fn retired(cycle: u64, pc: u32, word: u32, rd: u8, value: u32, mem: Option<Access>) -> Event
    ensures { result ≡ Event.Retire cycle pc word rd value mem None None }
{
    Event::Retire {
        cycle,
        pc,
        word,
        rd,
        value,
        mem,
        ctl: None,
        ops: None,
    }
}

fn access(addr: u32, size: u8, store: bool, value: u32) -> Option<Access>
    ensures { result ≡ Some (record { addr = addr; size = size; store = store; value = value }) }
{
    Some(Access {
        addr,
        size,
        store,
        value,
    })
}

#[test]
fn prints_events(rt: HostRuntime) {
    let lui = retired(2, 0x0010_0080, 0x0002_0337, 6, 0x0002_0000, None);
    expect(
        &rt,
        line(&lui).as_str(),
        "R 2 00100080 00020337 x06=00020000\n",
    );
    let div = retired(41, 0x0010_0088, 0x0282_c4b3, 9, 0xe, None);
    expect(
        &rt,
        line(&div).as_str(),
        "R 41 00100088 0282c4b3 x09=0000000e\n",
    );
    let nop = retired(7, 0x0010_0094, 1, 0, 0, None);
    expect(&rt, line(&nop).as_str(), "R 7 00100094 0001\n");
    let store = retired(
        5,
        0x0010_0088,
        0x0073_2423,
        0,
        0,
        access(0x0002_0008, 4, true, 1),
    );
    expect(
        &rt,
        line(&store).as_str(),
        "R 5 00100088 00732423 m00020008=00000001/4\n",
    );
    let load = retired(
        9,
        0x0010_0084,
        0x0832_a403,
        8,
        0x32a4_0300,
        access(0x0010_0083, 4, false, 0),
    );
    expect(
        &rt,
        line(&load).as_str(),
        "R 9 00100084 0832a403 x08=32a40300\n",
    );
    let ecall = Event::Trap {
        cycle: 3,
        pc: 0x0010_0080,
        word: 0x73,
        cause: 11,
        tval: 0,
        addr: 0,
    };
    expect(
        &rt,
        line(&ecall).as_str(),
        "T 3 00100080 cause=11 tval=00000000\n",
    );
    let software = Event::Irq {
        cycle: 4,
        pc: 0x0010_0088,
        cause: 3,
    };
    expect(&rt, line(&software).as_str(), "I 4 00100088 cause=3\n");
    expect(&rt, end_line(true, 6, 3).as_str(), "E halt 6 3\n");
    expect(&rt, end_line(false, 10, 7).as_str(), "E budget 10 7\n");
    expect(
        &rt,
        end_line(false, u64::MAX, 0).as_str(),
        "E budget 18446744073709551615 0\n",
    );
}

#[test]
fn prints_views(rt: HostRuntime) {
    let division = View {
        ops: Some((0x0010_0000, 7)),
        ..DIVISION
    };
    expect(
        &rt,
        view_line(&division).as_str(),
        "R 0010008c 028544b3 op=00100000,00000007\n",
    );
    let load = View {
        pc: 0x0010_0084,
        word: 0x0832_a403,
        addr: Some(0x0010_0083),
        ..DIVISION
    };
    expect(
        &rt,
        view_line(&load).as_str(),
        "R 00100084 0832a403 a=00100083\n",
    );
    let enable = View {
        pc: 0x0010_0080,
        word: 0x3044_6073,
        ctl: Some(8),
        ops: Some((0, 0)),
        ..DIVISION
    };
    expect(
        &rt,
        view_line(&enable).as_str(),
        "R 00100080 30446073 c=00000008 op=00000000,00000000\n",
    );
    let store_fault = View {
        kind: 1,
        pc: 0x0010_0088,
        word: 0xfe82_af23,
        addr: Some(0x001f_fffe),
        cause: 7,
        tval: 0x0020_0000,
        ..DIVISION
    };
    expect(
        &rt,
        view_line(&store_fault).as_str(),
        "T 00100088 fe82af23 cause=7 tval=00200000 a=001ffffe\n",
    );
    let fetch_fault = View {
        kind: 1,
        pc: 0x0010_0096,
        word: 0,
        cause: 1,
        tval: 0x0010_0098,
        ..DIVISION
    };
    expect(
        &rt,
        view_line(&fetch_fault).as_str(),
        "T 00100096 0000 cause=1 tval=00100098\n",
    );
    let software = View {
        kind: 2,
        pc: 0x0010_0088,
        word: 0,
        cause: 3,
        ..DIVISION
    };
    expect(&rt, view_line(&software).as_str(), "I 00100088 cause=3\n");
}
