ghost use Rattle.ibx_icache.specs.WordPort.{IsInput};

use crate::{CacheIn, CacheOut, WordAns, WordPort};
use ibx_isa::{Alerts, Req, Rsp};
use ibx_secded::Code;

const EMPTY: u64 = 0xa80_0000;

const SILENT: Rsp = Rsp {
    valid: false,
    err: false,
    word: 0,
};

// A port with both ways of one set, and a bus without waits whose words hold their own addresses.
#[derive(Clone, Copy)]
struct Bench {
    port: WordPort,
    tags: [u64; 2],
    firsts: [u64; 2],
    seconds: [u64; 2],
    rsp: Rsp,
}

fn input(request: Option<u32>, fence: bool, rsp: Rsp, tags: [u64; 2], lanes: [u64; 2]) -> CacheIn
    ensures { IsInput result }
{
    CacheIn {
        request,
        enable: true,
        fence,
        rsp: Rsp {
            word: rsp.word % 0x80_0000_0000,
            ..rsp
        },
        tags: [tags[0] % 0x1000_0000, tags[1] % 0x1000_0000],
        lanes: [lanes[0] % 0x80_0000_0000, lanes[1] % 0x80_0000_0000],
        granted: true,
    }
}

fn answer_to(req: &Req) -> Rsp {
    if req.valid {
        Rsp {
            valid: true,
            err: false,
            word: Code::<32, 7>::encode(req.addr as u64),
        }
    } else {
        SILENT
    }
}

impl Bench {
    fn new(c_walk: u16) -> Bench {
        Bench {
            port: WordPort {
                c_walk,
                ..WordPort::reset()
            },
            tags: [EMPTY, EMPTY],
            firsts: [0, 0],
            seconds: [0, 0],
            rsp: SILENT,
        }
    }

    fn cycle(&mut self, request: Option<u32>, fence: bool) -> (WordAns, CacheOut) {
        let lanes = if self.port.looked() / 4 % 2 == 0 {
            self.firsts
        } else {
            self.seconds
        };
        let i = input(request, fence, self.rsp, self.tags, lanes);
        let ans = self.port.answer(&i);
        let out = self.port.out(&i);
        if out.ways == 1 {
            self.tags[0] = out.tag;
            self.firsts[0] = out.line0;
            self.seconds[0] = out.line1;
        } else if out.ways == 2 {
            self.tags[1] = out.tag;
            self.firsts[1] = out.line0;
            self.seconds[1] = out.line1;
        }
        self.rsp = answer_to(&out.bus);
        self.port.advance(&i);
        (ans, out)
    }

    // After a request: the cycles to its answer, the word, and the ways that were stored meanwhile. A FENCE.I comes in
    // cycle `fence` after the request.
    fn fetch(&mut self, addr: u32, fence: u32) -> (u32, u32, u8) {
        let mut ways = 0;
        let _taken = self.cycle(Some(addr), false);
        for n in 1..8 {
            let (ans, out) = self.cycle(None, n == fence);
            ways |= out.ways;
            if ans.valid {
                return (n, ans.word, ways);
            }
        }
        (0, 0, ways)
    }
}

// Lines of one set, one after the other: the cycles to the answer, and the way that is filled.
#[test]
fn misses_and_hits(rt: HostRuntime) {
    let mut bench = Bench::new(256);
    let rows = [
        ("a line in an empty set", 0x0010_0000, 4, 1),
        ("a second line", 0x0010_0800, 4, 2),
        ("a third line, over the first", 0x0010_1000, 4, 1),
        ("the first line again, over the second", 0x0010_0000, 4, 2),
        ("the other word of that line", 0x0010_0004, 1, 0),
        ("the third line", 0x0010_1000, 1, 0),
        ("its other word", 0x0010_1004, 1, 0),
        ("the second line again, over the third", 0x0010_0804, 4, 1),
        ("the same word again", 0x0010_0804, 1, 0),
    ];
    for (name, addr, cycles, ways) in rows {
        assert_eq!(rt; bench.fetch(addr, 0), (cycles, addr, ways), "at {name}");
    }
}

// A FENCE.I in cycle n after the request: the request answers as ever, and its line isn't stored.
#[test]
fn fence_while_filling(rt: HostRuntime) {
    for (fence, ways) in [(0, 1), (1, 0), (2, 0), (3, 0), (4, 1)] {
        let mut bench = Bench::new(256);
        assert_eq!(rt;
            bench.fetch(0x0010_0004, fence),
            (4, 0x0010_0004, ways),
            "at cycle {fence}"
        );
    }
}

// The walk from reset: a set a cycle, and requests are cached from cycle 256 on. A FENCE.I in that cycle begins it
// anew.
#[test]
fn walk(rt: HostRuntime) {
    let mut bench = Bench::new(0);
    for set in 0u8..=255 {
        let (_, out) = bench.cycle(None, false);
        assert!(rt; out.clear, "at set {set}");
        assert_eq!(rt; (out.set, out.ways, out.tag), (set, 0, 0), "at set {set}");
    }
    let (_, out) = bench.cycle(None, true);
    assert!(rt; !out.clear);
    assert_eq!(rt; bench.port.c_walk, 0);
    let rows = [
        ("the walk's first set", 0, false, true),
        ("the walk's last set", 255, false, true),
        ("after the walk", 256, false, false),
        ("after the walk, with a FENCE.I", 256, true, true),
        ("a count that no walk reaches", 511, false, false),
    ];
    for (name, c_walk, fence, bare) in rows {
        let mut bench = Bench::new(c_walk);
        let (_, out) = bench.cycle(Some(0x0010_0002), fence);
        assert_eq!(rt; out.bus.valid, bare, "at {name}");
        assert_eq!(rt;
            out.bus.addr,
            if bare { 0x0010_0000 } else { 0 },
            "at {name}"
        );
    }
}

// The first words of a story by hand: the wires of a miss, and the codewords that are stored.
#[test]
fn wires_of_a_miss(rt: HostRuntime) {
    let mut bench = Bench::new(256);
    let (_, taken) = bench.cycle(Some(0x0010_0004), false);
    let (_, first) = bench.cycle(None, false);
    let (_, second) = bench.cycle(None, false);
    let (_, stored) = bench.cycle(None, false);
    assert!(rt; !taken.bus.valid);
    assert_eq!(rt;
        (
            first.bus.valid,
            first.bus.write,
            first.bus.be,
            first.bus.addr
        ),
        (true, false, 15, 0x0010_0000)
    );
    assert_eq!(rt; (second.bus.valid, second.bus.addr), (true, 0x0010_0004));
    assert_eq!(rt; (stored.ways, stored.set, stored.tag), (1, 0, 0x660_0200));
    assert_eq!(rt;
        (stored.line0, stored.line1),
        (0x69_0010_0000, 0x64_0010_0004)
    );
    assert_eq!(rt; stored.alerts, Alerts(0));
}

// A lookup of 0x0010_0000 in full ways, with a bit flipped: the alerts, and the way that the miss fills.
#[test]
fn flipped_bits(rt: HostRuntime) {
    let rows = [
        ("no flip", [0, 0], [0, 0], true, 0, 0),
        ("the tag of way 0", [1, 0], [0, 0], false, 1, 1),
        ("the tag of way 1", [0, 0x800_0000], [0, 0], false, 1, 2),
        ("both tags", [1, 1], [0, 0], false, 1, 1),
        (
            "the word of way 0, which is looked up",
            [0, 0],
            [4, 0],
            false,
            1,
            1,
        ),
        ("the word of way 1, which isn't", [0, 0], [0, 4], true, 0, 0),
    ];
    for (name, tags, lanes, hit, alerts, ways) in rows {
        let mut bench = Bench::new(256);
        let _line = bench.fetch(0x0010_0000, 0);
        let _other = bench.fetch(0x0010_0800, 0);
        bench.tags = [bench.tags[0] ^ tags[0], bench.tags[1] ^ tags[1]];
        bench.firsts = [bench.firsts[0] ^ lanes[0], bench.firsts[1] ^ lanes[1]];
        let _taken = bench.cycle(Some(0x0010_0000), false);
        let (ans, out) = bench.cycle(None, false);
        assert_eq!(rt; ans.valid, hit, "at {name}");
        assert_eq!(rt; out.alerts, Alerts(alerts), "at {name}");
        let (_, _) = bench.cycle(None, false);
        let (_, stored) = bench.cycle(None, false);
        assert_eq!(rt; stored.ways, ways, "at {name}");
    }
}

// A fill with a word that is an error: it isn't stored, and the request answers an error only where its own word is
// one.
#[test]
fn errors_of_a_fill(rt: HostRuntime) {
    let rows = [
        (
            "its own word, the first, is an error",
            0x0010_0000,
            true,
            0,
            false,
            0,
            true,
        ),
        (
            "the other word, the first, is an error",
            0x0010_0004,
            true,
            0,
            false,
            0,
            false,
        ),
        (
            "the other word, the second, is an error",
            0x0010_0000,
            false,
            0,
            true,
            0,
            false,
        ),
        (
            "its own word, the second, is an error",
            0x0010_0004,
            false,
            0,
            true,
            0,
            true,
        ),
        (
            "its own word, the first, has a flip",
            0x0010_0000,
            false,
            1,
            false,
            0,
            true,
        ),
        (
            "its own word, the second, has a flip",
            0x0010_0004,
            false,
            0,
            false,
            0x40_0000_0000,
            true,
        ),
    ];
    for (name, addr, err0, flip0, err1, flip1, err) in rows {
        let mut bench = Bench::new(256);
        let _taken = bench.cycle(Some(addr), false);
        let _missed = bench.cycle(None, false);
        bench.rsp = Rsp {
            valid: true,
            err: err0,
            word: bench.rsp.word ^ flip0,
        };
        let (_, first) = bench.cycle(None, false);
        bench.rsp = Rsp {
            valid: true,
            err: err1,
            word: bench.rsp.word ^ flip1,
        };
        let (_, second) = bench.cycle(None, false);
        let (ans, _) = bench.cycle(None, false);
        assert_eq!(rt;
            (ans.valid, ans.err, second.ways),
            (true, err, 0),
            "at {name}"
        );
        assert_eq!(rt;
            first.alerts,
            Alerts(if flip0 == 0 { 0 } else { 4 }),
            "at {name}"
        );
        assert_eq!(rt;
            second.alerts,
            Alerts(if flip1 == 0 { 0 } else { 4 }),
            "at {name}"
        );
    }
}
