use crate::{Head, Parcel, Prefetch, WordAns};
use std::process::Abort;

const SILENT: WordAns = WordAns {
    valid: false,
    err: false,
    word: 0,
};

const NOT_READY: Option<u16> = None;

fn word(word: u32) -> WordAns {
    WordAns {
        valid: true,
        err: false,
        word,
    }
}

fn ready(parcel: Parcel) -> Option<u16> {
    if parcel.ready {
        Some(parcel.half)
    } else {
        None
    }
}

// A cycle of a run: what answers, where it redirects to, how many parcels are taken, and then what is requested and
// the two parcels that are shown.
#[derive(Clone, Copy)]
struct Turn {
    answer: WordAns,
    redirect: Option<u32>,
    taken: u8,
    request: Option<u32>,
    shown: (Option<u16>, Option<u16>),
}

impl Turn {
    fn new(
        answer: WordAns,
        taken: u8,
        request: Option<u32>,
        first: Option<u16>,
        second: Option<u16>,
    ) -> Turn {
        Turn {
            answer,
            redirect: None,
            taken,
            request,
            shown: (first, second),
        }
    }

    fn to(answer: WordAns, target: u32, request: Option<u32>) -> Turn {
        Turn {
            redirect: Some(target),
            ..Turn::new(answer, 0, request, NOT_READY, NOT_READY)
        }
    }
}

// Steps the buffer from reset. What is shown says nothing in the cycle of a redirect.
fn check(rt: &impl Abort, entry: u32, turns: &[Turn]) -> Prefetch {
    let mut unit = Prefetch::reset(entry);
    for (cycle, turn) in turns.iter().enumerate() {
        let Head { first, second } = unit.head(&turn.answer);
        if turn.redirect.is_none() {
            assert_eq!(rt;
                (ready(first), ready(second)),
                turn.shown,
                "at cycle {cycle}"
            );
        }
        assert_eq!(rt;
            unit.request(&turn.answer, turn.redirect),
            turn.request,
            "at cycle {cycle}"
        );
        unit.advance(&turn.answer, turn.redirect, turn.taken);
    }
    unit
}

// Words of LUI, ADDI and SW, which answer a cycle after their request. Then nothing is taken until three words are
// held.
#[test]
fn words_without_waits(rt: HostRuntime) {
    let turns = [
        Turn::new(SILENT, 0, Some(0x80), NOT_READY, NOT_READY),
        Turn::new(word(0x0002_0337), 2, Some(0x84), Some(0x0337), Some(0x0002)),
        Turn::new(word(0x0010_0393), 2, Some(0x88), Some(0x0393), Some(0x0010)),
        Turn::new(word(0x0073_2423), 2, Some(0x8c), Some(0x2423), Some(0x0073)),
        Turn::new(word(0x2222_1111), 0, Some(0x90), Some(0x1111), Some(0x2222)),
        Turn::new(word(0x4444_3333), 0, Some(0x94), Some(0x1111), Some(0x2222)),
        Turn::new(word(0x6666_5555), 0, None, Some(0x1111), Some(0x2222)),
        Turn::new(SILENT, 1, None, Some(0x1111), Some(0x2222)),
        Turn::new(SILENT, 2, None, Some(0x2222), Some(0x3333)),
        Turn::new(SILENT, 1, Some(0x98), Some(0x4444), Some(0x5555)),
    ];
    let unit = check(&rt, 0x80, &turns);
    assert_eq!(rt;
        (unit.head_pc, unit.buf_count, unit.buf0),
        (0x94, 1, 0x6666_5555)
    );
}

// JAL redirects in the cycle in which the word after it answers. That word is dropped, and the target requested at
// once.
#[test]
fn word_of_a_redirect(rt: HostRuntime) {
    let turns = [
        Turn::new(SILENT, 0, Some(0x80), NOT_READY, NOT_READY),
        Turn::new(word(0x0080_00ef), 2, Some(0x84), Some(0x00ef), Some(0x0080)),
        Turn::to(word(0xffff_ffff), 0x88, Some(0x88)),
        Turn::new(word(0x0002_0337), 2, Some(0x8c), Some(0x0337), Some(0x0002)),
    ];
    let unit = check(&rt, 0x80, &turns);
    assert_eq!(rt; (unit.head_pc, unit.buf_count), (0x8c, 0));
}

// Each word answers two cycles after its request. The target is the high half of a word, and the redirect comes while
// an older word is outstanding.
#[test]
fn late_answer_of_an_older_word(rt: HostRuntime) {
    let turns = [
        Turn::new(SILENT, 0, Some(0x80), NOT_READY, NOT_READY),
        Turn::to(SILENT, 0x96, None),
        Turn::new(word(0xffff_ffff), 0, Some(0x94), NOT_READY, NOT_READY),
        Turn::new(SILENT, 0, None, NOT_READY, NOT_READY),
        Turn::new(word(0x0013_0001), 0, Some(0x98), Some(0x0013), NOT_READY),
        Turn::new(SILENT, 0, None, Some(0x0013), NOT_READY),
        Turn::new(word(0x7777_0000), 2, Some(0x9c), Some(0x0013), Some(0x0000)),
        Turn::new(SILENT, 0, None, Some(0x7777), NOT_READY),
    ];
    let unit = check(&rt, 0x80, &turns);
    assert_eq!(rt; (unit.head_pc, unit.buf_count), (0x9a, 1));
}

#[test]
fn error_of_a_word(rt: HostRuntime) {
    let answer = WordAns {
        err: true,
        ..word(0)
    };
    let unit = Prefetch::reset(0x0020_0000);
    let head = unit.head(&answer);
    assert!(rt; head.first.ready && head.first.err && head.second.err);
    let mut after = unit;
    after.advance(&answer, None, 1);
    assert!(rt; after.head(&SILENT).first.err);
    assert!(rt; !unit.head(&word(0)).first.err);
}

// States that no run reaches: an answer to a full buffer, addresses that aren't aligned, and a mark without a request.
#[test]
fn states_of_no_run(rt: HostRuntime) {
    let full = Prefetch {
        f_busy: true,
        f_fresh: false,
        f_drop: false,
        f_addr: 0x103,
        buf0: 1,
        buf1: 2,
        buf2: 3,
        buf_count: 3,
        head_pc: 0x101,
    };
    let mut after = full;
    after.advance(&word(4), None, 0);
    assert_eq!(rt;
        after,
        Prefetch {
            f_busy: false,
            ..full
        }
    );
    let one = Prefetch {
        buf_count: 1,
        ..after
    };
    assert_eq!(rt; one.request(&SILENT, None), Some(0x104));
    assert_eq!(rt; one.request(&SILENT, Some(0x1003)), Some(0x1000));
    let last = Prefetch {
        f_addr: 0xffff_ffff,
        ..one
    };
    assert_eq!(rt; last.request(&SILENT, None), Some(0));
    let mut marked = Prefetch {
        f_drop: true,
        ..after
    };
    marked.advance(&SILENT, None, 0);
    assert_eq!(rt; marked, after);
}
