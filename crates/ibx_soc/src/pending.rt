ghost use Rattle.std.specs.Prelude.{◌≡◌, ◌<◌, ◌^◌, true, bit_xor, if◌then◌else◌};
ghost use Rattle.ibx_system.specs.System.{changed};
ghost use Rattle.ibx_soc.specs.Seen.{PendingFits};

use ibx_core::In;
use ibx_secded::Code;

fn flip_word(word: u64, bit: u8, now: bool) -> u64
    requires bit { now ≡ true → bit < 39 }
    requires fits { word < 2 ^ 39 }
    ensures value { result ≡ (if now then bit_xor word (2 ^ bit) else word) }
    ensures fits { result < 2 ^ 39 }
{
    if now {
        Code::<32, 7>::flip(word, bit)
    } else {
        word
    }
}

fn flip_tag(word: u32, bit: u8, now: bool) -> u32
    requires bit { now ≡ true → bit < 28 }
    requires fits { word < 2 ^ 28 }
    ensures value { result ≡ (if now then bit_xor word (2 ^ bit) else word) }
    ensures fits { result < 2 ^ 28 }
{
    if now {
        Code::<22, 6>::flip(word as u64, bit) as u32
    } else {
        word
    }
}

/// The input with the pending flip of an output word, by the word's number and the bit.
#[tactic(auto, unfolding(ibx_system::specs::System::changed))]
pub(crate) fn with_pending(i: &In, pending: Option<(u8, u8)>) -> In
    requires { PendingFits pending }
    ensures { result ≡ changed pending i.now }
{
    match pending {
        None => *i,
        Some((wire, bit)) => In {
            rega: flip_word(i.rega, bit, wire == 0),
            regb: flip_word(i.regb, bit, wire == 1),
            tag0: flip_tag(i.tag0, bit, wire == 2),
            tag1: flip_tag(i.tag1, bit, wire == 3),
            data0: flip_word(i.data0, bit, wire == 4),
            data1: flip_word(i.data1, bit, wire == 5),
            ..*i
        },
    }
}
