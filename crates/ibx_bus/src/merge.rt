ghost use Rattle.std.specs.Prelude.{◌≡◌, ◌<◌, ◌^◌, ◌*◌, ◌/◌, ◌%◌, ◌+◌, length, slice_index, slice_set};
ghost use Rattle.ibx_secded.specs.Code.{payload_of};
ghost use Rattle.ibx_bus.specs.Memory.{lane_of, merged, stored_word};

use ibx_ram::CodedRam;
use ibx_secded::Code;

// Byte number `place` of the new word where its enable is set, else of the old word.
#[tactic(auto, using(ibx_bits::proofs::Bytes::byte_by_shift))]
fn lane(place: u8, enables: u8, old: u64, new: u64) -> u64
    requires { place < 4 }
    ensures value { result ≡ lane_of place enables old new }
    ensures fits { result < 256 }
{
    let word = if (enables >> place) % 2 == 1 {
        new
    } else {
        old
    };
    (word >> (8 * place)) % 256
}

// The enabled bytes of the new word and the other bytes of the old one.
#[tactic(auto, unfolding(crate::specs::Memory::merged))]
fn merge(enables: u8, old: u64, new: u64) -> u64
    ensures value { result ≡ merged enables old new }
    ensures fits { result < 2 ^ 32 }
{
    let low = lane(0, enables, old, new) + 256 * lane(1, enables, old, new);
    let high = 65536 * lane(2, enables, old, new) + 16777216 * lane(3, enables, old, new);
    low + high
}

/// Stores into word `index`: with four enables the word of the wires as it came, and with fewer the merged bytes, where
/// the check bits change as the payload does, so that a flip in the word stays told.
#[tactic(auto, unfolding(crate::specs::Memory::stored_word))]
pub(crate) fn store(words: &mut CodedRam<32, 7>, index: u32, enables: u8, new: u64)
    requires inside { index < length words.old }
    requires fits { new < 2 ^ 39 }
    ensures { words.new ≡ slice_set words.old index (stored_word enables (slice_index words.old index) new) }
{
    if enables == 15 {
        words.put(index, new);
        return;
    }
    let old = words.get(index);
    let bytes = merge(
        enables,
        Code::<32, 7>::payload(old),
        Code::<32, 7>::payload(new),
    );
    words.rewrite(index, bytes);
}
