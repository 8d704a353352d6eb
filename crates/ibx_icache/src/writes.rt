ghost use Rattle.std.specs.Prelude.{◌≡◌, ◌<◌, ◌^◌, ◌/◌, ◌+◌, ◌%◌};
ghost use Rattle.ibx_secded.specs.Code.{encode_of, syndrome_of};
ghost use Rattle.ibx_icache.specs.WordPort.{alerts_by, out_by, slot_of};

use crate::wires::CacheOut;
use ibx_isa::{Alerts, Req};
use ibx_secded::Code;

/// The words of the cache that are written in a cycle.
#[derive(Clone, Copy)]
pub enum Filling {
    Nothing,
    /// Both tags of a set become the codeword of 0.
    Clears {
        set: u8,
    },
    /// A line in a slot, which is twice the set and the way.
    Stores {
        slot: u16,
        tag: u64,
        word0: u64,
        word1: u64,
    },
}

/// The slot of the line of an address in a way.
pub fn slot(addr: u32, way: bool) -> u16
    ensures value { result ≡ slot_of addr way }
    ensures fits { result < 512 }
{
    (addr / 8 % 256 * 2) as u16 + if way { 1 } else { 0 }
}

/// The tag word of the line of an address.
pub fn tag_word(addr: u32) -> u64
    ensures value { result ≡ encode_of 22 6 (2 ^ 21 + addr / 2 ^ 11) }
    ensures sound { syndrome_of 22 6 result ≡ 0 }
    ensures fits { result < 2 ^ 28 }
{
    Code::<22, 6>::encode(0x20_0000 + (addr / 0x800) as u64)
}

/// The data word of a word without its error.
pub fn data_word(entry: u64) -> u64
    ensures value { result ≡ encode_of 32 7 (entry % 2 ^ 32) }
    ensures sound { syndrome_of 32 7 result ≡ 0 }
    ensures fits { result < 2 ^ 39 }
{
    Code::<32, 7>::encode(entry % 0x1_0000_0000)
}

#[inline(always)]
pub fn alerts(minor: bool, bus: bool) -> Alerts
    ensures { result ≡ alerts_by minor bus }
{
    match (minor, bus) {
        (false, false) => Alerts(0),
        (true, false) => Alerts::MINOR,
        (false, true) => Alerts::BUS,
        (true, true) => Alerts(Alerts::MINOR.0 | Alerts::BUS.0),
    }
}

#[inline(always)]
pub fn out_wires(filling: Filling, bus: Req, alerts: Alerts) -> CacheOut
    ensures { result ≡ out_by filling bus alerts }
{
    let mut out = CacheOut {
        bus,
        ways: 0,
        set: 0,
        tag: 0,
        line0: 0,
        line1: 0,
        clear: false,
        alerts,
    };
    match filling {
        Filling::Nothing => {}
        Filling::Clears { set } => {
            out.set = set;
            out.clear = true;
        }
        Filling::Stores {
            slot,
            tag,
            word0,
            word1,
        } => {
            out.ways = if slot % 2 == 0 { 1 } else { 2 };
            out.set = (slot / 2 % 256) as u8;
            out.tag = tag;
            out.line0 = word0;
            out.line1 = word1;
        }
    }
    out
}
