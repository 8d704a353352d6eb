ghost use Rattle.std.specs.Prelude.{◌≡◌, ◌+◌, ◌*◌, ◌/◌, ◌%◌, ◌^◌, ◌<◌, ◌≤◌, count_ones};
ghost use Rattle.ibx_bits.specs.Bytes.{bits_number, bytes_number};
ghost use Rattle.ibx_isa.specs.Portions.{gather_of, is_held, lane_byte, lanes_of, loaded, parts_of, portion_addr};
ghost use Rattle.ibx_isa.specs.Portions.{portion_size, size_of};

use crate::insn::LoadOp;

/// The portions, 1 or 2, of an access of `size` bytes at the byte address `addr`: two exactly where it crosses a
/// word. An access has 1, 2 or 4 bytes (Unprivileged ISA, 2.6).
pub fn parts(addr: u32, size: u8) -> u8
    ensures { result ≡ parts_of addr size }
{
    if addr % 4 + size as u32 > 4 { 2 } else { 1 }
}

/// The byte enables and the lane bits of one portion of an access of `size` bytes, at most 4, at the byte address
/// `addr`: bit i of the enables is set where lane i holds a byte of the access. The lanes hold the low bytes of
/// `value` in little-endian order, and 0 where they hold none. `second` asks for the portion in the next word.
#[tactic(auto, unfolding(crate::specs::Portions::lanes_of))]
pub fn lanes(addr: u32, size: u8, value: u32, second: bool) -> (u8, u32)
    requires { size ≤ 4 }
    ensures lanes { result ≡ lanes_of addr size value second }
    ensures enables { result.0 < 16 }
    ensures portion { count_ones result.0 ≡ portion_size addr size second }
{
    (
        enables(addr, size, second),
        lane_bits(addr, size, value, second),
    )
}

/// The value that a load of the byte address `addr` gives its register, from the words of its two portions. A load
/// with one portion takes nothing of `second`.
#[tactic(auto, unfolding(crate::specs::Portions::gather_of))]
pub fn gather(op: LoadOp, addr: u32, first: u32, second: u32) -> u32
    ensures { result ≡ gather_of op addr first second }
{
    let pair = second as u64 * 0x1_0000_0000 + first as u64;
    extend(op, lowest(pair >> (8 * (addr % 4)), access_size(op)) as u32)
}

/// The byte address of a portion of an access at the byte address `addr`; that of the second is the next word's.
pub fn portion_start(addr: u32, second: bool) -> u32
    ensures { result ≡ portion_addr addr second }
{
    if second {
        (addr - addr % 4).wrapping_add(4)
    } else {
        addr
    }
}

/// The bytes of a portion of an access of `size` bytes: those in the first word, and the rest.
pub fn portion_bytes(addr: u32, size: u8, second: bool) -> u8
    ensures { result ≡ portion_size addr size second }
{
    let room = (4 - addr % 4) as u8;
    if second {
        size.saturating_sub(room)
    } else {
        size.min(room)
    }
}

/// The low `size` bytes, at most 4, of a value.
pub fn low_bytes(value: u32, size: u8) -> u32
    requires { size ≤ 4 }
    ensures { result ≡ value % 256 ^ size }
{
    lowest(value as u64, size) as u32
}

// The enables of both words in one row of eight, of which a portion has four.
fn enables(addr: u32, size: u8, second: bool) -> u8
    requires { size ≤ 4 }
    ensures value { result ≡ bits_number (is_held addr size second) 4 }
    ensures fits { result < 16 }
    ensures portion { count_ones result ≡ portion_size addr size second }
{
    let row = ((1u32 << size) - 1) << (addr % 4);
    if second {
        (row >> 4) as u8
    } else {
        (row % 0x10) as u8
    }
}

// The lanes of both words in one row of eight, of which a portion has four.
fn lane_bits(addr: u32, size: u8, value: u32, second: bool) -> u32
    requires { size ≤ 4 }
    ensures { result ≡ bytes_number (lane_byte addr size value second) 4 }
{
    let row = lowest(value as u64, size) << (8 * (addr % 4));
    if second {
        (row >> 32) as u32
    } else {
        (row % 0x1_0000_0000) as u32
    }
}

#[tactic(auto, using(ibx_bits::proofs::Bytes::low_bytes_are))]
fn lowest(value: u64, size: u8) -> u64
    requires { size ≤ 4 }
    ensures value { result ≡ value % 256 ^ size }
    ensures fits { result < 2 ^ 32 }
{
    value % (1 << (8 * size))
}

/// The bytes, 1, 2 or 4, that a load reads (Unprivileged ISA, 2.6).
pub fn access_size(op: LoadOp) -> u8
    ensures value { result ≡ size_of op }
    ensures most { result ≤ 4 }
{
    match op {
        LoadOp::Lb | LoadOp::Lbu => 1,
        LoadOp::Lh | LoadOp::Lhu => 2,
        LoadOp::Lw => 4,
    }
}

#[tactic(auto, unfolding(crate::specs::Portions::loaded))]
fn extend(op: LoadOp, bytes: u32) -> u32
    requires { bytes < 256 ^ size_of op }
    ensures { result ≡ loaded op bytes }
{
    match op {
        LoadOp::Lb if bytes >= 0x80 => bytes + 0xffff_ff00,
        LoadOp::Lh if bytes >= 0x8000 => bytes + 0xffff_0000,
        _ => bytes,
    }
}
