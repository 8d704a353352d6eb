ghost use Rattle.std.specs.Prelude.{◌≡◌, ◌<◌, ◌^◌};
ghost use Rattle.ibx_csr.specs.Kept.{stored_mstatus as mstatus_after, stored_cfg as cfg_after};
ghost use Rattle.ibx_csr.specs.Kept.{kept_byte as byte_after, legal_byte as legal, with_low as low_written};
ghost use Rattle.ibx_csr.specs.Kept.{with_high as high_written, is_held as held, is_held_top as held_top};
ghost use Rattle.ibx_csr.specs.Kept.{is_locked, is_refused as refused, stored_sec as sec_after};
ghost use Rattle.std.specs.List.{list_any};

use crate::name::Csr;
use ibx_bits::byte_at;
use ibx_isa::control::{MML, MMWP, MPP, RLB};

// The lock of a configuration byte.
const LOCK: u8 = 0x80;

/// mstatus after a write: a value of MPP other than 3 becomes 0.
pub(crate) fn stored_mstatus(value: u32) -> u32
    ensures { result ≡ mstatus_after value }
{
    let word = if value & MPP == MPP {
        value
    } else {
        value & !MPP
    };
    Csr::Mstatus.bits().legal(word)
}

pub(crate) fn with_low(count: u64, low: u32) -> u64
    ensures { result ≡ low_written count low }
{
    ((count >> 32) << 32) | low as u64
}

pub(crate) fn with_high(count: u64, high: u32) -> u64
    ensures { result ≡ high_written count high }
{
    ((high as u64) << 32) | (count & 0xffff_ffff)
}

/// An entry is held by its lock, unless RLB is 1.
pub(crate) fn is_held(sec: u32, byte: u8) -> bool
    ensures { result ≡ held sec byte }
{
    sec & RLB == 0 && byte & LOCK != 0
}

/// A held entry that is the top of a range, which begins at the address of the entry before it.
pub(crate) fn is_held_top(sec: u32, byte: u8) -> bool
    ensures { result ≡ held_top sec byte }
{
    sec & RLB == 0 && byte & 0x98 == 0x88
}

// A locked byte that would add a right to execute under MML; R is bit 0, W bit 1 and X bit 2.
fn is_refused(sec: u32, byte: u8) -> bool
    ensures { result ≡ refused sec byte }
{
    let rights = byte & 7;
    let adds = rights == 4 || rights == 2 || rights == 6 || rights == 5;
    sec & MML != 0 && sec & RLB == 0 && byte & LOCK != 0 && adds
}

// W without R is stored as neither while MML is 0.
fn legal_byte(sec: u32, byte: u8) -> u8
    ensures { result ≡ legal sec byte }
{
    if sec & MML == 0 && byte & 3 == 2 {
        byte & 0x9d
    } else {
        byte & 0x9f
    }
}

fn kept_byte(sec: u32, old: u8, new: u8) -> u8
    ensures { result ≡ byte_after sec old new }
{
    if is_held(sec, old) || is_refused(sec, new) {
        old
    } else {
        legal_byte(sec, new)
    }
}

/// Four configuration bytes after a write, with mseccfg as it was before.
pub(crate) fn stored_cfg(sec: u32, old: u32, value: u32) -> u32
    ensures { result ≡ cfg_after sec old value }
{
    let a = kept_byte(sec, byte_at(old, 0), byte_at(value, 0));
    let b = kept_byte(sec, byte_at(old, 1), byte_at(value, 1));
    let c = kept_byte(sec, byte_at(old, 2), byte_at(value, 2));
    let d = kept_byte(sec, byte_at(old, 3), byte_at(value, 3));
    u32::from_le_bytes([a, b, c, d])
}

// Some entry has L, whether it is off or not.
fn is_some_locked(cfg: &[u8; 16]) -> bool
    ensures { result ≡ list_any is_locked cfg.now }
{
    cfg.iter().any(|byte| *byte & LOCK != 0)
}

/// mseccfg after a write, with these configuration bytes: MML and MMWP stay once they are 1, and RLB stays 0 where some
/// entry is locked.
pub(crate) fn stored_sec(old: u32, cfg: &[u8; 16], value: u32) -> u32
    ensures { result ≡ sec_after old cfg.now value }
{
    let rlb = if old & RLB == 0 && is_some_locked(cfg) {
        0
    } else {
        value & RLB
    };
    ((old | value) & (MML | MMWP)) | rlb
}
