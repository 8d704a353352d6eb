ghost use Rattle.std.specs.Prelude.{◌≡◌, ◌+◌, ◌/◌, ◌%◌, ◌<◌, ◌≤◌, ◌^◌, get_or};
ghost use Rattle.ibx_pmp.specs.Ranges.{allowed, allows as allows_of, has_word, may as may_of, no_rights};
ghost use Rattle.ibx_pmp.specs.Ranges.{permits as permits_of, rights, rights_row as row_of};
ghost use Rattle.ibx_pmp.specs.Ranges.{without_entry as without_entry_of};

use ibx_isa::control::{MML, MMWP};

/// The sixteen entries of the protection unit (RISC-V Privileged ISA 1.12, 3.7.1). Entry i has the
/// configuration byte `cfg[i]` and the address `addr[i]`, which holds bits 33:2 of a byte address.
///
/// In a configuration byte R is bit 0, W bit 1, X bit 2, A bits 4:3 and L bit 7. `sec` has MML in bit 0 and MMWP in
/// bit 1 (our own profile after Smepmp 1.0). All other bits of both are ignored.
#[derive(Clone, Copy, Debug, PartialEq, Eq)]
pub struct PmpRegs {
    pub cfg: [u8; 16],
    pub addr: [u32; 16],
    pub sec: u8,
}

// What M may do with the bytes of an entry while MML is 1, by the bits L R W X from 0000 on: bit 0 reads, bit 1 writes,
// bit 2 executes.
const MACHINE: [u8; 16] = [0, 0, 3, 3, 0, 0, 0, 0, 0, 4, 4, 5, 1, 5, 3, 1];

// What U may do with them.
const USER: [u8; 16] = [0, 4, 1, 3, 1, 5, 3, 7, 0, 0, 4, 4, 0, 0, 0, 1];

/// What an access does with its bytes.
#[derive(Clone, Copy, Debug, PartialEq, Eq)]
pub enum AccessKind {
    Read,
    Write,
    Execute,
}

/// Whether the entries allow an access of `size` bytes from the byte address `addr` on, which lie in one
/// aligned word of four bytes. `machine` is the mode of the access, true for M and false for U.
///
/// The first entry that matches a byte of the access decides (Privileged ISA 1.12, 3.7.1, "Priority and Matching
/// Logic"): with MML 0 an entry without L allows M everything, and else R, W or X decides; with MML 1 a table of L, R,
/// W and X does. Where none matches, U is refused, since the unit has entries, and M is refused where MMWP is 1, or MML
/// is 1 and the access executes (our own profile after Smepmp 1.0).
pub fn allow(r: &PmpRegs, addr: u32, size: u8, kind: AccessKind, machine: bool) -> bool
    requires { addr % 4 + size ≤ 4 }
    ensures { result ≡ allowed r.now.sec r.now.cfg r.now.addr addr size kind machine }
{
    let sec = r.sec as u32;
    if size == 0 {
        return without_entry(sec, kind, machine);
    }
    let mut lower = 0;
    for i in 0..16 {
        let upper = r.addr[i];
        if covers_word(r.cfg[i], lower, upper, addr / 4) {
            return allows(sec, r.cfg[i], kind, machine);
        }
        lower = upper;
    }
    without_entry(sec, kind, machine)
}

// What the unit says of an access that no entry matches.
fn without_entry(sec: u32, kind: AccessKind, machine: bool) -> bool
    ensures { result ≡ without_entry_of sec kind machine }
{
    let executes = matches!(kind, AccessKind::Execute);
    machine && sec & MMWP == 0 && (sec & MML == 0 || !executes)
}

// What an entry says of an access that it matches.
fn allows(sec: u32, cfg: u8, kind: AccessKind, machine: bool) -> bool
    ensures { result ≡ allows_of sec cfg kind machine }
{
    if sec & MML != 0 {
        return may(rights_row(cfg), kind, machine);
    }
    let is_locked = cfg & 0x80 != 0;
    if machine && !is_locked {
        return true;
    }
    permits(cfg, kind)
}

// Whether the bit R, W or X is set.
fn permits(cfg: u8, kind: AccessKind) -> bool
    ensures { result ≡ permits_of cfg kind }
{
    match kind {
        AccessKind::Read => cfg & 1 != 0,
        AccessKind::Write => cfg & 2 != 0,
        AccessKind::Execute => cfg & 4 != 0,
    }
}

// The bits L, R, W and X of a configuration byte, L the highest.
fn rights_row(cfg: u8) -> u8
    ensures row { result ≡ row_of cfg }
    ensures below { result < 16 }
{
    ((cfg >> 7) & 1) * 8 + (cfg & 1) * 4 + ((cfg >> 1) & 1) * 2 + ((cfg >> 2) & 1)
}

// What a row of the table lets a mode do.
#[tactic(auto, using(crate::proofs::Rights::masks_may))]
fn may(row: u8, kind: AccessKind, machine: bool) -> bool
    requires { row < 16 }
    ensures { result ≡ may_of kind machine (get_or rights row no_rights) }
{
    let index = row as usize;
    let mask = if machine { MACHINE[index] } else { USER[index] };
    permits(mask, kind)
}

// Whether an entry matches the bytes of a word. It matches all of them or none, since each range begins
// and ends at a multiple of four bytes. `lower` is the address of the entry before.
#[tactic(auto, unfolding(crate::specs::Ranges::has_word))]
fn covers_word(cfg: u8, lower: u32, upper: u32, word: u32) -> bool
    ensures { result ≡ has_word cfg lower upper word }
{
    match (cfg >> 3) & 3 {
        // OFF
        0 => false,
        // TOR
        1 => lower <= word && word < upper,
        // NA4
        2 => word == upper,
        // NAPOT
        _ => {
            let shift = upper.trailing_ones() + 1;
            (word as u64) >> shift == (upper as u64) >> shift
        }
    }
}
