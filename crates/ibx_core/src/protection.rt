ghost use Rattle.std.specs.Prelude.{◌≡◌, ◌≤◌, ◌+◌, ◌%◌};
ghost use Rattle.ibx_csr.specs.Fields.{values};
ghost use Rattle.ibx_csr.specs.Values.{cfg_bytes, sec_of};
ghost use Rattle.ibx_pmp.specs.Ranges.{allowed};
ghost use Rattle.ibx_core.specs.Entries.{is_unset as is_unset_of, may_execute as may_execute_of};
ghost use Rattle.ibx_core.specs.Sights.{is_denied as is_denied_of};

use ibx_csr::Csrs;
use ibx_isa::{Access, portion_bytes, portion_start};
use ibx_pmp::{AccessKind, PmpRegs, allow};

fn entries(csrs: &Csrs) -> PmpRegs
    ensures cfg { result.cfg ≡ cfg_bytes (values csrs.now) }
    ensures addr { result.addr ≡ (values csrs.now).pmpaddr }
    ensures sec { result.sec ≡ sec_of (values csrs.now) }
{
    let view = csrs.pmp();
    let cfg = view.cfg;
    let addr = view.addr;
    let sec = view.sec;
    PmpRegs { cfg, addr, sec }
}

// No entry is in use, and M needs none, as at reset: then M may do all and U nothing.
fn is_unset(csrs: &Csrs) -> bool
    ensures { result ≡ is_unset_of csrs.now }
{
    csrs.pmpcfg0 == 0
        && csrs.pmpcfg1 == 0
        && csrs.pmpcfg2 == 0
        && csrs.pmpcfg3 == 0
        && csrs.mseccfg == 0
}

// What the entries say, which aren't searched where none is in use.
#[tactic(auto, using(crate::proofs::Unset::unset_allows))]
fn allows(csrs: &Csrs, addr: u32, size: u8, kind: AccessKind, machine: bool) -> bool
    requires { addr % 4 + size ≤ 4 }
    ensures { result ≡ allowed (sec_of (values csrs.now)) (cfg_bytes (values csrs.now)) (values csrs.now).pmpaddr
        addr size kind machine }
{
    if is_unset(csrs) {
        machine
    } else {
        allow(&entries(csrs), addr, size, kind, machine)
    }
}

/// Whether protection refuses a portion of an access (Privileged ISA 1.12, 3.7.1 and 3.1.6.3).
#[tactic(auto, unfolding(crate::specs::Sights::is_denied))]
pub fn is_denied(csrs: &Csrs, want: &Access, second: bool) -> bool
    requires { want.now.size ≤ 4 }
    ensures { result ≡ is_denied_of csrs.now want.now second }
{
    let addr = portion_start(want.addr, second);
    let size = portion_bytes(want.addr, want.size, second);
    let kind = if want.store {
        AccessKind::Write
    } else {
        AccessKind::Read
    };
    !allows(csrs, addr, size, kind, csrs.access_machine())
}

/// Whether protection lets the parcel at a byte address be executed; bit 0 of the address isn't looked at.
#[tactic(auto, unfolding(crate::specs::Entries::may_execute))]
pub fn may_execute(csrs: &Csrs, addr: u32) -> bool
    ensures { result ≡ may_execute_of csrs.now addr }
{
    allows(csrs, addr / 2 * 2, 2, AccessKind::Execute, csrs.priv_)
}
