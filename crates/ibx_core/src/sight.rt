ghost use Rattle.std.specs.Prelude.{◌≡◌, ◌≤◌, ◌<◌, ◌^◌, IfSome, Some, if◌then◌else◌};
ghost use Rattle.ibx_isa.specs.Events.{IsStore};
ghost use Rattle.ibx_isa.specs.WellFormed.{IsWellFormed};
ghost use Rattle.ibx_isa.specs.Wires.{IsRequest};
ghost use Rattle.ibx_muldiv.specs.Unit.{start_of};
ghost use Rattle.ibx_secded.specs.Code.{payload_of};
ghost use Rattle.ibx_core.specs.Inputs.{drsp_of, inputs_of, mul_of};
ghost use Rattle.ibx_core.specs.Sights.{IsSight, access_by, access_if, cause_if, cause_of, cost_by};
ghost use Rattle.ibx_core.specs.Sights.{csr_cause as csr_cause_of, fixed_in, is_active};
ghost use Rattle.ibx_core.specs.Sights.{is_fixed as is_fixed_of, is_real as is_real_of, md_by, refused_by};
ghost use Rattle.ibx_core.specs.Sights.{row_cause as row_cause_of, row_of, sight_of, sight_with, turn_by};

use crate::protection::is_denied;
use crate::reads::row;
use crate::state::State;
use crate::wires::In;
use ibx_csr::Csrs;
use ibx_id::{IdIn, IdState, Turn, turn};
use ibx_isa::cause::{BREAKPOINT, FETCH_FAULT, ILLEGAL_INSTRUCTION, MACHINE_CALL, USER_CALL};
use ibx_isa::control::DATA_IND_TIMING;
use ibx_isa::{
    Access, Insn, MdOp, MulKind, Req, Rsp, access_size, low_bytes, md_cost, parts, writes,
};
use ibx_lsu::{LsTurn, Lsu};
use ibx_muldiv::MulDiv;
use ibx_secded::Code;

/// What the stage sees in a cycle.
#[derive(Clone, Copy)]
pub struct Sight {
    /// The row of the stage's word.
    pub row: Option<Insn>,
    /// The values of rs1 and rs2.
    pub a: u32,
    pub b: u32,
    /// The unit of multiplication: started in the row's first cycle, and as it was kept in a later one.
    pub md: MulDiv,
    /// The access of a real load or store.
    pub access: Option<Access>,
    /// Whether the access moves in this cycle.
    pub active: bool,
    pub ls: LsTurn,
    /// The cause of the trap that the item takes for what was fetched and decoded.
    pub cause: Option<u8>,
    /// What the stage does.
    pub turn: Turn,
}

#[inline(always)]
#[tactic(auto, unfolding(crate::specs::Sights::access_by))]
fn access(row: Option<Insn>, a: u32, b: u32) -> Option<Access>
    requires { IfSome row IsWellFormed }
    ensures value { result ≡ access_by row a b }
    ensures size { IfSome result (λ w. w.size ≤ 4) }
{
    match row {
        Some(Insn::Load { op, imm, .. }) => Some(Access {
            addr: a.wrapping_add(imm),
            size: access_size(op),
            store: false,
            value: 0,
        }),
        Some(Insn::Store { size, imm, .. }) => Some(Access {
            addr: a.wrapping_add(imm),
            size,
            store: true,
            value: low_bytes(b, size),
        }),
        _ => None,
    }
}

// The portion, 1 or 2, that protection refuses, else 0.
#[inline(always)]
#[tactic(auto, unfolding(crate::specs::Sights::refused_by))]
fn refused(csrs: &Csrs, access: Option<Access>) -> u8
    requires { IfSome access (λ w. w.size ≤ 4) }
    ensures { result ≡ refused_by csrs.now access }
{
    match access {
        None => 0,
        Some(want) => {
            if is_denied(csrs, &want, false) {
                1
            } else if parts(want.addr, want.size) == 2 && is_denied(csrs, &want, true) {
                2
            } else {
                0
            }
        }
    }
}

// A cycle of the access, where it is active.
#[inline(always)]
#[tactic(auto, unfolding(crate::specs::Sights::turn_by))]
fn ls_turn(active: bool, access: Option<Access>, ls: &Lsu, rsp: &Rsp) -> LsTurn
    requires size { IfSome access (λ w. w.size ≤ 4) }
    requires word { rsp.now.word < 2 ^ 39 }
    ensures value { result ≡ turn_by active access ls.now rsp.now }
    ensures request { IsRequest result.req }
{
    match access {
        Some(want) if active => ls.turn(&want, rsp),
        _ => LsTurn {
            req: Req::NONE,
            done: false,
            fault: 0,
            first: 0,
            second: 0,
        },
    }
}

#[tactic(auto, unfolding(crate::specs::Sights::csr_cause))]
fn csr_cause(csrs: &Csrs, writing: bool, addr: u16) -> Option<u8>
    ensures { result ≡ csr_cause_of csrs.now writing addr }
{
    if csrs.read(addr, 0).is_none() || writing && !csrs.can_write(addr) {
        Some(ILLEGAL_INSTRUCTION)
    } else {
        None
    }
}

#[tactic(auto, unfolding(crate::specs::Sights::row_cause))]
fn row_cause(csrs: &Csrs, row: Option<Insn>) -> Option<u8>
    ensures { result ≡ row_cause_of csrs.now row }
{
    match row {
        Some(Insn::Csr { op, src, addr, .. }) => csr_cause(csrs, writes(op, src), addr),
        Some(Insn::Ecall) if csrs.priv_ => Some(MACHINE_CALL),
        Some(Insn::Ecall) => Some(USER_CALL),
        Some(Insn::Ebreak) => Some(BREAKPOINT),
        Some(Insn::Mret) if !csrs.priv_ => Some(ILLEGAL_INSTRUCTION),
        Some(Insn::Wfi) if !csrs.may_wait() => Some(ILLEGAL_INSTRUCTION),
        Some(_) => None,
        None => Some(ILLEGAL_INSTRUCTION),
    }
}

#[tactic(auto, unfolding(crate::specs::Sights::cause_of))]
fn cause(csrs: &Csrs, fault: u8, row: Option<Insn>) -> Option<u8>
    ensures { result ≡ cause_of csrs.now fault row }
{
    if fault == 0 {
        row_cause(csrs, row)
    } else {
        Some(FETCH_FAULT)
    }
}

#[inline(always)]
fn multiplier(mul: u8) -> MulKind
    ensures { result ≡ mul_of mul }
{
    match mul {
        0 => MulKind::Single,
        1 => MulKind::Fast,
        _ => MulKind::Slow,
    }
}

// The unit in this cycle: started in the row's first cycle, and as it was kept in a later one.
#[inline(always)]
#[tactic(auto, unfolding(crate::specs::Sights::md_by))]
fn unit(
    first: bool,
    row: Option<Insn>,
    kept: &MulDiv,
    a: u32,
    b: u32,
    fixed: bool,
    mul: MulKind,
) -> MulDiv
    ensures { result ≡ md_by first row kept.now a b fixed mul }
{
    match row {
        Some(Insn::MulDiv { op, .. }) if first => started(op, a, b, fixed, mul),
        Some(Insn::MulDiv { .. }) => *kept,
        _ => MulDiv::idle(),
    }
}

fn started(op: MdOp, a: u32, b: u32, fixed: bool, mul: MulKind) -> MulDiv
    ensures { result ≡ start_of op a b fixed mul }
{
    let mut unit = MulDiv::idle();
    unit.start(op, a, b, fixed, mul);
    unit
}

// The cycles that the row takes beyond its first.
#[inline(always)]
#[tactic(auto, unfolding(crate::specs::Sights::cost_by))]
fn cost(row: Option<Insn>, b: u32, fixed: bool, mul: MulKind) -> u8
    ensures { result ≡ cost_by row b fixed mul }
{
    match row {
        Some(Insn::MulDiv { op, .. }) => md_cost(op, b, fixed, mul),
        _ => 0,
    }
}

#[inline(always)]
fn payload(word: u64) -> u32
    ensures { result ≡ payload_of 32 word }
{
    Code::<32, 7>::payload(word) as u32
}

#[inline(always)]
pub fn is_fixed(csrs: &Csrs) -> bool
    ensures { result ≡ is_fixed_of csrs.now }
{
    csrs.cpuctrl & DATA_IND_TIMING != 0
}

#[inline(always)]
fn is_real(st: &IdState) -> bool
    ensures { result ≡ is_real_of st.now }
{
    st.valid && st.kind == 0
}

// A real item alone has an access and a cause.
#[inline(always)]
fn access_of(real: bool, row: Option<Insn>, a: u32, b: u32) -> Option<Access>
    requires { IfSome row IsWellFormed }
    ensures value { result ≡ access_if real row a b }
    ensures size { IfSome result (λ w. w.size ≤ 4) }
    ensures stores { IsStore result → IsStore (access_by row a b) }
{
    if real { access(row, a, b) } else { None }
}

fn cause_in(real: bool, x: &State, row: Option<Insn>) -> Option<u8>
    ensures { result ≡ cause_if real x.now row }
{
    if real {
        cause(&x.csrs, x.id.fault, row)
    } else {
        None
    }
}

// An access that nothing refuses, until a portion failed.
#[inline(always)]
fn active(x: &State, access: Option<Access>, refused: u8) -> bool
    requires { refused ≡ refused_by x.now.csrs access }
    ensures { result ≡ is_active x.now access }
{
    access.is_some() && refused == 0 && x.id.phase < 2
}

#[inline(always)]
pub fn data_answer(i: &In) -> Rsp
    ensures value { result ≡ drsp_of i.now }
    ensures fits { result.word < 2 ^ 39 }
{
    Rsp {
        valid: i.drsp_valid,
        err: i.drsp_err,
        word: i.drsp_word,
    }
}

// What the stage sees, with the row, the operands, the access and the cause.
#[inline(always)]
#[tactic(auto, unfolding(crate::specs::Sights::sight_with))]
fn seen(
    row: Option<Insn>,
    a: u32,
    b: u32,
    access: Option<Access>,
    cause: Option<u8>,
    x: &State,
    i: &In,
) -> Sight
    requires row { IfSome row IsWellFormed }
    requires size { IfSome access (λ w. w.size ≤ 4) }
    requires stores { IsStore access → IsStore (access_by row a b) }
    ensures value { result ≡ sight_with row a b access cause x.now (inputs_of i.now) }
    ensures row { result.row ≡ row }
    ensures fits { IsSight x.now result }
{
    let fixed = x.id.kind == 1 || is_fixed(&x.csrs);
    let mul = multiplier(i.mul);
    let refused = refused(&x.csrs, access);
    let active = active(x, access, refused);
    let ls = ls_turn(active, access, &x.ls, &data_answer(i));
    let given = IdIn {
        insn: row,
        a,
        b,
        fixed,
        cost: cost(row, b, fixed, mul),
        wake: i.lines & x.csrs.mie != 0,
        trap: cause,
        ls_done: ls.done,
        ls_fault: if refused == 0 { ls.fault } else { refused },
    };
    Sight {
        row,
        a,
        b,
        md: unit(x.id.phase == 0, row, &x.md, a, b, fixed, mul),
        access,
        active,
        ls,
        cause,
        turn: turn(&x.id, &given),
    }
}

impl Sight {
    #[inline(always)]
    #[tactic(auto, unfolding(crate::specs::Sights::sight_of))]
    pub fn of(x: &State, i: &In) -> Sight
        ensures value { result ≡ sight_of x.now (inputs_of i.now) }
        ensures row { result.row ≡ row_of x.now.id }
        ensures fits { IsSight x.now result }
    {
        let row = row(&x.id);
        let a = payload(i.rega);
        let b = payload(i.regb);
        let real = is_real(&x.id);
        seen(
            row,
            a,
            b,
            access_of(real, row, a, b),
            cause_in(real, x, row),
            x,
            i,
        )
    }
}
