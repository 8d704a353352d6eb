ghost use Rattle.std.specs.Prelude.{◌≡◌, ◌/◌, ◌%◌, Some, None, IfSome, OnSome, IsTrue};
ghost use Rattle.ibx_decoder.specs.Compressed.{expand_of, is_short_of, rows};
ghost use Rattle.ibx_decoder.specs.Rows.{IsInstruction};
ghost use Rattle.ibx_decoder.specs.Table.{IsRow};

use crate::assemble::{
    BRANCH, JAL, JALR, LOAD, LUI, OP, OP_IMM, STORE, b_word, i_word, j_word, r_word, s_word, u_word,
};
use crate::half_fields::{
    bits, high_reg, immediate_addi4spn, immediate_addi16sp, immediate_branch, immediate_jump,
    immediate_lui, immediate_lw, immediate_lwsp, immediate_six, immediate_swsp, low_reg, wide_rd,
    wide_rs2,
};
use ibx_isa::is_long;

/// Whether a halfword is a whole instruction, and not the first half of a 32-bit one: its bits 1:0 aren't both 1
/// (RISC-V Unprivileged ISA, 1.5).
pub fn is_short(half: u16) -> bool
    ensures { result ≡ is_short_of half }
{
    !is_long(half as u32)
}

/// The 32-bit word of a compressed instruction (Unprivileged ISA, 16). None where the halfword is no instruction of
/// RV32C without floating point: at most one row of the table fits a halfword, and it is none exactly where no row
/// fits. A hint is expanded like any other; a reserved halfword, with an immediate 0 that isn't allowed or a shift by
/// 32 or more, is none.
pub fn expand(half: u16) -> Option<u32>
    ensures value { result ≡ expand_of half }
    ensures row { IsRow half rows result }
    ensures decodes { IfSome result IsInstruction }
    ensures short { OnSome result (IsTrue (is_short_of half)) }
{
    expanded(half)
}

// By the quadrant and the number.
#[tactic(auto, using(crate::proofs::ByNumber::empty_numbers))]
fn expanded(half: u16) -> Option<u32>
    ensures { result ≡ expand_of half }
{
    match (half % 4, half / 0x2000) {
        (0, 0) => stack_address(half),
        (0, 2) => load_word(half),
        (0, 6) => store_word(half),
        (1, 0) => add_immediate(half),
        (1, 1) => jump_and_link(half),
        (1, 2) => load_immediate(half),
        (1, 3) => stack_or_upper(half),
        (1, 4) => arithmetic(half),
        (1, 5) => jump(half),
        (1, 6) => branch_if_zero(half),
        (1, 7) => branch_if_not_zero(half),
        (2, 0) => shift_left(half),
        (2, 2) => load_from_stack(half),
        (2, 4) => register_pair(half),
        (2, 6) => store_to_stack(half),
        _ => None,
    }
}

// C.ADDI4SPN.
#[tactic(auto, using(crate::proofs::ByNumber::stack_address))]
fn stack_address(half: u16) -> Option<u32>
    requires quadrant { half % 4 ≡ 0 }
    requires number { half / 8192 ≡ 0 }
    ensures { result ≡ expand_of half }
{
    if half & 0x1fe0 == 0 {
        return None;
    }
    Some(i_word(immediate_addi4spn(half), 2, 0, low_reg(half), OP_IMM))
}

// C.LW.
#[tactic(auto, using(crate::proofs::ByNumber::load_word))]
fn load_word(half: u16) -> Option<u32>
    requires quadrant { half % 4 ≡ 0 }
    requires number { half / 8192 ≡ 2 }
    ensures { result ≡ expand_of half }
{
    Some(i_word(immediate_lw(half), high_reg(half), 2, low_reg(half), LOAD))
}

// C.SW.
#[tactic(auto, using(crate::proofs::ByNumber::store_word))]
fn store_word(half: u16) -> Option<u32>
    requires quadrant { half % 4 ≡ 0 }
    requires number { half / 8192 ≡ 6 }
    ensures { result ≡ expand_of half }
{
    Some(s_word(immediate_lw(half), low_reg(half), high_reg(half), 2, STORE))
}

// C.NOP and C.ADDI.
#[tactic(auto, using(crate::proofs::ByNumber::add_immediate))]
fn add_immediate(half: u16) -> Option<u32>
    requires quadrant { half % 4 ≡ 1 }
    requires number { half / 8192 ≡ 0 }
    ensures { result ≡ expand_of half }
{
    Some(i_word(immediate_six(half), wide_rd(half), 0, wide_rd(half), OP_IMM))
}

// C.JAL.
#[tactic(auto, using(crate::proofs::ByNumber::jump_and_link))]
fn jump_and_link(half: u16) -> Option<u32>
    requires quadrant { half % 4 ≡ 1 }
    requires number { half / 8192 ≡ 1 }
    ensures { result ≡ expand_of half }
{
    Some(j_word(immediate_jump(half), 1, JAL))
}

// C.LI.
#[tactic(auto, using(crate::proofs::ByNumber::load_immediate))]
fn load_immediate(half: u16) -> Option<u32>
    requires quadrant { half % 4 ≡ 1 }
    requires number { half / 8192 ≡ 2 }
    ensures { result ≡ expand_of half }
{
    Some(i_word(immediate_six(half), 0, 0, wide_rd(half), OP_IMM))
}

// C.ADDI16SP and C.LUI.
#[tactic(auto, using(crate::proofs::ByNumber::stack_or_upper))]
fn stack_or_upper(half: u16) -> Option<u32>
    requires quadrant { half % 4 ≡ 1 }
    requires number { half / 8192 ≡ 3 }
    ensures { result ≡ expand_of half }
{
    if half & 0x107c == 0 {
        return None;
    }
    if half & 0xf80 == 0x100 {
        return Some(i_word(immediate_addi16sp(half), 2, 0, 2, OP_IMM));
    }
    Some(u_word(immediate_lui(half), wide_rd(half), LUI))
}

// C.SRLI, C.SRAI, C.ANDI, C.SUB, C.XOR, C.OR, C.AND.
#[tactic(auto, using(crate::proofs::ByNumber::arithmetic))]
fn arithmetic(half: u16) -> Option<u32>
    requires quadrant { half % 4 ≡ 1 }
    requires number { half / 8192 ≡ 4 }
    ensures { result ≡ expand_of half }
{
    let rd = high_reg(half);
    if half & 0x1c00 == 0 {
        return Some(r_word(0, bits(half, 2, 5), rd, 5, rd, OP_IMM));
    }
    if half & 0x1c00 == 0x400 {
        return Some(r_word(0x20, bits(half, 2, 5), rd, 5, rd, OP_IMM));
    }
    if half & 0xc00 == 0x800 {
        return Some(i_word(immediate_six(half), rd, 7, rd, OP_IMM));
    }
    match half & 0x1c60 {
        0xc00 => Some(r_word(0x20, low_reg(half), rd, 0, rd, OP)),
        0xc20 => Some(r_word(0, low_reg(half), rd, 4, rd, OP)),
        0xc40 => Some(r_word(0, low_reg(half), rd, 6, rd, OP)),
        0xc60 => Some(r_word(0, low_reg(half), rd, 7, rd, OP)),
        _ => None,
    }
}

// C.J.
#[tactic(auto, using(crate::proofs::ByNumber::jump))]
fn jump(half: u16) -> Option<u32>
    requires quadrant { half % 4 ≡ 1 }
    requires number { half / 8192 ≡ 5 }
    ensures { result ≡ expand_of half }
{
    Some(j_word(immediate_jump(half), 0, JAL))
}

// C.BEQZ.
#[tactic(auto, using(crate::proofs::ByNumber::branch_if_zero))]
fn branch_if_zero(half: u16) -> Option<u32>
    requires quadrant { half % 4 ≡ 1 }
    requires number { half / 8192 ≡ 6 }
    ensures { result ≡ expand_of half }
{
    Some(b_word(immediate_branch(half), 0, high_reg(half), 0, BRANCH))
}

// C.BNEZ.
#[tactic(auto, using(crate::proofs::ByNumber::branch_if_not_zero))]
fn branch_if_not_zero(half: u16) -> Option<u32>
    requires quadrant { half % 4 ≡ 1 }
    requires number { half / 8192 ≡ 7 }
    ensures { result ≡ expand_of half }
{
    Some(b_word(immediate_branch(half), 0, high_reg(half), 1, BRANCH))
}

// C.SLLI.
#[tactic(auto, using(crate::proofs::ByNumber::shift_left))]
fn shift_left(half: u16) -> Option<u32>
    requires quadrant { half % 4 ≡ 2 }
    requires number { half / 8192 ≡ 0 }
    ensures { result ≡ expand_of half }
{
    if half & 0x1000 != 0 {
        return None;
    }
    Some(r_word(0, bits(half, 2, 5), wide_rd(half), 1, wide_rd(half), OP_IMM))
}

// C.LWSP.
#[tactic(auto, using(crate::proofs::ByNumber::load_from_stack))]
fn load_from_stack(half: u16) -> Option<u32>
    requires quadrant { half % 4 ≡ 2 }
    requires number { half / 8192 ≡ 2 }
    ensures { result ≡ expand_of half }
{
    if half & 0xf80 == 0 {
        return None;
    }
    Some(i_word(immediate_lwsp(half), 2, 2, wide_rd(half), LOAD))
}

// C.JR, C.MV, C.EBREAK, C.JALR, C.ADD.
#[tactic(auto, using(crate::proofs::ByNumber::register_pair))]
fn register_pair(half: u16) -> Option<u32>
    requires quadrant { half % 4 ≡ 2 }
    requires number { half / 8192 ≡ 4 }
    ensures { result ≡ expand_of half }
{
    let rd = wide_rd(half);
    if half & 0x107c == 0 && half & 0xf80 != 0 {
        return Some(i_word(0, rd, 0, 0, JALR));
    }
    if half & 0x1000 == 0 && half & 0x7c != 0 {
        return Some(r_word(0, wide_rs2(half), 0, 0, rd, OP));
    }
    if half & 0x1ffc == 0x1000 {
        return Some(0x0010_0073);
    }
    if half & 0x107c == 0x1000 && half & 0xf80 != 0 {
        return Some(i_word(0, rd, 0, 1, JALR));
    }
    if half & 0x1000 == 0x1000 && half & 0x7c != 0 {
        return Some(r_word(0, wide_rs2(half), rd, 0, rd, OP));
    }
    None
}

// C.SWSP.
#[tactic(auto, using(crate::proofs::ByNumber::store_to_stack))]
fn store_to_stack(half: u16) -> Option<u32>
    requires quadrant { half % 4 ≡ 2 }
    requires number { half / 8192 ≡ 6 }
    ensures { result ≡ expand_of half }
{
    Some(s_word(immediate_swsp(half), wide_rs2(half), 2, 2, STORE))
}
