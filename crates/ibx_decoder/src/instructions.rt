ghost use Rattle.std.specs.Prelude.{◌≡◌, IfSome};
ghost use Rattle.ibx_isa.specs.Lengths.{IsWordOrHalf};
ghost use Rattle.ibx_isa.specs.WellFormed.{IsWellFormed};
ghost use Rattle.ibx_decoder.specs.Instructions.{instruction_of};

use crate::{decode, expand};
use ibx_isa::{Insn, is_long};

/// The instruction of a word of 32 bits as fetched; a halfword, zero-extended, stands for its expansion
/// (Unprivileged ISA, 1.5). None where the word is no instruction.
#[tactic(auto, unfolding(crate::specs::Instructions::instruction_of))]
pub fn instruction(word: u32) -> Option<Insn>
    requires { IsWordOrHalf word }
    ensures value { result ≡ instruction_of word }
    ensures sound { IfSome result IsWellFormed }
{
    if is_long(word) {
        return decode(word);
    }
    match expand(word as u16) {
        Some(word) => decode(word),
        None => None,
    }
}
