ghost use Rattle.ibx_elf.specs.Faults.{IsWellFormed};
ghost use Rattle.ibx_elf.specs.Image.{image_of};
ghost use Rattle.ibx_gen.specs.Image.{HoldsProgram, default_ram};
ghost use Rattle.ibx_gen.specs.Instructions.{IsDrawn};
ghost use Rattle.ibx_gen.specs.Words.{body, bytes_of, closing, generated, opening, program};
ghost use Rattle.std.specs.Prelude.{IfOk, OnOk, length, ◌++◌, ◌≡◌};

use crate::draws::next_draw;
use crate::words::body_word;
use ibx_base::NoMemory;
use ibx_wrap::wrap;
use std::alloc::Global;

// Before the body: x5 has the address of its data, 0x0011_0000, and x4 how often it runs.
const OPENING: [u32; 2] = [0x0011_02b7, 0x0100_0213];

// The words of the body.
const BODY_WORDS: usize = 4_096;

// After the body: the next turn, until x4 is 0, and then the store that ends the run.
const CLOSING: [u32; 7] = [
    0x0000_0013,
    0xfff2_0213,
    0x0002_0463,
    0xff5f_b06f,
    0x0002_0337,
    0x0010_0393,
    0x0073_2423,
];

// Bytes of the program.
const PROGRAM_BYTES: usize = 4 * (OPENING.len() + BODY_WORDS + CLOSING.len());

// Appends the bytes of words, the lowest of each first.
fn append_words(code: &mut Vec<u8>, words: &[u32]) -> Result<(), NoMemory>
    ensures { OnOk result (code.new.items ≡ code.old.items ++ bytes_of words.now) }
{
    for word in words {
        code.extend_from_slice(&word.to_le_bytes())?;
    }
    Ok(())
}

// Appends the body's bytes: one draw a word.
fn append_body(code: &mut Vec<u8>, seed: u32) -> Result<(), NoMemory>
    ensures { OnOk result (code.new.items ≡ code.old.items ++ bytes_of (body seed 4096)) }
{
    let mut draw = seed;
    for _ in 0..BODY_WORDS {
        draw = next_draw(draw);
        code.extend_from_slice(&body_word(draw).to_le_bytes())?;
    }
    Ok(())
}

// The program's bytes.
#[tactic(auto, unfolding(crate::specs::Words::program))]
fn program_of(alloc: Global, seed: u32) -> Result<Vec<u8>, NoMemory>
    ensures { IfOk result (λ code. code.items ≡ bytes_of (program seed)) }
{
    let mut code = Vec::with_capacity(alloc, PROGRAM_BYTES)?;
    append_words(&mut code, &OPENING)?;
    append_body(&mut code, seed)?;
    append_words(&mut code, &CLOSING)?;
    Ok(code)
}

/// The firmware that a number gives, an ELF32 file of 16,504 bytes. Its program at 0x0010_0080 is a loop of 16 turns
/// over 4,096 random words, which load and store from 0x0011_0000 on, and then the store that ends a run (our own
/// rule). An `Err` means that there was no memory for the file.
#[tactic(auto, using(crate::proofs::Images::laws))]
pub fn generate(alloc: Global, seed: u32) -> Result<Vec<u8>, NoMemory>
    ensures file { IfOk result (λ file. file.items ≡ generated seed) }

    // The file that a number gives has no fault for the default memory, and its image is the program alone. Each
    // word of the body decodes to the instruction that its draw chooses.
    ensures well_formed { IsWellFormed (generated seed) default_ram }
    ensures image { HoldsProgram (program seed) (image_of (generated seed) default_ram) }
    ensures words { length (program seed) ≡ 4105 }
    ensures bytes { length (generated seed) ≡ 16504 }
    ensures drawn { IsDrawn seed }
{
    let code = program_of(alloc, seed)?;
    wrap(alloc, &code)
}
