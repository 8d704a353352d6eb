//! Wraps code as firmware: an ELF32 file whose one segment is the code.
#![tactic(auto)]

ghost use Rattle.ibx_elf.specs.Image.{image_of};
ghost use Rattle.ibx_elf.specs.declared.ram.Ram.{Ram};
ghost use Rattle.ibx_wrap.specs.Wrapped.{IsFirmware, image_of_code, wrapped};
ghost use Rattle.std.specs.Prelude.{IfOk, length, ◌≡◌, ◌≤◌};

use ibx_base::NoMemory;
use std::alloc::Global;

// `Elf32_Ehdr`: an executable for RISC-V that begins at 0x0010_0080, with one program header right after it.
const FILE_HEADER: [u8; 52] = [
    0x7f, b'E', b'L', b'F', 1, 1, 1, 0, 0, 0, 0, 0, 0, 0, 0, 0, // e_ident
    2, 0, 243, 0, // e_type, e_machine
    1, 0, 0, 0, // e_version
    0x80, 0x00, 0x10, 0x00, // e_entry
    52, 0, 0, 0, // e_phoff
    0, 0, 0, 0, // e_shoff
    0, 0, 0, 0, // e_flags
    52, 0, 32, 0, 1, 0, // e_ehsize, e_phentsize, e_phnum
    0, 0, 0, 0, 0, 0, // e_shentsize, e_shnum, e_shstrndx
];

// `Elf32_Phdr` before its sizes: what stands from byte 84 on is loaded at 0x0010_0080.
const SEGMENT_PLACE: [u8; 16] = [
    1, 0, 0, 0, // p_type
    84, 0, 0, 0, // p_offset
    0x80, 0x00, 0x10, 0x00, // p_vaddr
    0x80, 0x00, 0x10, 0x00, // p_paddr
];

// `Elf32_Phdr` after its sizes: the segment may be read, written and executed.
const SEGMENT_USE: [u8; 8] = [
    7, 0, 0, 0, // p_flags
    4, 0, 0, 0, // p_align
];

// Bytes of the file before the code.
const HEADER_BYTES: usize = 84;

/// The ELF32 file (System V gABI) whose one segment is the code, loaded at the byte address 0x0010_0080, where the
/// run begins. Where the code stands is our own rule. The code has at most 16,777,216 bytes, as the largest memory.
/// An `Err` means that there was no memory for the file.
pub fn wrap(alloc: Global, code: &[u8]) -> Result<Vec<u8>, NoMemory>
    requires { length code.now ≤ 16777216 }
    ensures bytes { IfOk result (λ file. file.items ≡ wrapped code.now) }

    // For each memory that the code fits into the file has no fault, and its image is the code alone.
    ensures well_formed { IfOk result (λ file. IsFirmware file.items (length code.now)) }
    ensures image { IfOk result (λ file. (ram : Ram) → image_of file.items ram ≡ image_of_code code.now ram) }
{
    let count = (code.len() as u32).to_le_bytes();
    let mut file = Vec::with_capacity(alloc, HEADER_BYTES + code.len())?;
    file.extend_from_slice(&FILE_HEADER)?;
    file.extend_from_slice(&SEGMENT_PLACE)?;
    file.extend_from_slice(&count)?;
    file.extend_from_slice(&count)?;
    file.extend_from_slice(&SEGMENT_USE)?;
    file.extend_from_slice(code)?;
    Ok(file)
}

#[cfg(test)]
mod tests;
