/// Why a file is refused. Of several faults the first in this order is told, and within one fault the
/// least index. Indices count all program headers from 0. Field names are those of the System V gABI,
/// chapters "ELF Header" and "Program Header"; which values are asked for is our own rule.
#[derive(Clone, Copy, Debug, PartialEq, Eq)]
pub enum ElfFault {
    /// The file has fewer than the 52 bytes of a file header.
    Short,
    /// Bytes 0 to 3 aren't 7f 45 4c 46.
    Magic,
    /// `e_ident[EI_CLASS]` isn't 1, a file of 32-bit objects.
    Class,
    /// `e_ident[EI_DATA]` isn't 1, the lowest byte first.
    Order,
    /// `e_ident[EI_VERSION]` or `e_version` isn't 1.
    Version,
    /// `e_type` isn't 2, an executable file.
    Kind,
    /// `e_machine` isn't 243, RISC-V.
    Machine,
    /// There are program headers, and `e_phentsize` isn't 32 or they don't end within the file.
    Headers,
    /// `e_phnum` is 0xFFFF, which means that the number stands elsewhere.
    TooMany,
    /// This PT_LOAD has `p_filesz` above `p_memsz`, or its file bytes don't end within the file.
    Segment(u16),
    /// This PT_LOAD has bytes of memory that aren't in RAM.
    OutsideRam(u16),
    /// The file bytes of these two PT_LOAD share an address; the first index is below the second.
    Overlap(u16, u16),
    /// `e_entry` is odd or not in RAM.
    Entry,
}
