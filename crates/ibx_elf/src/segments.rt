ghost use Rattle.ibx_elf.specs.Faults.{overruns};
ghost use Rattle.ibx_elf.specs.Fields.{HasHeaders, e_phnum, is_load};
ghost use Rattle.ibx_elf.specs.Image.{IsReadable, segments_below};
ghost use Rattle.std.specs.Prelude.{Some, false, true, drop, length, slice_get, take, ◌<◌, ◌≡◌};

use crate::fields::{ProgramHeader, header_count};

/// How many loadable segments the program headers of a file describe.
pub(crate) fn count_segments(file: &[u8]) -> u16
    requires { HasHeaders file.now }
    ensures { result ≡ length (segments_below file.now (e_phnum file.now)) }
{
    let mut count = 0;
    for i in 0..header_count(file) {
        if ProgramHeader::read(file, i).is_load() {
            count += 1;
        }
    }
    count
}

// The file bytes of a loadable segment that lies within the file.
fn file_bytes(file: &[u8], header: ProgramHeader) -> &[u8]
    requires load { is_load header ≡ true }
    requires within { overruns (length file.now) header ≡ false }
    ensures { result.now ≡ take header.p_filesz (drop header.p_offset file.now) }
{
    if header.p_filesz == 0 {
        return &[];
    }
    let offset = header.p_offset as usize;
    &file[offset..offset + header.p_filesz as usize]
}

/// The physical address and the file bytes of loadable segment `index`, counted from 0.
pub(crate) fn segment_at(file: &[u8], index: u16) -> (u32, &[u8])
    requires readable { IsReadable file.now }
    requires index { index < length (segments_below file.now (e_phnum file.now)) }
    ensures { slice_get (segments_below file.now (e_phnum file.now)) index
        ≡ Some (record { addr = result.0; bytes = result.1.now }) }
{
    let mut left = index;
    for i in 0..header_count(file) {
        let header = ProgramHeader::read(file, i);
        if header.is_load() {
            if left == 0 {
                return (header.p_paddr, file_bytes(file, header));
            }
            left -= 1;
        }
    }
    unreachable!()
}
