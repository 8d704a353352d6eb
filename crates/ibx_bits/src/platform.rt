ghost use Rattle.std.specs.Prelude.{◌≡◌};
ghost use Rattle.ibx_bits.specs.Platform as platform;

/// The first byte address of the page of the host's registers (our own rule).
pub const HOST_PAGE: u32 = 0x0002_0000;

/// The first byte address after that page.
pub const HOST_PAGE_END: u32 = 0x0002_1000;

/// The byte address of the register where a word store with bit 0 set ends the run.
pub const HALT_REGISTER: u32 = 0x0002_0008;

/// The interrupt lines that there are: bits 3, 7, 11 and 16 to 30 (Privileged ISA 1.12, 3.1.9).
pub const INTERRUPT_LINES: u32 = 0x7fff_0888;

/// Whether a byte address lies in the host's page.
pub fn host_page_has(addr: u32) -> bool
    ensures { result ≡ platform.host_page_has addr }
{
    HOST_PAGE <= addr && addr < HOST_PAGE_END
}
