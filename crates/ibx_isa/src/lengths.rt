ghost use Rattle.std.specs.Prelude.{◌≡◌};
ghost use Rattle.ibx_isa.specs.Lengths.{is_long as is_long_of};

/// Whether a parcel, or a word that begins with it, is an instruction of 32 bits: its bits 1:0 are both 1
/// (Unprivileged ISA, 1.5).
pub fn is_long(first: u32) -> bool
    ensures { result ≡ is_long_of first }
{
    first % 4 == 3
}
