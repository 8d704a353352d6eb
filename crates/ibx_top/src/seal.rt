//! The seal of a run: a sum over all fields of the core.
ghost use Rattle.std.specs.Prelude.{◌≡◌};
ghost use Rattle.ibx_top.specs.Seals.{seal_of};

use ibx_core::Core;
use ibx_plan::FIELDS;

/// The sum of the fields of a core, modulo 2^64.
pub(crate) fn field_sum(core: &Core) -> u64
    ensures { result ≡ seal_of core.now }
{
    let mut sum = 0_u64;
    for field in 0..FIELDS {
        sum = sum.wrapping_add(core.get(field));
    }
    sum
}
