ghost use Rattle.std.specs.Prelude.{◌≡◌, ◌<◌, ◌≤◌, ℕ, List, length, IfOk, IfSome, IsErrOf};
ghost use Rattle.ibx_base.specs.Counts.{Rose};
ghost use Rattle.ibx_base.specs.Files.{IsContent, IsLonger, CountsMiss, IsBegunAs};

use crate::files::Files;
use crate::status::Failed;
use std::alloc::{AllocError, Global};

/// Why a file wasn't read whole.
#[derive(Clone, Copy, Debug, PartialEq, Eq)]
pub enum ReadEnd {
    /// The files counted a fault.
    Failed,
    /// More bytes came than the limit allows.
    TooLong,
    /// There was no memory for the bytes.
    Memory,
}

impl From<Failed> for ReadEnd {
    ghost use Rattle.ibx_base.specs.declared.reading.ReadEnd.TheVariants.{Failed};

    ghost from_gives = { λ _ e. e ≡ Failed };

    fn from(_: Failed) -> ReadEnd {
        ReadEnd::Failed
    }
}

impl From<AllocError> for ReadEnd {
    ghost use Rattle.ibx_base.specs.declared.reading.ReadEnd.TheVariants.{Memory};

    ghost from_gives = { λ _ e. e ≡ Memory };

    fn from(_: AllocError) -> ReadEnd {
        ReadEnd::Memory
    }
}

// How many bytes one read asks for.
const CHUNK: usize = 4096;

/// Reads a file to its end. `TooLong` comes exactly where more than `limit` bytes came, and `Failed` only
/// where the count of faults rose.
pub fn read_all<F: Files>(
    alloc: Global,
    files: &mut F,
    name: &str,
    limit: usize,
) -> Result<Vec<u8>, ReadEnd>
    ensures kept { F.contents files.new ≡ F.contents files.old }
    ensures whole { IfOk result (λ bytes. IsContent (F.contents files.old) name.now bytes.items) }
    ensures fits { IfOk result (λ bytes. length bytes.items ≤ limit) }
    ensures too_long { IsErrOf result ReadEnd.TooLong → IsLonger (F.contents files.old) name.now limit }
    ensures failed { IsErrOf result ReadEnd.Failed → Rose (F.faults files.old) (F.faults files.new) }
    ensures never_falls { F.faults files.old ≤ F.faults files.new }

    // Whatever it answers, the count of misses stays where the names are told and this one is there.
    ensures misses { CountsMiss (F.contents files.old) name.now (F.misses files.old) (F.misses files.new) }
    ensures begun { IsBegunAs name.now (F.begun files.new) }
{
    files.begin(name)?;
    read_rest(alloc, files, limit)
}

// Reads the begun file to its end.
fn read_rest<F: Files>(alloc: Global, files: &mut F, limit: usize) -> Result<Vec<u8>, ReadEnd>
    ensures kept { F.contents files.new ≡ F.contents files.old }
    ensures whole { IfOk result (λ bytes. IfSome (F.begun files.old) (λ file. file.left ≡ bytes.items)) }
    ensures fits { IfOk result (λ bytes. length bytes.items ≤ limit) }
    ensures too_long { IsErrOf result ReadEnd.TooLong → IfSome (F.begun files.old) (λ file. limit < length file.left) }
    ensures failed { IsErrOf result ReadEnd.Failed → Rose (F.faults files.old) (F.faults files.new) }
    ensures never_falls { F.faults files.old ≤ F.faults files.new }
    ensures misses { F.misses files.new ≡ F.misses files.old }
    ensures begun { (name : List ℕ) → IsBegunAs name (F.begun files.old) → IsBegunAs name (F.begun files.new) }
{
    let mut bytes = Vec::new(alloc);
    let mut chunk = [0u8; CHUNK];
    loop {
        let count = files.read(&mut chunk)?;
        if count == 0 {
            return Ok(bytes);
        }
        if count > limit - bytes.len() {
            return Err(ReadEnd::TooLong);
        }
        bytes.extend_from_slice(&chunk[..count])?;
    }
}
