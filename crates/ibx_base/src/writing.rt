ghost use Rattle.std.specs.Prelude.{◌≡◌, OnOk, OnErr};
ghost use Rattle.ibx_base.specs.Counts.{HasCause};
ghost use Rattle.ibx_base.specs.Sinks.{with_more, TookPrefix};

use crate::sink::Sink;
use crate::status::Failed;

/// Writes the whole piece. After `Failed`, which comes only where the count of faults rose, a prefix of
/// it was taken. It takes no memory.
pub fn write_all<K: Sink>(sink: &mut K, piece: &[u8]) -> Result<(), Failed>
    ensures whole { OnOk result (K.taken sink.new ≡ with_more (K.taken sink.old) piece.now) }
    ensures prefix { OnErr result (TookPrefix (K.taken sink.old) piece.now (K.taken sink.new)) }
    ensures cause { HasCause (K.faults sink.old) (K.faults sink.new) result }
{
    let mut done = 0;
    while done < piece.len() {
        done += sink.write(&piece[done..])?;
    }
    Ok(())
}
