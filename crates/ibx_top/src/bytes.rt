//! What the type of a slice of bytes says of them.
ghost use Rattle.std.specs.Prelude.{◌<◌};
ghost use Rattle.std.specs.List.{All};

/// The bytes of a slice are below 256, as their type says. It does nothing: a caller has the fact from it.
pub(crate) fn are_bytes(bytes: &[u8])
    ensures { All (λ b. b < 256) bytes.now }
{}
