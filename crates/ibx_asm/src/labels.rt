ghost use Rattle.std.specs.Prelude.{◌≡◌, IfOk, map};
ghost use Rattle.std.specs.Option.{option_map};
ghost use Rattle.ibx_asm.specs.Held.{meant, IsIndexOf};
ghost use Rattle.ibx_asm.specs.Operands.{Defined, definition_of};

use std::alloc::{AllocError, Global};
use std::collections::BTreeMap;
use std::marker::Model;

/// A label, the line that defines it, and its byte address.
#[derive(Clone, Copy)]
pub(crate) struct Label<'a> {
    pub(crate) name: &'a [u8],
    pub(crate) line: u32,
    pub(crate) address: u64,
}

/// The labels of a text, in the order of their definitions.
#[derive(Drop)]
pub(crate) struct Labels<'a> {
    labels: Vec<Label<'a>>,
    // The place of the first definition of each name.
    first: BTreeMap<&'a [u8], usize>,
}

impl<'a> Model for Labels<'a> {
    ghost use Rattle.std.specs.Prelude.{List, map};
    ghost use Rattle.ibx_asm.specs.Held.{meant, IsIndexOf};
    ghost use Rattle.ibx_asm.specs.Operands.{Defined};

    ghost Value = { List Defined };

    ghost view = { λ l. map meant l.labels.items };

    ghost invariant = { λ l. IsIndexOf l.first l.labels.items };
}

// An index of labels by their names. A tree compares a name with few others, whatever the text: each time at most the
// bytes of the name.
fn index_of<'a>(
    alloc: Global,
    labels: &[Label<'a>],
) -> Result<BTreeMap<&'a [u8], usize>, AllocError>
    ensures { IfOk result (λ index. IsIndexOf index labels.now) }
{
    let mut first = BTreeMap::new(alloc);
    for (place, label) in labels.iter().enumerate() {
        if !first.contains_key(label.name) {
            first.insert(label.name, place)?;
        }
    }
    Ok(first)
}

impl<'a> Labels<'a> {
    /// These labels.
    pub(crate) fn new(alloc: Global, labels: Vec<Label<'a>>) -> Result<Labels<'a>, AllocError>
        ensures { IfOk result (λ new. new ≡ map meant labels.entry.items) }
    {
        let first = index_of(alloc, labels.as_slice())?;
        Ok(Labels { labels, first })
    }

    /// The first definition of a name.
    pub(crate) fn find(&self, name: &[u8]) -> Option<Label<'a>>
        ensures { option_map meant result ≡ definition_of self.now name.now }
    {
        let place = self.first.get(name)?;
        self.labels.get(*place).copied()
    }
}
