//! The plan of a run: how long each bus transaction waits, when the interrupt lines change, and which
//! one bit of the machine is flipped. A plan is a text of lines, a format of this project's own:
//!
//! | line | meaning |
//! |---|---|
//! | `iwait G W`, `dwait G W` | the next transaction of the instruction port, the data port, is granted after `G` cycles and answered after `W` more; 0 to 255 each |
//! | `irq CYCLE MASK` | from `CYCLE` on, up to 1,000,000,000, the interrupt lines are `MASK`, within 7fff0888 |
//! | `flip CYCLE main NAME BIT` | in `CYCLE` a bit of a field of the main core changes; `shadow` for the shadow core |
//! | `flip CYCLE delay SLOT NAME BIT` | the same of a delayed wire, in slot 0, the older, or 1 |
//! | `flip CYCLE reg N BIT` | of register `N`, 1 to 31 |
//! | `flip CYCLE tag SET WAY BIT`, `flip CYCLE data SET WAY HALF BIT` | of a tag word, a data word of the cache |
//! | `flip CYCLE out NAME BIT` | of a word that the memories hand to the core |
//! | `flip CYCLE answer PORT BIT` | of the answer word of port 0, instructions, or 1, data |
//! | `flip CYCLE mem WORD BIT` | of a word of RAM, counted from its base |
#![tactic(auto)]

mod bounds;
mod capped;
mod changes;
mod counter;
mod entry;
mod lists;
mod names;
mod number;
mod reader;
mod row;
mod site;
#[cfg(test)]
mod tests;
mod text;

pub use bounds::{Bounds, LineKind, PlanFault};
pub use counter::Steps;
pub use lists::Plan;
pub use names::{FIELDS, field_named, width};
pub use reader::read;
pub use site::{Flip, Site, Wait};
