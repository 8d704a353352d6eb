//! The history event by event, in bounded memory, by the time equations alone: it stands on no core and no system.
//!
//! So far it has the fetch side as definitions over numbers, and the lemmas that join each of its steps, and each item
//! of a history, to the time equations.
#![tactic(auto)]
