//! What the stage sees of the item in it, and what is admitted next, are what the time equations say.
#![tactic(auto)]
