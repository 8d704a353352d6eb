//! Memory as its words: what they say of its bytes, for the loads, the stores and the image. Definitions and lemmas,
//! and no code.
#![tactic(auto)]
