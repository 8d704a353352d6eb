//! What an item leaves of the architecture when it is done is what the step of the architecture says.
#![tactic(auto)]
