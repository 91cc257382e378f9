//! What the feed's template comes to, as laws: each is the clause of a call that does nothing.
#![tactic(auto)]

mod laws;
