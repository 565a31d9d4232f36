// The live step of the watch, on a state that advances by one record.
#![tactic(auto)]

pub mod live; // live.rt: the watch state and the live step
pub mod lent; // lent.rt: the live step on a watch state behind a reference
