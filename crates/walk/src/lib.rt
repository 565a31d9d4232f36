// The machine over the records of a dump or call list.
#![tactic(auto)]

pub mod walk; // walk.rt: the one loop over records
pub mod single; // single.rt: the same over one record
