// The bytes of dumps and call lists: what refuses them, and the records in them.
#![tactic(auto)]

pub mod layout; // layout.rt: N, the kinds and the operands
pub mod place; // place.rt: a reading place
pub mod questions; // questions.rt: questions 5 to 8
pub mod records; // records.rt: the machine's records
