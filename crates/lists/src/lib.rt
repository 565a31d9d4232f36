// The machine's small lists: up to sixteen numbers below sixteen, packed in words, so that a list is copied and changed in registers.
#![tactic(auto)]

pub mod nibbles; // nibbles.rt: four bits of a word, read, set and counted
pub mod queue; // queue.rt: threads in order, the ready queue, the waits and the order of Delays
pub mod top; // top.rt: the owner with its ceiling
pub mod holds; // holds.rt: who holds which section, and the owner
pub mod choice; // choice.rt: who is chosen, who is rivalled, who inherits
