// Tick numbers and waits, and the timers that go by them.
#![tactic(auto)]

pub mod time; // time.rt: tick numbers and waits
pub mod timers; // timers.rt: the eight timers, and the arming of one
