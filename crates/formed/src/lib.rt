// Question 12: whether a state that came from outside is well formed.
#![tactic(auto)]

mod ticks; // ticks.rt: tick numbers, all of an array at once
mod conditions; // conditions.rt: the conditions of a lent state, in range
mod standing; // standing.rt: where the threads of a lent state stand
mod reports; // reports.rt: the reports due of a lent state
mod timers; // timers.rt: the timers of a lent state
mod kept; // kept.rt: what a lent state keeps beside the machine's
pub mod formed; // formed.rt: the questions in their order
