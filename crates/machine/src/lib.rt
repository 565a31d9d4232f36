// The machine that says what a module's kernel does, with all the reports that it owes. It knows nothing of dumps.
#![tactic(auto)]

pub mod slots; // slots.rt: the conditions of the threads
pub mod sleepers; // sleepers.rt: who wakes, and when the next one does
pub mod rules; // rules.rt: the rules, and the questions asked of a record
pub mod record; // record.rt: a call with its operand, or a report
pub mod reporting; // reporting.rt: a machine with its reports
pub mod calls; // calls.rt: what each call does
pub mod timing; // timing.rt: what the calls that set timers do
pub mod heard; // heard.rt: reports, and records where reports are due or an arming is in progress
pub mod quiet; // quiet.rt: Ticks at which nothing happens
pub mod state; // state.rt: a machine with the reports that it owes, as it is lent

use clock::time::Tick;
use clock::timers::Timers;
use lists::holds::Holds;
use lists::queue::Queue;
use plan::Plan;
use slots::Slots;

// Plain numbers only, since a state may be lent from outside. `wakes` has the tick number that each sleeper waits for, `delays` the sleepers in order of
// their Delay calls; `reported` is the thread of the latest Switch given, 255 for nobody.
#[repr(C)]
#[derive(Clone, Copy)]
pub struct Machine {
    pub plan: Plan,
    pub tick: Tick,
    pub slots: Slots,
    pub wakes: [Tick; 16],
    pub queue: Queue,
    pub holds: Holds,
    pub waits: Queue,
    pub delays: Queue,
    pub reported: u8,
    pub timers: Timers,
}
