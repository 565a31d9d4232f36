// The conditions of the threads.
ghost use Rattle.std.specs.Prelude.{◌≡◌, ◌<◌, eqb};
ghost use Rattle.lists.specs.Words.{nibble};
ghost use Rattle.machine.specs.Clauses.{state_of, placed, waits_for};

use lists::nibbles::{nibble_at, with_nibble};

// What a thread does, each with its number in a word of conditions.
#[derive(Clone, Copy, PartialEq, Eq, Debug)]
pub enum Condition {
    Dormant = 0,
    Ready = 1,
    // Until a tick number.
    Asleep = 2,
    // For a section.
    Waits = 3,
}

// The condition of each thread by its number, in four bits, which are plain since a state may be lent from outside; and in `wants` the section that it
// waits for. The tick numbers stand beside it, so that a call that puts nobody to sleep copies none.
#[repr(C)]
#[derive(Clone, Copy)]
pub struct Slots {
    pub states: u64,
    pub wants: u64,
}

impl Slots {
    // A thread comes into another condition.
    pub(crate) fn placed(self, thread: u8, state: Condition) -> Slots
        requires { thread < 16 }
        ensures { result ≡ placed self thread (state_of state) }
    {
        let states = with_nibble(self.states, thread, state as u8);
        Slots {
            states,
            wants: self.wants,
        }
    }

    // A thread waits for a section.
    pub(crate) fn waits_for(self, thread: u8, section: u8) -> Slots
        requires { (thread < 16) × (section < 16) }
        ensures { result ≡ waits_for self thread section }
    {
        let states = with_nibble(self.states, thread, Condition::Waits as u8);
        let wants = with_nibble(self.wants, thread, section);
        Slots { states, wants }
    }

    pub(crate) fn is_dormant(self, thread: u8) -> bool
        requires { thread < 16 }
        ensures { result ≡ eqb (nibble self.states thread) 0 }
    {
        nibble_at(self.states, thread) == Condition::Dormant as u8
    }

    // The section that a waiting thread wants.
    pub(crate) fn wanted(self, thread: u8) -> u8
        requires { thread < 16 }
        ensures { result ≡ nibble self.wants thread }
    {
        nibble_at(self.wants, thread)
    }
}
