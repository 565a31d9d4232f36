// The sleepers, in the order of their Delays: who wakes at a tick number, and when the next one does.
ghost use Rattle.std.specs.Prelude.{◌≡◌, ◌+◌, ◌≤◌};
ghost use Rattle.lists.specs.Lists.{queued};
ghost use Rattle.machine.specs.Clauses.{Wakes, soonest};

use crate::slots::{Condition, Slots};
use clock::time::{LAST_WAKE, Tick};
use lists::queue::Queue;

// What a Tick leaves of the threads: their conditions and the queue, those that sleep on, and those that woke, both in the order of their Delays.
#[derive(Clone, Copy)]
pub struct Woken {
    pub slots: Slots,
    pub queue: Queue,
    pub delays: Queue,
    pub woken: Queue,
}

// The sleepers whose tick number this is become ready at the queue's end: see model, Calls.tick. No other thread is looked at.
pub(crate) fn wake(
    delays: Queue,
    wakes: [Tick; 16],
    number: Tick,
    slots: Slots,
    queue: Queue,
) -> Woken
    requires { queue.count + delays.count ≤ 16 }
    ensures { Wakes result delays wakes number.0 slots queue }
{
    let mut states = slots;
    let mut line = queue;
    let mut asleep = Queue::none();
    let mut woken = Queue::none();
    for t in delays.iter() {
        if wakes[t as usize] == number {
            states = states.placed(t, Condition::Ready);
            line = line.push(t);
            woken = woken.push(t);
        } else {
            asleep = asleep.push(t);
        }
    }
    Woken {
        slots: states,
        queue: line,
        delays: asleep,
        woken,
    }
}

// The least tick number that one of these sleepers waits for, LAST_WAKE where nobody sleeps before it.
pub(crate) fn soonest(delays: Queue, wakes: [Tick; 16]) -> Tick
    requires { delays.count ≤ 16 }
    ensures { result.0 ≡ soonest wakes (queued delays) }
{
    let mut first = LAST_WAKE;
    for t in delays.iter() {
        first = first.min(wakes[t as usize]);
    }
    first
}
