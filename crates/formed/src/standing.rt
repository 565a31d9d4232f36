// Where the threads of a lent state stand: a ready one in the queue, one that waits in the waits, a sleeper in the order of Delays, each once.
ghost use Rattle.std.specs.Prelude.{◌≡◌, ◌&&◌, ◌+◌, ◌≤◌, ◌<◌, leb};
ghost use Rattle.lists.specs.Lists.{queued};
ghost use Rattle.formed.specs.Clauses.{all_stand, Counted, names_those, standing};

use lists::nibbles::{marks, nibble_at, tally};
use lists::queue::Queue;
use machine::Machine;

// Whether all sixteen threads stand where their conditions say, those past the last thread too: asked of whole words. The lowest bit of a
// condition says that the thread is ready or waits, the next one that it waits or sleeps.
fn all_stand(states: u64, queue: Queue, waits: Queue, delays: Queue) -> bool
    requires { (queue.count + waits.count < 16) × (delays.count + waits.count < 16) }
    ensures { result ≡ all_stand states (queued queue) (queued waits) (queued delays) }
{
    let waiting = marks(0, waits.items, waits.count);
    let lowest = marks(waiting, queue.items, queue.count);
    let next = marks(waiting, delays.items, delays.count);
    if states & 0xcccccccccccccccc != 0 {
        return false;
    }
    if states & 0x1111111111111111 != lowest {
        return false;
    }
    if (states / 2) & 0x1111111111111111 != next {
        return false;
    }
    lowest & next == waiting
}

// Whether a list of the conditions from `least` to `most` is to name a thread in this one: four bits of a lent word, any number below sixteen.
fn named(state: u8, least: u8, most: u8) -> bool
    ensures { result ≡ (leb least state && leb state most) }
{
    least <= state && state <= most
}

// Whether a list names each thread once whose condition has a number from `least` to `most`, and no other.
fn names(threads: usize, states: u64, list: Queue, least: u8, most: u8) -> bool
    requires { (threads ≤ 16) × (list.count ≤ 16) }
    ensures { result ≡ names_those threads states (queued list) least most }
{
    let mut found = [0u8; 16];
    tally(list.items, list.count, &mut found);
    for t in 0..threads {
        let state = nibble_at(states, t as u8);
        if found[t] != u8::from(named(state, least, most)) {
            return false;
        }
    }
    true
}

// Whether each thread of the plan stands once where its condition says, and nowhere else. Where not all sixteen do so at once, each list is asked.
pub(crate) fn stand_once(m: Machine) -> bool
    requires { Counted m }
    ensures { result ≡ standing m.plan.threads m.slots.states (queued m.queue) (queued m.waits) (queued m.delays) }
{
    let threads = m.plan.threads;
    let states = m.slots.states;
    let queue = m.queue;
    let waits = m.waits;
    let delays = m.delays;
    if queue.count + waits.count < 16 && delays.count + waits.count < 16 {
        if all_stand(states, queue, waits, delays) {
            return true;
        }
    }
    names(threads, states, queue, 1, 1)
        && names(threads, states, waits, 3, 15)
        && names(threads, states, delays, 2, 2)
}
