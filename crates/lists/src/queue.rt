// Threads in order: the ready queue (document 01's line), the waits, and the order of Delays (document 02).
ghost use Rattle.std.specs.Prelude.{◌≡◌, not, ◌&&◌, [], ◌∷◌, ◌++◌, ◌≤◌, ◌<◌, eqb};
ghost use Rattle.model.specs.Searches.{any, first_greatest, greatest, without};
ghost use Rattle.model.specs.Formed.{are_threads, times};
ghost use Rattle.lists.specs.Words.{nibbles, entry_of};
ghost use Rattle.lists.specs.Lists.{numbered, queued, current_in, Positive};

use crate::nibbles::{Nibbles, with_nibble};

// The first in the lowest four bits of `items`; bits at `count` and above mean nothing.
#[repr(C)]
#[derive(Clone, Copy)]
pub struct Queue {
    pub items: u64,
    pub count: usize,
}

// A thread's current priority by its base, where the owner is known (255: nobody) and the greatest base among the waits. Given all bases it would
// copy them for each thread of a walk.
fn current(base: u8, owner: u8, urgency: u8, thread: u8) -> u8
    ensures { result ≡ current_in (λ t. base) owner urgency thread }
{
    if owner == thread {
        base.max(urgency)
    } else {
        base
    }
}

impl Queue {
    pub fn none() -> Queue
        ensures { queued result ≡ [] }
    {
        Queue { items: 0, count: 0 }
    }

    // Its threads in order.
    pub fn iter(self) -> Nibbles
        ensures { nibbles result.left result.rest ≡ queued self }
    {
        Nibbles::of(self.items, self.count)
    }

    // One more at the end.
    pub fn push(self, thread: u8) -> Queue
        requires { (self.count < 16) × (thread < 16) }
        ensures { queued result ≡ queued self ++ (thread ∷ []) }
    {
        let n = self.count;
        let items = with_nibble(self.items, n as u8, thread);
        Queue {
            items,
            count: n + 1,
        }
    }

    // This thread goes; the others stay in their order. Among equals it is the first.
    pub fn without(self, thread: u8) -> Queue
        requires { (self.count ≤ 16) × (times (λ u. eqb u thread) (queued self) ≤ 1) }
        ensures { queued result ≡ without thread (queued self) }
    {
        let first = (self.items % 16) as u8;
        if 0 < self.count {
            if first == thread {
                return Queue {
                    items: self.items / 16,
                    count: self.count - 1,
                };
            }
        }
        self.others(thread)
    }

    // All but this thread.
    fn others(self, thread: u8) -> Queue
        requires { self.count ≤ 16 }
        ensures { queued result ≡ without thread (queued self) }
    {
        let mut kept = Queue::none();
        for t in self.iter() {
            if t != thread {
                kept = kept.push(t);
            }
        }
        kept
    }

    // The greatest base among them, 0 if there is none.
    pub fn urgency(self, bases: [u8; 16]) -> u8
        requires { self.count ≤ 16 }
        ensures { result ≡ greatest (entry_of bases) (queued self) }
    {
        let mut top: u8 = 0;
        for t in self.iter() {
            top = top.max(bases[t as usize]);
        }
        top
    }

    // The first of greatest current priority, 255 if there is none.
    pub fn chosen(self, bases: [u8; 16], owner: u8, urgency: u8) -> u8
        requires { (self.count ≤ 16) × Positive bases (queued self) }
        ensures { result ≡ numbered (first_greatest (current_in (entry_of bases) owner urgency) (queued self)) }
    {
        // The owner's is asked once, before the walk: asked at each thread, it costs a tenth more instructions among sixteen threads.
        let raised = if owner < 16 {
            current(bases[owner as usize], owner, urgency, owner)
        } else {
            0
        };
        let mut who: u8 = 255;
        let mut top: u8 = 0;
        for t in self.iter() {
            // Read first and then replaced: an `if` of two values becomes a branch, which is often guessed wrong among many threads.
            let mut c = bases[t as usize];
            if owner == t {
                c = raised;
            }
            if top < c {
                who = t;
                top = c;
            }
        }
        who
    }

    // Whether another one has the current priority of this thread.
    pub fn rivalled(self, bases: [u8; 16], owner: u8, urgency: u8, thread: u8) -> bool
        requires { (self.count ≤ 16) × (thread < 16) }
        ensures { result ≡ any (λ t. not (eqb t thread) && eqb (current_in (entry_of bases) owner urgency t) (current_in (entry_of bases) owner urgency thread)) (queued self) }
    {
        let c = current(bases[thread as usize], owner, urgency, thread);
        self.iter().any(|t| t != thread && current(bases[t as usize], owner, urgency, t) == c)
    }

    // Whether each is the number of a thread.
    pub fn below(self, threads: usize) -> bool
        requires { self.count ≤ 16 }
        ensures { result ≡ are_threads threads (queued self) }
    {
        self.iter().all(|t| (t as usize) < threads)
    }
}
