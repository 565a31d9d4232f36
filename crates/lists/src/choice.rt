// Who is chosen, who is rivalled, who inherits. Each function takes the parts of the machine that it reads.
ghost use Rattle.std.specs.Prelude.{◌≡◌, ◌≤◌, ◌<◌};
ghost use Rattle.model.specs.Searches.{first_greatest};
ghost use Rattle.lists.specs.Words.{entry_of};
ghost use Rattle.lists.specs.Lists.{numbered, thread_of, queued, held, Positive};
ghost use Rattle.lists.specs.Choice.{chosen_in, rivalled_in, inherits_in};

use crate::holds::Holds;
use crate::queue::Queue;

// The waiting thread that a Give turns to, 255 for nobody, and whether no held ceiling bars it.
#[derive(Clone, Copy)]
pub struct Heir {
    pub who: u8,
    pub free: bool,
}

// The first in the queue of greatest current priority, 255 for nobody. The owner is the one kept beside the holds.
pub fn chosen_of(bases: [u8; 16], queue: Queue, owner: u8, waits: Queue) -> u8
    requires { (queue.count ≤ 16) × (waits.count ≤ 16) × Positive bases (queued queue) }
    ensures { result ≡ numbered (chosen_in (entry_of bases) (thread_of owner) (queued queue) (queued waits)) }
{
    let urgency = waits.urgency(bases);
    queue.chosen(bases, owner, urgency)
}

// Whether another ready thread has this thread's current priority.
pub fn rivalled_of(bases: [u8; 16], queue: Queue, owner: u8, waits: Queue, thread: u8) -> bool
    requires { (queue.count ≤ 16) × (waits.count ≤ 16) × (thread < 16) }
    ensures { result ≡ rivalled_in (entry_of bases) (thread_of owner) (queued queue) (queued waits) thread }
{
    let urgency = waits.urgency(bases);
    queue.rivalled(bases, owner, urgency, thread)
}

// The waiting thread of greatest base, on a tie the longest waiting; the walk of the held ceilings ends where one bars it.
pub fn find_heir(bases: [u8; 16], ceilings: &[u8; 16], waits: Queue, holds: Holds) -> Heir
    requires { (waits.count ≤ 16) × (holds.count ≤ 16) × Positive bases (queued waits) }
    ensures { (result.who ≡ numbered (first_greatest (entry_of bases) (queued waits))) × (result.free ≡ inherits_in (entry_of bases) ceilings.now (held holds) (first_greatest (entry_of bases) (queued waits))) }
{
    let mut who: u8 = 255;
    let mut free = false;
    let mut top: u8 = 0;
    'waits: for t in waits.iter() {
        let b = bases[t as usize];
        if top < b {
            who = t;
            free = false;
            top = b;
            for h in holds.iter() {
                if b <= ceilings[h.section as usize] {
                    continue 'waits;
                }
            }
            free = true;
        }
    }
    Heir { who, free }
}
