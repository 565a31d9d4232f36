// Who holds which section, in order of taking, and the owner.
ghost use Rattle.std.specs.Prelude.{◌≡◌, not, ◌&&◌, [], ◌∷◌, ◌++◌, ◌≤◌, ◌<◌, ltb};
ghost use Rattle.std.specs.Iterator.{YieldsFirstBy, item_count};
ghost use Rattle.std.proofs.Math.Option.{none};
ghost use Rattle.model.specs.Searches.{all, filter};
ghost use Rattle.model.specs.State.{hold, is_hold};
ghost use Rattle.model.specs.Calls.{held_by_others};
ghost use Rattle.model.specs.Rules.{holds_none, holds_not, last_taken};
ghost use Rattle.model.specs.Formed.{hold_in_range, times, held_once};
ghost use Rattle.keeping.specs.Top.{walk_by, gained};
ghost use Rattle.lists.specs.Words.{in_front};
ghost use Rattle.lists.specs.Lists.{numbered, hold_of, held_in, held, ceiling_in, top_of};

use crate::nibbles::{nibble_at, with_nibble};
use crate::top::Top;

// Sections and the threads that hold them, the latest in the lowest four bits; bits at `count` and above mean nothing. `top` has the owner, so that
// nobody need walk to find it.
#[repr(C)]
#[derive(Clone, Copy)]
pub struct Holds {
    pub sections: u64,
    pub threads: u64,
    pub count: usize,
    pub top: Top,
}

// A section and the thread that holds it.
#[derive(Clone, Copy, PartialEq, Eq)]
pub struct Hold {
    pub section: u8,
    pub thread: u8,
}

// The holds that are left of two words, the latest first.
#[derive(Clone, Copy)]
pub struct Held {
    sections: u64,
    threads: u64,
    left: usize,
}

impl Iterator for Held {
    type Item = Hold;

    ghost next_gives = { YieldsFirstBy hold_of (λ s. held_in s.left s.sections s.threads) };

    ghost remaining = { item_count (λ s. held_in s.left s.sections s.threads) };

    fn next(&mut self) -> Option<Hold> {
        if self.left == 0 {
            return None;
        }
        let section = (self.sections % 16) as u8;
        let thread = (self.threads % 16) as u8;
        self.sections = self.sections / 16;
        self.threads = self.threads / 16;
        self.left -= 1;
        Some(Hold { section, thread })
    }
}

// The word with one more number in front; the last of sixteen goes.
fn in_front(word: u64, value: u8) -> u64
    requires { value < 16 }
    ensures { result ≡ in_front word value }
{
    let kept = word % 1152921504606846976;
    kept * 16 + (value as u64)
}

impl Holds {
    pub fn none() -> Holds
        ensures { (held result ≡ []) × (top_of result.top ≡ record { owner = none; ceiling = 0 }) }
    {
        Holds {
            sections: 0,
            threads: 0,
            count: 0,
            top: Top {
                owner: 255,
                ceiling: 0,
            },
        }
    }

    // Its holds, the latest first.
    pub fn iter(self) -> Held
        ensures { held_in result.left result.sections result.threads ≡ held self }
    {
        Held {
            sections: self.sections,
            threads: self.threads,
            left: self.count,
        }
    }

    // One more, taken last, of a section of this ceiling.
    pub fn push(self, section: u8, thread: u8, ceiling: u8) -> Holds
        requires { (self.count < 16) × (section < 16) × (thread < 16) }
        ensures { (held result ≡ hold section thread ∷ held self) × (top_of result.top ≡ gained ceiling thread (top_of self.top)) }
    {
        let sections = in_front(self.sections, section);
        let threads = in_front(self.threads, thread);
        let count = self.count + 1;
        let top = self.top.gained(ceiling, thread);
        Holds {
            sections,
            threads,
            count,
            top,
        }
    }

    // One more, taken before all others. The owner stays as it was.
    fn behind(self, hold: Hold) -> Holds
        requires { (self.count < 16) × (hold.section < 16) × (hold.thread < 16) }
        ensures { held result ≡ held self ++ (hold_of hold ∷ []) }
    {
        let n = self.count;
        Holds {
            sections: with_nibble(self.sections, n as u8, hold.section),
            threads: with_nibble(self.threads, n as u8, hold.thread),
            count: n + 1,
            top: self.top,
        }
    }

    // The hold of this section by this thread ends; the others stay in their order. They are walked over to find the owner: in a state that came from outside it
    // need not be the holder of the latest.
    pub fn without(self, ceilings: &[u8; 16], section: u8, thread: u8) -> Holds
        requires { (self.count ≤ 16) × (times (is_hold section thread) (held self) ≤ 1) }
        ensures { (held result ≡ filter (λ h. not (is_hold section thread h)) (held self)) × (top_of result.top ≡ walk_by (ceiling_in ceilings.now) (held result)) }
    {
        let mut left = self.ended(section, thread);
        let top = left.walk(ceilings);
        left.top = top;
        left
    }

    // All but the hold of this section by this thread, which is the latest of all in every run. The owner stays as it was.
    fn ended(self, section: u8, thread: u8) -> Holds
        requires { (self.count ≤ 16) × (times (is_hold section thread) (held self) ≤ 1) }
        ensures { held result ≡ filter (λ h. not (is_hold section thread h)) (held self) }
    {
        let s = (self.sections % 16) as u8;
        let t = (self.threads % 16) as u8;
        let top = self.top;
        if 0 < self.count {
            if s == section && t == thread {
                let count = self.count - 1;
                return Holds {
                    sections: self.sections / 16,
                    threads: self.threads / 16,
                    count,
                    top,
                };
            }
        }
        self.others(section, thread)
    }

    // All but the hold of this section by this thread.
    fn others(self, section: u8, thread: u8) -> Holds
        requires { self.count ≤ 16 }
        ensures { held result ≡ filter (λ h. not (is_hold section thread h)) (held self) }
    {
        let gone = Hold { section, thread };
        let mut kept = Holds {
            top: self.top,
            ..Holds::none()
        };
        for h in self.iter() {
            if h != gone {
                kept = kept.behind(h);
            }
        }
        kept
    }

    // The owner and the greatest held ceiling, found by a walk: see keeping, Top.walk.
    pub fn walk(self, ceilings: &[u8; 16]) -> Top
        requires { self.count ≤ 16 }
        ensures { top_of result ≡ walk_by (ceiling_in ceilings.now) (held self) }
    {
        let mut top = Top {
            owner: 255,
            ceiling: 0,
        };
        for h in self.iter() {
            let c = ceilings[h.section as usize];
            if top.owner == 255 || top.ceiling < c {
                top = Top {
                    owner: h.thread,
                    ceiling: c,
                };
            }
        }
        top
    }

    // Whether a base priority is above every ceiling held by others than this thread.
    pub fn clear(self, ceilings: &[u8; 16], thread: u8, base: u8) -> bool
        requires { self.count ≤ 16 }
        ensures { result ≡ all (λ h. ltb (ceiling_in ceilings.now h) base) (held_by_others thread (held self)) }
    {
        self.iter().all(|h| h.thread == thread || ceilings[h.section as usize] < base)
    }

    // The section that a thread took last of those it still holds, 255 if it holds none.
    pub fn last_taken(self, thread: u8) -> u8
        requires { self.count ≤ 16 }
        ensures { result ≡ numbered (last_taken (held self) thread) }
    {
        match self.iter().find(|h| h.thread == thread) {
            Some(h) => h.section,
            None => 255,
        }
    }

    // Whether a thread holds no section.
    pub fn free(self, thread: u8) -> bool
        requires { self.count ≤ 16 }
        ensures { result ≡ holds_none (held self) thread }
    {
        !self.iter().any(|h| h.thread == thread)
    }

    // Whether a thread does not hold this section.
    pub fn lacks(self, section: u8, thread: u8) -> bool
        requires { self.count ≤ 16 }
        ensures { result ≡ holds_not (held self) section thread }
    {
        let asked = Hold { section, thread };
        !self.iter().any(|h| h == asked)
    }

    // Whether no section is held twice: each is noted in a word when it is first met.
    pub fn once(self, sections: usize) -> bool
        ensures { result ≡ held_once sections (held self) }
    {
        let mut met: u64 = 0;
        for h in self.iter() {
            if (h.section as usize) < sections {
                if nibble_at(met, h.section) != 0 {
                    return false;
                }
                met = with_nibble(met, h.section, 1);
            }
        }
        true
    }

    // Whether each hold is of a section and a thread of the plan.
    pub fn in_range(self, threads: usize, sections: usize) -> bool
        requires { self.count ≤ 16 }
        ensures { result ≡ all (hold_in_range threads sections) (held self) }
    {
        self.iter().all(|h| (h.section as usize) < sections && (h.thread as usize) < threads)
    }
}
