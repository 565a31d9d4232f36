// Ticks at which nothing happens: nothing is due, nobody wakes and no timer expires, so that no Switch becomes due and they move the tick number alone.
ghost use Rattle.std.specs.Prelude.{◌≡◌, ◌+◌, ◌≤◌, ◌<◌, ◌&&◌, leb, ltb};
ghost use Rattle.model.specs.Formed.{last_tick};
ghost use Rattle.machine.specs.Clauses.{next_event, passed, still};

use crate::reporting::Reporting;
use crate::sleepers::soonest;
use crate::state::State;
use clock::time::Tick;
use clock::timers::Timers;
use lists::queue::Queue;

// The tick number before which nobody wakes and no timer expires, 0 inside an arming, where every Tick breaks a rule. It takes the parts that it reads,
// so that the machine of the walk stays in its fields.
pub(crate) fn next_event(delays: Queue, wakes: [Tick; 16], timers: Timers) -> Tick
    requires { delays.count ≤ 16 }
    ensures { result.0 ≡ next_event delays wakes timers }
{
    if timers.is_complete() {
        soonest(delays, wakes).min(timers.soonest())
    } else {
        Tick(0)
    }
}

impl Reporting {
    // Whether nothing is due, and the next Tick wakes nobody and no timer expires at it.
    pub fn is_quiet(self) -> bool
        requires { self.machine.tick.0 < last_tick }
        ensures { result ≡ leb self.due self.given && ltb (self.machine.tick.0 + 1) self.quiet.0 }
    {
        let now = self.machine.tick;
        let number = now.next();
        self.due <= self.given && number < self.quiet
    }

    // The tick number grows, and nothing else changes.
    pub fn passed(self) -> Reporting
        requires { self.machine.tick.0 < last_tick }
        ensures { result ≡ passed self }
    {
        let mut c = self;
        let now = self.machine.tick;
        let number = now.next();
        c.machine.tick.0 = number.0;
        c
    }
}

impl State {
    // Whether nothing is due, and the next Tick wakes nobody and no timer expires at it.
    pub fn is_still(self) -> bool
        requires { (self.machine.tick.0 < last_tick) × (self.machine.delays.count ≤ 16) }
        ensures { result ≡ still self }
    {
        let now = self.machine.tick;
        let number = now.next();
        if self.given < self.due.count {
            return false;
        }
        let timers = self.machine.timers;
        if !timers.is_complete() {
            return false;
        }
        if !timers.all_after(number) {
            return false;
        }
        let wakes = self.machine.wakes;
        let first = soonest(self.machine.delays, wakes);
        number < first
    }
}
