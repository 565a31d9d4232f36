// What each call does. A method takes the machine by value, and hands it back with all the reports that are then due, the Switch last, or with the rule
// that the call breaks. Calls other than Tick come with nothing due: the chosen thread is the one last reported, and it is the caller.
ghost use Rattle.model.specs.Records as records;
ghost use Rattle.machine.specs.Calls.{Calls, Moves, Ticks, Called};

use crate::quiet::next_event;
use crate::reporting::Reporting;
use crate::rules;
use crate::sleepers::wake;
use crate::slots::Condition;
use clock::time::{Tick, Wait};
use due::made::Made;
use due::reports::Kind;
use lists::choice;
use plan::lookup::base;

impl Reporting {
    // Create: see model, Calls.create.
    pub fn create(self, thread: u8) -> Reporting
        requires { Calls self (records.Create thread) }
        ensures { Called result self (records.Create thread) }
    {
        let mut m = self.machine;
        let mut made = Made::none();
        let rule = rules::create_rule(m.slots, thread);
        if rule.is_ok() {
            let slots = m.slots.placed(thread, Condition::Ready);
            m.slots = slots;
            let queue = m.queue.push(thread);
            m.queue = queue;
            made = Made::one(Kind::Ready, thread);
        }
        self.settled(m, made, rule, self.quiet)
    }

    // Tick: see model, Calls.tick. It walks over the sleepers in the order of their Delays; what happens next is asked anew. The reports still due but a
    // Switch stand before its own.
    pub fn tick(self) -> Reporting
        requires { Ticks self }
        ensures { Called result self records.Tick }
    {
        let now = self.machine.tick;
        let number = now.next();
        let wakes = self.machine.wakes;
        let timers = self.machine.timers;
        let w = wake(
            self.machine.delays,
            wakes,
            number,
            self.machine.slots,
            self.machine.queue,
        );
        let rs = self.array().ticked(self.given, timers, number, w.woken);
        let later = timers.moved_on(number);
        let quiet = next_event(w.delays, wakes, later);
        let mut m = self.machine;
        m.tick = number;
        let slots = w.slots;
        m.slots = slots;
        let queue = w.queue;
        m.queue = queue;
        let delays = w.delays;
        m.delays = delays;
        m.timers = later;
        let who = m.chosen();
        self.telling(rs).owing(m, Ok(()), who, quiet)
    }

    // Delay: see model, Calls.delay. What happens next is no longer known.
    pub fn delay(self, wait: Wait) -> Reporting
        requires { Calls self (records.Delay wait.0) }
        ensures { Called result self (records.Delay wait.0) }
    {
        let mut m = self.machine;
        let caller = m.reported;
        let rule = rules::free_rule(m.holds, caller);
        if rule.is_ok() {
            let over = m.tick.plus(wait);
            let until = over.next();
            let slots = m.slots.placed(caller, Condition::Asleep);
            m.slots = slots;
            let mut wakes = m.wakes;
            wakes[caller as usize] = until;
            m.wakes = wakes;
            let queue = m.queue.without(caller);
            m.queue = queue;
            let delays = m.delays.push(caller);
            m.delays = delays;
        }
        self.settled(m, Made::none(), rule, Tick(0))
    }

    // Relinquish: see model, Calls.relinquish.
    pub fn relinquish(self) -> Reporting
        requires { Calls self records.Relinquish }
        ensures { Called result self records.Relinquish }
    {
        let mut m = self.machine;
        let mut made = Made::none();
        let caller = m.reported;
        let rule = rules::run_rule(caller);
        if rule.is_ok() {
            let bases = m.plan.bases;
            if choice::rivalled_of(bases, m.queue, m.holds.top.owner, m.waits, caller) {
                let others = m.queue.without(caller);
                let queue = others.push(caller);
                m.queue = queue;
                made = Made::one(Kind::Yield, caller);
            }
        }
        self.settled(m, made, rule, self.quiet)
    }

    // End: see model, Calls.end.
    pub fn end(self) -> Reporting
        requires { Calls self records.End }
        ensures { Called result self records.End }
    {
        let mut m = self.machine;
        let caller = m.reported;
        let rule = rules::free_rule(m.holds, caller);
        if rule.is_ok() {
            let slots = m.slots.placed(caller, Condition::Dormant);
            m.slots = slots;
            let queue = m.queue.without(caller);
            m.queue = queue;
        }
        self.settled(m, Made::none(), rule, self.quiet)
    }

    // Take: see model, Calls.take.
    pub fn take(self, ceilings: &[u8; 16], section: u8) -> Reporting
        requires { Moves self ceilings.now (records.Take section) }
        ensures { Called result self (records.Take section) }
    {
        let mut m = self.machine;
        let mut made = Made::none();
        let caller = m.reported;
        let bases = m.plan.bases;
        let needs = m.plan.needs;
        let rule = rules::take_rule(m.plan.threads, needs, m.holds, caller, section);
        if rule.is_ok() {
            let b = base(m.plan.threads, bases, caller);
            if m.holds.clear(ceilings, caller, b) {
                let ceiling = ceilings[section as usize];
                let holds = m.holds.push(section, caller, ceiling);
                m.holds = holds;
                made = Made::one(Kind::Won, caller);
            } else {
                let queue = m.queue.without(caller);
                m.queue = queue;
                let slots = m.slots.waits_for(caller, section);
                m.slots = slots;
                let waits = m.waits.push(caller);
                m.waits = waits;
                made = Made::one(Kind::Lost, caller);
            }
        }
        self.settled(m, made, rule, self.quiet)
    }

    // Give: see model, Calls.give.
    pub fn give(self, ceilings: &[u8; 16], section: u8) -> Reporting
        requires { Moves self ceilings.now (records.Give section) }
        ensures { Called result self (records.Give section) }
    {
        let mut m = self.machine;
        let mut made = Made::none();
        let caller = m.reported;
        let bases = m.plan.bases;
        let rule = rules::give_rule(m.holds, caller, section);
        if rule.is_ok() {
            let mut holds = m.holds.without(ceilings, section, caller);
            let heir = choice::find_heir(bases, ceilings, m.waits, holds);
            let t = heir.who;
            if heir.free {
                let wanted = m.slots.wanted(t);
                let ceiling = ceilings[wanted as usize];
                holds = holds.push(wanted, t, ceiling);
                let waits = m.waits.without(t);
                m.waits = waits;
                let slots = m.slots.placed(t, Condition::Ready);
                m.slots = slots;
                let queue = m.queue.push(t);
                m.queue = queue;
                made = Made::won(t);
            } else if t != 255 {
                made = Made::one(Kind::Lost, t);
            }
            m.holds = holds;
        }
        self.settled(m, made, rule, self.quiet)
    }
}
