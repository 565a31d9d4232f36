// The reports due, in order: at most one for each thread and each timer, and a Switch. What a Tick adds joins the end.
ghost use Rattle.std.specs.Prelude.{◌≡◌, [], ◌++◌, map, ◌+◌, ◌≤◌, ◌<◌, ◌&&◌, eqb, drop};
ghost use Rattle.model.specs.Searches.{any};
ghost use Rattle.model.specs.Timers as model;
ghost use Rattle.model.specs.State.{without_switch};
ghost use Rattle.lists.specs.Lists.{queued};
ghost use Rattle.clock.specs.View as timing;
ghost use Rattle.due.specs.Lists.{report_room, switch_to, kind_number, report_of, report_by, owed, TickFits, after_tick};

use clock::time::Tick;
use clock::timers::{TIMERS, Timers};
use lists::queue::Queue;

// Room for the reports of sixteen threads and eight timers, and a Switch.
pub const ROOM: usize = 25;

// What a report says, by the papers' numbers.
#[derive(Clone, Copy, PartialEq, Eq)]
pub enum Kind {
    Ready = 16,
    Switch = 17,
    Won = 18,
    Lost = 19,
    Yield = 20,
    Expire = 21,
    Late = 22,
}

// The number of a kind, and the operand as in a dump: the thread that it names, 65535 for nobody; the timer of an Expire; the count of a Late. The spare
// byte means nothing; it is named so that reports are copied whole. C lends reports, with whatever numbers: so the kind is a byte.
#[repr(C)]
#[derive(Clone, Copy)]
pub struct Report {
    pub kind: u8,
    pub spare: u8,
    pub operand: u16,
}

// What stands where no report does.
pub(crate) const NO_REPORT: Report = Report {
    kind: 0,
    spare: 0,
    operand: 0,
};

// An array and how many of it are in use, since C lends it so; `due` is the slice.
#[repr(C)]
#[derive(Clone, Copy)]
pub struct Reports {
    pub items: [Report; ROOM],
    pub count: usize,
}

impl Report {
    // The report of a thread or timer.
    pub(crate) fn of(kind: Kind, who: u8) -> Report
        ensures { result ≡ record { kind = kind_number kind; spare = 0; operand = who } }
    {
        Report {
            kind: kind as u8,
            spare: 0,
            operand: who as u16,
        }
    }

    // The Switch to a thread, 255 for nobody.
    pub fn switch(who: u8) -> Report
        ensures { result ≡ switch_to who }
    {
        let operand = if who == 255 { 65535 } else { who as u16 };
        Report {
            kind: Kind::Switch as u8,
            spare: 0,
            operand,
        }
    }

    // Whether it is of this kind.
    fn is(self, kind: Kind) -> bool
        ensures { result ≡ eqb self.kind (kind_number kind) }
    {
        self.kind == kind as u8
    }
}

// Whether a report of this kind, of this thread or timer, is among these.
fn among(due: &[Report], kind: Kind, who: u8) -> bool
    ensures { result ≡ any (λ r. eqb r.kind (kind_number kind) && eqb r.operand who) due.now }
{
    due.iter().any(|r| r.is(kind) && r.operand == who as u16)
}

impl Reports {
    pub fn none() -> Reports
        ensures { owed result ≡ [] }
    {
        Reports {
            items: [NO_REPORT; ROOM],
            count: 0,
        }
    }

    // Those that are due, where the first `given` are given.
    fn due(&self, given: usize) -> &[Report]
        requires { given < self.now.count → self.now.count ≤ report_room }
        ensures { map report_of result.now ≡ drop given (owed self.now) }
    {
        let n = self.count;
        if given < n {
            &self.items[given..n]
        } else {
            &self.items[..0]
        }
    }

    // Whether an Expire of this timer is due, where the first `given` are given.
    pub fn owes_expire(self, given: usize, timer: u8) -> bool
        requires { given < self.count → self.count ≤ report_room }
        ensures { result ≡ model.owes_expire (drop given (owed self)) timer }
    {
        among(self.due(given), Kind::Expire, timer)
    }

    // The timers whose tick number this is and of which no Expire is due, lower timer first, where the first `given` reports are given.
    fn expired(self, given: usize, timers: Timers, number: Tick) -> Queue
        requires { (0 < number.0) × (given < self.count → self.count ≤ report_room) }
        ensures { queued result ≡ model.expired number.0 (drop given (owed self)) (timing.view timers) }
    {
        let due = self.due(given);
        let mut out = Queue::none();
        for i in 0..TIMERS {
            if timers.expires(i, number) && !among(due, Kind::Expire, i as u8) {
                out = out.push(i as u8);
            }
        }
        out
    }

    // Those behind the first `given` but a Switch, in an array of their own: mostly none is due, and then nothing is read of the old one.
    fn without_switch(self, given: usize) -> Reports
        requires { given < self.count → self.count ≤ report_room }
        ensures { owed result ≡ without_switch (drop given (owed self)) }
    {
        let mut items = [NO_REPORT; ROOM];
        let mut n: usize = 0;
        for r in self.due(given) {
            if !r.is(Kind::Switch) {
                items[n] = *r;
                n += 1;
            }
        }
        Reports { items, count: n }
    }

    // A report of this kind more at the end for each of these. Here and above the array is a variable of the loop: in a function that stores one report and
    // hands the array back, it would be copied for each.
    fn joined(self, kind: Kind, who: Queue) -> Reports
        requires { (who.count ≤ 16) × (self.count + who.count ≤ report_room) }
        ensures { owed result ≡ owed self ++ map (report_by (kind_number kind)) (queued who) }
    {
        let mut items = self.items;
        let mut n = self.count;
        for t in who.iter() {
            let r = Report::of(kind, t);
            items[n] = r;
            n += 1;
        }
        Reports { items, count: n }
    }

    // What a Tick leaves due before its Switch: those behind the first `given` but a Switch, behind them an Expire for each timer whose tick number this is
    // and of which none is due, and behind those a Ready for each of the woken.
    pub fn ticked(self, given: usize, timers: Timers, number: Tick, woken: Queue) -> Reports
        requires { TickFits self given number.0 (timing.view timers) woken.count }
        ensures { owed result ≡ after_tick (drop given (owed self)) number.0 (timing.view timers) (queued woken) }
    {
        let ended = self.expired(given, timers, number);
        self.without_switch(given)
            .joined(Kind::Expire, ended)
            .joined(Kind::Ready, woken)
    }
}
