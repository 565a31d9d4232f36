// What the calls that set timers do: Arm, Start and Period in a row arm one, Cancel unarms it. None of them moves a thread, so the chosen thread
// stays the one reported; what happens next is no longer known.
ghost use Rattle.std.specs.Prelude.{◌≤◌};
ghost use Rattle.model.specs.Records as records;
ghost use Rattle.machine.specs.Calls.{Calls, Called, Timed};

use crate::reporting::Reporting;
use crate::rules;
use crate::rules::Rule;
use clock::time::Tick;
use clock::timers::Timers;
use due::made::Made;

impl Reporting {
    // Arm: see model, Timers.set_timer.
    pub fn arm(self, timer: u8) -> Reporting
        requires { Calls self (records.Timing (records.Arm timer)) }
        ensures { Called result self (records.Timing (records.Arm timer)) }
    {
        let t = self.machine.timers;
        let rule = rules::run_rule(self.machine.reported);
        self.timed(t.begun(rule.is_ok(), timer), Made::none(), rule)
    }

    // Start: as Arm but for the timers, of which each call has a definition of its own.
    pub fn start(self, number: u16) -> Reporting
        requires { Calls self (records.Timing (records.Start number)) }
        ensures { Called result self (records.Timing (records.Start number)) }
    {
        let t = self.machine.timers;
        let rule = rules::run_rule(self.machine.reported);
        self.timed(t.started(rule.is_ok(), number), Made::none(), rule)
    }

    // Period: Late is due, with the count of expiries lost.
    pub fn period(self, ticks: u16) -> Reporting
        requires { Calls self (records.Timing (records.Period ticks)) }
        ensures { Called result self (records.Timing (records.Period ticks)) }
    {
        let t = self.machine.timers;
        let now = self.machine.tick;
        let rule = rules::run_rule(self.machine.reported);
        let mut made = Made::none();
        if rule.is_ok() {
            made = Made::late(t.lost(now, ticks));
        }
        self.timed(t.armed(rule.is_ok(), now, ticks), made, rule)
    }

    // Cancel.
    pub fn cancel(self, timer: u8) -> Reporting
        requires { Calls self (records.Timing (records.Cancel timer)) }
        ensures { Called result self (records.Timing (records.Cancel timer)) }
    {
        let t = self.machine.timers;
        let rule = rules::cancel_rule(t, self.machine.reported, timer);
        self.timed(t.cancelled(rule.is_ok(), timer), Made::none(), rule)
    }

    // With these timers and reports, and the rule that is broken, if any.
    fn timed(self, timers: Timers, made: Made, rule: Result<(), Rule>) -> Reporting
        requires { made.count ≤ 2 }
        ensures { Timed result self timers made rule }
    {
        let mut m = self.machine;
        m.timers = timers;
        let caller = self.machine.reported;
        self.making(made).owing(m, rule, caller, Tick(0))
    }
}
