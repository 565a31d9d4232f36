// Reports, and records other than Tick where reports are due, or any that stand outside their place in an arming: rules 21, 28 to 30 and 31.
ghost use Rattle.std.specs.Prelude.{◌≡◌, not, ◌&&◌, ◌||◌, ◌<◌, T, eqb, ltb};
ghost use Rattle.model.specs.Formed.{arming_in_range};
ghost use Rattle.clock.specs.View as timing;
ghost use Rattle.due.specs.Lists.{report_room};
ghost use Rattle.machine.specs.View.{report_at};
ghost use Rattle.machine.specs.Calls.{in_place, Hearing, Hears, unasked};

use crate::reporting::Reporting;
use crate::rules::{Rule, answer_number, due_rule};
use due::reports::Report;

impl Reporting {
    // The report due first: one of the array, or the Switch behind them.
    fn first(self) -> Report
        requires { self.given < self.count → self.given < report_room }
        ensures { result ≡ report_at self self.given }
    {
        let given = self.given;
        let mut first = Report::switch(self.chosen);
        if given < self.count {
            let all = self.reports;
            first = all[given];
        }
        first
    }

    // Whether a record of this kind is no call to be made: a report is due and it is no Tick, or it stands outside its place.
    pub fn hears(self, kind: u8) -> bool
        requires { T (arming_in_range (timing.view self.machine.timers).arming) }
        ensures { result ≡ not (eqb kind 7) && ltb self.given self.due || not (in_place self.machine kind) }
    {
        kind != 7 && self.given < self.due || !self.machine.timers.in_order(kind)
    }

    // Such a record, by its kind and operand: outside its place it breaks 31; a call breaks 21, and a report is the first due or breaks 29 or 30. A
    // Switch given names the thread reported.
    pub fn heard(self, kind: u8, operand: u16) -> Reporting
        requires { Hearing self kind }
        ensures { Hears result self kind operand }
    {
        let mut c = self;
        let given = self.given;
        let mut rule = Err(Rule::ArmingOrder);
        if self.machine.timers.in_order(kind) {
            let first = self.first();
            rule = due_rule(first, kind, operand);
        }
        // An early return where a rule is broken would copy the machine.
        if let Ok(()) = rule {
            c.given = given + 1;
            if kind == 17 {
                let who = (operand % 256) as u8;
                c.machine.reported = who;
            }
        }
        c.rule = answer_number(rule);
        c
    }

    // A report where none is due.
    pub fn unasked(self) -> Reporting
        ensures { result ≡ unasked self }
    {
        let mut c = self;
        c.rule = Rule::NoneDue.number();
        c
    }
}
