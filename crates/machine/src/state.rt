// A machine with the reports that it owes, as it is lent.
ghost use Rattle.std.specs.Prelude.{◌≡◌, length};
ghost use Rattle.model.specs.Timers.{is_complete};
ghost use Rattle.machine.specs.View.{view};
ghost use Rattle.machine.specs.Clauses.{Fresh, Owes, FirstDue, Delivers, opened};
ghost use Rattle.machine.specs.Calls.{Apart, Closes};

use crate::Machine;
use crate::reporting::Reporting;
use clock::time::Tick;
use due::reports::{Report, Reports};
use plan::Plan;

// The reports due are those behind the first `given`.
#[repr(C)]
#[derive(Clone, Copy)]
pub struct State {
    pub machine: Machine,
    pub due: Reports,
    pub given: usize,
}

impl State {
    // At the start, with nothing due: see model, State.start.
    pub fn fresh(plan: Plan) -> State
        ensures { Fresh result plan }
    {
        State {
            machine: Machine::start(plan),
            due: Reports::none(),
            given: 0,
        }
    }

    // How many reports are due.
    pub fn due_count(self) -> usize
        ensures { result ≡ length (view self).due }
    {
        self.due.count.saturating_sub(self.given)
    }

    // Whether no arming is in progress.
    pub fn is_complete(self) -> bool
        ensures { result ≡ is_complete (view self).timers.arming }
    {
        self.machine.timers.is_complete()
    }

    // The report due first.
    pub fn first_due(self) -> Report
        requires { Owes self }
        ensures { FirstDue result self }
    {
        let due = self.due;
        let at = self.given;
        due.items[at]
    }

    // The first report due is given; a Switch given names the thread reported.
    pub fn delivered(self, given: Report) -> State
        requires { Owes self × FirstDue given self }
        ensures { Delivers result self given }
    {
        let mut m = self.machine;
        if given.kind == 17 {
            m.reported = (given.operand % 256) as u8;
        }
        let due = self.due;
        let n = self.given;
        State {
            machine: m,
            due,
            given: n + 1,
        }
    }

    // To be moved on from: all reports stand in the array, none apart, and what happens next is not known.
    pub fn opened(self) -> Reporting
        ensures { result ≡ opened self }
    {
        let machine = self.machine;
        let rs = self.due;
        let reports = rs.items;
        Reporting {
            machine,
            reports,
            count: rs.count,
            due: rs.count,
            given: self.given,
            chosen: 255,
            quiet: Tick(0),
            rule: 0,
        }
    }
}

impl Reporting {
    // As it is lent: a Switch that is due stands in the array behind the other reports.
    pub fn closed(self) -> State
        requires { Apart self }
        ensures { Closes result self }
    {
        let machine = self.machine;
        let mut items = self.reports;
        let n = self.count;
        if n < self.due {
            items[n] = Report::switch(self.chosen);
        }
        State {
            machine,
            due: Reports {
                items,
                count: self.due,
            },
            given: self.given,
        }
    }
}
