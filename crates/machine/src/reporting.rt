// A machine with its reports. The Switch stands apart from the array: there is at most one, and it is last, so that of every call but a Tick each
// report has a place that is known when the code is compiled.
ghost use Rattle.std.specs.Prelude.{◌≡◌, ◌<◌};
ghost use Rattle.model.specs.Priorities.{chosen};
ghost use Rattle.lists.specs.Lists.{numbered};
ghost use Rattle.due.specs.Lists.{report_room, Stores};
ghost use Rattle.machine.specs.View.{plan_of, idle, reports_in};
ghost use Rattle.machine.specs.Clauses.{Starts, Chooses, owing};

use crate::Machine;
use crate::rules::{Rule, answer_number};
use crate::slots::Slots;
use clock::time::Tick;
use clock::timers::Timers;
use due::made::Made;
use due::reports::{ROOM, Report, Reports};
use lists::choice;
use lists::holds::Holds;
use lists::queue::Queue;
use plan::Plan;

// `count` reports stand in the array; `due` is how many were due after the latest call, one more where a Switch is among them, to the thread `chosen`
// after it. The first `given` are given.
// Nothing happens before the tick number `quiet`. `rule` is the number of the rule that the latest record broke, 0 if there is none. It is a plain number
// since a caller may lend any: no call reads it.
#[derive(Clone, Copy)]
pub struct Reporting {
    pub machine: Machine,
    pub reports: [Report; ROOM],
    pub count: usize,
    pub due: usize,
    pub given: usize,
    pub chosen: u8,
    pub quiet: Tick,
    pub rule: u8,
}

impl Machine {
    // At the start all are dormant: see model, State.start.
    pub fn start(plan: Plan) -> Machine
        ensures { Starts result plan }
    {
        Machine {
            plan,
            tick: Tick(0),
            slots: Slots {
                states: 0,
                wants: 0,
            },
            wakes: [Tick(0); 16],
            queue: Queue::none(),
            holds: Holds::none(),
            waits: Queue::none(),
            delays: Queue::none(),
            reported: 255,
            timers: Timers::none(),
        }
    }

    // The chosen thread, 255 for nobody: see model, Priorities.chosen.
    pub fn chosen(self) -> u8
        requires { Chooses self }
        ensures { result ≡ numbered (chosen (plan_of self) (idle self)) }
    {
        let bases = self.plan.bases;
        choice::chosen_of(bases, self.queue, self.holds.top.owner, self.waits)
    }
}

impl Reporting {
    // With the reports of a call other than Tick. They are stored whatever they are: a store that depends on a test copies the array.
    pub(crate) fn making(self, made: Made) -> Reporting
        ensures stored { Stores (reports_in result) made }
        ensures count { result.count ≡ made.count }
    {
        let mut c = self;
        let first = made.first;
        let second = made.second;
        c.reports[0] = first;
        c.reports[1] = second;
        c.count = made.count;
        c
    }

    // The reports of the array.
    pub(crate) fn array(self) -> Reports
        ensures { result ≡ reports_in self }
    {
        let items = self.reports;
        Reports {
            items,
            count: self.count,
        }
    }

    // With these reports.
    pub(crate) fn telling(self, reports: Reports) -> Reporting
        ensures { reports_in result ≡ reports }
    {
        let mut c = self;
        let items = reports.items;
        c.reports = items;
        c.count = reports.count;
        c
    }

    // What a call other than Tick hands back: its reports, and behind them a Switch where it lets another thread run than the one reported.
    pub(crate) fn settled(
        self,
        machine: Machine,
        made: Made,
        rule: Result<(), Rule>,
        quiet: Tick,
    ) -> Reporting
        requires { Chooses machine × (made.count < report_room) }
        ensures stored { Stores (reports_in result) made }
        ensures owed { result ≡ owing machine (reports_in result) rule (numbered (chosen (plan_of machine) (idle machine))) quiet }
    {
        let c = self.making(made);
        let who = machine.chosen();
        c.owing(machine, rule, who, quiet)
    }

    // What a call hands back: its reports, and behind them a Switch where the chosen thread is not the one reported. A broken rule makes
    // none due.
    pub(crate) fn owing(
        self,
        machine: Machine,
        rule: Result<(), Rule>,
        chosen: u8,
        quiet: Tick,
    ) -> Reporting
        requires { self.count < report_room }
        ensures { result ≡ owing machine (reports_in self) rule chosen quiet }
    {
        let mut c = self;
        let count = self.count;
        let mut due = count;
        if rule.is_ok() && chosen != machine.reported {
            due = count + 1;
        }
        c.machine = machine;
        c.due = due;
        c.given = 0;
        c.chosen = chosen;
        c.quiet = quiet;
        c.rule = answer_number(rule);
        c
    }
}
