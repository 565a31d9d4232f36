// The reports due of a lent state.
ghost use Rattle.std.specs.Prelude.{◌≡◌, ◌≤◌, ◌<◌, length, map, drop};
ghost use Rattle.model.specs.Searches.{all, up_to};
ghost use Rattle.model.specs.Records.{timer_count, report, allowed};
ghost use Rattle.model.specs.State.{without_switch};
ghost use Rattle.model.specs.Formed.{times, switch_last, owed_none, formed_reports};
ghost use Rattle.plan.specs.View.{Fits, view};
ghost use Rattle.clock.specs.View as timing;
ghost use Rattle.due.specs.Lists.{report_room, report_of, owed};
ghost use Rattle.machine.specs.View.{plan_of, viewed};

use clock::timers::{TIMERS, Timers};
use due::reports::{Kind, ROOM, Report, Reports};
use machine::Machine;
use plan::Plan;

// A report of the papers': of a thread of the plan, or a Switch to nobody, an Expire of one of the eight timers, or a Late, whatever its count.
// The kind stays a number: a lent byte, which may be any.
fn is_report(entry: Report, plan: Plan) -> bool
    requires { Fits plan }
    ensures { result ≡ allowed (view plan) (report (report_of entry)) }
{
    let operand = entry.operand;
    match entry.kind {
        17 => operand == 65535 || (operand as usize) < plan.threads,
        16 | 18..=20 => (operand as usize) < plan.threads,
        21 => (operand as usize) < TIMERS,
        22 => true,
        _ => false,
    }
}

// Whether all that are due are reports of the papers'.
fn all_reports(due: &[Report], plan: Plan) -> bool
    requires { Fits plan }
    ensures { result ≡ all (λ d. allowed (view plan) (report d)) (map report_of due.now) }
{
    due.iter().all(|r| is_report(*r, plan))
}

// Whether a Switch among those due is last.
fn switch_last(due: &[Report]) -> bool
    ensures { result ≡ switch_last (map report_of due.now) }
{
    match due.split_last() {
        Some((_, before)) => before.iter().all(|r| r.kind != Kind::Switch as u8),
        None => true,
    }
}

// How many are due, a Switch not counted.
fn but_switch(due: &[Report]) -> usize
    ensures { result ≡ length (without_switch (map report_of due.now)) }
{
    due.iter().filter(|r| r.kind != Kind::Switch as u8).count()
}

// How many timers are armed and owed no Expire.
fn owed_none(timers: Timers, reports: Reports, given: usize) -> usize
    requires { reports.count ≤ report_room }
    ensures { result ≡ times (owed_none (timing.view timers) (drop given (owed reports))) (up_to timer_count) }
{
    let mut count: usize = 0;
    for i in 0..TIMERS {
        if timers.is_armed(i as u8) && !reports.owes_expire(given, i as u8) {
            count += 1;
        }
    }
    count
}

// Where some are due: whether they are well formed, and what has a claim on the room for them finds it: see model, Formed.formed_reports.
pub(crate) fn formed(reports: Reports, given: usize, m: Machine) -> bool
    requires { Fits m.plan × (m.delays.count ≤ 16) × (given < reports.count) }
    ensures { result ≡ formed_reports (plan_of m) (viewed m (drop given (owed reports))) }
{
    let most = m.plan.threads + 9;
    let n = reports.count;
    if ROOM < n || most < n - given {
        return false;
    }
    let items = reports.items;
    let due = &items[given..n];
    all_reports(due, m.plan)
        && switch_last(due)
        && but_switch(due) + m.delays.count + owed_none(m.timers, reports, given) + 1 <= most
}
