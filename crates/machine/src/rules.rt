// The rules, and the questions asked of a record: the rule of the first No.
ghost use Rattle.std.specs.Prelude.{◌≡◌, ◌≤◌, ◌<◌};
ghost use Rattle.model.specs.Records.{timer_count};
ghost use Rattle.machine.specs.Rules.{number_of, rule_numbered, answer_number, create_rule, free_rule, take_rule, give_rule, run_rule, cancel_rule, due_rule};

use crate::slots::Slots;
use clock::timers::Timers;
use due::reports::Report;
use lists::holds::Holds;
use plan::lookup::may_take;

// What a record breaks, each with its number. The check asks 31 first of every record.
#[derive(Clone, Copy, PartialEq, Eq, Debug)]
pub enum Rule {
    // A call other than Tick while reports are due.
    ReportDue = 21,
    // A call of a thread while nobody runs.
    NobodyRuns = 22,
    // A Create of a thread that is not dormant.
    NotDormant = 23,
    // A Delay or End of a thread that holds a section.
    HoldsSection = 24,
    // A Take of a section that the caller does not need.
    NotNeeded = 25,
    // A Take of a section that the caller holds.
    HeldAlready = 26,
    // A Give of another section than the one the caller took last.
    NotTakenLast = 27,
    // A report while none is due.
    NoneDue = 28,
    // A report of another kind than the first due.
    OtherKind = 29,
    // A report with another operand than the first due.
    OtherOperand = 30,
    // Within an arming, anything but its next call; elsewhere, a Start or Period.
    ArmingOrder = 31,
    // A Cancel of a timer that is not armed.
    NotArmed = 32,
}

impl Rule {
    // Its number.
    pub fn number(self) -> u8
        ensures { result ≡ number_of self }
    {
        self as u8
    }

    // The rule of this number, if it is one's.
    pub fn numbered(number: u8) -> Option<Rule>
        ensures { result ≡ rule_numbered number }
    {
        match number {
            21 => Some(Rule::ReportDue),
            22 => Some(Rule::NobodyRuns),
            23 => Some(Rule::NotDormant),
            24 => Some(Rule::HoldsSection),
            25 => Some(Rule::NotNeeded),
            26 => Some(Rule::HeldAlready),
            27 => Some(Rule::NotTakenLast),
            28 => Some(Rule::NoneDue),
            29 => Some(Rule::OtherKind),
            30 => Some(Rule::OtherOperand),
            31 => Some(Rule::ArmingOrder),
            32 => Some(Rule::NotArmed),
            _ => None,
        }
    }
}

// The number of the rule that an answer names, 0 where it names none: as it stands beside a machine.
pub(crate) fn answer_number(rule: Result<(), Rule>) -> u8
    ensures { result ≡ answer_number rule }
{
    match rule {
        Ok(()) => 0,
        Err(rule) => rule.number(),
    }
}

// 22: does a thread run? Here and below `chosen` is a number of the lent state, 255 for nobody.
pub(crate) fn run_rule(chosen: u8) -> Result<(), Rule>
    ensures { answer_number result ≡ run_rule chosen }
{
    if chosen == 255 {
        Err(Rule::NobodyRuns)
    } else {
        Ok(())
    }
}

// 22, and 24: does the caller hold no section?
pub(crate) fn free_rule(holds: Holds, chosen: u8) -> Result<(), Rule>
    requires { holds.count ≤ 16 }
    ensures { answer_number result ≡ free_rule holds chosen }
{
    run_rule(chosen)?;
    if holds.free(chosen) {
        Ok(())
    } else {
        Err(Rule::HoldsSection)
    }
}

// 23: is the thread dormant?
pub(crate) fn create_rule(slots: Slots, thread: u8) -> Result<(), Rule>
    requires { thread < 16 }
    ensures { answer_number result ≡ create_rule slots thread }
{
    if slots.is_dormant(thread) {
        Ok(())
    } else {
        Err(Rule::NotDormant)
    }
}

// 22, 25 and 26: does the caller need the section, and not hold it?
pub(crate) fn take_rule(
    threads: usize,
    needs: [u16; 16],
    holds: Holds,
    chosen: u8,
    section: u8,
) -> Result<(), Rule>
    requires { (threads ≤ 16) × (holds.count ≤ 16) × (section < 16) }
    ensures { answer_number result ≡ take_rule threads needs holds chosen section }
{
    run_rule(chosen)?;
    if !may_take(threads, needs, chosen, section) {
        return Err(Rule::NotNeeded);
    }
    if holds.lacks(section, chosen) {
        Ok(())
    } else {
        Err(Rule::HeldAlready)
    }
}

// 22, and 27: is it the section that the caller took last?
pub(crate) fn give_rule(holds: Holds, chosen: u8, section: u8) -> Result<(), Rule>
    requires { holds.count ≤ 16 }
    ensures { answer_number result ≡ give_rule holds chosen section }
{
    run_rule(chosen)?;
    if holds.last_taken(chosen) == section {
        Ok(())
    } else {
        Err(Rule::NotTakenLast)
    }
}

// 22, and 32: is the timer armed?
pub(crate) fn cancel_rule(timers: Timers, chosen: u8, timer: u8) -> Result<(), Rule>
    requires { timer < timer_count }
    ensures { answer_number result ≡ cancel_rule timers chosen timer }
{
    run_rule(chosen)?;
    if timers.is_armed(timer) {
        Ok(())
    } else {
        Err(Rule::NotArmed)
    }
}

// Where this report is due first: 21 of a call, and of a report 29 and 30: is the first due of this kind, and does it name this thread? Whole operands
// are compared.
pub(crate) fn due_rule(first: Report, kind: u8, operand: u16) -> Result<(), Rule>
    ensures { answer_number result ≡ due_rule first kind operand }
{
    if kind < 16 {
        return Err(Rule::ReportDue);
    }
    if first.kind != kind {
        return Err(Rule::OtherKind);
    }
    if first.operand == operand {
        Ok(())
    } else {
        Err(Rule::OtherOperand)
    }
}
