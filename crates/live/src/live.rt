// The watch state and the live step: one record at a time, on a state that is lent.
ghost use Rattle.std.specs.Prelude.{◌≡◌, length, ◌<◌};
ghost use Rattle.model.specs.Formed.{last_tick};
ghost use Rattle.machine.specs.View.{view};
ghost use Rattle.machine.specs.Clauses.{later};
ghost use Rattle.plan.specs.View.{view as plan_view};
ghost use Rattle.dump.specs.Layout.{record_of};
ghost use Rattle.walk.specs.Clauses.{Advances};
ghost use Rattle.model.specs.Rules.{first_no};
ghost use Rattle.live.specs.Watching.{is_rule, record_questions, refusal, fresh};
ghost use Rattle.live.specs.Clauses.{Asked, seen, question, refused_by, Begins, Tells};
ghost use Rattle.live.specs.declared.live.Reply.TheVariants as says;

use clock::time::LAST_TICK;
use dump::layout::first_operand;
use dump::questions::{kind_allowed, operand_fits};
use formed::formed::formed;
use machine::state::State;
use plan::ceilings::ceilings;
use plan::{Plan, bytes};
use walk::single::{Stepped, step};

// A state of the machine and the rule of a breach that is stored, 0 if there is none. Plain numbers only, since it may be lent from outside.
#[repr(C)]
#[derive(Clone, Copy)]
pub struct Watch {
    pub state: State,
    pub rule: u8,
}

// What refuses a plan, if anything, and the watch state made of it. A refused plan has one too, so that this is no Result.
#[derive(Clone, Copy)]
pub struct Begun {
    pub refused: Option<bytes::Refusal>,
    pub watch: Watch,
}

// What refuses a live step: the question among 12, 7, 8 and 13 with the first No.
#[derive(Clone, Copy, Debug, PartialEq, Eq)]
pub enum Refusal {
    State = 12,
    Kind = 7,
    Operand = 8,
    LastTick = 13,
}

impl Refusal {
    // The number of the question. Rules out one number for all, and numbers that count from 7.
    pub fn number(self) -> u8
        ensures { result ≡ question self }
    {
        self as u8
    }
}

// What a live step answers: what refuses it; clean, with the number due; or the number of the broken rule, which the lent state stores.
#[derive(Clone, Copy, Debug, PartialEq, Eq)]
pub enum Reply {
    Refused(Refusal),
    Clean(usize),
    Broken(u8),
}

#[derive(Clone, Copy)]
pub struct Told {
    pub watch: Watch,
    pub reply: Reply,
}

// The plan of a watch state that was made of a refused one.
const NO_PLAN: Plan = Plan {
    threads: 0,
    sections: 0,
    bases: [0u8; 16],
    needs: [0u16; 16],
};

// A state at its start, with no breach stored.
fn fresh(plan: Plan) -> Watch
    ensures { seen result ≡ fresh (plan_view plan) }
{
    Watch {
        state: State::fresh(plan),
        rule: 0,
    }
}

// A watch state is made from a plan that passes 1 to 4, and carries it; of another it carries no thread, so that every step answers 12.
pub fn begin(plan: &[u8]) -> Begun
    ensures { Begins result plan.now }
{
    let parsed = bytes::parse(plan);
    Begun {
        refused: parsed.err(),
        watch: fresh(parsed.unwrap_or(NO_PLAN)),
    }
}

// Whether a stored rule is one of the papers', or none.
fn is_rule(rule: u8) -> bool
    ensures { result ≡ is_rule rule }
{
    rule == 0 || (21 <= rule && rule <= 32)
}

// 7, 8 and 13, in this order: the first No refuses. Any byte may come for a kind, here and below.
fn ask_record(watch: Watch, kind: u8, operand: u16) -> Result<(), Refusal>
    ensures { refused_by result ≡ first_no (record_questions (seen watch) kind operand) }
{
    if !kind_allowed(false, kind) {
        return Err(Refusal::Kind);
    }
    let m = watch.state.machine;
    let p = m.plan;
    if !operand_fits(p.threads, p.sections, kind, operand) {
        return Err(Refusal::Operand);
    }
    let t = m.tick;
    if kind == 7 && t.0 == LAST_TICK.0 {
        return Err(Refusal::LastTick);
    }
    Ok(())
}

// 12 and behind it 7, 8 and 13. What is asked of the record is found before, since it takes a few numbers of the state, and 12 takes all.
fn ask(watch: Watch, kind: u8, operand: u16) -> Result<(), Refusal>
    ensures { refused_by result ≡ refusal (seen watch) kind operand }
{
    let later = ask_record(watch, kind, operand);
    let s = watch.state;
    if !formed(s) || !is_rule(watch.rule) {
        return Err(Refusal::State);
    }
    later
}

// One record that passed 12, 7, 8 and 13: a walk over a dump that has it alone.
fn judged(state: State, kind: u8, operand: u16) -> Stepped
    requires { Asked state kind operand }
    ensures { Advances result.state result.rule state (record_of kind operand) }
{
    let p = state.machine.plan;
    let all = ceilings(p);
    let [low, high] = operand.to_le_bytes();
    let bytes = [1u8, 0, kind, low, high];
    step(state, &all, &bytes, 0, first_operand(1))
}

// A record that moved the machine: the state after it, clean with the number due.
fn moved(watch: Watch, after: State) -> Told
    ensures { result ≡ record { watch = record { state = after; rule = watch.rule }; reply = says.Clean (length (view after).due) } }
{
    Told {
        watch: Watch {
            state: after,
            rule: watch.rule,
        },
        reply: Reply::Clean(after.due_count()),
    }
}

// A Tick at which nothing happens moves the tick number alone, in the watch state that came: one made anew would be copied.
fn ticked(watch: Watch) -> Told
    requires { watch.state.machine.tick.0 < last_tick }
    ensures { result ≡ record { watch = record { state = later watch.state; rule = watch.rule }; reply = says.Clean (length (view watch.state).due) } }
{
    let mut w = watch;
    let now = watch.state.machine.tick;
    let number = now.next();
    w.state.machine.tick.0 = number.0;
    Told {
        watch: w,
        reply: Reply::Clean(watch.state.due_count()),
    }
}

// A new breach changes the stored rule alone.
fn breached(watch: Watch, rule: u8) -> Told
    ensures { result ≡ record { watch = record { state = watch.state; rule = rule }; reply = says.Broken rule } }
{
    let mut w = watch;
    w.rule = rule;
    Told {
        watch: w,
        reply: Reply::Broken(rule),
    }
}

// One record, on any lent state: the answer, and the state after it. A Tick at which nothing happens moves the tick number alone, and is not walked
// over: the whole check does so little for it that a walk would be many times that. Rules out a step that leaves the state alone, one that judges
// anew after a breach, and a breach that moves the machine.
pub fn live(watch: Watch, kind: u8, operand: u16) -> Told
    ensures { Tells result watch kind operand }
{
    if let Err(refusal) = ask(watch, kind, operand) {
        return Told {
            watch,
            reply: Reply::Refused(refusal),
        };
    }
    if watch.rule != 0 {
        return Told {
            watch,
            reply: Reply::Broken(watch.rule),
        };
    }
    if kind == 7 && watch.state.is_still() {
        return ticked(watch);
    }
    let o = judged(watch.state, kind, operand);
    if let Err(rule) = o.rule {
        return breached(watch, rule.number());
    }
    let after = o.state;
    moved(watch, after)
}
