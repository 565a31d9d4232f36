// The whole check of a plan and a dump.
ghost use Rattle.std.specs.Prelude.{◌≡◌};
ghost use Rattle.monitor.specs.Answers.{answer_of, check, question};
ghost use Rattle.monitor.specs.declared.check.Refusal.TheVariants as by;

use dump::layout::{first_operand, record_count};
use dump::questions;
use machine::rules::Rule;
use machine::state::State;
use plan::bytes;
use plan::ceilings::ceilings;
use walk::walk::walk;

// What refuses plan and dump: a question of the plan, or one of the dump behind it.
#[derive(Clone, Copy, Debug, PartialEq, Eq)]
pub enum Refusal {
    Plan(bytes::Refusal),
    Dump(questions::Refusal),
}

impl Refusal {
    // The number of the question. Rules out one number for all, and the dump's questions counted from 1.
    pub fn number(self) -> u8
        ensures { result ≡ question self }
    {
        match self {
            Refusal::Plan(q) => q.number(),
            Refusal::Dump(q) => q.number(),
        }
    }
}

impl From<bytes::Refusal> for Refusal {
    ghost from_gives = { λ r e. e ≡ by.Plan r };

    fn from(refusal: bytes::Refusal) -> Refusal {
        Refusal::Plan(refusal)
    }
}

impl From<questions::Refusal> for Refusal {
    ghost from_gives = { λ r e. e ≡ by.Dump r };

    fn from(refusal: questions::Refusal) -> Refusal {
        Refusal::Dump(refusal)
    }
}

// What the watch answers of a dump that nothing refuses. Document 01's words: clean, with records and due; breach, with the record, from 0, and
// the rule.
#[derive(Clone, Copy, Debug, PartialEq, Eq)]
pub enum Verdict {
    Clean { records: usize, due: usize },
    Breach { record: usize, rule: Rule },
}

// Of any bytes. Rules out calling every dump clean, refusing all, and a due count of its own.
pub fn check(plan: &[u8], dump: &[u8]) -> Result<Verdict, Refusal>
    ensures { answer_of result ≡ check plan.now dump.now }
{
    let p = bytes::parse(plan)?;
    questions::ask(p.threads, p.sections, false, dump)?;
    let all = ceilings(p);
    let n = record_count(dump);
    let w = walk(State::fresh(p), &all, dump, 0, first_operand(n), n);
    if let Err(rule) = w.rule {
        return Ok(Verdict::Breach { record: w.at, rule });
    }
    let s = w.state;
    Ok(Verdict::Clean {
        records: n,
        due: s.due_count(),
    })
}
