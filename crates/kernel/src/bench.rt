// Plan and call list in, dump out.
ghost use Rattle.std.specs.Prelude.{◌≡◌, length};
ghost use Rattle.kernel.specs.Answers.{answer_of, answer, output, question};
ghost use Rattle.kernel.specs.declared.bench.Refusal.TheVariants as by;

use crate::tally::tally;
use crate::write::write;
use dump::layout::record_count;
use dump::questions;
use dump::questions::MOST_RECORDS;
use plan::bytes;
use plan::ceilings::ceilings;

// What refuses plan, call list and output: a question of the plan, one of the list behind it, or 9, 10 or 11.
#[derive(Clone, Copy, Debug, PartialEq, Eq)]
pub enum Refusal {
    Plan(bytes::Refusal),
    List(questions::Refusal),
    Calls,
    Records,
    Output,
}

impl Refusal {
    // The number of the question. Rules out one number for all, and the list's questions counted from 1.
    pub fn number(self) -> u8
        ensures { result ≡ question self }
    {
        match self {
            Refusal::Plan(q) => q.number(),
            Refusal::List(q) => q.number(),
            Refusal::Calls => 9,
            Refusal::Records => 10,
            Refusal::Output => 11,
        }
    }
}

impl From<bytes::Refusal> for Refusal {
    ghost from_gives = { λ r e. e ≡ by.Plan r };

    fn from(refusal: bytes::Refusal) -> Refusal {
        Refusal::Plan(refusal)
    }
}

impl From<questions::Refusal> for Refusal {
    ghost from_gives = { λ r e. e ≡ by.List r };

    fn from(refusal: questions::Refusal) -> Refusal {
        Refusal::List(refusal)
    }
}

// Of any bytes and any output: the number of records written. Rules out writing before every question is asked, and bytes touched behind the dump.
pub fn bench(plan: &[u8], list: &[u8], out: &mut [u8]) -> Result<usize, Refusal>
    ensures { (answer_of result ≡ answer plan.now list.now (length out.old)) × (out.new ≡ output plan.now list.now out.old) }
{
    let p = bytes::parse(plan)?;
    questions::ask(p.threads, p.sections, true, list)?;
    let all = ceilings(p);
    let calls = record_count(list);
    let Some(n) = tally(p, &all, list, calls) else {
        return Err(Refusal::Calls);
    };
    if MOST_RECORDS < n {
        return Err(Refusal::Records);
    }
    if out.len() < 2 + 3 * n {
        return Err(Refusal::Output);
    }
    write(p, &all, list, calls, out, n);
    Ok(n)
}
