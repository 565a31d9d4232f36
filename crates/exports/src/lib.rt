// The watch and the bench kernel for programs in C and Rust; the interface folder has the header. Every function answers any bytes and any
// watch state; a number, a state or an output that is lent keeps what it had unless the comment says what is set.
#![tactic(auto)]

ghost use Rattle.std.specs.Prelude.{◌≡◌, length};
ghost use Rattle.monitor.specs.Answers.{check};
ghost use Rattle.kernel.specs.Answers.{answer, output};
ghost use Rattle.exports.specs.Numbers.{verdict_number, verdict_at, verdict_due, written_number, written_records};
ghost use Rattle.exports.specs.Clauses.{Tells, Begins, Steps};
ghost use Rattle.exports.specs.Abi.{abi};

use kernel::bench::bench;
use live::lent;
use live::live::{Reply, Watch, begin};
use monitor::check::{Verdict, check};

// The number of this interface, which the header and the Rust wrapper name too: a caller with another one has another layout of the watch
// state or other signatures. Rules out a number that rises in the library alone.
#[unsafe(no_mangle)]
pub extern "C" fn beltcairn_abi() -> u32
    ensures { result ≡ abi }
{
    4
}

// The whole check of a plan and a dump. 0: clean, *at is the number of records and *due that of reports due. 1 to 8: that question refuses.
// 21 to 32: that rule is broken, *at is the record, from 0. Rules out a breach told at record 0, and the reports due told as the records.
#[unsafe(no_mangle)]
pub extern "C" fn beltcairn_check(plan: &[u8], dump: &[u8], at: &mut u64, due: &mut u64) -> u8
    ensures value { result ≡ verdict_number (check plan.now dump.now) }
    ensures at_after { at.new ≡ verdict_at (check plan.now dump.now) at.old }
    ensures due_after { due.new ≡ verdict_due (check plan.now dump.now) due.old }
{
    match check(plan, dump) {
        Ok(Verdict::Clean { records, due: owed }) => {
            *at = records as u64;
            *due = owed as u64;
            0
        }
        Ok(Verdict::Breach { record, rule }) => {
            *at = record as u64;
            rule.number()
        }
        Err(refusal) => refusal.number(),
    }
}

// The dump of a plan and a call list, at the front of the output. 0: written, *records is the number of records. 1 to 11: that question
// refuses. Rules out a refusal told as 0, and *records that is not what was written.
#[unsafe(no_mangle)]
pub extern "C" fn beltcairn_bench(plan: &[u8], list: &[u8], out: &mut [u8], records: &mut u64) -> u8
    ensures value { result ≡ written_number (answer plan.now list.now (length out.old)) }
    ensures out_after { out.new ≡ output plan.now list.now out.old }
    ensures records_after { records.new ≡ written_records (answer plan.now list.now (length out.old)) records.old }
{
    match bench(plan, list, out) {
        Ok(n) => {
            *records = n as u64;
            0
        }
        Err(refused) => refused.number(),
    }
}

// The watch state of a plan. 0: made. 1 to 4: that question refuses. Rules out a state left alone where the plan passes, and a refused plan
// that changes the state.
#[unsafe(no_mangle)]
pub extern "C" fn beltcairn_begin(plan: &[u8], watch: &mut Watch) -> u8
    ensures { Begins result watch.new watch.old plan.now }
{
    let begun = begin(plan);
    match begun.refused {
        Some(refusal) => refusal.number(),
        None => {
            *watch = begun.watch;
            0
        }
    }
}

// The number of a step's answer, and the reports due where it is clean.
fn tell(reply: Reply, due: &mut u64) -> u8
    ensures { Tells result due.new due.old reply }
{
    match reply {
        Reply::Refused(asked) => asked.number(),
        Reply::Clean(count) => {
            *due = count as u64;
            0
        }
        Reply::Broken(rule) => rule,
    }
}

// Advances a watch state by one record. 0: clean, *due is the number of reports due. 12, 7, 8 and 13: that question refuses, and the state is
// as it was. 21 to 32: that rule is broken, now or at an earlier step. Rules out *due that is always 0, and a state left alone.
#[unsafe(no_mangle)]
pub extern "C" fn beltcairn_step(watch: &mut Watch, kind: u8, operand: u16, due: &mut u64) -> u8
    ensures { Steps result watch.new watch.old kind operand due.new due.old }
{
    let reply = lent::step(watch, kind, operand);
    tell(reply, due)
}
