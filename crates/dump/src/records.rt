// The machine's records, read from their two numbers.
ghost use Rattle.std.specs.Prelude.{T};
ghost use Rattle.dump.specs.Questions.{operand_fits};
ghost use Rattle.dump.specs.Reading.{Reads};

use crate::layout::Entry;
use clock::time::Wait;
use due::reports::Report;
use machine::record::Record;

// The record of a kind and an operand that questions 7 and 8 let pass.
pub fn record_of(entry: Entry) -> Record
    requires { T (operand_fits 16 16 entry.kind entry.operand) }
    ensures { Reads result entry.kind entry.operand }
{
    let kind = entry.kind;
    let operand = entry.operand;
    let who = (operand % 256) as u8;
    match kind {
        1 => Record::Create(who),
        2 => Record::Delay(Wait(operand as u32)),
        3 => Record::Relinquish,
        4 => Record::End,
        5 => Record::Take(who),
        6 => Record::Give(who),
        7 => Record::Tick,
        8 => Record::Arm(who),
        9 => Record::Start(operand),
        10 => Record::Period(operand),
        11 => Record::Cancel(who),
        _ => Record::Report(Report {
            kind,
            spare: 0,
            operand,
        }),
    }
}
