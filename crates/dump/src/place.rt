// A reading place in a dump or call list, with a running place (document 02) beside it: thin functions over plain ones.
ghost use Rattle.std.specs.Prelude.{◌≡◌, ◌<◌};
ghost use Rattle.dump.specs.Layout.{record_count, kind_at, operand_at, running_place};
ghost use Rattle.dump.specs.Questions.{Whole};

use crate::layout::{Entry, kind_at};
use plan::words::word_at;

// The dump and the next record's number.
#[derive(Clone, Copy)]
pub struct Place<'a> {
    pub bytes: &'a [u8],
    pub number: usize,
}

// The numbers of record i, its operand at the running place.
fn numbers_at(bytes: &[u8], i: usize, running: usize) -> Entry
    requires { Whole bytes.now × (i < record_count bytes.now) × (running ≡ running_place (record_count bytes.now) i) }
    ensures { (result.kind ≡ kind_at bytes.now i) × (result.operand ≡ operand_at bytes.now i) }
{
    Entry {
        kind: kind_at(bytes, i),
        operand: word_at(bytes, running),
    }
}

// The place where a record of this number is next.
pub fn place_at<'a>(bytes: &'a [u8], number: usize) -> Place<'a>
    ensures { (result.bytes ≡ bytes.entry) × (result.number ≡ number) }
{
    Place { bytes, number }
}

// The next record.
pub fn read<'a>(place: Place<'a>, running: usize) -> Entry
    requires { Whole place.bytes.now × (place.number < record_count place.bytes.now) × (running ≡ running_place (record_count place.bytes.now) place.number) }
    ensures { (result.kind ≡ kind_at place.entry.bytes.now place.entry.number) × (result.operand ≡ operand_at place.entry.bytes.now place.entry.number) }
{
    numbers_at(place.bytes, place.number, running)
}

// Record i, read through a reading place.
pub fn entry_at(bytes: &[u8], i: usize, running: usize) -> Entry
    requires { Whole bytes.now × (i < record_count bytes.now) × (running ≡ running_place (record_count bytes.now) i) }
    ensures { (result.kind ≡ kind_at bytes.now i) × (result.operand ≡ operand_at bytes.now i) }
{
    read(place_at(bytes, i), running)
}
