// Where N, the kinds and the operands of a dump or call list stand.
ghost use Rattle.std.specs.Prelude.{◌≡◌, ◌≤◌, ◌<◌, length};
ghost use Rattle.dump.specs.Layout.{record_count, kind_at, running_place};
ghost use Rattle.dump.specs.Questions.{most_records, Whole};

use plan::words::word_at;

// A record's two numbers, as the bytes have them: that they name a kind is asked of them.
#[derive(Clone, Copy)]
pub struct Entry {
    pub kind: u8,
    pub operand: u16,
}

// N, the number of records.
pub fn record_count(bytes: &[u8]) -> usize
    requires { 2 ≤ length bytes.now }
    ensures { result ≡ record_count bytes.now }
{
    word_at(bytes, 0) as usize
}

// The kind of record i.
pub fn kind_at(bytes: &[u8], i: usize) -> u8
    requires { Whole bytes.now × (i < record_count bytes.now) }
    ensures { result ≡ kind_at bytes.now i }
{
    bytes[2 + i]
}

// Where the operands of n records begin: the running place (document 02) at record 0, which moves on by two for each record.
pub fn first_operand(n: usize) -> usize
    requires { n ≤ most_records }
    ensures { result ≡ running_place n 0 }
{
    2 + n
}
