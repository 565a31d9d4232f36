// Questions 5 to 8.
ghost use Rattle.std.specs.Prelude.{◌≡◌, ◌&&◌, ◌≤◌, length};
ghost use Rattle.plan.specs.Bytes.{between};
ghost use Rattle.dump.specs.Questions.{kind_allowed, call_fits, report_fits, operand_fits, has_count, has_length, has_kinds, has_operands, refusal, question, refused, Whole};
ghost use Rattle.dump.specs.Operands.{below, admits, Exact, record_fits, Tabled};

use crate::layout::{first_operand, kind_at, record_count};
use crate::place::entry_at;
use clock::timers::TIMERS;

// The greatest number of records.
pub const MOST_RECORDS: usize = 20000;

// Whether there is such a kind; a call list has calls only.
pub fn kind_allowed(list: bool, kind: u8) -> bool
    ensures { result ≡ kind_allowed list kind }
{
    match kind {
        1..=11 => true,
        16..=22 => !list,
        _ => false,
    }
}

// What an operand may be: from low on and below end, and 65535 where nobody may be named.
#[derive(Clone, Copy)]
pub struct Bounds {
    pub end: u32,
    pub low: u16,
    pub nobody: bool,
}

impl Bounds {
    // The operands below a count: two bytes hold none above 65535.
    fn below(count: usize) -> Bounds
        ensures { result ≡ below count }
    {
        let end = count.min(65536) as u32;
        Bounds {
            end,
            low: 0,
            nobody: false,
        }
    }

    // The operands from 1 on.
    fn from_one() -> Bounds
        ensures { Exact result (between 1 65535) }
    {
        Bounds {
            end: 65536,
            low: 1,
            nobody: false,
        }
    }

    // Whether an operand is one of them. The end is asked first: nearly every operand is below it, so that the branch is guessed right.
    fn admits(self, operand: u16) -> bool
        ensures { result ≡ admits self operand }
    {
        let n = operand as u32;
        if n < self.end {
            return self.low <= operand;
        }
        self.nobody && operand == 65535
    }
}

// The operand rule of a call: a decision over the kind byte, the form that document 01 names.
fn call_bounds(threads: usize, sections: usize, kind: u8) -> Bounds
    ensures { Exact result (call_fits threads sections kind) }
{
    match kind {
        1 => Bounds::below(threads),
        2 => Bounds::from_one(),
        5..=6 => Bounds::below(sections),
        8 => Bounds::below(TIMERS),
        9 => Bounds::from_one(),
        10 => Bounds::below(65536),
        11 => Bounds::below(TIMERS),
        _ => Bounds::below(1),
    }
}

// The operand rule of a report.
fn report_bounds(threads: usize, kind: u8) -> Bounds
    ensures { Exact result (report_fits threads kind) }
{
    if kind == 21 {
        return Bounds::below(TIMERS);
    }
    if kind == 22 {
        return Bounds::below(65536);
    }
    let mut named = Bounds::below(threads);
    named.nobody = kind == 17;
    named
}

// The operand rule of a record, by its kind.
fn bounds_of(threads: usize, sections: usize, kind: u8) -> Bounds
    ensures { Exact result (operand_fits threads sections kind) }
{
    match kind {
        1..=11 => call_bounds(threads, sections, kind),
        16..=22 => report_bounds(threads, kind),
        _ => Bounds::below(0),
    }
}

// Whether an operand is allowed for its kind.
pub fn operand_fits(threads: usize, sections: usize, kind: u8, operand: u16) -> bool
    ensures { result ≡ operand_fits threads sections kind operand }
{
    bounds_of(threads, sections, kind).admits(operand)
}

// What passes questions 7 and 8 of a record, by its kind: a kind that is not allowed admits no operand.
fn bounds_for(threads: usize, sections: usize, list: bool, kind: u8) -> Bounds
    ensures { Exact result (record_fits threads sections list kind) }
{
    if kind_allowed(list, kind) {
        bounds_of(threads, sections, kind)
    } else {
        Bounds::below(0)
    }
}

// These bounds of the kinds below 32, in their order, to be made once for all records.
fn bounds_table(threads: usize, sections: usize, list: bool) -> [Bounds; 32]
    ensures { Tabled threads sections list 32 result }
{
    let none = Bounds::below(0);
    let mut table = [none; 32];
    for k in 0..32 {
        let b = bounds_for(threads, sections, list, k as u8);
        table[k] = b;
    }
    table
}

// 5: Has it 2 bytes or more, and N at most 20,000?
fn has_count(bytes: &[u8]) -> bool
    ensures { result ≡ has_count bytes.now }
{
    if bytes.len() < 2 {
        return false;
    }
    record_count(bytes) <= MOST_RECORDS
}

// 6: Is it exactly 2 + 3N long?
fn has_length(bytes: &[u8]) -> bool
    requires { 2 ≤ length bytes.now }
    ensures { result ≡ has_length bytes.now }
{
    let n = record_count(bytes);
    bytes.len() == 2 + 3 * n
}

// 7: Is every kind allowed?
fn has_kinds(list: bool, bytes: &[u8]) -> bool
    requires { Whole bytes.now }
    ensures { result ≡ has_kinds list bytes.now }
{
    for i in 0..record_count(bytes) {
        if !kind_allowed(list, kind_at(bytes, i)) {
            return false;
        }
    }
    true
}

// 7 and 8 in one pass: is every kind allowed, and every operand for its kind? The table is asked, and not the kind: the kinds of a dump follow
// no pattern, and a branch on them is often guessed wrong.
fn has_records(threads: usize, sections: usize, list: bool, bytes: &[u8]) -> bool
    requires { Whole bytes.now }
    ensures { result ≡ has_kinds list bytes.now && has_operands threads sections bytes.now }
{
    let n = record_count(bytes);
    let table = bounds_table(threads, sections, list);
    // Document 02's running place, moved on by two for each record.
    let mut running = first_operand(n);
    for i in 0..n {
        let e = entry_at(bytes, i, running);
        let k = e.kind as usize;
        if 32 <= k {
            return false;
        }
        if !table[k].admits(e.operand) {
            return false;
        }
        running += 2;
    }
    true
}

// What refuses a dump or call list: the question among 5 to 8 with the first No.
#[derive(Clone, Copy, Debug, PartialEq, Eq)]
pub enum Refusal {
    Count = 5,
    Length = 6,
    Kinds = 7,
    Operands = 8,
}

impl Refusal {
    // The number of the question. Rules out one number for all, and numbers that count from 1.
    pub fn number(self) -> u8
        ensures { result ≡ question self }
    {
        self as u8
    }
}

// Questions 5 to 8, in their order: the first No refuses. Where a record fails 7 or 8, all are asked 7 before 8 is answered. Rules out refusing all,
// and naming a later No.
pub fn ask(threads: usize, sections: usize, list: bool, bytes: &[u8]) -> Result<(), Refusal>
    ensures { refused result ≡ refusal threads sections list bytes.now }
{
    if !has_count(bytes) {
        return Err(Refusal::Count);
    }
    if !has_length(bytes) {
        return Err(Refusal::Length);
    }
    if has_records(threads, sections, list, bytes) {
        return Ok(());
    }
    if !has_kinds(list, bytes) {
        return Err(Refusal::Kinds);
    }
    Err(Refusal::Operands)
}
