// The plan's bytes: what refuses them, and the plan that they stand for.
ghost use Rattle.std.specs.Prelude.{◌≡◌, ◌≤◌, ◌<◌, length, IfOk};
ghost use Rattle.std.proofs.Math.Option.{none};
ghost use Rattle.plan.specs.Bytes.{thread_count, plan_of, has_counts, has_length, has_priorities, has_needs, refusal, question, refused, Whole};
ghost use Rattle.plan.specs.View.{in_use, Made};
ghost use Rattle.plan.specs.Words.{byte};

use crate::words::word_at;
use crate::{Plan, questions};

// The byte at a place.
fn byte_at(bytes: &[u8], place: usize) -> usize
    requires { place < length bytes.now }
    ensures { result ≡ byte bytes.now place }
{
    bytes[place] as usize
}

// The base priorities, one for each thread.
fn bases_of(bytes: &[u8]) -> [u8; 16]
    requires { Whole bytes.now }
    ensures { in_use (thread_count bytes.now) result ≡ (plan_of bytes.now).bases }
{
    let threads = byte_at(bytes, 0);
    // Past the last thread a priority too, so that all sixteen pass at once.
    let mut bases = [1u8; 16];
    for t in 0..threads {
        bases[t] = bytes[2 + t];
    }
    bases
}

// The needs, one for each thread.
fn needs_of(bytes: &[u8]) -> [u16; 16]
    requires { Whole bytes.now }
    ensures { in_use (thread_count bytes.now) result ≡ (plan_of bytes.now).needs }
{
    let threads = byte_at(bytes, 0);
    let mut needs = [0u16; 16];
    for t in 0..threads {
        needs[t] = word_at(bytes, 2 + threads + 2 * t);
    }
    needs
}

// 1: Has the plan 2 bytes or more, with T and S in range?
fn has_counts(bytes: &[u8]) -> bool
    ensures { result ≡ has_counts bytes.now }
{
    if bytes.len() < 2 {
        return false;
    }
    questions::in_range(byte_at(bytes, 0), byte_at(bytes, 1))
}

// 2: Is it exactly 2 + 3T long?
fn has_length(bytes: &[u8]) -> bool
    requires { 2 ≤ length bytes.now }
    ensures { result ≡ has_length bytes.now }
{
    let threads = byte_at(bytes, 0);
    bytes.len() == 2 + 3 * threads
}

// 3: Is every priority 1 to 64?
fn has_priorities(bytes: &[u8]) -> bool
    requires { Whole bytes.now }
    ensures { result ≡ has_priorities bytes.now }
{
    let bases = bases_of(bytes);
    questions::bases_pass(byte_at(bytes, 0), bases)
}

// 4: Is every needs bit at S or above zero?
fn has_needs(bytes: &[u8]) -> bool
    requires { Whole bytes.now }
    ensures { result ≡ has_needs bytes.now }
{
    let needs = needs_of(bytes);
    questions::needs_pass(byte_at(bytes, 0), byte_at(bytes, 1), needs)
}

// What refuses a plan: the question among 1 to 4 with the first No.
#[derive(Clone, Copy, Debug, PartialEq, Eq)]
pub enum Refusal {
    Counts = 1,
    Length = 2,
    Priorities = 3,
    Needs = 4,
}

impl Refusal {
    // The number of the question. Rules out one number for all, and numbers that count from 0.
    pub fn number(self) -> u8
        ensures { result ≡ question self }
    {
        self as u8
    }
}

// Questions 1 to 4, in their order: the first No refuses. Rules out refusing all, and naming a later No.
pub fn ask(bytes: &[u8]) -> Result<(), Refusal>
    ensures { refused result ≡ refusal bytes.now }
{
    if !has_counts(bytes) {
        return Err(Refusal::Counts);
    }
    if !has_length(bytes) {
        return Err(Refusal::Length);
    }
    if !has_priorities(bytes) {
        return Err(Refusal::Priorities);
    }
    if !has_needs(bytes) {
        return Err(Refusal::Needs);
    }
    Ok(())
}

// The plan of bytes that nothing refuses. Rules out an empty plan, and needs read high byte first.
pub fn read(bytes: &[u8]) -> Plan
    requires { refusal bytes.now ≡ none }
    ensures { Made result (plan_of bytes.now) }
{
    Plan {
        threads: byte_at(bytes, 0),
        sections: byte_at(bytes, 1),
        bases: bases_of(bytes),
        needs: needs_of(bytes),
    }
}

// The plan of any bytes, or what refuses them. Rules out the plan of bytes that are refused, and refusing a plan that passes.
pub fn parse(bytes: &[u8]) -> Result<Plan, Refusal>
    ensures refusal { refused result ≡ refusal bytes.now }
    ensures plan { IfOk result (λ plan. Made plan (plan_of bytes.now)) }
{
    ask(bytes)?;
    Ok(read(bytes))
}
