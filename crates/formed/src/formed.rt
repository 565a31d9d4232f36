// Answer 12: whether a state that came from outside is well formed. The counts are tested before an entry is read.
ghost use Rattle.std.specs.Prelude.{◌≡◌, ◌&&◌, T, leb};
ghost use Rattle.model.specs.Formed.{numbers_in_range, shown_at_rest, formed_machine};
ghost use Rattle.machine.specs.View.{plan_of, idle};
ghost use Rattle.machine.specs.Kept.{kept, sound};
ghost use Rattle.formed.specs.Clauses.{Counted, Stood};

use crate::kept::{empty_fits, keeps};
use crate::standing::stand_once;
use crate::{conditions, reports, timers};
use clock::time::LAST_TICK;
use machine::Machine;
use machine::state::State;
use plan::questions::passes;

// Whether every number is in range: the tick number, the threads and the sections. Asked where each thread stands where its condition says, so
// that where the waits are empty no condition is a wait. Lent numbers stay numbers: 255 is nobody.
fn numbers_in_range(m: Machine) -> bool
    requires { Counted m × Stood m }
    ensures { result ≡ numbers_in_range (plan_of m) (idle m) }
{
    let p = m.plan;
    let who = m.reported;
    m.tick <= LAST_TICK
        && (who == 255 || (who as usize) < p.threads)
        && conditions::fit(m)
        && m.queue.below(p.threads)
        && m.waits.below(p.threads)
        && m.holds.in_range(p.threads, p.sections)
}

// Whether the lists are within their words.
fn counted(m: Machine) -> bool
    ensures { result ≡ leb m.queue.count 16 && leb m.waits.count 16 && leb m.delays.count 16 && leb m.holds.count 16 }
{
    m.queue.count <= 16 && m.waits.count <= 16 && m.delays.count <= 16 && m.holds.count <= 16
}

// Whether the machine is well formed, whatever is due: see model, Formed.formed_machine.
fn machine_formed(m: Machine) -> bool
    ensures { result ≡ formed_machine (plan_of m) (idle m) }
{
    let p = m.plan;
    passes(p)
        && counted(m)
        && stand_once(m)
        && numbers_in_range(m)
        && m.delays.below(p.threads)
        && timers::in_range(m.timers)
        && m.holds.once(p.sections)
}

// Whether the chosen thread is the one last reported. The owner was asked for before.
fn shown(m: Machine) -> bool
    requires { T (formed_machine (plan_of m) (idle m)) × T (kept m) }
    ensures { result ≡ shown_at_rest (plan_of m) (idle m) }
{
    m.chosen() == m.reported
}

// Whether the answer is not 12: see machine, Kept.sound. Rules out a test of the numbers alone, one that reads past a count, and one that believes what
// is kept.
pub fn formed(state: State) -> bool
    ensures { result ≡ sound state }
{
    let m = state.machine;
    if !empty_fits(m.holds) {
        return false;
    }
    if !machine_formed(m) {
        return false;
    }
    if 0 < m.holds.count && !keeps(m) {
        return false;
    }
    if state.due.count <= state.given {
        return shown(m);
    }
    let due = state.due;
    reports::formed(due, state.given, m)
}
