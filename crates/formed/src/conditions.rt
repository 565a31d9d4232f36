// The conditions of a lent state: whether each is in range.
ghost use Rattle.std.specs.Prelude.{◌≡◌, ◌≤◌};
ghost use Rattle.model.specs.Searches.{all};
ghost use Rattle.model.specs.Formed.{condition_in_range};
ghost use Rattle.machine.specs.View.{condition_of, conditions_of};
ghost use Rattle.formed.specs.Clauses.{Counted, Stood};

use crate::ticks::none_later;
use clock::time::{LAST_WAKE, Tick};
use lists::nibbles::nibble_at;
use machine::Machine;

// Whether the number names a condition, and its tick number or section is in range. It stays a number: four bits of a lent word, which may be any.
fn slot_in_range(state: u8, want: u8, wake: Tick, sections: usize) -> bool
    requires { sections ≤ 16 }
    ensures { result ≡ condition_in_range sections (condition_of state want wake.0) }
{
    match state {
        2 => wake <= LAST_WAKE,
        3 => (want as usize) < sections,
        _ => state < 2,
    }
}

// Whether each names a condition, and its tick number or section is in range.
fn in_range(m: Machine) -> bool
    requires { Counted m }
    ensures { result ≡ all (condition_in_range m.plan.sections) (conditions_of m.plan.threads m.slots m.wakes) }
{
    let slots = m.slots;
    let wakes = m.wakes;
    for t in 0..m.plan.threads {
        let state = nibble_at(slots.states, t as u8);
        let want = nibble_at(slots.wants, t as u8);
        if !slot_in_range(state, want, wakes[t], m.plan.sections) {
            return false;
        }
    }
    true
}

// Whether each is in range. Where no thread waits, the tick numbers alone are left to ask, of all sixteen at once.
pub(crate) fn fit(m: Machine) -> bool
    requires { Counted m × Stood m }
    ensures { result ≡ all (condition_in_range m.plan.sections) (conditions_of m.plan.threads m.slots m.wakes) }
{
    let calm = m.waits.count == 0;
    if calm && none_later(m.wakes, LAST_WAKE) {
        return true;
    }
    in_range(m)
}
