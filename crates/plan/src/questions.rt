// Questions 1, 3 and 4, asked of a plan's numbers.
ghost use Rattle.std.specs.Prelude.{◌≡◌, ◌≤◌};
ghost use Rattle.model.specs.Searches.{all};
ghost use Rattle.model.specs.Plan.{valid_plan};
ghost use Rattle.plan.specs.Bytes.{between, in_range, is_priority, needs_within};
ghost use Rattle.plan.specs.View.{in_use, view};

use crate::Plan;

// Low to high, both counted in.
fn between(low: usize, high: usize, number: usize) -> bool
    ensures { result ≡ between low high number }
{
    low <= number && number <= high
}

// 1: T and S in range?
pub(crate) fn in_range(threads: usize, sections: usize) -> bool
    ensures { result ≡ in_range threads sections }
{
    between(1, 16, threads) && sections <= 16
}

// A base priority: 1 to 64.
fn is_priority(base: u8) -> bool
    ensures { result ≡ is_priority base }
{
    between(1, 64, base as usize)
}

// Every needs bit of one thread at S or above is zero.
fn needs_within(sections: usize, needs: u16) -> bool
    requires { sections ≤ 16 }
    ensures { result ≡ needs_within sections needs }
{
    let above = (needs as u32) >> (sections as u32);
    above == 0
}

// 3: Is every priority 1 to 64?
pub(crate) fn bases_pass(threads: usize, bases: [u8; 16]) -> bool
    requires { threads ≤ 16 }
    ensures { result ≡ all is_priority (in_use threads bases) }
{
    for t in 0..threads {
        if !is_priority(bases[t]) {
            return false;
        }
    }
    true
}

// 4: Is every needs bit at S or above zero?
pub(crate) fn needs_pass(threads: usize, sections: usize, needs: [u16; 16]) -> bool
    requires { (threads ≤ 16) × (sections ≤ 16) }
    ensures { result ≡ all (needs_within sections) (in_use threads needs) }
{
    for t in 0..threads {
        if !needs_within(sections, needs[t]) {
            return false;
        }
    }
    true
}

// Whether all sixteen entries are priorities, those past the last thread too: asked at once, without an early end.
fn all_priorities(bases: [u8; 16]) -> bool
    ensures { result ≡ all is_priority (in_use 16 bases) }
{
    bases
        .iter()
        .fold(true, |pass, base| pass & is_priority(*base))
}

// Whether all sixteen entries have no bit at S or above, in the same way.
fn all_within(sections: usize, needs: [u16; 16]) -> bool
    requires { sections ≤ 16 }
    ensures { result ≡ all (needs_within sections) (in_use 16 needs) }
{
    needs
        .iter()
        .fold(true, |pass, needs| pass & needs_within(sections, *needs))
}

// Whether a plan that came from outside passes; the counts are tested before an entry is read. Rules out passing all, and
// asking about entries past the last thread.
pub fn passes(plan: Plan) -> bool
    ensures { result ≡ valid_plan (view plan) }
{
    let threads = plan.threads;
    let sections = plan.sections;
    if !in_range(threads, sections) {
        return false;
    }
    let bases = plan.bases;
    if !all_priorities(bases) {
        if !bases_pass(threads, bases) {
            return false;
        }
    }
    let needs = plan.needs;
    if all_within(sections, needs) {
        return true;
    }
    needs_pass(threads, sections, needs)
}
