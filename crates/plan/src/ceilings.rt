// The ceilings of the sections.
ghost use Rattle.std.specs.Prelude.{◌≡◌, cond, map, ◌<◌, max, get_or};
ghost use Rattle.model.specs.Searches.{up_to};
ghost use Rattle.model.specs.Plan.{bit, ceiling};
ghost use Rattle.plan.specs.View.{view, Fits};

use crate::Plan;
use crate::lookup::needs_bit;

// The greatest base so far, with one more thread: its base counts if it needs the section.
fn raise(top: u8, base: u8, needs: u16, section: u8) -> u8
    requires { section < 16 }
    ensures { result ≡ cond (bit needs section) (max top base) top }
{
    if needs_bit(needs, section) {
        top.max(base)
    } else {
        top
    }
}

// The greatest bases so far for all sixteen sections, with one more thread.
fn raised(all: [u8; 16], base: u8, needs: u16) -> [u8; 16]
    ensures { result ≡ map (λ s. cond (bit needs s) (max (get_or all s 0) base) (get_or all s 0)) (up_to 16) }
{
    let mut next = all;
    for s in 0..16 {
        next[s] = raise(all[s], base, needs, s as u8);
    }
    next
}

// The ceilings of all sixteen sections, in their order, to be made once and passed beside a state: see model, Plan.ceiling. Rules out the least
// base, the greatest over all threads, and leaving out a section from S on.
pub fn ceilings(plan: Plan) -> [u8; 16]
    requires { Fits plan }
    ensures { result ≡ map (ceiling (view plan)) (up_to 16) }
{
    let threads = plan.threads;
    let bases = plan.bases;
    let needs = plan.needs;
    let mut all = [0u8; 16];
    for t in 0..threads {
        let next = raised(all, bases[t], needs[t]);
        all = next;
    }
    all
}
