// What a lent state keeps beside the machine's state. Asked in two parts: where nothing is held there is nothing to walk over.
ghost use Rattle.std.specs.Prelude.{◌≡◌, not, ◌&&◌, ◌||◌, T, eqb};
ghost use Rattle.model.specs.Formed.{formed_machine};
ghost use Rattle.machine.specs.View.{plan_of, idle};
ghost use Rattle.machine.specs.Kept.{kept};

use lists::holds::Holds;
use machine::Machine;
use plan::ceilings::ceilings;

// Whether, if nothing is held, the owner is 255 and the ceiling 0, as the lent struct says it.
pub(crate) fn empty_fits(holds: Holds) -> bool
    ensures { result ≡ (not (eqb holds.count 0) || (eqb holds.top.ceiling 0 && eqb holds.top.owner 255)) }
{
    let top = holds.top;
    holds.count != 0 || top.ceiling == 0 && top.owner == 255
}

// Whether the owner and the greatest held ceiling are those that a walk finds.
pub(crate) fn keeps(m: Machine) -> bool
    requires { T (formed_machine (plan_of m) (idle m)) }
    ensures { result ≡ kept m }
{
    let holds = m.holds;
    let top = holds.top;
    let p = m.plan;
    let all = ceilings(p);
    let found = holds.walk(&all);
    top.owner == found.owner && top.ceiling == found.ceiling
}
