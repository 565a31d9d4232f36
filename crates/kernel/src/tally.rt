// A first run over the calls: whether the machine admits each, and how many records calls and reports make.
ghost use Rattle.std.specs.Prelude.{◌≡◌, T};
ghost use Rattle.model.specs.Formed.{formed};
ghost use Rattle.machine.specs.View.{plan_of, view};
ghost use Rattle.kernel.specs.Clauses.{Passed, Settles, made_of, tally_of};

use dump::layout::first_operand;
use machine::state::State;
use plan::Plan;
use walk::single::step;

// Every report due is given: see model, Bench.deliver_all. No `for`: there is no list to go over, since what is given changes the state.
pub(crate) fn settled(state: State) -> State
    requires { T (formed (plan_of state.machine) (view state)) }
    ensures { Settles result state }
{
    let mut s = state;
    while 0 < s.due_count() {
        let r = s.first_due();
        s = s.delivered(r);
    }
    s
}

// How many records the n calls of a list make, each made with earlier reports already given: see model, Bench.bench. None where a call is not admitted,
// and where the list ends inside an arming.
pub(crate) fn tally(plan: Plan, ceilings: &[u8; 16], list: &[u8], n: usize) -> Option<usize>
    requires { Passed plan ceilings.now list.now n }
    ensures { result ≡ tally_of (made_of plan list.now) }
{
    let mut s = State::fresh(plan);
    let mut records: usize = 0;
    // Document 02's running place, moved on by two for each record.
    let mut running = first_operand(n);
    for k in 0..n {
        let o = step(s, ceilings, list, k, running);
        let moved = o.state;
        if o.rule.is_err() {
            return None;
        }
        records = records + 1 + moved.due_count();
        s = settled(moved);
        running += 2;
    }
    if s.is_complete() { Some(records) } else { None }
}
