// A walk over one record: what the live step and the bench kernel take.
ghost use Rattle.std.specs.Prelude.{◌≡◌};
ghost use Rattle.dump.specs.Layout.{record_count, record_at, running_place};
ghost use Rattle.walk.specs.Clauses.{Single, Advances};

use crate::walk::walk;
use machine::rules::Rule;
use machine::state::State;

// The state after a record, and the rule that it breaks, if any.
#[derive(Clone, Copy)]
pub struct Stepped {
    pub state: State,
    pub rule: Result<(), Rule>,
}

// What record i of a dump or call list, with its running place, does to the state, or the rule that it breaks: see model, Runs.step.
pub fn step(state: State, ceilings: &[u8; 16], bytes: &[u8], i: usize, running: usize) -> Stepped
    requires { Single state ceilings.now bytes.now i × (running ≡ running_place (record_count bytes.now) i) }
    ensures { Advances result.state result.rule state (record_at bytes.now i) }
{
    let w = walk(state, ceilings, bytes, i, running, i + 1);
    let after = w.state;
    Stepped {
        state: after,
        rule: w.rule,
    }
}
