// The records at their places in the output.
ghost use Rattle.std.specs.Prelude.{◌≡◌, ◌+◌, ◌<◌, length};
ghost use Rattle.kernel.specs.Answers.{records_of, at_front};
ghost use Rattle.kernel.specs.Clauses.{Passed, made_of, record_put, ReportsFit, Places, AllFit};

use dump::layout::first_operand;
use dump::place::entry_at;
use machine::state::State;
use plan::Plan;
use walk::single::step;

// A state, how many records are written, and the running place behind them.
#[derive(Clone, Copy)]
pub struct Placed {
    pub state: State,
    pub records: usize,
    pub running: usize,
}

// Record i goes to its two places, the operand to the running place.
fn put(out: &mut [u8], i: usize, running: usize, kind: u8, operand: u16)
    requires { (2 + i < length out.old) × (running + 1 < length out.old) }
    ensures { out.new ≡ record_put i running kind operand out.old }
{
    let [low, high] = operand.to_le_bytes();
    out[2 + i] = kind;
    out[running] = low;
    out[running + 1] = high;
}

// The reports due, each given as it is written, so that there is no list of them to go over.
fn put_reports(state: State, out: &mut [u8], i: usize, running: usize) -> Placed
    requires { ReportsFit state i running out.old }
    ensures { Places result state i running out.old out.new }
{
    let mut s = state;
    let mut at: usize = i;
    let mut to: usize = running;
    while 0 < s.due_count() {
        let r = s.first_due();
        put(out, at, to, r.kind, r.operand);
        s = s.delivered(r);
        at += 1;
        to += 2;
    }
    Placed {
        state: s,
        records: at,
        running: to,
    }
}

// The dump of calls that are all admitted, n records in all. One running place goes over the list, one over the output.
pub(crate) fn write(
    plan: Plan,
    ceilings: &[u8; 16],
    list: &[u8],
    calls: usize,
    out: &mut [u8],
    n: usize,
)
    requires { Passed plan ceilings.now list.now calls × AllFit (made_of plan list.now) n out.old }
    ensures { out.new ≡ at_front (records_of (made_of plan list.now)) out.old }
{
    let [low, high] = (n as u16).to_le_bytes();
    out[0] = low;
    out[1] = high;
    let mut s = State::fresh(plan);
    let mut from: usize = first_operand(calls);
    let mut i: usize = 0;
    let mut to: usize = first_operand(n);
    for k in 0..calls {
        let e = entry_at(list, k, from);
        let o = step(s, ceilings, list, k, from);
        put(out, i, to, e.kind, e.operand);
        let moved = o.state;
        let w = put_reports(moved, out, i + 1, to + 2);
        s = w.state;
        from += 2;
        i = w.records;
        to = w.running;
    }
}
