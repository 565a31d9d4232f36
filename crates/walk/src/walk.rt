// The one loop over records: the whole check walks over all of a dump, the bench kernel over one call of its list after another, a live step
// over one record.
ghost use Rattle.std.specs.Prelude.{◌≡◌};
ghost use Rattle.dump.specs.Layout.{record_count, running_place};
ghost use Rattle.machine.specs.Rules.{rule_numbered};
ghost use Rattle.walk.specs.Clauses.{Walks, WalkEnds, answer_of};

use dump::place::entry_at;
use dump::records::record_of;
use machine::record::Record;
use machine::rules::Rule;
use machine::state::State;

// Where a walk ended: the state, the number of the record behind those that moved it, and the rule that this one breaks, if any.
#[derive(Clone, Copy)]
pub struct Walked {
    pub state: State,
    pub at: usize,
    pub rule: Result<(), Rule>,
}

// Walks from one record to another until one breaks a rule: see model, Runs.run. `place` is the running place of the first one. The match over
// the record stands in the loop, so that each call's method has one caller and no record costs a copy of the machine.
// A walk from behind `to` ends where it begins.
pub fn walk(
    s: State,
    ceilings: &[u8; 16],
    bytes: &[u8],
    from: usize,
    place: usize,
    to: usize,
) -> Walked
    requires { Walks s ceilings.now bytes.now from to × (place ≡ running_place (record_count bytes.now) from) }
    ensures { WalkEnds result s bytes.now from to }
{
    let mut c = s.opened();
    let mut running = place;
    for i in from..to {
        let e = entry_at(bytes, i, running);
        if c.hears(e.kind) {
            c = c.heard(e.kind, e.operand);
        } else if e.kind == 7 && c.is_quiet() {
            c = c.passed();
        } else {
            match record_of(e) {
                Record::Create(t) => c = c.create(t),
                Record::Delay(w) => c = c.delay(w),
                Record::Relinquish => c = c.relinquish(),
                Record::End => c = c.end(),
                Record::Take(n) => c = c.take(ceilings, n),
                Record::Give(n) => c = c.give(ceilings, n),
                Record::Tick => c = c.tick(),
                Record::Arm(t) => c = c.arm(t),
                Record::Start(n) => c = c.start(n),
                Record::Period(n) => c = c.period(n),
                Record::Cancel(t) => c = c.cancel(t),
                Record::Report(_) => c = c.unasked(),
            }
        }
        if c.rule != 0 {
            return Walked {
                state: c.closed(),
                at: i,
                rule: answer(c.rule),
            };
        }
        running += 2;
    }
    Walked {
        state: c.closed(),
        at: to.max(from),
        rule: Ok(()),
    }
}

// What a record is answered, by the number that a machine carries of the rule that it breaks.
fn answer(number: u8) -> Result<(), Rule>
    ensures { result ≡ answer_of (rule_numbered number) }
{
    match Rule::numbered(number) {
        Some(rule) => Err(rule),
        None => Ok(()),
    }
}
