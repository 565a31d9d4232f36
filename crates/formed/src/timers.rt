// The timers of a lent state.
ghost use Rattle.std.specs.Prelude.{◌≡◌, leb, map};
ghost use Rattle.model.specs.Searches.{all, up_to};
ghost use Rattle.model.specs.Formed.{last_expiry, arming_in_range, timers_in_range};
ghost use Rattle.clock.specs.View.{number_at, arming_of, view};

use crate::ticks::none_later;
use clock::time::{LAST_EXPIRY, Tick};
use clock::timers::{Arming, TIMERS, Timers};

// Whether an arming that is in progress has come to a stage that there is, and is of one of the eight timers. The stage
// stays a number: a lent byte, which may be any.
fn arming_in_range(arming: Arming) -> bool
    ensures { result ≡ arming_in_range (arming_of arming) }
{
    match arming.stage {
        0 => true,
        1 | 2 => (arming.timer as usize) < TIMERS,
        _ => false,
    }
}

// Whether no expiry is above the greatest. A timer that is not armed has 0 there.
fn expiries_in_range(expiries: [Tick; TIMERS]) -> bool
    ensures { result ≡ all (λ n. leb n last_expiry) (map (number_at expiries) (up_to 8)) }
{
    none_later(expiries, LAST_EXPIRY)
}

// Whether the arming and every expiry is in range.
pub(crate) fn in_range(timers: Timers) -> bool
    ensures { result ≡ timers_in_range (view timers) }
{
    let arming = timers.arming;
    let expiries = timers.expiries;
    arming_in_range(arming) && expiries_in_range(expiries)
}
