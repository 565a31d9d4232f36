// Tick numbers, all of an array at once.
ghost use Rattle.std.specs.Prelude.{◌≡◌, leb, map};
ghost use Rattle.model.specs.Searches.{all, up_to};
ghost use Rattle.clock.specs.View.{number_at};

use clock::time::Tick;

// Whether none of these tick numbers is above the greatest: asked of all, without an early end, so that no branch follows from one of them.
pub(crate) fn none_later<const N: usize>(ticks: [Tick; N], greatest: Tick) -> bool
    ensures { result ≡ all (λ n. leb n greatest.0) (map (number_at ticks.entry) (up_to N)) }
{
    let mut pass = true;
    for t in 0..N {
        let tick = ticks[t];
        pass &= tick.0 <= greatest.0;
    }
    pass
}
