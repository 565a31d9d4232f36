// A tick number and a number of ticks to wait are separate units; only number plus wait gives a number.
ghost use Rattle.std.specs.Prelude.{◌≡◌, ◌+◌, ◌≤◌, ◌<◌};
ghost use Rattle.model.specs.Formed.{last_tick, last_wake};
ghost use Rattle.model.specs.Timers.{lost};

// The greatest tick number, the greatest that a sleeper waits for, and the greatest at which a timer expires: see model, Formed.
pub const LAST_TICK: Tick = Tick(4000000000);

pub const LAST_WAKE: Tick = Tick(4000065536);

pub const LAST_EXPIRY: Tick = Tick(4000065535);

#[repr(C)]
#[derive(Clone, Copy, PartialEq, Eq, PartialOrd, Ord)]
pub struct Tick(pub u32);

#[derive(Clone, Copy, PartialEq, Eq, PartialOrd, Ord)]
pub struct Wait(pub u32);

impl Tick {
    // Number plus wait: the one addition. A method and no `+`, since what it asks of its caller is a clause here, and would be a rule of its own there.
    pub fn plus(self, wait: Wait) -> Tick
        requires { self.0 + wait.0 ≤ last_wake }
        ensures { result.0 ≡ self.0 + wait.0 }
    {
        Tick(self.0 + wait.0)
    }

    // The next tick number is a wait of one away.
    pub fn next(self) -> Tick
        requires { self.0 < last_wake }
        ensures { result.0 ≡ self.0 + 1 }
    {
        self.plus(Wait(1))
    }

    // How many expiries a timer has lost that is armed at this tick number: see model, Timers.lost.
    #[tactic(auto, unfolding(model::specs::Timers::lost))]
    pub fn lost(self, start: Tick, period: Wait) -> u32
        requires { self.0 ≤ last_tick }
        ensures { result ≡ lost self.0 start.0 period.0 }
    {
        if self < start {
            return 0;
        }
        if period == Wait(0) {
            return 1;
        }
        (self.0 - start.0) / period.0 + 1
    }
}
