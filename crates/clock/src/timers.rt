// The eight timers, and the arming of one.
ghost use Rattle.std.specs.Prelude.{◌≡◌, cond, ◌≤◌, ◌<◌, T, eqb, ltb, IfSome};
ghost use Rattle.std.proofs.Math.Option.{none};
ghost use Rattle.model.specs.Records.{timer_count, Period};
ghost use Rattle.model.specs.Rules.{stage};
ghost use Rattle.model.specs.Timers.{no_timers, is_complete, after_arm, after_start, timer_given, slot, is_armed, set_slot, set_arming, set_timer, start_given, lost, armed_at, expires_at, timer, again, move_on};
ghost use Rattle.model.specs.Formed.{last_tick, last_wake, arming_in_range};
ghost use Rattle.clock.specs.View.{view, slot_from};
ghost use Rattle.clock.specs.Clauses.{kind_place, Comes, soonest};

use crate::time::{LAST_WAKE, Tick, Wait};

// Timers 0 to 7.
pub const TIMERS: usize = 8;

// The expiry of a timer that is not armed, since no timer expires at tick number 0.
const UNARMED: Tick = Tick(0);

// How far an arming has come: 0 where none is in progress, 1 after Arm, 2 after Start; with the timer and the start that it was given. A start is
// a tick number of two bytes. C lends it, with whatever numbers: so the stage is a byte.
#[repr(C)]
#[derive(Clone, Copy)]
pub struct Arming {
    pub stage: u8,
    pub timer: u8,
    pub start: u16,
}

// The tick number of each timer's next expiry, 0 where it is not armed, since no timer expires at tick number 0; and its period, 0 for an alarm. A
// period is a wait of two bytes.
#[repr(C)]
#[derive(Clone, Copy)]
pub struct Timers {
    pub expiries: [Tick; TIMERS],
    pub periods: [u16; TIMERS],
    pub arming: Arming,
}

impl Timers {
    // None is armed, and no arming is in progress.
    pub fn none() -> Timers
        ensures { view result ≡ no_timers }
    {
        Timers {
            expiries: [UNARMED; TIMERS],
            periods: [0u16; TIMERS],
            arming: Arming {
                stage: 0,
                timer: 0,
                start: 0,
            },
        }
    }

    // 31: does a record of this kind stand where the arming has come to? The kind is a byte of a dump, which may name none.
    pub fn in_order(self, kind: u8) -> bool
        requires { T (arming_in_range (view self).arming) }
        ensures { result ≡ eqb (stage (view self).arming) (kind_place kind) }
    {
        let a = self.arming;
        match kind {
            9 => a.stage == 1,
            10 => a.stage == 2,
            _ => a.stage == 0,
        }
    }

    // Whether no arming is in progress.
    pub fn is_complete(self) -> bool
        ensures { result ≡ is_complete (view self).arming }
    {
        self.arming.stage == 0
    }

    // 32: is the timer armed?
    #[tactic(auto, using(crate::proofs::Slots::armed_entry))]
    pub fn is_armed(self, timer: u8) -> bool
        requires { timer < timer_count }
        ensures { result ≡ is_armed (slot (view self) timer) }
    {
        self.expiries[timer as usize] != UNARMED
    }

    // Arm: an arming has begun, of this timer. A call that is not admitted, here and below, leaves the timers as they are; it is told so, and not left
    // out, so that no copy of the timers depends on a test.
    pub fn begun(self, admitted: bool, timer: u8) -> Timers
        ensures { view result ≡ cond admitted (set_arming (after_arm timer) (view self)) (view self) }
    {
        let mut t = self;
        let mut a = self.arming;
        if admitted {
            a.stage = 1;
            a.timer = timer;
        }
        t.arming = a;
        t
    }

    // Start: it goes on with a start.
    pub fn started(self, admitted: bool, number: u16) -> Timers
        requires { Comes self 1 }
        ensures { view result ≡ cond admitted (set_arming (after_start (timer_given (view self).arming) number) (view self)) (view self) }
    {
        let mut t = self;
        let mut a = self.arming;
        if admitted {
            a.stage = 2;
            a.start = number;
        }
        t.arming = a;
        t
    }

    // Period: how many expiries are lost.
    pub fn lost(self, now: Tick, period: u16) -> u32
        requires { Comes self 2 × (now.0 ≤ last_tick) }
        ensures { result ≡ lost now.0 (start_given (view self).arming) period }
    {
        let a = self.arming;
        now.lost(Tick(a.start as u32), Wait(period as u32))
    }

    // Period: the tick number of the first expiry to come, none for an alarm too late.
    fn first_expiry(self, now: Tick, period: u16) -> Option<Tick>
        requires { Comes self 2 × (now.0 ≤ last_tick) }
        ensures slot { slot_from result period ≡ armed_at now.0 (start_given (view self).arming) period }
        ensures later { IfSome result (λ e. now.0 < e.0) }
    {
        let start = Tick(self.arming.start as u32);
        if now < start || 0 < period {
            let count = self.lost(now, period);
            return Some(start.plus(Wait(count * (period as u32))));
        }
        None
    }

    // Period: the timer is armed, or an alarm too late leaves it unarmed.
    pub fn armed(self, admitted: bool, now: Tick, period: u16) -> Timers
        requires { Comes self 2 × (now.0 ≤ last_tick) }
        ensures { view result ≡ cond admitted (set_timer (Period period) now.0 (view self)) (view self) }
    {
        let mut t = self;
        let mut a = self.arming;
        let mut expiries = self.expiries;
        let mut periods = self.periods;
        if admitted {
            let i = a.timer as usize;
            expiries[i] = self.first_expiry(now, period).unwrap_or(UNARMED);
            periods[i] = period;
            a.stage = 0;
        }
        t.expiries = expiries;
        t.periods = periods;
        t.arming = a;
        t
    }

    // Cancel: the timer is unarmed.
    pub fn cancelled(self, admitted: bool, timer: u8) -> Timers
        requires { timer < timer_count }
        ensures { view result ≡ cond admitted (set_slot timer none (view self)) (view self) }
    {
        let mut t = self;
        let mut expiries = self.expiries;
        if admitted {
            expiries[timer as usize] = UNARMED;
        }
        t.expiries = expiries;
        t
    }

    // Whether a timer expires at this tick number.
    #[tactic(auto, using(crate::proofs::Slots::expiring_entry))]
    pub fn expires(self, timer: usize, number: Tick) -> bool
        requires { (timer < timer_count) × (0 < number.0) }
        ensures { result ≡ expires_at number.0 (slot (view self) timer) }
    {
        self.expiries[timer] == number
    }

    // Tick: those that expire at this tick number are unarmed, or expire again a period later.
    pub fn moved_on(self, number: Tick) -> Timers
        requires { (0 < number.0) × (number.0 ≤ last_tick) }
        ensures { view result ≡ move_on number.0 (view self) }
    {
        let mut t = self;
        let periods = self.periods;
        let mut expiries = self.expiries;
        for i in 0..TIMERS {
            if expiries[i] == number {
                expiries[i] = again(number, periods[i]).unwrap_or(UNARMED);
            }
        }
        t.expiries = expiries;
        t
    }

    // The least tick number at which a timer expires, LAST_WAKE where none expires before it.
    pub fn soonest(self) -> Tick
        ensures { result.0 ≡ soonest (view self).slots }
    {
        self.expiries
            .iter()
            .copied()
            .filter(|e| *e != UNARMED)
            .fold(LAST_WAKE, |first, e| first.min(e))
    }

    // Whether every timer that is armed expires after this tick number: asked of all eight at once, without an early end.
    pub fn all_after(self, number: Tick) -> bool
        requires { number.0 < last_wake }
        ensures { result ≡ ltb number.0 (soonest (view self).slots) }
    {
        self.expiries
            .iter()
            .copied()
            .fold(true, |pass, e| pass & (e == UNARMED || number < e))
    }
}

// The next expiry of a timer that expires now, none for an alarm.
fn again(now: Tick, period: u16) -> Option<Tick>
    requires { (0 < now.0) × (now.0 ≤ last_tick) }
    ensures slot { slot_from result period ≡ again (timer now.0 period) }
    ensures later { IfSome result (λ e. now.0 < e.0) }
{
    if period == 0 {
        return None;
    }
    Some(now.plus(Wait(period as u32)))
}
