// Base priority and needs of a thread. Each takes the parts of a plan that it reads.
ghost use Rattle.std.specs.Prelude.{◌≡◌, ◌≤◌, ◌<◌};
ghost use Rattle.model.specs.Plan.{bit};
ghost use Rattle.plan.specs.View.{base_in, may_take_in};

// The base priority of a thread, 0 where there is no such thread: see model, Plan.base.
pub fn base(threads: usize, bases: [u8; 16], thread: u8) -> u8
    requires { threads ≤ 16 }
    ensures { result ≡ base_in threads bases thread }
{
    let t = thread as usize;
    if t < threads { bases[t] } else { 0 }
}

// Whether a bit of a thread's needs is set: see model, Plan.bit.
pub fn needs_bit(needs: u16, section: u8) -> bool
    requires { section < 16 }
    ensures { result ≡ bit needs section }
{
    let from = needs >> section;
    from % 2 == 1
}

// Whether a thread may take a section: see model, Plan.may_take.
pub fn may_take(threads: usize, needs: [u16; 16], thread: u8, section: u8) -> bool
    requires { (threads ≤ 16) × (section < 16) }
    ensures { result ≡ may_take_in threads needs thread section }
{
    let t = thread as usize;
    if t < threads {
        needs_bit(needs[t], section)
    } else {
        false
    }
}
