// A record: what a thread or the clock called, or what the kernel did.
use clock::time::Wait;
use due::reports::Report;

// A call with its operand, or a report.
#[derive(Clone, Copy)]
pub enum Record {
    Create(u8),
    Delay(Wait),
    Relinquish,
    End,
    Take(u8),
    Give(u8),
    Tick,
    Arm(u8),
    Start(u16),
    Period(u16),
    Cancel(u8),
    Report(Report),
}
