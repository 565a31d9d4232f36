// What a call other than Tick makes due.
ghost use Rattle.std.specs.Prelude.{[], ◌∷◌, min};
ghost use Rattle.model.specs.Records.{Ready, Won, Late};
ghost use Rattle.due.specs.Lists.{kind_number, report_by, Tells};

use crate::reports::{Kind, NO_REPORT, Report};

// What a call other than Tick makes due before its Switch: the first `count` of two reports. No list: a call stores both, whatever they are, since a
// store that depends on a test copies the rest of the array (docs/notes/trials.md, 22).
#[derive(Clone, Copy)]
pub struct Made {
    pub first: Report,
    pub second: Report,
    pub count: usize,
}

impl Made {
    pub fn none() -> Made
        ensures { Tells result [] }
    {
        Made {
            first: NO_REPORT,
            second: NO_REPORT,
            count: 0,
        }
    }

    pub fn one(kind: Kind, who: u8) -> Made
        ensures { Tells result (report_by (kind_number kind) who ∷ []) }
    {
        Made {
            first: Report::of(kind, who),
            second: NO_REPORT,
            count: 1,
        }
    }

    // An heir has won, and is ready.
    pub fn won(heir: u8) -> Made
        ensures { Tells result (Won heir ∷ Ready heir ∷ []) }
    {
        Made {
            first: Report::of(Kind::Won, heir),
            second: Report::of(Kind::Ready, heir),
            count: 2,
        }
    }

    // A Late. A count above 65535 is written 65535.
    pub fn late(count: u32) -> Made
        ensures { Tells result (Late (min count 65535) ∷ []) }
    {
        let operand = u16::try_from(count).unwrap_or(u16::MAX);
        Made {
            first: Report {
                kind: Kind::Late as u8,
                spare: 0,
                operand,
            },
            second: NO_REPORT,
            count: 1,
        }
    }
}
