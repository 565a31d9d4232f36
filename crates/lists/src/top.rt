// The owner with its ceiling, kept beside the holds.
ghost use Rattle.std.specs.Prelude.{◌≡◌, ◌<◌};
ghost use Rattle.keeping.specs.Top.{gained};
ghost use Rattle.lists.specs.Lists.{top_of};

// The thread holding the section of greatest ceiling, on a tie the one taken later, and that ceiling; 255 and 0 when nothing is held: it
// stands in a struct that C lends, so its fields are plain numbers.
#[repr(C)]
#[derive(Clone, Copy)]
pub struct Top {
    pub owner: u8,
    pub ceiling: u8,
}

impl Top {
    // With one more hold of a section of this ceiling: see keeping, Top.gained. Rules out a tie to the earlier taken.
    pub fn gained(self, ceiling: u8, thread: u8) -> Top
        requires { thread < 255 }
        ensures { top_of result ≡ gained ceiling thread (top_of self) }
    {
        if ceiling < self.ceiling {
            self
        } else {
            Top {
                owner: thread,
                ceiling,
            }
        }
    }
}
