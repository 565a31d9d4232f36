// The live step on a watch state that is lent, behind a reference.
ghost use Rattle.live.specs.Clauses.{Tells};

use crate::live::{Reply, Watch, live};

// Advances a lent watch state by one record, and answers of it. Rules out a step that does not store what it tells.
pub fn step(watch: &mut Watch, kind: u8, operand: u16) -> Reply
    ensures { Tells (record { watch = watch.exit.now; reply = result }) watch.entry.now kind operand }
{
    let told = live(*watch, kind, operand);
    *watch = told.watch;
    told.reply
}
