// The reports that are due, first in, first out: what is given leaves the front, what a Tick adds joins the end. It knows nothing of the machine.
#![tactic(auto)]

pub mod reports; // reports.rt: reports, and a list of them
pub mod made; // made.rt: what a call other than Tick makes due
