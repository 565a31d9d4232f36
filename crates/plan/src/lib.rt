// The plan of a module: its bytes, questions 1 to 4, and what the machine asks of it.
#![tactic(auto)]

pub mod words; // words.rt: numbers of two bytes, low byte first
pub mod bytes; // bytes.rt: what refuses a plan's bytes, and the plan that they stand for
pub mod ceilings; // ceilings.rt: the ceilings of the sections
pub mod lookup; // lookup.rt: base priority and needs of a thread
pub mod questions; // questions.rt: questions 1, 3 and 4 of a plan's numbers
pub mod input; // input.rt: a plan in front of something else

// Plain numbers, so that a plan can stand in a state that is lent from outside.
#[repr(C)]
#[derive(Clone, Copy)]
pub struct Plan {
    pub threads: usize,
    pub sections: usize,
    pub bases: [u8; 16],
    pub needs: [u16; 16],
}
