// What both programs read and print: standard input into a buffer, and lines of text.
#![tactic(auto)]

pub mod failure; // failure.rt: what neither program goes on without
pub mod input; // input.rt: the input as far as a buffer holds it
pub mod output; // output.rt: a piece as a whole
pub mod text; // text.rt: a word and its numbers as a line
