// The watch as a library (document 01's watch; the program of that name stands above it).
#![tactic(auto)]

pub mod check; // check.rt: the whole check of a plan and a dump
