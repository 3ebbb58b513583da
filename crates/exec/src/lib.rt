// What a guest does by itself: the access check, one instruction, and the inner loop that executes instructions until a
// call, a halt, a fault or the end of the budget. The loop holds the current guest's registers, its rights as two maps of
// pages, and the memory; it never sees a machine.

#![tactic(auto)]

pub mod access;
pub mod burst;
pub mod instruction;
pub mod rights;
pub mod switch;
