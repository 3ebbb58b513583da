// The calls of control and of messages, by value: Run, Yield, Poll, Wait and Send, one function each in a file of its own.
// Each takes a sound machine, and does what the model's effect of the same name says.

#![tactic(auto)]

mod copy;
pub mod poll;
pub mod run;
pub mod send;
pub mod wait;
pub mod yielding;
