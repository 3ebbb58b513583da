// The calls that send pages, by value: Donate, Lend and Share, one function over the kind, and the descriptor that it reads.
// It takes a sound machine, and does what the model's effect of the same name says.

#![tactic(auto)]

mod descriptor;
pub mod sending;
