// The calls on a handle, by value: Retrieve, Relinquish and Reclaim. One function makes them all, over one look-up; each has
// a file of its own, which says who may make it and which deed it does. The deeds know neither caller nor registers. Each
// call takes a sound machine, and does what the model's effect of the same name says.

#![tactic(auto)]

pub mod deeds;
mod handle_call;
mod lookup;
pub mod reclaim;
pub mod relinquish;
pub mod retrieve;
