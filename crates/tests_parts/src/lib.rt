//! Tests of what neither a contract nor the program's output says: shelves and sinks in memory, levels without a source,
//! and calls that the program doesn't make. They succeed with ample memory, on values worked out by hand.
#![tactic(auto)]

#[cfg(test)]
mod nodes;
#[cfg(test)]
mod pieces;
#[cfg(test)]
mod segments;
#[cfg(test)]
mod shelves;
#[cfg(test)]
mod store;
