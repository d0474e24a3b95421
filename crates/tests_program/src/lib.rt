//! Tests of what neither a contract nor the built program's output says: that `run` finds memory, and how it ends over a
//! shelf and over sinks in memory whose calls are short or fail. What is wanted is worked out by hand.
#![tactic(auto)]

#[cfg(test)]
mod runs;
