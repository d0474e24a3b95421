//! Tests of what neither a contract nor the program's output says: what runs cost, with budgets of all sizes, and runs that
//! aren't a picture's. They succeed with ample memory, on values worked out by hand.
#![tactic(auto)]

#[cfg(test)]
mod pictures;
#[cfg(test)]
mod runs;
