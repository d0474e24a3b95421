//! Characters by their names: definitions, which all that speaks of bytes or characters shares.
#![tactic(auto)]
