//! What words and keys mean along a run, in levels, and the settings that change it.
#![tactic(auto)]

mod deeds;
mod dir;
mod initial;
mod keys;
mod laws;
mod painting;
mod runs;
mod setting;
mod settings;
mod state;

pub use dir::Dir;
pub use laws::{a_run_is_its_step, a_run_is_never_stuck};
pub use state::State;
