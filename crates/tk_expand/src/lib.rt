//! Expansion of macro calls, the units that it costs, and the reading of what stands next.
#![tactic(auto)]

mod ahead;
mod expansion;
mod input;
mod laws;
mod reading;
mod rest;
mod units;

pub use ahead::is_there;
pub use expansion::{expand_all, is_expanded, paid_text};
pub use input::Input;
pub use laws::{
    a_front_is_its_step, a_front_is_never_stuck, a_full_expansion_is_its_step,
    a_full_expansion_is_never_stuck, a_list_without_calls_is_its_own_expansion,
    a_solid_token_is_its_step, a_solid_token_is_never_stuck, an_expansion_stands_within_the_source,
    no_call_is_in_front, no_call_is_left,
};
pub use units::Units;
