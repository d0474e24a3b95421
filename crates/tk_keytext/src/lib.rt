//! Key lists as texts: their parts, the full paths of keys, and what handlers make of entries.
#![tactic(auto)]

mod entries;
mod handlers;
mod laws;
mod lists;
mod paths;

pub use entries::{edit_entry, no_entry};
pub use handlers::handler_of;
pub use laws::{parts_are_never_stuck, parts_are_their_step};
pub use lists::{Part, Parts, split_list};
pub use paths::{full_path, last_part, name_in, parent_of, path_below};

/// What a key whose last part has a name of its own does with the key before it.
#[derive(Clone, Copy, PartialEq, Eq)]
pub enum Handler {
    /// `.cd`
    Cd,
    /// `.code`
    Code,
    /// `.code 2 args`
    CodeTwo,
    /// `.style`
    Style,
    /// `.style 2 args`
    StyleTwo,
    /// `.append style`
    AppendStyle,
    /// `.prefix style`
    PrefixStyle,
    /// `.default`
    Default,
    /// `.value required`
    ValueRequired,
    /// `.value forbidden`
    ValueForbidden,
    /// `.initial`
    Initial,
    /// `.is choice`
    IsChoice,
    /// `.store in`
    StoreIn,
    /// `.try`
    Try,
}
