//! The names of nodes.

ghost use Rattle.std.specs.Prelude.{◌≡◌, string_bytes, IfOk};

use std::alloc::{AllocError, Global};
use std::marker::Model;

/// The name of a node.
#[derive(Drop)]
pub struct NodeName {
    text: String,
}

impl Model for NodeName {
    ghost use Rattle.std.specs.Prelude.{List, ℕ, string_bytes};

    ghost Value = { List ℕ };

    ghost view = { λ name. string_bytes name.text };
}

impl NodeName {
    /// That name. It fails only where memory runs out.
    pub fn new(alloc: Global, name: &str) -> Result<NodeName, AllocError>
        ensures { IfOk result (λ made. made ≡ name.now) }
    {
        Ok(NodeName {
            text: String::from_str(alloc, name)?,
        })
    }

    /// Its text. This takes no memory.
    pub fn as_str(&self) -> &str
        ensures { result.now ≡ self.now }
    {
        self.text.as_str()
    }
}
