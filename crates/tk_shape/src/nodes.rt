//! Nodes by their names.

ghost use Rattle.std.specs.Prelude.{◌≡◌, OnOk, OnErr};
ghost use Rattle.std.specs.Option.{option_copied};
ghost use Rattle.std.specs.FinMap as map;

use crate::NodeRecord;
use indexmap::IndexMap;
use std::alloc::{AllocError, Global};
use std::marker::Model;

/// The nodes of a picture by their names. A name that is given again stands for its last node.
#[derive(Drop)]
pub struct Nodes {
    records: IndexMap<String, NodeRecord>,
}

impl Model for Nodes {
    ghost use Rattle.std.specs.Coded.{codes};
    ghost use Rattle.std.specs.FinMap as map;
    ghost use Rattle.tk_shape.specs.Nodes.{NamedNodes, by_bytes};

    ghost Value = { NamedNodes };

    ghost coded = { Prim.hlevel (codes, map.code) };

    ghost view = { λ nodes. map.from_entries (by_bytes nodes.records.entries) };
}

impl Nodes {
    /// No names. This takes no memory.
    pub fn new(alloc: Global) -> Nodes
        ensures { result ≡ map.empty }
    {
        Nodes {
            records: IndexMap::new(alloc),
        }
    }

    /// The last node that was given that name, if any was. This takes no memory.
    pub fn get(&self, name: &str) -> Option<&NodeRecord>
        ensures { option_copied result ≡ map.get self.now name.now }
    {
        self.records.get(name)
    }

    /// Gives a node a name, which then no longer stands for the node that it stood for before. On want of memory all stays
    /// as it was.
    pub fn put(&mut self, name: &str, node: NodeRecord) -> Result<(), AllocError>
        ensures ok { OnOk result (self.new ≡ map.insert self.old name.now node) }
        ensures err { OnErr result (self.new ≡ self.old) }
    {
        let name = String::from_str(*self.records.allocator(), name)?;
        self.records.insert(name, node)?;
        Ok(())
    }
}
