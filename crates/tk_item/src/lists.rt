//! Lists of the parts of a drawing.

ghost use Rattle.std.specs.Prelude.{◌≡◌, ◌++◌, ◌∷◌, [], OnOk, OnErr};
ghost use Rattle.std.specs.Char.{IsScalar};
ghost use Rattle.std.specs.List.{All};

use crate::{Item, Seg};
use std::alloc::{AllocError, Global};
use std::marker::Model;

/// The pieces of a path, in order.
#[derive(Drop)]
pub struct Segs {
    items: Vec<Seg>,
}

impl Model for Segs {
    ghost use Rattle.std.specs.Prelude.{List};
    ghost use Rattle.tk_item.specs.declared.Seg.{Seg};

    ghost Value = { List Seg };

    ghost view = { λ s. s.items.items };
}

impl Segs {
    /// No pieces. It takes no memory.
    pub fn new(alloc: Global) -> Self
        ensures { result ≡ [] }
    {
        Segs {
            items: Vec::new(alloc),
        }
    }

    /// Puts a piece at the end. On want of memory the list stays as it was.
    pub fn push(&mut self, piece: Seg) -> Result<(), AllocError>
        ensures ok { OnOk result (self.new ≡ self.old ++ piece ∷ []) }
        ensures err { OnErr result (self.new ≡ self.old) }
    {
        self.items.push(piece)?;
        Ok(())
    }

    /// The pieces, in order.
    pub fn as_slice(&self) -> &[Seg]
        ensures { result.now ≡ self.now }
    {
        self.items.as_slice()
    }
}

/// The characters of a text, in order.
#[derive(Drop)]
pub struct Text {
    items: Vec<char>,
}

impl Model for Text {
    ghost use Rattle.std.specs.Prelude.{List, ℕ};
    ghost use Rattle.std.specs.Char.{IsScalar};
    ghost use Rattle.std.specs.List.{All};

    ghost Value = { List ℕ };

    ghost view = { λ s. s.items.items };

    ghost invariant = { λ s. All IsScalar s.items.items };
}

impl Text {
    /// No characters. It takes no memory.
    pub fn new(alloc: Global) -> Self
        ensures { result ≡ [] }
    {
        Text {
            items: Vec::new(alloc),
        }
    }

    /// Puts a character at the end. On want of memory the list stays as it was.
    pub fn push(&mut self, character: char) -> Result<(), AllocError>
        ensures ok { OnOk result (self.new ≡ self.old ++ character ∷ []) }
        ensures err { OnErr result (self.new ≡ self.old) }
    {
        self.items.push(character)?;
        Ok(())
    }

    /// The characters, in order.
    pub fn as_slice(&self) -> &[char]
        ensures value { result.now ≡ self.now }
        ensures chars { All IsScalar self.now }
    {
        self.items.as_slice()
    }
}

/// The items of a drawing, in order.
#[derive(Drop)]
pub struct Items {
    items: Vec<Item>,
}

impl Model for Items {
    ghost use Rattle.std.specs.Prelude.{List};
    ghost use Rattle.tk_item.specs.declared.Item.{Item};

    ghost Value = { List Item };

    ghost view = { λ s. s.items.items };
}

impl Items {
    /// No items. It takes no memory.
    pub fn new(alloc: Global) -> Self
        ensures { result ≡ [] }
    {
        Items {
            items: Vec::new(alloc),
        }
    }

    /// Puts an item at the end. On want of memory the list stays as it was.
    pub fn push(&mut self, item: Item) -> Result<(), AllocError>
        ensures ok { OnOk result (self.new ≡ self.old ++ item ∷ []) }
        ensures err { OnErr result (self.new ≡ self.old) }
    {
        self.items.push(item)?;
        Ok(())
    }

    /// The items, in order.
    pub fn as_slice(&self) -> &[Item]
        ensures { result.now ≡ self.now }
    {
        self.items.as_slice()
    }
}
