//! The words that keys take as values.

ghost use Rattle.std.specs.Prelude.{◌≡◌};
ghost use Rattle.tk_characters.specs.Words.{word_meaning};
ghost use Rattle.tk_look.specs.Words.{caps, joins, shapes, anchors};

use tk_affine::{Anchor, Shape};
use tk_item::{Cap, Join};

/// The end of open lines with that name.
pub(crate) fn cap_named(word: &str) -> Option<Cap>
    ensures { result ≡ word_meaning caps word.now }
{
    match word {
        "butt" => Some(Cap::Butt),
        "round" => Some(Cap::Round),
        "rect" => Some(Cap::Square),
        _ => None,
    }
}

/// The corner of lines with that name.
pub(crate) fn join_named(word: &str) -> Option<Join>
    ensures { result ≡ word_meaning joins word.now }
{
    match word {
        "miter" => Some(Join::Miter),
        "round" => Some(Join::Round),
        "bevel" => Some(Join::Bevel),
        _ => None,
    }
}

/// The shape of nodes with that name.
pub(crate) fn shape_named(word: &str) -> Option<Shape>
    ensures { result ≡ word_meaning shapes word.now }
{
    match word {
        "rectangle" => Some(Shape::Rectangle),
        "circle" => Some(Shape::Circle),
        "coordinate" => Some(Shape::Coordinate),
        _ => None,
    }
}

/// The anchor of nodes with that name.
pub(crate) fn anchor_named(word: &str) -> Option<Anchor>
    ensures { result ≡ word_meaning anchors word.now }
{
    match word {
        "center" => Some(Anchor::Center),
        "north" => Some(Anchor::North),
        "south" => Some(Anchor::South),
        "east" => Some(Anchor::East),
        "west" => Some(Anchor::West),
        "north east" => Some(Anchor::NorthEast),
        "north west" => Some(Anchor::NorthWest),
        "south east" => Some(Anchor::SouthEast),
        "south west" => Some(Anchor::SouthWest),
        "base" => Some(Anchor::Base),
        _ => None,
    }
}
