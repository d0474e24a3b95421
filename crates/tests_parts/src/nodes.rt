//! Anchors and borders of nodes, and nodes by their names.

use Asked::{At, AtDegrees, Degrees, Local, Toward};
use std::test::Fail;
use tk_affine::{AffFault, Matrix};
use tk_item::Point;
use tk_num::Scaled;
use tk_shape::{Anchor, NodeRecord, Nodes, Shape, anchor_point, at_angle, local_anchor, toward};

/// The greatest number.
const MOST: i64 = 1_073_741_823;

/// One whole, in 65536ths.
const ONE: i64 = 65_536;

/// The centre at (100,200), and the node's own axes as they are.
const PLAIN: [i64; 6] = [ONE, 0, 0, ONE, 100, 200];

/// The same, turned by 90 degrees: (x,y) is seen from the centre at (-y,x).
const TURNED: [i64; 6] = [0, ONE, -ONE, 0, 100, 200];

/// The same, mirrored: (x,y) is seen at (-x,y).
const MIRRORED: [i64; 6] = [-ONE, 0, 0, ONE, 100, 200];

/// The same, twice as wide and three times as high.
const STRETCHED: [i64; 6] = [2 * ONE, 0, 0, 3 * ONE, 100, 200];

/// The same, pressed onto a level line: (x,y) is seen at (x,0).
const FLAT: [i64; 6] = [ONE, 0, 0, 0, 100, 200];

/// The centre at (0,0).
const UNMOVED: [i64; 6] = [ONE, 0, 0, ONE, 0, 0];

/// The centre as far to the right as can be.
const FAR: [i64; 6] = [ONE, 0, 0, ONE, MOST, 0];

/// The halves of a rectangle, 40 and 20, and the height of its base line.
const WIDE: [i64; 3] = [40, 20, -7];

/// The halves of a circle, and the height of its base line.
const ROUND: [i64; 3] = [50, 50, 3];

/// What is asked of a node.
#[derive(Clone, Copy)]
enum Asked {
    /// Where an anchor lies in the picture.
    At(Anchor),
    /// Where an anchor lies along the node's own axes.
    Local(Anchor),
    /// Where the anchor of so many degrees lies in the picture.
    AtDegrees(i16),
    /// The point of the border at so many degrees.
    Degrees(i16),
    /// The point of the border toward a point.
    Toward(i64, i64),
}

/// The two coordinates of a point, or the fault.
type Found = Result<[i64; 2], AffFault>;

/// A node: its shape, its matrix, and its halves with the height of its base line.
type Given = (Shape, [i64; 6], [i64; 3]);

const BOX: Given = (Shape::Rectangle, PLAIN, WIDE);

const FAR_BOX: Given = (Shape::Rectangle, FAR, WIDE);

const TURNED_BOX: Given = (Shape::Rectangle, TURNED, WIDE);

const MIRRORED_BOX: Given = (Shape::Rectangle, MIRRORED, WIDE);

const STRETCHED_BOX: Given = (Shape::Rectangle, STRETCHED, WIDE);

const FLAT_BOX: Given = (Shape::Rectangle, FLAT, WIDE);

const NARROW_BOX: Given = (Shape::Rectangle, PLAIN, [-40, 20, 0]);

const SMALL_BOX: Given = (Shape::Rectangle, PLAIN, [-40, -20, 0]);

const LOW_BOX: Given = (Shape::Rectangle, PLAIN, [40, -20, 0]);

const LEAST_BOX: Given = (Shape::Rectangle, UNMOVED, [-MOST, 0, 0]);

const GREATEST_BOX: Given = (Shape::Rectangle, UNMOVED, [MOST, MOST, 0]);

const BALL: Given = (Shape::Circle, PLAIN, ROUND);

const STRETCHED_BALL: Given = (Shape::Circle, STRETCHED, ROUND);

const FLAT_BALL: Given = (Shape::Circle, FLAT, ROUND);

const PLACE: Given = (Shape::Coordinate, PLAIN, WIDE);

const FLAT_PLACE: Given = (Shape::Coordinate, FLAT, WIDE);

/// Nodes, what is asked of them, and what is found.
const ROWS: [(Given, Asked, Found); 71] = [
    (BOX, At(Anchor::Center), Ok([100, 200])),
    (BOX, At(Anchor::North), Ok([100, 220])),
    (BOX, At(Anchor::South), Ok([100, 180])),
    (BOX, At(Anchor::East), Ok([140, 200])),
    (BOX, At(Anchor::West), Ok([60, 200])),
    (BOX, At(Anchor::NorthEast), Ok([140, 220])),
    (BOX, At(Anchor::NorthWest), Ok([60, 220])),
    (BOX, At(Anchor::SouthEast), Ok([140, 180])),
    (BOX, At(Anchor::SouthWest), Ok([60, 180])),
    (BOX, At(Anchor::Base), Ok([100, 193])),
    (BOX, Local(Anchor::SouthWest), Ok([-40, -20])),
    (FAR_BOX, Local(Anchor::East), Ok([40, 0])),
    // 1073741823 and 40 are too much.
    (FAR_BOX, At(Anchor::East), Err(AffFault::TooLarge)),
    (FAR_BOX, Degrees(0), Err(AffFault::TooLarge)),
    // The direction of 0 degrees is (65536,0), that of 20 degrees (61584,22415): 40*22415/61584 is 14.6.
    (BOX, Degrees(0), Ok([140, 200])),
    (BOX, Degrees(20), Ok([140, 214])),
    // 46341 both ways: the upper side is nearer.
    (BOX, Degrees(45), Ok([120, 220])),
    (BOX, Degrees(90), Ok([100, 220])),
    (BOX, Degrees(180), Ok([60, 200])),
    (BOX, Degrees(225), Ok([80, 180])),
    (BOX, Degrees(270), Ok([100, 180])),
    (BOX, Degrees(450), Ok([100, 220])),
    // (56756,-32768): 20*56756/32768 is 34.6.
    (BOX, Degrees(-30), Ok([134, 180])),
    (BOX, AtDegrees(180), Ok([60, 200])),
    (BALL, AtDegrees(180), Ok([50, 200])),
    (PLACE, AtDegrees(180), Ok([100, 200])),
    // (80,40) leads to the corner, and (80,41) past it: 20*80/41 is 39.02.
    (BOX, Toward(180, 240), Ok([140, 220])),
    (BOX, Toward(180, 241), Ok([139, 220])),
    // (-80,30): 40*30/80 is 15.
    (BOX, Toward(20, 230), Ok([60, 215])),
    // (-7,-100): 20*7/100 is 1.4, and -1.4 is cut to -1.
    (BOX, Toward(93, 100), Ok([99, 180])),
    // A point within the border counts for its direction alone.
    (BOX, Toward(101, 200), Ok([140, 200])),
    (BOX, Toward(100, 199), Ok([100, 180])),
    (BOX, Toward(100, 200), Ok([100, 200])),
    (TURNED_BOX, At(Anchor::North), Ok([80, 200])),
    (TURNED_BOX, At(Anchor::NorthEast), Ok([80, 240])),
    (TURNED_BOX, At(Anchor::Base), Ok([107, 200])),
    // Degrees are counted from the node's own first axis, and points are the picture's.
    (TURNED_BOX, Degrees(0), Ok([100, 240])),
    (TURNED_BOX, Toward(100, 300), Ok([100, 240])),
    (TURNED_BOX, Toward(0, 200), Ok([80, 200])),
    (MIRRORED_BOX, At(Anchor::East), Ok([60, 200])),
    // (80,30) is (-80,30) along the axes, which leads to (-40,15).
    (MIRRORED_BOX, Toward(180, 230), Ok([140, 215])),
    (STRETCHED_BOX, At(Anchor::SouthEast), Ok([180, 140])),
    // (80,30) is in the direction of (3*80,2*30) along the axes: 40*60/240 is 10, and (40,10) is seen at (80,30).
    (STRETCHED_BOX, Toward(180, 230), Ok([180, 230])),
    (FLAT_BOX, At(Anchor::NorthEast), Ok([140, 200])),
    (FLAT_BOX, Degrees(0), Ok([140, 200])),
    (FLAT_BOX, Toward(180, 200), Err(AffFault::Singular)),
    (FLAT_BOX, Toward(100, 200), Err(AffFault::Singular)),
    // With a half below 0 the right side lies on the left.
    (NARROW_BOX, At(Anchor::East), Ok([60, 200])),
    // (80,30): -40*30/80 is -15.
    (NARROW_BOX, Toward(180, 230), Ok([60, 185])),
    // Both halves below 0: with no height the ray leads to the left side all the same.
    (SMALL_BOX, Toward(180, 200), Ok([60, 200])),
    (LOW_BOX, Toward(180, 200), Ok([140, 200])),
    // (1,1000): -1073741823*1000 is no number.
    (LEAST_BOX, Toward(1, 1000), Err(AffFault::TooLarge)),
    (GREATEST_BOX, Toward(MOST, -MOST), Ok([MOST, -MOST])),
    (BALL, At(Anchor::Center), Ok([100, 200])),
    (BALL, At(Anchor::North), Ok([100, 250])),
    (BALL, At(Anchor::West), Ok([50, 200])),
    // 50*46341/65536 is 35.4.
    (BALL, At(Anchor::NorthEast), Ok([135, 235])),
    (BALL, At(Anchor::SouthWest), Ok([65, 165])),
    (BALL, At(Anchor::Base), Ok([100, 203])),
    // (-32768,56756), with the length 65536: 50*56756/65536 is 43.3.
    (BALL, Degrees(120), Ok([75, 243])),
    // (-3,4), with the length 5.
    (BALL, Toward(97, 204), Ok([70, 240])),
    (BALL, Toward(100, 200), Ok([100, 200])),
    // (2,-3) is in the direction of (3*2,2*-3) along the axes, which leads to (35,-35).
    (STRETCHED_BALL, Toward(102, 197), Ok([170, 95])),
    (FLAT_BALL, Toward(180, 200), Err(AffFault::Singular)),
    (PLACE, At(Anchor::Center), Ok([100, 200])),
    (PLACE, At(Anchor::NorthEast), Ok([100, 200])),
    (PLACE, At(Anchor::Base), Ok([100, 200])),
    (PLACE, Local(Anchor::East), Ok([0, 0])),
    (PLACE, Degrees(45), Ok([100, 200])),
    (PLACE, Toward(180, 240), Ok([100, 200])),
    // Its axes aren't asked for.
    (FLAT_PLACE, Toward(180, 240), Ok([100, 200])),
];

/// So many 65536ths.
fn scaled(sp: i64) -> Scaled {
    Scaled::new(sp).unwrap_or_default()
}

/// So many degrees, in 65536ths.
fn angle(degrees: i16) -> Scaled {
    scaled(i64::from(degrees) * ONE)
}

fn node(given: Given) -> NodeRecord {
    let (shape, matrix, sizes) = given;
    let [a, b, c, d, tx, ty] = matrix;
    let [half_width, half_height, base] = sizes;
    NodeRecord {
        shape,
        matrix: Matrix {
            a: scaled(a),
            b: scaled(b),
            c: scaled(c),
            d: scaled(d),
            tx: scaled(tx),
            ty: scaled(ty),
        },
        half_width: scaled(half_width),
        half_height: scaled(half_height),
        base: scaled(base),
    }
}

fn found(node: &NodeRecord, asked: Asked) -> Found {
    let point = match asked {
        Asked::At(anchor) => anchor_point(node, anchor)?,
        Asked::Local(anchor) => local_anchor(node, anchor)?,
        Asked::AtDegrees(degrees) => anchor_point(node, Anchor::Angle(angle(degrees)))?,
        Asked::Degrees(degrees) => at_angle(node, angle(degrees))?,
        Asked::Toward(x, y) => {
            let there = Point {
                x: scaled(x),
                y: scaled(y),
            };
            toward(node, there)?
        }
    };
    Ok([point.x.sp(), point.y.sp()])
}

#[test]
fn anchors_and_border_points(rt: HostRuntime) -> Result<(), Fail> {
    for (i, (given, asked, expected)) in ROWS.iter().enumerate() {
        assert!(rt; found(&node(*given), *asked) == *expected, "row {i}");
    }
    Ok(())
}

/// The height of the base line of the node with that name, by which nodes are told apart here.
fn base_of(nodes: &Nodes, name: &str) -> Option<i64> {
    match nodes.get(name) {
        Some(node) => Some(node.base.sp()),
        None => None,
    }
}

#[test]
fn a_name_stands_for_its_last_node(rt: HostRuntime) -> Result<(), Fail> {
    let mut nodes = Nodes::new(rt.alloc());
    assert!(rt; base_of(&nodes, "A").is_none());
    for (name, base) in &[("A", 1), ("a", 2), ("A b", 3), ("", 4), ("A", 5), ("a", 6)] {
        nodes.put(name, node((Shape::Circle, PLAIN, [50, 50, *base])))?;
    }
    for (name, expected) in &[("A", 5), ("a", 6), ("A b", 3), ("", 4)] {
        assert!(rt; base_of(&nodes, name) == Some(*expected));
    }
    assert!(rt; base_of(&nodes, "A ").is_none());
    assert!(rt; base_of(&nodes, "b").is_none());
    Ok(())
}
