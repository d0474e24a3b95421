//! What no clause says: that a picture is drawn with ample memory. Lines of pictures with a budget, and what they cost
//! and draw or are refused for, worked out by hand.

ghost use Rattle.std.specs.Prelude.{◌≡◌, ◌<◌, ◌≤◌, length};

use std::alloc::{AllocError, Global};
use std::marker::Brand;
use std::sync::ledger::{Blank, Ledger};
use std::test::Fail;
use tk_item::{Frame, Item, Seg};
use tk_picture::*;
use tk_store::Steps;
use tk_token::{Code, Fault, Refusal};

/// A line of a picture, the budget, and the units that it costs with the paths that it draws, or its fault with the
/// column, counted from 1. One centimetre is 1,864,679 scaled points.
const LINES: [(&str, u64, &str); 72] = [
    ("", 0, "0"),
    (r"\draw (0,0) -- (1,0);", 0, "0, M 0 0 L 1864679 0"),
    // A Move alone draws nothing.
    (r"\draw (5,5);", 0, "0"),
    (
        r"\draw (0,0)-- cycle ;\draw (0,1)--(1,0);",
        0,
        "0, M 0 0 Z, M 0 1864679 L 1864679 0",
    ),
    // A call costs one unit more than the tokens of its text, which are 16 here.
    (
        r"\newcommand{\seg}[2]{\draw (#1) -- (#2);}\seg{0,0}{1,0}",
        17,
        "17, M 0 0 L 1864679 0",
    ),
    (
        r"\newcommand{\seg}[2]{\draw (#1) -- (#2);}\seg{0,0}{1,0}",
        16,
        "Budget 42",
    ),
    (r"\def\x{}\x\x\x", 9, "3"),
    (r"\def\x{}\x\x\x", 2, "Budget 13"),
    // The costs are 6, 8, 12, 20, 36, then 68.
    (r"\def\f#1{\f{#1#1}}\f{x}", 149, "Budget 10"),
    (r"\def\f#1{\f{#1#1}}\f{x}", 100, "Budget 10"),
    // A path of 16 tokens.
    (
        r"\def\g{\draw (0,0) -- (1,0);}\g",
        17,
        "17, M 0 0 L 1864679 0",
    ),
    (r"\def\g{\draw (0,0) -- (1,0);}\g", 16, "Budget 30"),
    // A definition lasts to the end of its group.
    (
        r"{\def\x{1}\draw (0,0) -- (\x,0);}",
        9,
        "2, M 0 0 L 1864679 0",
    ),
    (
        r"\def\x{1}{\def\x{2}}\draw (0,0) -- (\x,0);",
        9,
        "2, M 0 0 L 1864679 0",
    ),
    (
        r"\def\x{1}{\def\x{2}\draw (0,0) -- (\x,0);}",
        9,
        "2, M 0 0 L 3729358 0",
    ),
    (r"{\def\x{1}}\draw (0,0) -- (\x,0);", 9, "Expression 28"),
    (r"{\def\x{\draw}}\x (0,0);", 9, "UnknownCommand 16"),
    (r"{\draw (0,0) -- (1,0);}{}{ }", 0, "0, M 0 0 L 1864679 0"),
    // Paths are read through expansion, letter by letter.
    (
        r"\def\a{--}\draw (0,0) \a (1,0);",
        3,
        "3, M 0 0 L 1864679 0",
    ),
    (r"\def\e{}\draw (0,0)-\e-(1,0);", 1, "1, M 0 0 L 1864679 0"),
    (r"\def\c{cyc}\draw (1,0)--\c le;", 4, "4, M 1864679 0 Z"),
    (
        r"\def\s{ }\draw\s(0,0)\s--\s(1,0)\s;\s",
        10,
        "10, M 0 0 L 1864679 0",
    ),
    (r"\def\d{\draw}\d(0,0)--(1,0);", 2, "2, M 0 0 L 1864679 0"),
    (
        r"\def\o#1{#1\draw(0,0)--(1,0);}\o{{}}",
        17,
        "17, M 0 0 L 1864679 0",
    ),
    (r"\def\draw{}\draw\draw", 2, "2"),
    // The text of a coordinate ends as it is written, and is then expanded.
    (r"\def\c{1,0}\draw (0,0)--(\c);", 4, "4, M 0 0 L 1864679 0"),
    (
        r"\def\u#1{#1pt}\draw (0,0)--(\u{1},\u2);",
        8,
        "8, M 0 0 L 65536 131072",
    ),
    (
        r"\def\x{1}\edef\y{\x}\def\x{2}\draw (0,0)--(\y,0);",
        4,
        "4, M 0 0 L 1864679 0",
    ),
    (
        r"\def\x{1}\def\y{\x}\def\x{2}\draw (0,0)--(\y,0);",
        4,
        "4, M 0 0 L 3729358 0",
    ),
    (r"\def\x{1}\draw (\x,0)--(\x,1);", 3, "Budget 25"),
    // The first fault stands.
    (r"\def\x{1}\draw (\x,0)--(1/0,0);", 1, "Budget 17"),
    (r"\def\x{1}\draw (1/0,0)--(\x,0);", 1, "DivZero 18"),
    (r"\draw (600,0) -- (0,0;", 0, "TooLarge 7"),
    (r"\draw (0,0) -- (1/0,0", 0, "Coordinate 16"),
    // An argument is missing at the end of a group, and of a coordinate's text.
    (r"\def\h#1{#1}{\h}", 99, "MacroArg 14"),
    (r"\def\h#1{#1}\draw (\h)--(0,0);", 99, "MacroArg 20"),
    (r"\def\x#2{}", 9, "MacroSyntax 8"),
    // Code costs one unit more than its text has tokens: `\def\m{1}` has 5.
    (
        r"\pgfkeys{/a/.code={\def\m{#1}},/a=1}\draw (0,0)--(\m,0);",
        8,
        "8, M 0 0 L 1864679 0",
    ),
    (
        r"\pgfkeys{/a/.code={\def\m{#1}},/a=1}\draw (0,0)--(\m,0);",
        7,
        "Budget 51",
    ),
    (
        r"\pgfkeys{/a/.code={\def\m{#1}},/a=1}\draw (0,0)--(\m,0);",
        5,
        "Budget 32",
    ),
    (r"\pgfkeys{/a/.code 2 args={\def\m{#1#2}},/a={1} 2}", 7, "7"),
    (
        r"\pgfkeys{/a/.code 2 args={\def\m{#1#2}},/a={1} 2}",
        6,
        "Budget 41",
    ),
    // A style that grows costs as much as its new code: `\pgfkeysalso{/b}` has 5 tokens.
    (r"\pgfkeys{/a/.append style=/b}", 6, "6"),
    (r"\pgfkeys{/a/.append style=/b}", 5, "Budget 10"),
    (r"\pgfkeys{/a/.style=/b,/a/.append style=/b}", 11, "11"),
    (
        r"\pgfkeys{/a/.style=/b,/a/.append style=/b}",
        10,
        "Budget 23",
    ),
    (r"\pgfkeys{/a/.style=/b,/a/.prefix style=/b}", 11, "11"),
    (
        r"\pgfkeys{/a/.style=/b,/a/.prefix style=/b}",
        10,
        "Budget 23",
    ),
    // A choice, a stand-in and names that call.
    (r"\pgfkeys{/c/.is choice,/c/x/.code=,/c=x}", 1, "1"),
    (r"\pgfkeys{/c/.is choice,/c/x/.code=,/c=x}", 0, "Budget 36"),
    (r"\pgfkeys{/p/.unknown/.code=,/p/q}", 1, "1"),
    (r"\pgfkeys{/p/.unknown/.code=,/p/q}", 0, "Budget 29"),
    (r"\pgfkeys{/a/.store in=\m,/a=1,/a/.default=2,/a}", 0, "0"),
    (r"\def\n{a}\pgfkeys{/\n/.code=,/\n}", 5, "5"),
    (r"\def\n{a}\pgfkeys{/\n/.code=,/\n}", 4, "Budget 30"),
    (r"\def\n{a}\pgfkeys{/\n/.code=,/\n}", 3, "Budget 31"),
    // A path begins at the image of the origin, and goes on where its last subpath ended.
    (
        r"\draw -- (1,0) -- cycle -- (0,1);",
        0,
        "0, M 0 0 L 1864679 0 Z M 0 0 L 0 1864679",
    ),
    (r"\path (0,0) -- (1,0);\draw (0,0) (1,0);", 0, "0"),
    // Options cost what they call: `\x` has a text of one token.
    (
        r"\def\x{1}\draw[x=\x pt] (0,0) -- (2,0);",
        2,
        "2, M 0 0 L 131072 0",
    ),
    (r"\def\x{1}\draw[x=\x pt] (0,0) -- (2,0);", 1, "Budget 18"),
    (
        r"\begin{scope}[xshift=1pt]\draw (0,0) -- (1,0);\end{scope}",
        0,
        "0, M 65536 0 L 1930215 0",
    ),
    // Commands that aren't known, and forms that aren't built.
    (r"{\end{tikzpicture}}", 9, "EndMismatch 2"),
    (r"\begin{scope}", 9, "EndMismatch 15"),
    (r"{x}", 9, "UnknownCommand 2"),
    (r"\draw (0,0) - - (1,0);", 0, "PathSyntax 13"),
    (r"\draw (0,0) -- cy cle;", 0, "PathSyntax 16"),
    (r"\draw (0,0) node {};", 9, "Unbuilt 13"),
    (r"{\draw (0,0}", 9, "Coordinate 8"),
    (r"\def\c{1-|0}\draw (0,0)--(\c);", 9, "Unbuilt 26"),
    (r"\draw (1,2,3);", 0, "Coordinate 7"),
    // Each line of a grid costs one unit.
    (
        r"\draw (0,0) grid (1,1);",
        4,
        "4, M 0 0 L 0 1864679 M 1864679 0 L 1864679 1864679 M 0 0 L 1864679 0 M 0 1864679 L 1864679 1864679",
    ),
    (r"\draw (0,0) grid (1,1);", 3, "Budget 13"),
];

/// The pieces of each path, with their letters in SVG.
fn shown(alloc: Global, compiled: &Compiled) -> Result<String, AllocError> {
    let units = compiled.units;
    let mut out = format!(in alloc; "{units}")?;
    for item in compiled.drawing.items.as_slice() {
        let Item::Path(segs, None, Some(_)) = item else {
            out.push_str(", another item")?;
            continue;
        };
        out.push(',')?;
        for seg in segs.as_slice() {
            out.push_str(piece(alloc, *seg)?.as_str())?;
        }
    }
    Ok(out)
}

fn piece(alloc: Global, seg: Seg) -> Result<String, AllocError> {
    match seg {
        Seg::Move(p) => format!(in alloc; " M {} {}", p.x.sp(), p.y.sp()),
        Seg::Line(p) => format!(in alloc; " L {} {}", p.x.sp(), p.y.sp()),
        Seg::Curve(..) => format!(in alloc; " C"),
        Seg::Close => format!(in alloc; " Z"),
    }
}

/// A fault with its column in the second line, which begins at byte 20.
fn fault_shown(alloc: Global, fault: Fault) -> Result<String, AllocError> {
    let name = match fault.code {
        Code::MacroSyntax => "MacroSyntax",
        Code::MacroArg => "MacroArg",
        Code::Budget => "Budget",
        Code::Levels => "Levels",
        Code::Coordinate => "Coordinate",
        Code::Expression => "Expression",
        Code::DivZero => "DivZero",
        Code::TooLarge => "TooLarge",
        Code::PathSyntax => "PathSyntax",
        Code::Unbuilt => "Unbuilt",
        Code::UnknownCommand => "UnknownCommand",
        Code::EndMismatch => "EndMismatch",
        _ => "?",
    };
    let column = fault.at.saturating_sub(19);
    format!(in alloc; "{name} {column}")
}

/// What comes of a short source with a small budget.
fn outcome(alloc: Global, source: &str, budget: u64) -> Result<String, Fail> {
    let bytes = source.as_bytes();
    if bytes.len() > 1_000 || budget > 1_000 {
        return Err("too much".into());
    }
    counted::<Brand>(alloc, bytes, budget, Blank::new(1))
}

/// The same, with a count of the steps of its own.
fn counted<L: Ledger>(
    alloc: Global,
    bytes: &[u8],
    budget: u64,
    blank: Blank,
) -> Result<String, Fail>
    requires short { length bytes.now ≤ 1000 }
    requires few { budget ≤ 1000 }
    requires name { blank.name ≡ L.name }
    requires parts { blank.parts ≡ L.parts }
    requires some { 0 < L.parts }
{
    match compile::<L>(alloc, bytes, Asked { budget }, &mut Steps::new(blank)) {
        Ok(compiled) => Ok(shown(alloc, &compiled)?),
        Err(Refusal::Fault(fault)) => Ok(fault_shown(alloc, fault)?),
        Err(Refusal::OutOfMemory) => Err("no memory".into()),
    }
}

/// Whether that comes of a picture's line.
fn comes(alloc: Global, line: &str, budget: u64, wanted: &str) -> Result<bool, Fail> {
    let source = format!(in alloc; "\\begin{{tikzpicture}}\n{line}\n\\end{{tikzpicture}}\n")?;
    let given = outcome(alloc, source.as_str(), budget)?;
    Ok(given.as_str() == wanted)
}

#[test]
fn lines_cost_and_draw(rt: HostRuntime) -> Result<(), Fail> {
    for (line, budget, wanted) in &LINES {
        assert!(rt;
            comes(rt.alloc(), line, *budget, wanted)?,
            "{line}, {budget}"
        );
    }
    Ok(())
}

/// A line of a path in so many groups.
fn grouped(alloc: Global, groups: u32) -> Result<String, AllocError> {
    let mut line = String::new(alloc);
    for _ in 0..groups {
        line.push('{')?;
    }
    line.push_str(r"\draw (0,0)--(1,0);")?;
    for _ in 0..groups {
        line.push('}')?;
    }
    Ok(line)
}

#[test]
fn a_hundred_and_twenty_eight_levels_can_be_open(rt: HostRuntime) -> Result<(), Fail> {
    // The picture is the first level, and a path is one more.
    for (groups, wanted) in [
        (126, "0, M 0 0 L 1864679 0"),
        (127, "Levels 128"),
        (128, "Levels 128"),
    ] {
        let line = grouped(rt.alloc(), groups)?;
        assert!(rt; comes(rt.alloc(), line.as_str(), 0, wanted)?, "{groups}");
    }
    Ok(())
}
