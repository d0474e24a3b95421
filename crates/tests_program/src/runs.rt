//! Runs over a shelf and sinks in memory, of which calls are short or fail.

use std::alloc::{AllocError, Global};
use std::test::Fail;
use tk_io::{MemFile, MemShelf, MemSink, names_differ, read_all};
use tk_program::run;

/// The source of one line of a centimetre, of 60 bytes.
const SOURCE: &[u8] = b"\\begin{tikzpicture}\n\\draw (0,0) -- (1,0);\n\\end{tikzpicture}\n";

/// Its document, of 309 bytes.
const DOCUMENT: &str = "<?xml version=\"1.0\" encoding=\"UTF-8\"?>
<svg xmlns=\"http://www.w3.org/2000/svg\" version=\"1.1\" width=\"28.74493pt\" height=\"0.3985pt\" viewBox=\"-0.2 -0.2 28.85274 0.4\" font-family=\"monospace\" font-size=\"10\">
<path d=\"M0 0L28.45274 0\" fill=\"none\" stroke=\"#000000\" stroke-width=\"0.4\" stroke-miterlimit=\"10\"/>
</svg>
";

/// What a run is of: its words, the name of the one file on the shelf, and how many bytes of the source that has.
type Task = (&'static [&'static str], &'static str, usize);

/// The most bytes of a call, and the number of the call that fails, counted from 1: 0 where none does. The first call
/// of a shelf opens the file, and the others read.
type Limits = (usize, u64);

/// How a run has to end: its status, how many bytes of the document `out` has, what `err` has, and how many bytes are
/// left in the file when it is opened again.
type End = (u8, usize, &'static str, usize);

const ALL: Limits = (1_000_000, 0);

const BY_ONE: Limits = (1, 0);

const BY_16: Limits = (16, 0);

const RENDER: &[&str] = &["render", "p.tex"];

const FILE: Task = (RENDER, "p.tex", 60);

const INPUT: Task = (&["render", "-"], "-", 60);

/// Runs, with the limits of the shelf, of `out` and of `err`.
const RUNS: [(Task, Limits, Limits, Limits, End); 22] = [
    (FILE, ALL, ALL, ALL, (0, 309, "", 60)),
    (FILE, BY_16, BY_16, BY_16, (0, 309, "", 60)),
    // Of standard input nothing is left, and of another file all.
    (INPUT, BY_ONE, BY_ONE, BY_ONE, (0, 309, "", 0)),
    (
        INPUT,
        BY_16,
        (16, 1),
        BY_16,
        (4, 0, "tikzsvg: WriteFault\n", 0),
    ),
    // At most 16 bytes a call, of which the second fails; a shelf whose first read fails.
    (
        FILE,
        ALL,
        (16, 2),
        ALL,
        (4, 16, "tikzsvg: WriteFault\n", 60),
    ),
    (FILE, (16, 2), ALL, ALL, (3, 0, "p.tex: ReadFault\n", 60)),
    // A line that can't be said changes no status.
    (FILE, ALL, ALL, (1, 1), (0, 309, "", 60)),
    (FILE, ALL, (16, 2), (16, 2), (4, 16, "tikzsvg: WriteFa", 60)),
    (FILE, (16, 2), ALL, (16, 2), (3, 0, "p.tex: ReadFault", 60)),
    ((RENDER, "p.tex", 7), ALL, ALL, (5, 2), (1, 0, "p.tex", 7)),
    ((&["render"], "-", 60), ALL, ALL, (5, 1), (2, 0, "", 60)),
    // Sources that end too early.
    (
        (RENDER, "p.tex", 7),
        ALL,
        ALL,
        ALL,
        (1, 0, "p.tex:1:7: Brace\n", 7),
    ),
    (
        (RENDER, "p.tex", 20),
        BY_16,
        ALL,
        BY_ONE,
        (1, 0, "p.tex:1:1: EndMismatch\n", 20),
    ),
    (
        (&["render", "-"], "-", 24),
        BY_16,
        ALL,
        ALL,
        (1, 0, "-:2:1: UnknownCommand\n", 0),
    ),
    // A file that isn't there.
    (
        (&["render", "q.tex"], "p.tex", 60),
        ALL,
        ALL,
        ALL,
        (3, 0, "q.tex: ReadFault\n", 60),
    ),
    (
        (&["render", "-"], "p.tex", 60),
        ALL,
        ALL,
        ALL,
        (3, 0, "-: ReadFault\n", 60),
    ),
    // Words that ask for nothing: no file is opened.
    (
        (&["render"], "-", 60),
        ALL,
        ALL,
        ALL,
        (2, 0, "tikzsvg: Usage\n", 60),
    ),
    (
        (&["render", "-", "-"], "-", 60),
        ALL,
        ALL,
        ALL,
        (2, 0, "tikzsvg: Usage\n", 60),
    ),
    (
        (&["draw", "-"], "-", 60),
        ALL,
        ALL,
        BY_ONE,
        (2, 0, "tikzsvg: Usage\n", 60),
    ),
    (
        (&["render", "-x"], "-x", 60),
        ALL,
        ALL,
        ALL,
        (2, 0, "tikzsvg: Usage\n", 60),
    ),
    (
        (&["render", ""], "", 60),
        ALL,
        ALL,
        ALL,
        (2, 0, "tikzsvg: Usage\n", 60),
    ),
    (
        (&[], "-", 60),
        ALL,
        ALL,
        ALL,
        (2, 0, "tikzsvg: Usage\n", 60),
    ),
];

/// A shelf of one file.
fn shelf_of(
    alloc: Global,
    name: &str,
    bytes: Vec<u8>,
    limits: Limits,
) -> Result<Option<MemShelf>, AllocError> {
    let name = String::from_str(alloc, name)?;
    let files = vec![in alloc; MemFile { name, bytes }]?;
    let failing = vec![in alloc; limits.1]?;
    if limits.0 < 1 || !names_differ(&files) {
        return Ok(None);
    }
    Ok(Some(MemShelf::new(alloc, files, limits.0, failing)?))
}

/// A sink with room for more than any run writes.
fn sink_of(alloc: Global, limits: Limits) -> Result<MemSink, AllocError> {
    let failing = vec![in alloc; limits.1]?;
    MemSink::new(alloc, 4096, limits.0.max(1), failing)
}

fn words_of(alloc: Global, words: &[&str]) -> Result<Vec<String>, AllocError> {
    let mut owned = Vec::new(alloc);
    for word in words {
        owned.push(String::from_str(alloc, word)?)?;
    }
    Ok(owned)
}

/// Whether a run over a file of these bytes, with the limits of the shelf, of `out` and of `err`, ends so.
fn ends(
    alloc: Global,
    task: Task,
    bytes: Vec<u8>,
    limits: (Limits, Limits, Limits),
    end: End,
) -> Result<bool, Fail> {
    let (words, name, _) = task;
    let (status, written, said, left) = end;
    let words = words_of(alloc, words)?;
    let mut shelf = shelf_of(alloc, name, bytes, limits.0)?.ok_or("no shelf")?;
    let mut out = sink_of(alloc, limits.1)?;
    let mut err = sink_of(alloc, limits.2)?;
    let answered = run(alloc, words.as_slice(), &mut shelf, &mut out, &mut err);
    let behind = match read_all(alloc, &mut shelf, name) {
        Ok(bytes) => bytes.len(),
        Err(_) => usize::MAX,
    };
    Ok(
        answered == status
            && Some(out.bytes()) == DOCUMENT.as_bytes().get(..written)
            && err.bytes() == said.as_bytes()
            && behind == left,
    )
}

/// Whether a run over the source, or over its first bytes, ends so.
fn source_ends(
    alloc: Global,
    task: Task,
    limits: (Limits, Limits, Limits),
    end: End,
) -> Result<bool, Fail> {
    let source = SOURCE.get(..task.2).ok_or("no source")?;
    ends(alloc, task, Vec::from_slice(alloc, source)?, limits, end)
}

#[test]
fn runs_end_with_their_status(rt: HostRuntime) -> Result<(), Fail> {
    for (task, shelf, out, err, end) in &RUNS {
        let is_so = source_ends(rt.alloc(), *task, (*shelf, *out, *err), *end)?;
        assert!(rt; is_so, "status {}, {}", end.0, end.2);
    }
    Ok(())
}

/// How much is left of standard input where the first call of the shelf fails, the second, and so on.
const LEFT: [usize; 6] = [60, 60, 44, 28, 12, 0];

#[test]
fn each_call_that_fails_is_told(rt: HostRuntime) -> Result<(), Fail> {
    for (call, left) in (1..).zip(&LEFT) {
        let end = (3, 0, "-: ReadFault\n", *left);
        let is_so = source_ends(rt.alloc(), INPUT, ((16, call), BY_16, BY_16), end)?;
        assert!(rt; is_so, "call {call} of the shelf");
    }
    for call in 1..=20 {
        let end = (4, 16 * (call - 1), "tikzsvg: WriteFault\n", 0);
        let is_so = source_ends(rt.alloc(), INPUT, (BY_16, (16, call as u64), BY_16), end)?;
        assert!(rt; is_so, "call {call} of out");
    }
    Ok(())
}

#[test]
fn inputs_have_a_greatest_length(rt: HostRuntime) -> Result<(), Fail> {
    for (length, end) in [
        (16_777_216, (1, 0, "-:1:1: NotUtf8\n", 0)),
        (16_777_217, (1, 0, "-:1:1: TooLong\n", 0)),
        (16_777_221, (1, 0, "-:1:1: TooLong\n", 4)),
    ] {
        let bytes = vec![in rt.alloc(); 0xff; length]?;
        let is_so = ends(rt.alloc(), INPUT, bytes, (ALL, ALL, ALL), end)?;
        assert!(rt; is_so, "{length} bytes");
    }
    Ok(())
}
