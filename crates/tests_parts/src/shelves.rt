//! What no clause says: that the calls find memory, and what callers do with short answers.

use std::alloc::{AllocError, Global};
use std::test::Fail;
use tk_io::{
    ErrSink, Failed, FileShelf, MemFile, MemShelf, MemSink, OutSink, ReadRefusal, Shelf, Sink,
    SureShelf, SureSink, names_differ, read_all, write_all,
};

fn file(alloc: Global, name: &str, bytes: &[u8]) -> Result<MemFile, AllocError> {
    Ok(MemFile {
        name: String::from_str(alloc, name)?,
        bytes: Vec::from_slice(alloc, bytes)?,
    })
}

fn all_files(alloc: Global) -> Result<Vec<MemFile>, AllocError> {
    let mut files = Vec::new(alloc);
    files.push(file(alloc, "p.tex", b"\\draw (0,0);")?)?;
    files.push(file(alloc, "-", b"abcdefgh")?)?;
    files.push(file(alloc, "empty", b"")?)?;
    Ok(files)
}

/// A name, the most bytes a read gives, the calls that fail, and what comes out: a read at the
/// end is a call too, so twelve bytes by fives are calls 1 to 5.
const READ: [(&str, usize, &[u64], Result<&[u8], ReadRefusal>); 9] = [
    ("p.tex", 100, &[], Ok(b"\\draw (0,0);")),
    ("p.tex", 1, &[], Ok(b"\\draw (0,0);")),
    ("p.tex", 5, &[6], Ok(b"\\draw (0,0);")),
    ("p.tex", 5, &[1], Err(ReadRefusal::Failed)),
    ("p.tex", 5, &[3], Err(ReadRefusal::Failed)),
    ("p.tex", 5, &[5], Err(ReadRefusal::Failed)),
    ("empty", 7, &[], Ok(b"")),
    ("-", 3, &[], Ok(b"abcdefgh")),
    ("q.tex", 5, &[], Err(ReadRefusal::Failed)),
];

/// The room, the most bytes a write takes, the calls that fail, whether all of `abcdefgh` is
/// written, and what the sink then has.
const WRITTEN: [(usize, usize, &[u64], bool, &[u8]); 6] = [
    (8, 100, &[], true, b"abcdefgh"),
    (8, 3, &[], true, b"abcdefgh"),
    (7, 3, &[], false, b"abcdefg"),
    (8, 3, &[2], false, b"abc"),
    (8, 3, &[4], true, b"abcdefgh"),
    (0, 1, &[], false, b""),
];

/// A shelf of all files, if it may be made.
fn mem_shelf(alloc: Global, most: usize, failing: &[u64]) -> Result<Option<MemShelf>, AllocError> {
    let files = all_files(alloc)?;
    let failing = Vec::from_slice(alloc, failing)?;
    if most < 1 || !names_differ(&files) {
        return Ok(None);
    }
    Ok(Some(MemShelf::new(alloc, files, most, failing)?))
}

// Opens a file and reads once.
fn read_some<H: Shelf>(shelf: &mut H, name: &str, buf: &mut [u8]) -> Result<usize, Failed> {
    shelf.open(name)?;
    shelf.read(buf)
}

// Whether all that is read of a file is this.
fn reads<H: Shelf>(alloc: Global, shelf: &mut H, name: &str, want: &[u8]) -> bool {
    match read_all(alloc, shelf, name) {
        Ok(bytes) => bytes.as_slice() == want,
        Err(_) => false,
    }
}

/// Whether what comes out of a file is what is wanted.
fn is_read_so<H: Shelf>(
    alloc: Global,
    shelf: &mut H,
    name: &str,
    want: Result<&[u8], ReadRefusal>,
) -> bool {
    match read_all(alloc, shelf, name) {
        Ok(bytes) => want == Ok(bytes.as_slice()),
        Err(refusal) => want == Err(refusal),
    }
}

/// Whether what comes out of a file of a shelf with these limits is what is wanted.
fn comes_from_shelf(
    alloc: Global,
    name: &str,
    most: usize,
    failing: &[u64],
    want: Result<&[u8], ReadRefusal>,
) -> Result<bool, AllocError> {
    Ok(match mem_shelf(alloc, most, failing)? {
        Some(mut shelf) => is_read_so(alloc, &mut shelf, name, want),
        None => false,
    })
}

#[test]
fn reads_whole_files(rt: HostRuntime) -> Result<(), Fail> {
    for (name, most, failing, want) in &READ {
        let is_so = comes_from_shelf(rt.alloc(), name, *most, failing, *want)?;
        assert!(rt; is_so, "{name} by {most}");
    }
    Ok(())
}

/// Whether a shelf goes on with the standard input, of which a read gives so many bytes: three or four.
fn goes_on<H: Shelf>(alloc: Global, shelf: &mut H, most: usize) -> bool {
    let mut buf = [0; 4];
    let mut one = [0; 1];
    read_some(shelf, "-", &mut buf) == Ok(most)
        && (most == 4 || read_some(shelf, "-", &mut one) == Ok(1))
        && reads(alloc, shelf, "p.tex", b"\\draw (0,0);")
        && reads(alloc, shelf, "-", b"efgh")
        && reads(alloc, shelf, "-", b"")
}

#[test]
fn goes_on_with_standard_input(rt: HostRuntime) -> Result<(), Fail> {
    let mut shelf = mem_shelf(rt.alloc(), 3, &[])?.ok_or("no shelf")?;
    assert!(rt; goes_on(rt.alloc(), &mut shelf, 3));
    let mut shelf = SureShelf::new(all_files(rt.alloc())?);
    assert!(rt; goes_on(rt.alloc(), &mut shelf, 4));
    assert!(rt; reads(rt.alloc(), &mut shelf, "q.tex", b""));
    assert!(rt; SureSink::new().write(b"abc") == Ok(3));
    Ok(())
}

/// Whether a sink takes pieces as a row wants.
fn takes(sink: &mut MemSink, whole: bool, want: &[u8]) -> bool {
    let is_empty = sink.bytes().is_empty();
    let is_whole = write_all(sink, b"abcdefgh").is_ok();
    is_empty && is_whole == whole && sink.bytes() == want && write_all(sink, b"").is_ok()
}

#[test]
fn writes_whole_pieces(rt: HostRuntime) -> Result<(), Fail> {
    for (room, most, failing, whole, want) in &WRITTEN {
        assert!(rt; *most >= 1);
        let failing = Vec::from_slice(rt.alloc(), failing)?;
        let mut sink = MemSink::new(rt.alloc(), *room, *most, failing)?;
        assert!(rt; takes(&mut sink, *whole, want), "{room} by {most}");
    }
    Ok(())
}

/// Whether a shelf reads the host's files, of which one has no end.
fn reads_host<H: Shelf>(alloc: Global, shelf: &mut H) -> bool {
    let mut buf = [0; 4];
    read_some(shelf, "/dev/zero", &mut buf) == Ok(4)
        && reads(alloc, shelf, "/dev/null", b"")
        && shelf.open("no such file") == Err(Failed)
        // a directory opens, and can't be read
        && read_some(shelf, "/", &mut buf) == Err(Failed)
        && is_read_so(alloc, shelf, "/dev/zero", Err(ReadRefusal::TooLong))
        && shelf.open("-").is_ok()
}

#[test]
fn adapts_the_host(rt: HostRuntime) -> Result<(), Fail> {
    assert!(rt; reads_host(rt.alloc(), &mut FileShelf::new(&rt)));
    assert!(rt; write_all(&mut OutSink::new(&rt), b"out\n").is_ok());
    assert!(rt; write_all(&mut ErrSink::new(rt.stderr()), b"err\n").is_ok());
    Ok(())
}
