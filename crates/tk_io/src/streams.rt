//! Files and the standard streams of the host.
//!
//! They tell no bytes: nothing is proved of what the host holds, hands out or takes. Each call asks
//! the host once, and whatever the host refuses counts as one fault.

ghost use Rattle.std.specs.Prelude.{◌≡◌, None, false};
ghost use Rattle.tk_io.specs.Sink.{Writes};

use crate::{Failed, Shelf, Sink};
use std::io::{Input, Print, Printer, Read, Stderr, Write};
use std::rt::Files;
use std::{fs, io};

/// The files of the host; `-` is its standard input. A directory opens and fails at the first
/// read.
#[derive(Drop)]
pub struct FileShelf<'a, R: Files + Input> {
    runtime: &'a R,
    current: Option<Source<R::File, R::Reader>>,
    taken: u64,
    faults: u64,
}

#[derive(Drop)]
enum Source<F, I> {
    File(F),
    Input(I),
}

impl<'a, R: Files + Input> FileShelf<'a, R> {
    /// No file is open then, and no fault was counted.
    pub fn new(runtime: &'a R) -> Self
        ensures { ⟦<FileShelf<'a, R> as Shelf>⟧.meaning result ≡ record {
          holds = None;
          left = None;
          taken = 0;
          is_open = λ _. false;
          faults = λ _. 0;
          sure = false;
        } }
    {
        FileShelf {
            runtime,
            current: None,
            taken: 0,
            faults: 0,
        }
    }
}

impl<'a, R: Files + Input> Shelf for FileShelf<'a, R> {
    ghost use Rattle.std.specs.Prelude.{None, is_some, false};

    ghost meaning = { λ s. record {
      holds = None;
      left = None;
      taken = s.taken;
      is_open = λ _. is_some s.current;
      faults = λ _. s.faults;
      sure = false;
    } };

    fn open(&mut self, name: &str) -> Result<(), Failed> {
        self.taken = 0;
        if name == "-" {
            self.current = Some(Source::Input(self.runtime.reader()));
            return Ok(());
        }
        match fs::open(self.runtime, name) {
            Ok(file) => {
                self.current = Some(Source::File(file));
                Ok(())
            }
            Err(_) => {
                self.current = None;
                self.faults = self.faults.saturating_add(1);
                Err(Failed)
            }
        }
    }

    fn read(&mut self, buf: &mut [u8]) -> Result<usize, Failed> {
        let answer = match &mut self.current {
            Some(Source::File(file)) => file.read(buf),
            Some(Source::Input(input)) => input.read(buf),
            None => unreachable!(),
        };
        match answer {
            Ok(count) => {
                self.taken = self.taken.saturating_add(count as u64);
                Ok(count)
            }
            Err(_) => {
                self.faults = self.faults.saturating_add(1);
                Err(Failed)
            }
        }
    }
}

/// The standard output of the host, written to at once.
#[derive(Drop)]
pub struct OutSink<'a, R: Print> {
    output: Printer<'a, R>,
    faults: u64,
}

impl<'a, R: Print> OutSink<'a, R> {
    /// No fault was counted then.
    pub fn new(runtime: &'a R) -> Self
        ensures { ⟦<OutSink<'a, R> as Sink>⟧.meaning result ≡ record { bytes = None; faults = 0 } }
    {
        OutSink {
            output: io::writer(runtime),
            faults: 0,
        }
    }
}

impl<'a, R: Print> Sink for OutSink<'a, R> {
    ghost use Rattle.std.specs.Prelude.{None};

    ghost meaning = { λ s. record { bytes = None; faults = s.faults } };

    fn write(&mut self, piece: &[u8]) -> Result<usize, Failed> {
        write_once(&mut self.output, piece, &mut self.faults)
    }
}

/// The standard error of the host, written to at once.
#[derive(Drop)]
pub struct ErrSink {
    error: Stderr,
    faults: u64,
}

impl ErrSink {
    /// No fault was counted then.
    pub fn new(error: Stderr) -> Self
        ensures { ⟦<ErrSink as Sink>⟧.meaning result ≡ record { bytes = None; faults = 0 } }
    {
        ErrSink { error, faults: 0 }
    }
}

impl Sink for ErrSink {
    ghost use Rattle.std.specs.Prelude.{None};

    ghost meaning = { λ s. record { bytes = None; faults = s.faults } };

    fn write(&mut self, piece: &[u8]) -> Result<usize, Failed> {
        write_once(&mut self.error, piece, &mut self.faults)
    }
}

/// Asks a writer once, and counts a fault where it fails or takes nothing of what isn't empty.
fn write_once<W: Write>(to: &mut W, piece: &[u8], faults: &mut u64) -> Result<usize, Failed>
    ensures { Writes piece.now
        (record { bytes = None; faults = faults.old })
        (record { bytes = None; faults = faults.new })
        result }
{
    match to.write(piece) {
        Ok(count) if count > 0 || piece.is_empty() => Ok(count),
        _ => {
            *faults = faults.saturating_add(1);
            Err(Failed)
        }
    }
}
