//! The shelf in memory of which no call fails.

ghost use Rattle.std.specs.Prelude.{◌≡◌, ℕ, List, true, None, Ok, IsOk, IfOk, IfSome, if◌then◌else◌};
ghost use Rattle.std.specs.Str.{bytes_eq};
ghost use Rattle.tk_io.specs.declared.sure.Absent.TheVariants.{Nothing};
ghost use Rattle.tk_io.specs.Shelf.{Opens, Reads, standard_input};
ghost use Rattle.tk_io.specs.Desk.{new_desk};
ghost use Rattle.tk_io.specs.SureShelf.{sure_means, sure_open, OpensSure, ReadsSure};

use crate::desk::{Desk, MemFile};
use crate::{Failed, Shelf};
use std::marker::Model;

/// Which of the names that a sure shelf doesn't have is open. It can't keep the name itself without
/// taking memory.
#[derive(Clone, Copy)]
pub(crate) enum Absent {
    Nothing,
    Input,
    Other,
}

/// A shelf in memory of which no call fails. A name that it doesn't have opens as an empty file.
#[derive(Drop)]
pub struct SureShelf {
    desk: Desk,
    absent: Absent,
}

impl Model for SureShelf {
    ghost use Rattle.tk_io.specs.SureShelf.{Sure, IsSure};

    ghost Value = { Sure };

    ghost view = { λ s. record { desk = s.desk; absent = s.absent } };

    ghost invariant = { λ s. IsSure (record { desk = s.desk; absent = s.absent }) };
}

impl SureShelf {
    /// A shelf of these files; of two with one name the first counts.
    pub fn new(files: Vec<MemFile>) -> SureShelf
        ensures { result ≡ record { desk = new_desk files.items; absent = Nothing } }
    {
        SureShelf {
            desk: Desk::new(files),
            absent: Absent::Nothing,
        }
    }
}

impl Shelf for SureShelf {
    ghost meaning = { sure_means };

    /// Never fails.
    fn open(&mut self, name: &str) -> Result<(), Failed>
        ensures opens { Opens name.now (sure_means self.old) (sure_means self.new) result }
        ensures never { result ≡ Ok tt }
        ensures exactly { OpensSure name.now self.old self.new }
    {
        match self.desk.find(name) {
            Some(place) => {
                self.desk.open_at(place);
                self.absent = Absent::Nothing;
            }
            None => {
                self.desk.close();
                self.absent = absent_of(name);
            }
        }
        Ok(())
    }

    /// Hands out as much as the buffer and the file allow. Never fails.
    fn read(&mut self, buf: &mut [u8]) -> Result<usize, Failed>
        requires { (name : List ℕ) × (sure_open self.old.desk self.old.absent name ≡ true) }
        ensures reads { (name : List ℕ)
            → sure_open self.old.desk self.old.absent name ≡ true
            → Reads name (sure_means self.old) (sure_means self.new) result buf.new }
        ensures never { IsOk result }
        ensures exactly { IfOk result (λ n.
            IfSome self.old.desk.current (λ place.
            ReadsSure place n self.old self.new buf.old buf.new)) }
        ensures missing { self.old.desk.current ≡ None
            → (result ≡ Ok 0) × (self.new ≡ self.old) × (buf.new ≡ buf.old) }
    {
        let most = buf.len();
        match self.desk.current() {
            Some(place) => Ok(self.desk.hand_out(place, buf, most)),
            None => Ok(0),
        }
    }
}

/// What is open where the shelf doesn't have the name.
fn absent_of(name: &str) -> Absent
    ensures { result ≡ (if bytes_eq name.now standard_input then Absent.Input else Absent.Other) }
{
    if name == "-" {
        Absent::Input
    } else {
        Absent::Other
    }
}
