//! The shelf in memory that fails where it is asked to.

ghost use Rattle.std.specs.Prelude.{◌≡◌, ◌<◌, ◌≤◌, ℕ, List, length, replicate, true, Option, IfOk, IfSome};
ghost use Rattle.std.specs.Option.{ForSome};
ghost use Rattle.tk_io.specs.Shelf.{Opens, Reads};
ghost use Rattle.tk_io.specs.Desk.{new_desk, is_current, NamesDiffer, HoldsEach};
ghost use Rattle.tk_io.specs.Stock.{stock_means, count_at, blamed, OpensStock, ReadsStock};

use crate::desk::{Desk, MemFile};
use crate::{Failed, Shelf};
use std::alloc::{AllocError, Global};
use std::marker::Model;

/// A shelf in memory, which fails where it is asked to.
#[derive(Drop)]
pub struct MemShelf {
    desk: Desk,
    most: usize,
    failing: Vec<u64>,
    calls: u64,
    faults: Vec<u64>,
    other_faults: u64,
}

impl Model for MemShelf {
    ghost use Rattle.std.specs.Prelude.{◌≡◌, ◌≤◌, length};
    ghost use Rattle.tk_io.specs.Stock.{Stock};

    ghost Value = { Stock };

    ghost use Rattle.tk_io.specs.StockView.{shown_stock};

    ghost view = { shown_stock };

    ghost invariant = { λ s. (1 ≤ s.most) × (length s.faults.items ≡ length s.desk.files) };
}

impl MemShelf {
    /// A shelf of these files. A read hands out at most `most` bytes, and the calls with the
    /// numbers in `failing`, those of `open` and `read` counted together from 1, fail.
    pub fn new(
        alloc: Global,
        files: Vec<MemFile>,
        most: usize,
        failing: Vec<u64>,
    ) -> Result<MemShelf, AllocError>
        requires most { 1 ≤ most }
        requires differ { NamesDiffer files.items }
        ensures fresh { IfOk result (λ shelf.
            shelf ≡ record {
              desk = new_desk files.items;
              most = most;
              failing = failing.items;
              calls = 0;
              faults = replicate (length files.items) 0;
              other_faults = 0;
            }) }
        ensures holds { IfOk result (λ shelf. HoldsEach shelf.desk files.items) }
    {
        let faults = vec![in alloc; 0; files.len()]?;
        Ok(MemShelf {
            desk: Desk::new(files),
            most,
            failing,
            calls: 0,
            faults,
            other_faults: 0,
        })
    }

    /// Counts a fault of the file at a place, or where there is none of all other names.
    fn blame(&mut self, place: Option<usize>)
        requires { ForSome place (λ place. place < length self.old.faults) }
        ensures blamed { self.new ≡ blamed place self.old }
        ensures no_fall { (of : Option ℕ) → count_at self.old of ≤ count_at self.new of }
    {
        match place {
            None => self.other_faults = self.other_faults.saturating_add(1),
            Some(place) => self.faults[place] = self.faults[place].saturating_add(1),
        }
    }
}

impl Shelf for MemShelf {
    ghost meaning = { stock_means };

    /// Fails exactly on the listed calls and on a missing name.
    fn open(&mut self, name: &str) -> Result<(), Failed>
        ensures opens { Opens name.now (stock_means self.old) (stock_means self.new) result }
        ensures exactly { OpensStock name.now self.old self.new result }
    {
        self.calls = self.calls.saturating_add(1);
        self.desk.close();
        let Some(place) = self.desk.find(name) else {
            self.blame(None);
            return Err(Failed);
        };
        if self.failing.contains(&self.calls) {
            self.blame(Some(place));
            return Err(Failed);
        }
        self.desk.open_at(place);
        Ok(())
    }

    /// Hands out as much as `most`, the buffer and the file allow. Fails exactly on the listed
    /// calls.
    fn read(&mut self, buf: &mut [u8]) -> Result<usize, Failed>
        requires { (name : List ℕ) × (is_current self.old.desk name ≡ true) }
        ensures reads { (name : List ℕ)
            → is_current self.old.desk name ≡ true
            → Reads name (stock_means self.old) (stock_means self.new) result buf.new }
        ensures exactly { IfSome self.old.desk.current (λ place.
            ReadsStock place self.old self.new result buf.old buf.new) }
    {
        self.calls = self.calls.saturating_add(1);
        let Some(place) = self.desk.current() else {
            unreachable!()
        };
        if self.failing.contains(&self.calls) {
            self.blame(Some(place));
            return Err(Failed);
        }
        Ok(self.desk.hand_out(place, buf, self.most))
    }
}
