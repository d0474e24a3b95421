//! Files in memory, of which one is read at a time.

ghost use Rattle.std.specs.Prelude.{◌≡◌, ◌-◌, ◌<◌, min, length, take, drop, None};
ghost use Rattle.std.specs.Prelude.{position, string_bytes, ◌↔◌, IsTrue};
ghost use Rattle.std.specs.Str.{bytes_eq};
ghost use Rattle.tk_io.specs.Desk.{new_desk, shown, find_file, file_at, opened_at, moved_on, IsDesk, NamesDiffer};

use std::marker::Model;

/// A file in memory.
#[derive(Drop)]
pub struct MemFile {
    /// Its name; `-` is standard input.
    pub name: String,
    /// All its bytes.
    pub bytes: Vec<u8>,
}

/// The files, and how far the open one and standard input are read.
#[derive(Drop)]
pub(crate) struct Desk {
    files: Vec<MemFile>,
    current: Option<usize>,
    at: usize,
    input: usize,
    taken: u64,
}

impl Model for Desk {
    ghost use Rattle.std.specs.Prelude.{map};
    ghost use Rattle.tk_io.specs.Desk.{OnDesk, shown, IsDesk};

    ghost Value = { OnDesk };

    ghost view = { λ d. record {
      files = map shown d.files.items;
      current = d.current;
      at = d.at;
      input = d.input;
      taken = d.taken;
    } };

    ghost invariant = { λ d. IsDesk (record {
      files = map shown d.files.items;
      current = d.current;
      at = d.at;
      input = d.input;
      taken = d.taken;
    }) };
}

impl Desk {
    pub(crate) fn new(files: Vec<MemFile>) -> Desk
        ensures { result ≡ new_desk files.items }
    {
        Desk {
            files,
            current: None,
            at: 0,
            input: 0,
            taken: 0,
        }
    }

    /// The place of the file of that name.
    pub(crate) fn find(&self, name: &str) -> Option<usize>
        ensures place { result ≡ find_file self.now name.now }
    {
        place_in(&self.files, name)
    }

    /// The place of the open file.
    pub(crate) fn current(&self) -> Option<usize>
        ensures place { result ≡ self.now.current }
        ensures desk { IsDesk self.now }
    {
        self.current
    }

    /// No file is open then.
    pub(crate) fn close(&mut self)
        ensures { self.new ≡ record self.old { current = None; taken = 0 } }
    {
        self.current = None;
        self.taken = 0;
    }

    /// The file at a place.
    fn file(&self, place: usize) -> &MemFile
        requires { place < length self.now.files }
        ensures { shown result.now ≡ file_at self.now place }
    {
        &self.files[place]
    }

    /// Opens the file at a place, which is the first of its name.
    pub(crate) fn open_at(&mut self, place: usize)
        requires { find_file self.old (file_at self.old place).0 ≡ Some place }
        ensures { self.new ≡ opened_at self.old place }
    {
        let is_input = self.file(place).name.as_str() == "-";
        self.current = Some(place);
        self.taken = 0;
        self.at = if is_input { self.input } else { 0 };
    }

    /// Hands out the next bytes of the open file, which is the one at this place, at most so many.
    pub(crate) fn hand_out(&mut self, place: usize, buf: &mut [u8], most: usize) -> usize
        requires { self.old.current ≡ Some place }
        ensures count { result
            ≡ min (min (length buf.old) most) (length (file_at self.old place).1 - self.old.at) }
        ensures front { take result buf.new
            ≡ take result (drop self.old.at (file_at self.old place).1) }
        ensures rest { drop result buf.new ≡ drop result buf.old }
        ensures moved { self.new ≡ moved_on self.old place result }
    {
        let at = self.at;
        let file = self.file(place);
        let is_input = file.name.as_str() == "-";
        let count = copy_front(&file.bytes[at..], buf, most);
        self.at = at + count;
        self.taken = self.taken.saturating_add(count as u64);
        if is_input {
            self.input = self.at;
        }
        count
    }
}

/// Whether no two of the files have one name. It looks at each pair, so it is for a few files.
pub fn names_differ(files: &[MemFile]) -> bool
    ensures { IsTrue result ↔ NamesDiffer files.now }
{
    for (place, file) in files.iter().enumerate() {
        if place_in(files, file.name.as_str()) != Some(place) {
            return false;
        }
    }
    true
}

/// The place of the first file of that name.
fn place_in(files: &[MemFile], name: &str) -> Option<usize>
    ensures { result ≡ position (λ file. bytes_eq (string_bytes file.name) name.now) files.now }
{
    files.iter().position(|file| file.name.as_str() == name)
}

/// Copies as many bytes as there are and fit to the front of the buffer, at most so many.
fn copy_front(bytes: &[u8], buf: &mut [u8], most: usize) -> usize
    ensures count { result ≡ min (min (length buf.old) most) (length bytes.now) }
    ensures front { take result buf.new ≡ take result bytes.now }
    ensures rest { drop result buf.new ≡ drop result buf.old }
{
    let count = buf.len().min(most).min(bytes.len());
    buf[..count].copy_from_slice(&bytes[..count]);
    count
}
