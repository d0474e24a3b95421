//! Words by their numbers.

ghost use Rattle.std.specs.Prelude.{◌≡◌, ◌<◌, [], false, length, Some, IfOk, OnOk, OnErr};
ghost use Rattle.std.specs.Option.{option_map};
ghost use Rattle.std.specs.List.{slice_get};
ghost use Rattle.tk_token.specs.Words.{EachOnce, has_word, with_word};

use indexmap::IndexSet;
use std::alloc::{AllocError, Global};
use std::marker::Model;

/// A list of words, each of which stands there once. The number of a word is its place in the list.
#[derive(Drop)]
pub struct Names {
    words: IndexSet<String>,
}

impl Model for Names {
    ghost use Rattle.std.specs.Prelude.{List, ℕ, map, string_bytes};

    ghost Value = { List (List ℕ) };

    ghost view = { λ names. map string_bytes names.words.keys };
}

impl Names {
    /// No words. This takes no memory.
    pub fn new(alloc: Global) -> Self
        ensures { result ≡ [] }
    {
        Names {
            words: IndexSet::new(alloc),
        }
    }

    /// The word of that number.
    pub fn word(&self, n: u32) -> Option<&str>
        ensures word { option_map (λ word. word.now) result ≡ slice_get self.now n }
        ensures once { EachOnce self.now }
    {
        let word = self.words.as_slice().get(n as usize)?;
        Some(word.as_str())
    }

    /// The number of a word, which goes last where it isn't there. Only a new word takes memory.
    #[tactic(auto, using(crate::proofs::Listed::listed))]
    pub fn add(&mut self, word: &str) -> Result<u32, AllocError>
        requires { length self.old < 4294967295 }
        ensures words { OnOk result (self.new ≡ with_word self.old word.now) }
        ensures number { IfOk result (λ n. slice_get self.new n ≡ Some word.now) }
        ensures once { EachOnce self.new }

        // For want of memory the list stays, and the word is not in it.
        ensures err { OnErr result (self.new ≡ self.old) }
        ensures absent { OnErr result (has_word self.old word.now ≡ false) }
    {
        let last = self.words.len();
        if let Some(number) = self.words.get_index_of(word) {
            return Ok(number as u32);
        }
        let word = String::from_str(*self.words.allocator(), word)?;
        self.words.insert(word)?;
        Ok(last as u32)
    }
}
