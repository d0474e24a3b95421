//! Default paths of keys.

ghost use Rattle.std.specs.Prelude.{◌≡◌, ◌∷◌, ◌++◌, [], string_bytes, codes, IfOk};
ghost use Rattle.tk_characters.specs.Characters.{slash};

use std::alloc::{AllocError, Global};
use std::marker::Model;

/// A default path: the names of a key list that are no full paths stand below it. The root and `/tikz` take no memory.
#[derive(Drop)]
pub struct Dir {
    path: DirPath,
}

/// Which path it is.
#[derive(Drop)]
enum DirPath {
    /// The root, which is the empty path.
    Root,
    /// `/tikz`
    Tikz,
    Other(String),
}

impl Model for Dir {
    ghost use Rattle.std.specs.Prelude.{List, ℕ};
    ghost use Rattle.tk_keys.specs.DefaultPaths.{path_text};

    ghost Value = { List ℕ };

    ghost view = { λ dir. path_text dir.path };
}

impl Dir {
    /// The path with that text, as `/tikz`.
    pub fn new(alloc: Global, path: &str) -> Result<Dir, AllocError>
        ensures { IfOk result (λ dir. dir ≡ path.now) }
    {
        let path = match path {
            "" => DirPath::Root,
            "/tikz" => DirPath::Tikz,
            _ => DirPath::Other(String::from_str(alloc, path)?),
        };
        Ok(Dir { path })
    }

    /// The root, which is the empty path. This takes no memory.
    pub fn root() -> Dir
        ensures { result ≡ [] }
    {
        Dir {
            path: DirPath::Root,
        }
    }

    /// The path `/tikz`. This takes no memory.
    pub(crate) fn tikz() -> Dir
        ensures { result ≡ codes "/tikz" }
    {
        Dir {
            path: DirPath::Tikz,
        }
    }

    /// The same path.
    pub fn copy(&self) -> Result<Dir, AllocError>
        ensures { IfOk result (λ dir. dir ≡ self.now) }
    {
        let path = match &self.path {
            DirPath::Root => DirPath::Root,
            DirPath::Tikz => DirPath::Tikz,
            DirPath::Other(path) => DirPath::Other(path.clone()?),
        };
        Ok(Dir { path })
    }

    /// The text of the path. This takes no memory.
    pub fn as_str(&self) -> &str
        ensures { result.now ≡ self.now }
    {
        match &self.path {
            DirPath::Root => "",
            DirPath::Tikz => "/tikz",
            DirPath::Other(path) => path.as_str(),
        }
    }

    /// The full path of the key with that name below the path, in the memory of the name.
    pub(crate) fn below(&self, name: String) -> Result<String, AllocError>
        ensures { IfOk result (λ path. string_bytes path ≡ self.now ++ slash ∷ string_bytes name) }
    {
        let mut path = name;
        match &self.path {
            DirPath::Root => path.insert_str(0, "/")?,
            DirPath::Tikz => path.insert_str(0, "/tikz/")?,
            DirPath::Other(dir) => {
                path.insert_str(0, "/")?;
                path.insert_str(0, dir)?;
            }
        }
        Ok(path)
    }
}
