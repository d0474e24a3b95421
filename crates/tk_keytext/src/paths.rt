//! Full paths of keys. `/a/b` has the last part `b`.

ghost use Rattle.std.specs.Prelude.{◌≡◌, ◌≤◌, ◌++◌, ◌∷◌, length, string_bytes, IfOk};
ghost use Rattle.tk_characters.specs.Characters.{slash};
ghost use Rattle.tk_keytext.specs.Paths as paths;

use std::alloc::{AllocError, Global};

/// The full path of a name where `dir` is the default path: a name that begins with a `/` is a full path.
pub fn full_path(alloc: Global, dir: &str, name: &str) -> Result<String, AllocError>
    ensures { IfOk result (λ path. string_bytes path ≡ paths.full_path dir.now name.now) }
{
    if name.starts_with('/') {
        return String::from_str(alloc, name);
    }
    path_below(alloc, dir, name)
}

/// The full path of the key with that name below a path.
pub fn path_below(alloc: Global, path: &str, name: &str) -> Result<String, AllocError>
    ensures { IfOk result (λ text. string_bytes text ≡ path.now ++ slash ∷ name.now) }
{
    let mut text = String::with_capacity(alloc, path.len() + 1 + name.len())?;
    text.push_str(path)?;
    text.push('/')?;
    text.push_str(name)?;
    Ok(text)
}

/// The place behind the last `/`, which is 0 where there is none. This takes no memory.
pub fn last_part(path: &str) -> usize
    ensures part { result ≡ paths.last_part path.now }
    ensures within { result ≤ length path.now }
{
    match path.rfind('/') {
        Some(at) => at + 1,
        None => 0,
    }
}

/// The last part of a path. This takes no memory.
pub fn name_in(path: &str) -> &str
    ensures { result.now ≡ paths.name_in path.now }
{
    match path.rsplit_once('/') {
        Some((_, name)) => name,
        None => path,
    }
}

/// The path without its last part and the `/` before it. This takes no memory.
pub fn parent_of(path: &str) -> &str
    ensures { result.now ≡ paths.parent_of path.now }
{
    match path.rsplit_once('/') {
        Some((dir, _)) => dir,
        None => "",
    }
}
