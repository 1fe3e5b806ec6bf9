//! What lies below a directory, by the bytes of its text.
ghost use Rattle.std.specs.Prelude.{◌≡◌, ◌==◌, Some};
ghost use Rattle.std.specs.List.{AllByRecursion, slice_split};
ghost use Rattle.std.specs.Option.{option_copied};
ghost use Rattle.bx_tree.specs.Below.{first_atom, next_atom as next_atom_of, strip_dir};
ghost use Rattle.bx_tree.specs.Paths.{IsAtom, IsBelow};

use crate::path::Path;

/// The part of a path's text after the text of a directory that contains it and a `/`.
pub fn text_below<'a>(dir: &Path, path: &'a Path) -> &'a [u8]
    requires { IsBelow path.now dir.now }
    ensures rest { strip_dir dir.now path.entry.now ≡ Some (slice_split (λ b. b == 47) result.now) }
    ensures atoms { AllByRecursion IsAtom (slice_split (λ b. b == 47) result.now) }
{
    let text = path.text().as_bytes();
    let prefix = dir.text();
    if prefix == "." {
        return text;
    }
    let (_, rest) = text.split_at(prefix.len() + 1);
    rest
}

// What precedes the first `/` of a text, or all of it.
fn first_part(text: &[u8]) -> &[u8]
    ensures { first_atom (slice_split (λ b. b == 47) text.entry.now) ≡ Some result.now }
{
    for (at, byte) in text.iter().enumerate() {
        if *byte == b'/' {
            return &text[..at];
        }
    }
    text
}

/// The atom of a path that comes next after a directory, if the path lies strictly below it.
pub fn next_atom<'a>(dir: &Path, path: &'a Path) -> Option<&'a [u8]>
    ensures { option_copied result ≡ next_atom_of dir.now path.entry.now }
{
    if !path.is_below(dir) {
        return None;
    }
    Some(first_part(text_below(dir, path)))
}
