//! Names: the lines of a text, in order and each once.
ghost use Rattle.std.specs.Prelude.{◌≡◌, [], true, IfOk, filter};
ghost use Rattle.bx_path.specs.Globbing.{is_match};
ghost use Rattle.tool_run.specs.Listings.{add_names as with_names, names_in, names_text};
ghost use Rattle.tool_run.specs.NameSets.{IsNameSet};
ghost use Rattle.bx_tree.specs.Lent.{texts_now};
ghost use Rattle.bx_tree.specs.Sets.{IsSetUpTo};

use observed::Pattern;
use std::alloc::{AllocError, Global};

/// The lines of a text that are not empty.
pub fn names_of_lines(alloc: Global, text: &[u8]) -> Result<Vec<&[u8]>, AllocError>
    ensures { IfOk result (λ names. texts_now names.items ≡ names_in text.entry.now) }
{
    text.split(|byte| *byte == b'\n')
        .filter(|line| !line.is_empty())
        .collect(alloc)
}

// Whether each name comes before the next one.
fn rise(names: &[&[u8]]) -> bool
    ensures { result ≡ true → IsNameSet (texts_now names.now) }
{
    names.is_sorted_by(|name, next| name.cmp(next).is_lt())
}

// The elements in rising order, each once.
fn sorted<T: Ord + Drop>(items: Vec<T>) -> Result<Vec<T>, AllocError>
    ensures { IfOk result (λ set. IsSetUpTo T.eq T.cmp items.items set.items) }
{
    let mut items = items;
    items.sort()?;
    items.dedup();
    Ok(items)
}

/// The names in the order of their bytes, each once. Names that are so already are not moved.
pub fn in_order(names: Vec<&[u8]>) -> Result<Vec<&[u8]>, AllocError>
    ensures { IfOk result (λ set. texts_now set.items ≡ with_names [] (texts_now names.entry.items)) }
{
    if rise(names.as_slice()) {
        return Ok(names);
    }
    sorted(names)
}

/// Names, each with a newline after it.
pub fn lines(alloc: Global, names: &[&[u8]]) -> Result<Vec<u8>, AllocError>
    ensures { IfOk result (λ text. text.items ≡ names_text (texts_now names.now)) }
{
    let mut text = Vec::new(alloc);
    'names: for name in names {
        text.extend_from_slice(name)?;
        text.push(b'\n')?;
    }
    Ok(text)
}

/// Those of the names that a pattern matches, in order.
pub fn matching<'a>(
    alloc: Global,
    pattern: &Pattern,
    names: &[&'a [u8]],
) -> Result<Vec<&'a [u8]>, AllocError>
    ensures { IfOk result (λ matching.
        texts_now matching.items ≡ filter (is_match pattern.now) (texts_now names.now)) }
{
    let mut matching = Vec::new(alloc);
    'names: for name in names {
        if pattern.matches(name) {
            matching.push(*name)?;
        }
    }
    Ok(matching)
}
