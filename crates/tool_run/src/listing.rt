//! Listings: what a run's own writes add to the names in a directory.
ghost use Rattle.std.specs.Prelude.{◌≡◌, IfOk};
ghost use Rattle.bx_tree.specs.Lent.{texts_now};
ghost use Rattle.observed.specs.Asks.{asked_names as names_asked};
ghost use Rattle.tool_run.specs.Listings.{listed};
ghost use Rattle.tool_run_writes.specs.Writes.{own_names as names_below};

use crate::content::Content;
use crate::name_lines::{in_order, lines, matching, names_of_lines};
use bx_digest::Blob;
use observed::{Ask, AskKind};
use std::alloc::{AllocError, Global};
use tool_run_writes::Writes;

/// Those of the names that a listing asks for.
pub fn asked_names<'a>(
    alloc: Global,
    kind: &AskKind,
    names: Vec<&'a [u8]>,
) -> Result<Vec<&'a [u8]>, AllocError>
    ensures { IfOk result (λ asked. texts_now asked.items ≡ names_asked kind.now (texts_now names.entry.items)) }
{
    match kind {
        AskKind::Read | AskKind::Probe | AskKind::List => Ok(names),
        AskKind::Match(pattern) => matching(alloc, pattern, names.as_slice()),
    }
}

// The listing that is asked for, with what own writes add to it.
pub(crate) fn with_own_names(
    alloc: Global,
    writes: &Writes,
    ask: &Ask,
    seen: &Blob,
) -> Result<Content, AllocError>
    ensures { IfOk result (λ content. content
        ≡ listed seen.now (names_asked ask.now.kind (names_below writes.now ask.now.path))) }
{
    let own = asked_names(alloc, &ask.kind, writes.own_names(alloc, &ask.path)?)?;
    if own.is_empty() {
        return Ok(Content::of_file(seen.share()?));
    }
    let mut own = own;
    let mut names = names_of_lines(alloc, seen.bytes())?;
    names.append(&mut own)?;
    let all = in_order(names)?;
    Ok(Content::of(lines(alloc, all.as_slice())?))
}
