//! Selectors, and the text of a list of them.
ghost use Rattle.std.specs.Prelude.{◌≡◌, ◌≤◌, ◌++◌, Err, IfOk, OnOk, Some, List, codes, length};
ghost use Rattle.prints.specs.Lines.{begins};
ghost use Rattle.std.proofs.Common.{refl};
ghost use Rattle.prints.specs.Reading.{GivesItems, Takes};
ghost use Rattle.memo_format.specs.Answers.{ReadsItems};
ghost use Rattle.memo_format.specs.declared.selector.Selector.{Selector as AnySelector};
ghost use Rattle.memo_format.specs.Selectors.{AreSelectors, IsSelector, body_selectors, read_selectors_text};
ghost use Rattle.memo_format.specs.Selectors.{select_at, select_line, selectors_text};
ghost use Rattle.memo_format.specs.StoredForms.{select_form};

use crate::fault::FormatFault;
use crate::sealing::{seal, unseal};
use bx_digest::Digest;
use prints::{Cursor, Line, PrintFault, append_digest, append_lines, read_lines};
use std::alloc::{AllocError, Global};

/// The greatest number of selectors in a list.
pub const MAX_SELECTORS: usize = 64;

/// The digest of a path set, and that of the strong text which the answers to its asks gave.
#[derive(Clone, Copy, Debug)]
pub struct Selector {
    pub paths: Digest,
    pub strong: Digest,
}

// The kind of line that says a selector.
struct SelectorLine;

impl Line<Selector, Selector> for SelectorLine {
    ghost says = { λ s. s };

    ghost line = { select_line };

    ghost line_at = { select_at };

    ghost starts = { begins (codes "select ") };

    ghost Fits = { IsSelector };

    ghost form = { select_form };

    ghost seen = { λ _ _. refl };

    ghost none = { refl };

    fn append(alloc: Global, text: &mut Vec<u8>, value: &Selector) -> Result<(), AllocError> {
        text.extend_from_slice(b"select ")?;
        append_digest(alloc, text, &value.paths, b' ')?;
        append_digest(alloc, text, &value.strong, b'\n')
    }

    fn has_line(value: &Selector) {
        let _paths = value.paths.bytes();
        let _strong = value.strong.bytes();
    }

    fn is_next(cursor: &Cursor) -> bool {
        cursor.begins(b"select ")
    }

    fn read(_alloc: Global, cursor: &mut Cursor) -> Result<Selector, PrintFault> {
        cursor.word(b"select ")?;
        let paths = cursor.digest(b' ')?;
        let strong = cursor.digest(b'\n')?;
        Ok(Selector { paths, strong })
    }
}

/// The text of a list of selectors.
pub fn write_selectors(alloc: Global, list: &[Selector]) -> Result<Vec<u8>, AllocError>
    requires { length list.now ≤ MAX_SELECTORS }
    ensures text { IfOk result (λ text. text.items ≡ selectors_text list.now) }
    ensures read { IfOk result (λ text. read_selectors_text text.items ≡ Some list.now) }
{
    let mut text = Vec::from_slice(alloc, b"selectors 1\n")?;
    append_lines::<Selector, Selector, SelectorLine>(alloc, &mut text, list)?;
    seal(alloc, &mut text)?;
    Ok(text)
}

// The selectors of a body.
#[tactic(auto, unfolding(crate::specs::Selectors::body_selectors))]
fn in_body(alloc: Global, body: &[u8]) -> Result<Vec<Selector>, PrintFault>
    ensures { GivesItems result (body_selectors body.now) }
{
    let mut cursor = Cursor::of(body);
    cursor.word(b"selectors 1\n")?;
    let list = read_lines::<Selector, Selector, SelectorLine>(alloc, &mut cursor)?;
    if list.len() > MAX_SELECTORS {
        return Err(PrintFault::BadPrint);
    }
    cursor.end()?;
    Ok(list)
}

// The selectors of a text.
#[tactic(auto, unfolding(crate::specs::Selectors::read_selectors_text))]
fn selectors_in(alloc: Global, bytes: &[u8]) -> Result<Vec<Selector>, PrintFault>
    ensures { GivesItems result (read_selectors_text bytes.now) }
{
    let body = unseal(alloc, bytes)?;
    in_body(alloc, body)
}

/// The list of selectors that has a text: at most 64, and with the seal that fits.
pub fn read_selectors(alloc: Global, bytes: &[u8]) -> Result<Vec<Selector>, FormatFault>
    ensures found { IfOk result (λ list. AreSelectors list.items × (bytes.now ≡ selectors_text list.items)) }
    ensures none { result ≡ Err FormatFault.BadForm → (list : List AnySelector) →
        AreSelectors list → bytes.now ≡ selectors_text list → ⊥ }
    ensures read { ReadsItems result (read_selectors_text bytes.now) }
{
    match selectors_in(alloc, bytes) {
        Ok(list) => Ok(list),
        Err(PrintFault::BadPrint) => Err(FormatFault::BadForm),
        Err(PrintFault::Memory) => Err(FormatFault::Memory),
    }
}
