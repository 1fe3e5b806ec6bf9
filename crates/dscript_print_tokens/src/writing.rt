//! Texts that have given tokens.

ghost use Rattle.std.specs.Prelude.{◌≡◌, ◌*◌, ◌++◌, ◌∷◌, [], replicate, IfOk, OnOk};
ghost use Rattle.dscript_print_tokens.specs.Layout.{blanks, written};
ghost use Rattle.dscript_print_tokens.specs.Spellable.{kinds, AreSpellable, HasKinds};
ghost use Rattle.dscript_print_tokens.specs.declared.side.Side.TheVariants.{Other};

use crate::laid::{Gap, Laid};
use crate::side::{Side, run_together, side_of};
use crate::spelling::push_spelling;
use bx_tree::Memory;
use std::alloc::{AllocError, Global};

/// Appends four spaces for each level.
fn push_levels(text: &mut Vec<u8>, levels: u32) -> Result<(), AllocError>
    ensures { OnOk result (text.new.items ≡ text.old.items ++ replicate (4 * levels) 0x20) }
{
    'levels: for _ in 0..levels {
        text.extend_from_slice(b"    ")?;
    }
    Ok(())
}

/// Appends the blanks before a token, which may run together with the token before it.
fn push_gap(text: &mut Vec<u8>, gap: Gap, together: bool) -> Result<(), AllocError>
    ensures { OnOk result (text.new.items ≡ text.old.items ++ blanks gap together) }
{
    match gap {
        Gap::None => {
            if together {
                text.push(b' ')?;
            }
        }
        Gap::Space => text.push(b' ')?,
        Gap::Line(levels) => {
            text.push(b'\n')?;
            push_levels(text, levels)?;
        }
    }
    Ok(())
}

/// The tokens as they are laid out, and a newline at the end.
pub(crate) fn write(alloc: Global, laid: &[Laid]) -> Result<Vec<u8>, AllocError>
    ensures { IfOk result (λ text. text.items ≡ written Other laid.now) }
{
    let mut text = Vec::new(alloc);
    let mut before = Side::Other;
    'tokens: for token in laid {
        let side = side_of(&token.kind);
        push_gap(&mut text, token.gap, run_together(before, side))?;
        push_spelling(alloc, &mut text, &token.kind)?;
        before = side;
    }
    text.push(b'\n')?;
    Ok(text)
}

/// A text that has these tokens, in order, laid out as asked, where some text can have them. It ends
/// with a newline, unless there is no token.
///
/// Strings are in `"`, numbers are decimal, and a byte is escaped only where it has to be.
/// docs/FORMATS.md says how tokens are spelled.
pub fn spell(alloc: Global, laid: &[Laid]) -> Result<Vec<u8>, Memory>
    ensures tokens { IfOk result
        (λ text. AreSpellable (kinds laid.now) → HasKinds text.items (kinds laid.now)) }
    ensures nothing { laid.now ≡ [] → IfOk result (λ text. text.items ≡ []) }
{
    if laid.is_empty() {
        return Ok(Vec::new(alloc));
    }
    write(alloc, laid)
}
