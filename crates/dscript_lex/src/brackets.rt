//! The brackets that are open: the holes of templates, and braces.

ghost use Rattle.std.specs.Prelude.{◌≡◌, ◌↔◌, reverse, IsTrue, OnOk};
ghost use Rattle.dscript_lex.specs.Tokens.{brackets_after, after_punctuator, closed, in_hole, NoHole};

use crate::lexeme::LexemeKind;
use crate::token::TokenKind;
use std::alloc::AllocError;

/// A bracket that is open.
#[derive(Clone, Copy)]
pub enum Bracket {
    /// The hole of a template.
    Hole,
    /// A brace of the text.
    Brace,
}

/// Whether the innermost open bracket is a hole.
pub(crate) fn in_hole(brackets: &[Bracket]) -> bool
    ensures { result ≡ in_hole (reverse brackets.now) }
{
    match brackets.last() {
        Some(Bracket::Hole) => true,
        _ => false,
    }
}

/// Opens or closes the brace that a punctuator opens or closes.
fn follow_punctuator(brackets: &mut Vec<Bracket>, punctuator: &[u8]) -> Result<(), AllocError>
    ensures { OnOk result
        (reverse brackets.new.items ≡ after_punctuator punctuator.now (reverse brackets.old.items)) }
{
    match punctuator {
        [b'{'] => brackets.push(Bracket::Brace)?,
        [b'}'] => {
            brackets.pop();
        }
        _ => {}
    }
    Ok(())
}

/// Opens and closes the brackets that the lexeme opens and closes.
pub(crate) fn follow(brackets: &mut Vec<Bracket>, kind: &LexemeKind) -> Result<(), AllocError>
    ensures { OnOk result
        (reverse brackets.new.items ≡ brackets_after kind.now (reverse brackets.old.items)) }
{
    let LexemeKind::Spelled(kind) = kind else {
        return Ok(());
    };
    match kind {
        TokenKind::Head(_) => brackets.push(Bracket::Hole)?,
        TokenKind::Middle(_) => {
            brackets.pop();
            brackets.push(Bracket::Hole)?;
        }
        TokenKind::Tail(_) => {
            brackets.pop();
        }
        TokenKind::Punct(punctuator) => follow_punctuator(brackets, punctuator.bytes())?,
        _ => {}
    }
    Ok(())
}

/// Whether no template has a hole open.
pub(crate) fn has_no_hole(mut brackets: Vec<Bracket>) -> bool
    ensures { IsTrue result ↔ NoHole (reverse brackets.items) }
{
    'open: while let Some(innermost) = brackets.pop() {
        match innermost {
            Bracket::Hole => return false,
            Bracket::Brace => {}
        }
    }
    true
}
