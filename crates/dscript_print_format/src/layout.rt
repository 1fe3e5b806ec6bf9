//! The layout of a text.

ghost use Rattle.std.specs.Prelude.{◌≤◌, length, MatchResult};
ghost use Rattle.dscript_ast.specs.Views.{file_tree};
ghost use Rattle.dscript_lex.specs.declared.limits.TheConstants.{MAX_LEXED_BYTES};
ghost use Rattle.dscript_grammar.specs.declared.height.TheConstants.{MAX_HEIGHT};
ghost use Rattle.dscript_print.specs.Printing.{TextDerives};
ghost use Rattle.dscript_print_format.specs.Layouts.{IsLaidOut, Refuses};

use crate::fault::LayoutFault;
use dscript_ast::{File, Form};
use dscript_lex::{LexFault, lex};
use dscript_parse::{SyntaxFault, parse};
use dscript_print::print;
use std::alloc::Global;

/// The file of this form that the text is.
#[tactic(auto, using(dscript_parse::proofs::TokenCount::at_most_bytes))]
fn file_of(alloc: Global, text: &[u8], form: Form) -> Result<File, LayoutFault>
    requires { length text.now ≤ MAX_LEXED_BYTES }
    ensures { MatchResult result
        (λ file. TextDerives form text.now (file_tree file) MAX_HEIGHT)
        (λ fault. Refuses fault form text.now) }
{
    let tokens = match lex(alloc, text) {
        Ok(tokens) => tokens,
        Err(LexFault::Lex { at }) => return Err(LayoutFault::Lex { at }),
        Err(LexFault::Memory) => return Err(LayoutFault::Memory),
    };
    match parse(alloc, &tokens, form) {
        Ok(file) => Ok(file),
        Err(SyntaxFault::Syntax { at }) => Err(LayoutFault::Syntax { at }),
        Err(SyntaxFault::Memory) => Err(LayoutFault::Memory),
    }
}

/// The text of a file of this form, laid out as `dscript_print` does: comments are dropped, and blanks,
/// quotes, escapes and parentheses are those that it chooses.
#[tactic(auto, using(crate::proofs::RoundTrip::laid_out))]
pub fn lay_out(alloc: Global, text: &[u8], form: Form) -> Result<Vec<u8>, LayoutFault>
    requires { length text.now ≤ MAX_LEXED_BYTES }
    ensures { MatchResult result
        (λ laid. IsLaidOut form text.now laid.items)
        (λ fault. Refuses fault form text.now) }
{
    let file = file_of(alloc, text, form)?;
    let laid = print(alloc, &file)?;
    Ok(laid)
}
