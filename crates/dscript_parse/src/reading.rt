//! Reads a text as a file.

ghost use Rattle.std.specs.Prelude.{◌≤◌, length, MatchResult};
ghost use Rattle.dscript_ast.specs.Views.{file_tree};
ghost use Rattle.dscript_parse.specs.Reading.{HasNoTokens, IsFile, IsNoFile};
ghost use Rattle.dscript_parse.specs.ReadFaults.{Refuses};

use crate::fault::SyntaxFault;
use crate::parsing::parse;
use crate::place::{place_at, start_of};
use crate::read_fault::ReadFault;
use bx_tree::MAX_FILE_BYTES;
use dscript_ast::{File, Form};
use dscript_lex::{LexFault, lex};
use std::alloc::Global;

/// The file of this form that a text is, or the first fault with its place: that of the lexer, or, where
/// there are tokens, that of the parser. The tokens are freed before this returns.
#[tactic(auto, using(crate::proofs::TokenCount::at_most_bytes))]
pub fn read_file(alloc: Global, text: &[u8], form: Form) -> Result<File, ReadFault>
    requires { length text.now ≤ MAX_FILE_BYTES }
    ensures { MatchResult result
        (λ file. IsFile form text.now (file_tree file))
        (λ fault. Refuses form text.now fault) }
{
    let tokens = match lex(alloc, text) {
        Ok(tokens) => tokens,
        Err(LexFault::Lex { at }) => return Err(ReadFault::Lex(place_at(text, at as usize))),
        Err(LexFault::Memory) => return Err(ReadFault::Memory),
    };
    match parse(alloc, &tokens, form) {
        Ok(file) => Ok(file),
        Err(SyntaxFault::Syntax { at }) => {
            let start = start_of(text, &tokens, at as usize);
            Err(ReadFault::Syntax(place_at(text, start)))
        }
        Err(SyntaxFault::Memory) => Err(ReadFault::Memory),
    }
}
