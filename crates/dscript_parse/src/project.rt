//! Project files.

ghost use Rattle.std.specs.Prelude.{◌≡◌, ◌≤◌, Some, length, MatchResult};
ghost use Rattle.dscript_ast.specs.Views.{file_tree};
ghost use Rattle.dscript_ast.specs.declared.file.Form.TheVariants as forms;
ghost use Rattle.dscript_grammar.specs.FileReading.{file_of};
ghost use Rattle.dscript_lex.specs.declared.limits.TheConstants.{MAX_LEXED_BYTES};
ghost use Rattle.dscript_parse.specs.Refuses.{Refuses};
ghost use Rattle.dscript_parse_tokens.specs.Gives.{kinds};

use crate::fault::SyntaxFault;
use crate::items::item;
use dscript_ast::File;
use dscript_lex::Token;
use dscript_parse_tokens::{Depth, Refusal};
use std::alloc::Global;

/// The project file that all of the tokens are: its items are read one by one, up to the first wrong one.
pub(crate) fn project(alloc: Global, tokens: &[Token]) -> Result<File, SyntaxFault>
    requires { length tokens.now ≤ MAX_LEXED_BYTES }
    ensures { MatchResult result
        (λ file. file_of forms.Project (kinds tokens.now) ≡ Some (file_tree file))
        (λ fault. Refuses fault forms.Project (kinds tokens.now)) }
{
    let depth = Depth::in_file();
    let mut items = Vec::new(alloc);
    let mut rest = tokens;
    'items: while !rest.is_empty() {
        match item(alloc, depth, rest) {
            Ok(next) => {
                rest = next.rest;
                items.push(next.value)?;
            }
            Err(Refusal::Syntax) => {
                let at = (tokens.len() - rest.len()) as u32;
                return Err(SyntaxFault::Syntax { at });
            }
            Err(Refusal::Memory) => return Err(SyntaxFault::Memory),
        }
    }
    Ok(File::Project(items))
}
