//! The parser.

ghost use Rattle.std.specs.Prelude.{◌≡◌, ◌≤◌, ℕ, length, IfOk, MatchResult};
ghost use Rattle.dscript_ast.specs.FileTree.{FileTree};
ghost use Rattle.dscript_ast.specs.Views.{file_tree};
ghost use Rattle.dscript_grammar.specs.Derives.{Derives};
ghost use Rattle.dscript_grammar.specs.declared.height.TheConstants.{MAX_HEIGHT};
ghost use Rattle.dscript_lex.specs.declared.limits.TheConstants.{MAX_LEXED_BYTES};
ghost use Rattle.dscript_parse.specs.Refuses.{Refuses};
ghost use Rattle.dscript_parse_tokens.specs.Gives.{kinds};

use crate::config::{config, module, whole};
use crate::fault::SyntaxFault;
use crate::project::project;
use dscript_ast::{File, Form};
use dscript_lex::Token;
use dscript_parse_tokens::Depth;
use std::alloc::Global;

/// The file of this form that all of the tokens are. docs/FORMATS.md has the grammar, and
/// `dscript_grammar` its definition. The places of the tokens in their text make no difference, and a text
/// has at most as many tokens as bytes.
///
/// Only trees of a height up to `MAX_HEIGHT` count. The height of a file is one more than the greatest height
/// of its parts, and so is that of a declaration, an import, a statement, an expression and a type; the
/// height of an item is that of its declaration. Each pair of parentheses around an expression or a type
/// counts one, and all else, such as parameters, properties, members and marks, counts nothing. So a file
/// whose one item is `const x = 1;` has the height 3, and `const x = (1);` has 4.
pub fn parse(alloc: Global, tokens: &[Token], form: Form) -> Result<File, SyntaxFault>
    requires { length tokens.now ≤ MAX_LEXED_BYTES }
    ensures exact { MatchResult result
        (λ file. Derives form (kinds tokens.now) (file_tree file) MAX_HEIGHT)
        (λ fault. Refuses fault form (kinds tokens.now)) }
    ensures only_file { IfOk result (λ file. (other : FileTree) (height : ℕ) →
        Derives form (kinds tokens.now) other height → other ≡ file_tree file) }
{
    match form {
        Form::Project => project(alloc, tokens),
        Form::Config => whole(config(alloc, Depth::in_file(), tokens)),
        Form::Module => whole(module(alloc, Depth::in_file(), tokens)),
    }
}
