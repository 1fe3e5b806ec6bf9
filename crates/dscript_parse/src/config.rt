//! Configuration files, of a workspace and of a module.

ghost use Rattle.std.specs.Prelude.{◌≡◌, suc};
ghost use Rattle.dscript_ast.specs.Views.{expr_tree, file_tree};
ghost use Rattle.dscript_ast.specs.declared.file.Form.TheVariants as forms;
ghost use Rattle.dscript_grammar.specs.FileReading.{read_called, read_file};
ghost use Rattle.dscript_parse.specs.Refuses.{Finishes};
ghost use Rattle.dscript_parse_tokens.specs.Gives.{Parses};

use crate::fault::SyntaxFault;
use dscript_ast::{Expr, File};
use dscript_lex::Token;
use dscript_parse_exprs::expr;
use dscript_parse_tokens::{Depth, Parse, Parsed, Refusal, closed, keyword, punctuator};
use std::alloc::Global;

/// What a configuration is called with, after its keyword.
#[tactic(auto, unfolding(dscript_grammar::specs::FileReading::read_called, dscript_grammar::specs::Reading::and_then))]
fn called<'a>(alloc: Global, depth: Depth, tokens: &'a [Token]) -> Parse<'a, Expr>
    ensures { Parses expr_tree (read_called depth.levels) depth.levels tokens.now result }
{
    let rest = punctuator(tokens, b"(")?;
    let value = closed(expr(alloc, depth, rest)?, b")")?;
    closed(value, b";")
}

/// The configuration of a workspace.
#[tactic(auto, unfolding(dscript_grammar::specs::FileReading::read_file, dscript_grammar::specs::Reading::and_then))]
pub(crate) fn config<'a>(alloc: Global, depth: Depth, tokens: &'a [Token]) -> Parse<'a, File>
    ensures { Parses file_tree (read_file (suc depth.levels) forms.Config) (suc depth.levels)
        tokens.now result }
{
    let rest = keyword(tokens, b"config")?;
    let value = called(alloc, depth, rest)?;
    Ok(Parsed {
        value: File::Config(value.value),
        height: value.height + 1,
        rest: value.rest,
    })
}

/// The configuration of a module.
#[tactic(auto, unfolding(dscript_grammar::specs::FileReading::read_file, dscript_grammar::specs::Reading::and_then))]
pub(crate) fn module<'a>(alloc: Global, depth: Depth, tokens: &'a [Token]) -> Parse<'a, File>
    ensures { Parses file_tree (read_file (suc depth.levels) forms.Module) (suc depth.levels)
        tokens.now result }
{
    let rest = keyword(tokens, b"module")?;
    let value = called(alloc, depth, rest)?;
    Ok(Parsed {
        value: File::Module(value.value),
        height: value.height + 1,
        rest: value.rest,
    })
}

/// A configuration, where no token is left after it.
pub(crate) fn whole(read: Parse<'_, File>) -> Result<File, SyntaxFault>
    ensures { Finishes read.entry result }
{
    match read {
        Ok(file) => {
            if file.rest.is_empty() {
                Ok(file.value)
            } else {
                Err(SyntaxFault::Syntax { at: 0 })
            }
        }
        Err(Refusal::Syntax) => Err(SyntaxFault::Syntax { at: 0 }),
        Err(Refusal::Memory) => Err(SyntaxFault::Memory),
    }
}
