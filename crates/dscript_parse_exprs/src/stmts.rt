//! Statements.

ghost use Rattle.std.specs.Prelude.{◌≡◌, ◌≤◌, suc, length, map};
ghost use Rattle.dscript_ast.specs.Views.{expr_tree, stmt_tree};
ghost use Rattle.dscript_grammar.specs.ExprReading.{read_assign, read_block, read_by_keyword, read_const};
ghost use Rattle.dscript_grammar.specs.ExprReading.{read_else};
ghost use Rattle.dscript_grammar.specs.ExprReading.{read_for, read_if, read_let, read_return, read_simple};
ghost use Rattle.dscript_grammar.specs.ExprReading.{read_stmt, read_value};
ghost use Rattle.dscript_parse_exprs.specs.Levels.{at_depth};
ghost use Rattle.dscript_parse_tokens.specs.Gives.{kinds, MayRead, Parses};

use crate::exprs::expr;
use crate::lookahead::{at_assign, loop_kind};
use crate::parts::{as_for, as_if, as_if_else, note};
use dscript_ast::{Expr, Stmt};
use dscript_lex::Token;
use dscript_parse_tokens::{
    Depth, Parse, Parsed, at_punctuator, closed, higher, identifier, keyword, punctuator,
    take_keyword, take_punctuator, until,
};
use std::alloc::Global;

/// Statements in braces.
#[cycle(trees)]
#[tactic(auto, unfolding(dscript_grammar::specs::ExprReading::read_block, dscript_grammar::specs::Reading::and_then))]
pub fn block<'a>(alloc: Global, depth: Depth, tokens: &'a [Token]) -> Parse<'a, Vec<Stmt>>
    ensures { Parses (λ v. map stmt_tree v.items)
        (at_depth read_block depth.levels) depth.levels tokens.now result }
{
    let rest = punctuator(tokens, b"{")?;
    until(alloc, depth, b"}", rest, stmt)
}

/// A statement.
#[cycle(trees)]
#[tactic(auto, using(dscript_ast::proofs::NodeViews::tree_views), unfolding(dscript_grammar::specs::ExprReading::read_stmt, dscript_grammar::specs::ExprReading::read_any_stmt, dscript_grammar::specs::Reading::and_then, dscript_grammar::specs::Reading::choose, dscript_grammar::specs::Reading::pick))]
fn stmt<'a>(alloc: Global, depth: Depth, tokens: &'a [Token]) -> Parse<'a, Stmt>
    ensures { Parses stmt_tree (read_stmt depth.levels) depth.levels tokens.now result }
{
    let inner = depth.below()?;
    if let Some(rest) = take_punctuator(tokens, b";") {
        return Ok(Parsed {
            value: Stmt::Empty,
            height: 1,
            rest: rest,
        });
    }
    if at_punctuator(tokens, b"{") {
        let body = block(alloc, inner, tokens)?;
        return Ok(Parsed {
            value: Stmt::Block(body.value),
            height: body.height + 1,
            rest: body.rest,
        });
    }
    by_keyword(alloc, inner, tokens)
}

/// A statement by the keyword that it begins with.
#[cycle(trees)]
#[tactic(auto, unfolding(dscript_grammar::specs::ExprReading::read_by_keyword, dscript_grammar::specs::Reading::choose))]
fn by_keyword<'a>(alloc: Global, depth: Depth, tokens: &'a [Token]) -> Parse<'a, Stmt>
    ensures { Parses stmt_tree (at_depth read_by_keyword depth.levels) (suc depth.levels) tokens.now result }
{
    if let Some(rest) = take_keyword(tokens, b"const") {
        return const_stmt(alloc, depth, rest);
    }
    if let Some(rest) = take_keyword(tokens, b"let") {
        return let_stmt(alloc, depth, rest);
    }
    if let Some(rest) = take_keyword(tokens, b"if") {
        return if_stmt(alloc, depth, rest);
    }
    if let Some(rest) = take_keyword(tokens, b"for") {
        return for_stmt(alloc, depth, rest);
    }
    if let Some(rest) = take_keyword(tokens, b"return") {
        return return_stmt(alloc, depth, rest);
    }
    simple(alloc, depth, tokens)
}

/// A value between `=` and `;`.
#[cycle(trees)]
#[tactic(auto, unfolding(dscript_grammar::specs::ExprReading::read_value, dscript_grammar::specs::Reading::and_then))]
pub fn value<'a>(alloc: Global, depth: Depth, tokens: &'a [Token]) -> Parse<'a, Expr>
    ensures { Parses expr_tree (at_depth read_value depth.levels) depth.levels tokens.now result }
{
    let rest = punctuator(tokens, b"=")?;
    closed(expr(alloc, depth, rest)?, b";")
}

/// A constant, after its keyword.
#[cycle(trees)]
#[tactic(auto, using(dscript_ast::proofs::NodeViews::tree_views), unfolding(dscript_grammar::specs::ExprReading::read_const, dscript_grammar::specs::Reading::and_then))]
fn const_stmt<'a>(alloc: Global, depth: Depth, tokens: &'a [Token]) -> Parse<'a, Stmt>
    ensures { Parses stmt_tree (at_depth read_const depth.levels) (suc depth.levels) tokens.now result }
{
    let name = identifier(tokens)?;
    let note = note(alloc, depth, name.rest)?;
    let value = value(alloc, depth, note.rest)?;
    Ok(Parsed {
        value: Stmt::Const(name.value, note.value, value.value),
        height: higher(note.height, value.height) + 1,
        rest: value.rest,
    })
}

/// A variable, after its keyword.
#[cycle(trees)]
#[tactic(auto, using(crate::proofs::OptionalParts::optional_views), unfolding(dscript_grammar::specs::ExprReading::read_let, dscript_grammar::specs::ExprReading::read_start, dscript_grammar::specs::Reading::and_then, dscript_grammar::specs::Reading::choose))]
fn let_stmt<'a>(alloc: Global, depth: Depth, tokens: &'a [Token]) -> Parse<'a, Stmt>
    ensures { Parses stmt_tree (at_depth read_let depth.levels) (suc depth.levels) tokens.now result }
{
    let name = identifier(tokens)?;
    let note = note(alloc, depth, name.rest)?;
    let Some(rest) = take_punctuator(note.rest, b"=") else {
        let rest = punctuator(note.rest, b";")?;
        return Ok(Parsed {
            value: Stmt::Let(name.value, note.value, None),
            height: note.height + 1,
            rest: rest,
        });
    };
    let start = closed(expr(alloc, depth, rest)?, b";")?;
    Ok(Parsed {
        value: Stmt::Let(name.value, note.value, Some(start.value)),
        height: higher(note.height, start.height) + 1,
        rest: start.rest,
    })
}

/// A condition and what depends on it, after its keyword.
#[cycle(trees)]
#[tactic(auto, unfolding(dscript_grammar::specs::ExprReading::read_if, dscript_grammar::specs::Reading::and_then))]
fn if_stmt<'a>(alloc: Global, depth: Depth, tokens: &'a [Token]) -> Parse<'a, Stmt>
    ensures { Parses stmt_tree (at_depth read_if depth.levels) (suc depth.levels) tokens.now result }
{
    let rest = punctuator(tokens, b"(")?;
    let condition = closed(expr(alloc, depth, rest)?, b")")?;
    let body = stmt(alloc, depth, condition.rest)?;
    otherwise(alloc, depth, condition, body)
}

/// What depends on the contrary of a condition, if there is such, after the condition and what depends on it.
#[cycle(trees)]
#[tactic(auto, unfolding(dscript_grammar::specs::ExprReading::read_else, dscript_grammar::specs::Reading::and_then, dscript_grammar::specs::Reading::choose))]
fn otherwise<'a>(
    alloc: Global,
    depth: Depth,
    condition: Parsed<'a, Expr>,
    body: Parsed<'a, Stmt>,
) -> Parse<'a, Stmt>
    requires condition { condition.height ≤ depth.levels }
    requires body { body.height ≤ depth.levels }
    ensures { MayRead stmt_tree
        (at_depth read_else depth.levels (expr_tree condition.entry.value) condition.entry.height
        (stmt_tree body.entry.value) body.entry.height)
        (suc depth.levels) body.entry.rest.now result }
{
    match take_keyword(body.rest, b"else") {
        Some(rest) => {
            let other = stmt(alloc, depth, rest)?;
            as_if_else(alloc, depth, condition, body, other)
        }
        None => as_if(alloc, depth, condition, body),
    }
}

/// A loop, after its keyword.
#[cycle(trees)]
#[tactic(auto, unfolding(dscript_grammar::specs::ExprReading::read_for, dscript_grammar::specs::Reading::and_then))]
fn for_stmt<'a>(alloc: Global, depth: Depth, tokens: &'a [Token]) -> Parse<'a, Stmt>
    ensures { Parses stmt_tree (at_depth read_for depth.levels) (suc depth.levels) tokens.now result }
{
    let rest = punctuator(tokens, b"(")?;
    let kind = loop_kind(rest)?;
    let name = identifier(kind.rest)?;
    let rest = keyword(name.rest, b"of")?;
    let items = closed(expr(alloc, depth, rest)?, b")")?;
    let body = stmt(alloc, depth, items.rest)?;
    as_for(alloc, depth, kind.value, name.value, items, body)
}

/// A return, after its keyword.
#[cycle(trees)]
#[tactic(auto, using(crate::proofs::OptionalParts::optional_views), unfolding(dscript_grammar::specs::ExprReading::read_return, dscript_grammar::specs::Reading::and_then, dscript_grammar::specs::Reading::choose))]
fn return_stmt<'a>(alloc: Global, depth: Depth, tokens: &'a [Token]) -> Parse<'a, Stmt>
    ensures { Parses stmt_tree (at_depth read_return depth.levels) (suc depth.levels) tokens.now result }
{
    if let Some(rest) = take_punctuator(tokens, b";") {
        return Ok(Parsed {
            value: Stmt::Return(None),
            height: 1,
            rest: rest,
        });
    }
    let value = closed(expr(alloc, depth, tokens)?, b";")?;
    Ok(Parsed {
        value: Stmt::Return(Some(value.value)),
        height: value.height + 1,
        rest: value.rest,
    })
}

/// An assignment, or an expression by itself.
#[cycle(trees)]
#[tactic(auto, using(dscript_ast::proofs::NodeViews::tree_views), unfolding(dscript_grammar::specs::ExprReading::read_simple, dscript_grammar::specs::ExprReading::read_assign, dscript_grammar::specs::Reading::and_then, dscript_grammar::specs::Reading::pick))]
fn simple<'a>(alloc: Global, depth: Depth, tokens: &'a [Token]) -> Parse<'a, Stmt>
    ensures { Parses stmt_tree (at_depth read_simple depth.levels) (suc depth.levels) tokens.now result }
{
    if at_assign(tokens) {
        let name = identifier(tokens)?;
        let value = value(alloc, depth, name.rest)?;
        return Ok(Parsed {
            value: Stmt::Assign(name.value, value.value),
            height: value.height + 1,
            rest: value.rest,
        });
    }
    let value = closed(expr(alloc, depth, tokens)?, b";")?;
    Ok(Parsed {
        value: Stmt::Value(value.value),
        height: value.height + 1,
        rest: value.rest,
    })
}
