//! Parts of expressions and statements that hold none, and nodes over parts that were read.

ghost use Rattle.std.specs.Prelude.{◌≡◌, ◌≤◌, suc, length, map, max};
ghost use Rattle.dscript_ast.specs.ExprTree as tree;
ghost use Rattle.dscript_ast.specs.ExprTree.{to_operands, to_stmts};
ghost use Rattle.dscript_ast.specs.Views.{expr_tree, head_tree, note_tree, operand_tree, param_tree};
ghost use Rattle.dscript_ast.specs.Views.{part_tree};
ghost use Rattle.dscript_ast.specs.Views.{stmt_tree};
ghost use Rattle.dscript_ast.specs.declared.precedence.TheConstants.{PRODUCT, OR};
ghost use Rattle.dscript_grammar.specs.ExprReading.{as_chain, as_postfix, as_unary, at_prefix};
ghost use Rattle.dscript_grammar.specs.ExprReading.{read_arrow_head, read_expr};
ghost use Rattle.dscript_grammar.specs.ExprReading.{read_literal, read_note, read_param, read_params};
ghost use Rattle.dscript_grammar.specs.ExprReading.{read_prefix, read_stmt};
ghost use Rattle.dscript_grammar.specs.Reading.{got, read_many};
ghost use Rattle.dscript_grammar.specs.TypeReading.{above};
ghost use Rattle.dscript_parse_exprs.specs.Levels.{at_depth};
ghost use Rattle.dscript_parse_tokens.specs.Gives.{kinds, Gives, MayRead, Parses};

use crate::lookahead::{at_prefix, prefix};
use bx_tree::Text;
use dscript_ast::{
    ArrowHead, Expr, LoopKind, Operand, Param, PostfixPart, Stmt, TypeNode, UnaryOp, precedence,
};
use dscript_lex::{Token, TokenKind};
use dscript_parse_tokens::{
    Depth, Parse, Parsed, Refusal, at_punctuator, flag, higher, identifier, is_text, list, many,
    node, punctuator, take_punctuator, type_node,
};
use std::alloc::Global;

/// The type after a colon, if there is one.
#[tactic(auto, unfolding(dscript_grammar::specs::ExprReading::read_note, dscript_grammar::specs::Reading::choose, dscript_grammar::specs::Reading::and_then))]
pub fn note<'a>(
    alloc: Global,
    depth: Depth,
    tokens: &'a [Token],
) -> Parse<'a, Option<Box<TypeNode>>>
    ensures { MayRead note_tree (at_depth read_note depth.levels) depth.levels tokens.now result }
{
    let Some(rest) = take_punctuator(tokens, b":") else {
        return Ok(Parsed {
            value: None,
            height: 0,
            rest: tokens,
        });
    };
    let noted = type_node(alloc, depth, rest)?;
    Ok(Parsed {
        value: Some(Box::new(alloc, noted.value)?),
        height: noted.height,
        rest: noted.rest,
    })
}

/// A parameter of a function.
#[tactic(auto, unfolding(dscript_grammar::specs::ExprReading::read_param, dscript_grammar::specs::Reading::and_then))]
pub(crate) fn param<'a>(alloc: Global, depth: Depth, tokens: &'a [Token]) -> Parse<'a, Param>
    ensures { Parses param_tree (at_depth read_param depth.levels) depth.levels tokens.now result }
{
    let name = identifier(tokens)?;
    let (optional, rest) = flag(name.rest, b"?");
    let note = note(alloc, depth, rest)?;
    let param = Param {
        name: name.value,
        optional,
        type_node: note.value,
    };
    Ok(Parsed {
        value: param,
        height: note.height,
        rest: note.rest,
    })
}

/// Parameters in parentheses.
#[tactic(auto, unfolding(dscript_grammar::specs::ExprReading::read_params, dscript_grammar::specs::Reading::and_then))]
pub fn params<'a>(alloc: Global, depth: Depth, tokens: &'a [Token]) -> Parse<'a, Vec<Param>>
    ensures { Parses (λ v. map param_tree v.items)
        (at_depth read_params depth.levels) depth.levels tokens.now result }
{
    let rest = punctuator(tokens, b"(")?;
    list(alloc, depth, b")", rest, param)
}

/// What an arrow function has before its `=>`.
#[tactic(auto, unfolding(dscript_grammar::specs::ExprReading::read_arrow_head, dscript_grammar::specs::Reading::and_then, dscript_grammar::specs::Reading::pick))]
pub(crate) fn arrow_head<'a>(
    alloc: Global,
    depth: Depth,
    tokens: &'a [Token],
) -> Parse<'a, ArrowHead>
    ensures { Parses head_tree (at_depth read_arrow_head depth.levels) depth.levels tokens.now result }
{
    if at_punctuator(tokens, b"(") {
        let params = params(alloc, depth, tokens)?;
        return Ok(Parsed {
            value: ArrowHead::Params(params.value),
            height: params.height,
            rest: params.rest,
        });
    }
    let name = identifier(tokens)?;
    Ok(Parsed {
        value: ArrowHead::Name(name.value),
        height: 0,
        rest: name.rest,
    })
}

/// An expression that is one token.
#[tactic(auto, using(dscript_ast::proofs::NodeViews::tree_views), unfolding(dscript_grammar::specs::ExprReading::read_literal, dscript_grammar::specs::Reading::pick))]
pub(crate) fn literal(tokens: &[Token]) -> Parse<'_, Expr>
    ensures { Parses expr_tree read_literal 1 tokens.now result }
{
    let Some((token, rest)) = tokens.split_first() else {
        return Err(Refusal::Syntax);
    };
    let value = match &token.kind {
        TokenKind::Number(number) => Expr::Number(*number),
        TokenKind::Str(text) => Expr::Str(text.share()?),
        TokenKind::Word(text) if is_text(text, b"true") => Expr::True,
        TokenKind::Word(text) if is_text(text, b"false") => Expr::False,
        TokenKind::Word(text) if is_text(text, b"undefined") => Expr::Undefined,
        _ => return Err(Refusal::Syntax),
    };
    Ok(Parsed {
        value,
        height: 1,
        rest,
    })
}

/// The operators before an operand.
pub(crate) fn prefixes<'a>(
    alloc: Global,
    depth: Depth,
    tokens: &'a [Token],
) -> Parse<'a, Vec<UnaryOp>>
    ensures { MayRead (λ v. v.items) (λ ts. read_many at_prefix read_prefix (suc (length ts)) ts) depth.levels
        tokens.now result }
{
    many(alloc, depth, tokens, at_prefix, prefix)
}

/// An expression and the parts after it.
#[tactic(auto, using(dscript_ast::proofs::NodeViews::tree_views), unfolding(dscript_grammar::specs::ExprReading::as_postfix))]
pub(crate) fn as_postfix<'a>(
    alloc: Global,
    depth: Depth,
    first: Parsed<'a, Expr>,
    parts: Parsed<'a, Vec<PostfixPart>>,
) -> Parse<'a, Expr>
    requires first { first.height ≤ suc depth.levels }
    ensures { Gives expr_tree
        (at_depth as_postfix depth.levels (expr_tree first.entry.value) first.entry.height
        (map part_tree parts.entry.value.items) parts.entry.height (kinds parts.entry.rest.now))
        (suc depth.levels) (suc (length (kinds parts.entry.rest.now))) result }
{
    if parts.value.is_empty() {
        return Ok(Parsed {
            value: first.value,
            height: first.height,
            rest: parts.rest,
        });
    }
    let postfix = Expr::Postfix(Box::new(alloc, first.value)?, parts.value);
    node(
        depth,
        postfix,
        higher(first.height, parts.height),
        parts.rest,
    )
}

/// An operand and the operators before it.
#[tactic(auto, using(dscript_ast::proofs::NodeViews::tree_views), unfolding(dscript_grammar::specs::ExprReading::as_unary))]
pub(crate) fn as_unary<'a>(
    alloc: Global,
    depth: Depth,
    operators: Vec<UnaryOp>,
    operand: Parsed<'a, Expr>,
) -> Parse<'a, Expr>
    requires { operand.height ≤ suc depth.levels }
    ensures { Gives expr_tree
        (at_depth as_unary depth.levels operators.items (expr_tree operand.entry.value) operand.entry.height
        (kinds operand.entry.rest.now))
        (suc depth.levels) (suc (length (kinds operand.entry.rest.now))) result }
{
    if operators.is_empty() {
        return Ok(operand);
    }
    let unary = Expr::Unary(operators, Box::new(alloc, operand.value)?);
    node(depth, unary, operand.height, operand.rest)
}

/// A chain of the operators of a level.
#[tactic(auto, using(dscript_ast::proofs::NodeViews::tree_views))]
fn chain_node(level: u32, first: Box<Expr>, operands: Vec<Operand>) -> Expr
    requires at_least { PRODUCT ≤ level }
    requires at_most { level ≤ OR }
    ensures { expr_tree result ≡ tree.Chain level (expr_tree first.value)
        (to_operands (map operand_tree operands.items)) }
{
    match level {
        precedence::PRODUCT => Expr::Product(first, operands),
        precedence::SUM => Expr::Sum(first, operands),
        precedence::RELATION => Expr::Relation(first, operands),
        precedence::EQUALITY => Expr::Equality(first, operands),
        precedence::AND => Expr::And(first, operands),
        _ => Expr::Or(first, operands),
    }
}

/// An operand, and the operators of a level and the operands after it.
#[tactic(auto, using(dscript_ast::proofs::NodeViews::tree_views), unfolding(dscript_grammar::specs::ExprReading::as_chain))]
pub(crate) fn as_chain<'a>(
    alloc: Global,
    depth: Depth,
    level: u32,
    first: Parsed<'a, Expr>,
    operands: Parsed<'a, Vec<Operand>>,
) -> Parse<'a, Expr>
    requires first { first.height ≤ suc depth.levels }
    requires at_least { PRODUCT ≤ level }
    requires at_most { level ≤ OR }
    ensures { Gives expr_tree
        (at_depth as_chain depth.levels level (expr_tree first.entry.value) first.entry.height
        (map operand_tree operands.entry.value.items) operands.entry.height (kinds operands.entry.rest.now))
        (suc depth.levels) (suc (length (kinds operands.entry.rest.now))) result }
{
    if operands.value.is_empty() {
        return Ok(Parsed {
            value: first.value,
            height: first.height,
            rest: operands.rest,
        });
    }
    let chain = chain_node(level, Box::new(alloc, first.value)?, operands.value);
    node(
        depth,
        chain,
        higher(first.height, operands.height),
        operands.rest,
    )
}

/// An arrow function whose body is an expression.
#[tactic(auto, using(dscript_ast::proofs::NodeViews::tree_views))]
pub(crate) fn as_arrow<'a>(
    alloc: Global,
    depth: Depth,
    head: Parsed<'a, ArrowHead>,
    body: Parsed<'a, Expr>,
) -> Parse<'a, Expr>
    requires head { head.height ≤ depth.levels }
    requires body { body.height ≤ depth.levels }
    ensures { Gives expr_tree
        (got (tree.Arrow (head_tree head.entry.value) (expr_tree body.entry.value))
        (suc (max head.entry.height body.entry.height)) (kinds body.entry.rest.now))
        (suc depth.levels) (suc (length (kinds body.entry.rest.now))) result }
{
    let arrow = Expr::Arrow(Box::new(alloc, head.value)?, Box::new(alloc, body.value)?);
    Ok(Parsed {
        value: arrow,
        height: higher(head.height, body.height) + 1,
        rest: body.rest,
    })
}

/// An arrow function whose body is a block.
#[tactic(auto, using(dscript_ast::proofs::NodeViews::tree_views))]
pub(crate) fn as_block_arrow<'a>(
    alloc: Global,
    depth: Depth,
    head: Parsed<'a, ArrowHead>,
    body: Parsed<'a, Vec<Stmt>>,
) -> Parse<'a, Expr>
    requires head { head.height ≤ depth.levels }
    requires body { body.height ≤ depth.levels }
    ensures { Gives expr_tree
        (got (tree.BlockArrow (head_tree head.entry.value) (to_stmts (map stmt_tree body.entry.value.items)))
        (suc (max head.entry.height body.entry.height)) (kinds body.entry.rest.now))
        (suc depth.levels) (suc (length (kinds body.entry.rest.now))) result }
{
    let arrow = Expr::BlockArrow(Box::new(alloc, head.value)?, body.value);
    Ok(Parsed {
        value: arrow,
        height: higher(head.height, body.height) + 1,
        rest: body.rest,
    })
}

/// A condition with its branches.
#[tactic(auto, using(dscript_ast::proofs::NodeViews::tree_views))]
pub(crate) fn as_cond<'a>(
    alloc: Global,
    depth: Depth,
    condition: Parsed<'a, Expr>,
    first: Parsed<'a, Expr>,
    second: Parsed<'a, Expr>,
) -> Parse<'a, Expr>
    ensures { Gives expr_tree
        (above depth.levels (max condition.entry.height (max first.entry.height second.entry.height))
        (tree.Cond (expr_tree condition.entry.value) (expr_tree first.entry.value)
        (expr_tree second.entry.value))
        (kinds second.entry.rest.now))
        (suc depth.levels) (suc (length (kinds second.entry.rest.now))) result }
{
    let height = higher(condition.height, higher(first.height, second.height));
    let condition = Box::new(alloc, condition.value)?;
    let first = Box::new(alloc, first.value)?;
    let cond = Expr::Cond(condition, first, Box::new(alloc, second.value)?);
    node(depth, cond, height, second.rest)
}

/// A condition and what depends on it, without an `else`.
#[tactic(auto, using(crate::proofs::OptionalParts::optional_views))]
pub(crate) fn as_if<'a>(
    alloc: Global,
    depth: Depth,
    condition: Parsed<'a, Expr>,
    body: Parsed<'a, Stmt>,
) -> Parse<'a, Stmt>
    requires condition { condition.height ≤ depth.levels }
    requires body { body.height ≤ depth.levels }
    ensures { Gives stmt_tree
        (got (tree.If (expr_tree condition.entry.value) (stmt_tree body.entry.value) tree.no_stmt)
        (suc (max condition.entry.height body.entry.height)) (kinds body.entry.rest.now))
        (suc depth.levels) (suc (length (kinds body.entry.rest.now))) result }
{
    let stmt = Stmt::If(condition.value, Box::new(alloc, body.value)?, None);
    Ok(Parsed {
        value: stmt,
        height: higher(condition.height, body.height) + 1,
        rest: body.rest,
    })
}

/// A condition, what depends on it, and what depends on its contrary.
#[tactic(auto, using(crate::proofs::OptionalParts::optional_views))]
pub(crate) fn as_if_else<'a>(
    alloc: Global,
    depth: Depth,
    condition: Parsed<'a, Expr>,
    body: Parsed<'a, Stmt>,
    other: Parsed<'a, Stmt>,
) -> Parse<'a, Stmt>
    requires condition { condition.height ≤ depth.levels }
    requires body { body.height ≤ depth.levels }
    requires other { other.height ≤ depth.levels }
    ensures { Gives stmt_tree
        (got (tree.If (expr_tree condition.entry.value) (stmt_tree body.entry.value)
        (tree.a_stmt (stmt_tree other.entry.value)))
        (suc (max condition.entry.height (max body.entry.height other.entry.height)))
        (kinds other.entry.rest.now))
        (suc depth.levels) (suc (length (kinds other.entry.rest.now))) result }
{
    let height = higher(condition.height, higher(body.height, other.height));
    let body = Box::new(alloc, body.value)?;
    let stmt = Stmt::If(condition.value, body, Some(Box::new(alloc, other.value)?));
    Ok(Parsed {
        value: stmt,
        height: height + 1,
        rest: other.rest,
    })
}

/// A loop over items.
#[tactic(auto, using(dscript_ast::proofs::NodeViews::tree_views))]
pub(crate) fn as_for<'a>(
    alloc: Global,
    depth: Depth,
    kind: LoopKind,
    name: Text,
    items: Parsed<'a, Expr>,
    body: Parsed<'a, Stmt>,
) -> Parse<'a, Stmt>
    requires items { items.height ≤ depth.levels }
    requires body { body.height ≤ depth.levels }
    ensures { Gives stmt_tree
        (got (tree.For kind name (expr_tree items.entry.value) (stmt_tree body.entry.value))
        (suc (max items.entry.height body.entry.height)) (kinds body.entry.rest.now))
        (suc depth.levels) (suc (length (kinds body.entry.rest.now))) result }
{
    let stmt = Stmt::For(kind, name, items.value, Box::new(alloc, body.value)?);
    Ok(Parsed {
        value: stmt,
        height: higher(items.height, body.height) + 1,
        rest: body.rest,
    })
}
