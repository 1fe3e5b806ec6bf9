//! Expressions.

ghost use Rattle.std.specs.Prelude.{◌≡◌, ◌<◌, ◌≤◌, suc, nat_eq, length, map};
ghost use Rattle.dscript_ast.specs.Views.{element_tree, expr_tree, hole_tree, operand_tree, part_tree};
ghost use Rattle.dscript_ast.specs.Views.{prop_tree};
ghost use Rattle.dscript_grammar.specs.ExprReading.{at_part, read_branches, read_call, read_chain, read_cond};
ghost use Rattle.dscript_grammar.specs.ExprReading.{read_element, read_expr};
ghost use Rattle.dscript_grammar.specs.ExprReading.{read_holes, read_named, read_part, read_plain};
ghost use Rattle.dscript_grammar.specs.ExprReading.{read_postfix, read_primary};
ghost use Rattle.dscript_grammar.specs.ExprReading.{read_enclosed, read_prop, read_template, read_unary};
ghost use Rattle.dscript_grammar.specs.ExprReading.{chain_level};
ghost use Rattle.dscript_grammar.specs.ExprReading.{operator_precedence, read_operand};
ghost use Rattle.dscript_grammar.specs.Reading.{read_many};
ghost use Rattle.dscript_parse_exprs.specs.Levels.{at_depth, read_level, read_operands};
ghost use Rattle.dscript_parse_exprs.specs.TemplateView.{template_view};
ghost use Rattle.dscript_parse_tokens.specs.Enclosed.{read_closed_list};
ghost use Rattle.dscript_parse_tokens.specs.Gives.{kinds, Gives, MayRead, Parses};

use crate::lookahead::{
    at_arrow, at_part, at_template, letter, next_precedence, operator, template_head,
    template_middle, template_tail, template_whole,
};
use crate::parts::{
    arrow_head, as_arrow, as_block_arrow, as_chain, as_cond, as_postfix, as_unary, literal,
    prefixes,
};
use crate::stmts::block;
use bx_tree::Text;
use dscript_ast::{Element, Expr, Hole, Operand, PostfixPart, Prop, precedence};
use dscript_lex::Token;
use dscript_parse_tokens::{
    Depth, Parse, Parsed, Refusal, at_identifier, at_punctuator, closed, flag, higher, identifier,
    list, many, name, punctuator, string_at, take_punctuator,
};
use std::alloc::Global;

/// The levels of operators between operands.
pub(crate) const CHAIN_LEVELS: u32 = 6;

/// A template: its text before the first hole, and its holes.
#[derive(Drop)]
pub(crate) struct TemplateParts {
    pub text: Text,
    pub holes: Vec<Hole>,
}

/// An expression.
#[cycle(trees)]
#[tactic(auto, using(dscript_ast::proofs::NodeViews::tree_views), unfolding(dscript_grammar::specs::ExprReading::read_expr, dscript_grammar::specs::ExprReading::read_any, dscript_grammar::specs::ExprReading::read_arrow, dscript_grammar::specs::ExprReading::read_arrow_body, dscript_grammar::specs::Reading::and_then, dscript_grammar::specs::Reading::pick))]
pub fn expr<'a>(alloc: Global, depth: Depth, tokens: &'a [Token]) -> Parse<'a, Expr>
    ensures { Parses expr_tree (read_expr depth.levels) depth.levels tokens.now result }
{
    let inner = depth.below()?;
    if !at_arrow(tokens) {
        return cond(alloc, inner, tokens);
    }
    let head = closed(arrow_head(alloc, inner, tokens)?, b"=>")?;
    if at_punctuator(head.rest, b"{") {
        let body = block(alloc, inner, head.rest)?;
        return as_block_arrow(alloc, inner, head, body);
    }
    let body = expr(alloc, inner, head.rest)?;
    as_arrow(alloc, inner, head, body)
}

/// A condition with its branches, or a chain of operators.
#[cycle(trees)]
#[tactic(auto, unfolding(dscript_grammar::specs::ExprReading::read_cond, dscript_grammar::specs::Reading::and_then, dscript_grammar::specs::Reading::choose))]
fn cond<'a>(alloc: Global, depth: Depth, tokens: &'a [Token]) -> Parse<'a, Expr>
    ensures { Parses expr_tree (at_depth read_cond depth.levels) (suc depth.levels) tokens.now result }
{
    let condition = chain(alloc, depth, CHAIN_LEVELS, tokens)?;
    match take_punctuator(condition.rest, b"?") {
        Some(rest) => branches(alloc, depth, condition, rest),
        None => Ok(condition),
    }
}

/// The branches of a condition, after its `?`.
#[cycle(trees)]
#[tactic(auto, unfolding(dscript_grammar::specs::ExprReading::read_branches, dscript_grammar::specs::Reading::and_then))]
fn branches<'a>(
    alloc: Global,
    depth: Depth,
    condition: Parsed<'a, Expr>,
    tokens: &'a [Token],
) -> Parse<'a, Expr>
    requires { condition.height ≤ suc depth.levels }
    ensures { Parses expr_tree
        (at_depth read_branches depth.levels (expr_tree condition.entry.value) condition.entry.height)
        (suc depth.levels) tokens.now result }
{
    let first = closed(expr(alloc, depth, tokens)?, b":")?;
    let second = expr(alloc, depth, first.rest)?;
    as_cond(alloc, depth, condition, first, second)
}

/// An operand, and the operators of the levels up to this one and the operands after it.
#[cycle(trees)]
fn chain<'a>(alloc: Global, depth: Depth, level: u32, tokens: &'a [Token]) -> Parse<'a, Expr>
    requires { level ≤ CHAIN_LEVELS }
    ensures { Parses expr_tree (at_depth read_chain depth.levels level) (suc depth.levels) tokens.now result }
{
    let mut first = unary(alloc, depth, tokens)?;
    let mut next = next_precedence(first.rest);
    let mut tighter = 0;
    'levels: while tighter < level {
        if next == tighter + precedence::PRODUCT {
            first = level_chain(alloc, depth, tighter, first)?;
            next = next_precedence(first.rest);
        }
        tighter += 1;
    }
    Ok(first)
}

/// An expression, and the operators of the level above these and the operands after it.
#[cycle(trees)]
#[tactic(auto, unfolding(dscript_grammar::specs::Reading::and_then))]
fn level_chain<'a>(
    alloc: Global,
    depth: Depth,
    tighter: u32,
    first: Parsed<'a, Expr>,
) -> Parse<'a, Expr>
    requires tighter { tighter < CHAIN_LEVELS }
    requires first { first.height ≤ suc depth.levels }
    ensures { Gives expr_tree
        (read_level depth.levels tighter (expr_tree first.entry.value) first.entry.height
        (kinds first.entry.rest.now))
        (suc depth.levels) (suc (length (kinds first.entry.rest.now))) result }
{
    let operands = operands(alloc, depth, tighter, first.rest)?;
    as_chain(alloc, depth, tighter + precedence::PRODUCT, first, operands)
}

/// The operators of the level above these, and their operands.
#[cycle(trees)]
fn operands<'a>(
    alloc: Global,
    depth: Depth,
    tighter: u32,
    tokens: &'a [Token],
) -> Parse<'a, Vec<Operand>>
    requires { tighter < CHAIN_LEVELS }
    ensures { Gives (λ v. map operand_tree v.items) (read_operands depth.levels tighter (kinds tokens.now))
        (suc depth.levels) (suc (length (kinds tokens.now))) result }
{
    let level = tighter + precedence::PRODUCT;
    let mut operands = Vec::new(alloc);
    let mut height = 0;
    let mut rest = tokens;
    'operands: while next_precedence(rest) == level {
        let next = operand(alloc, depth, tighter, rest)?;
        rest = next.rest;
        height = higher(height, next.height);
        operands.push(next.value)?;
    }
    Ok(Parsed {
        value: operands,
        height: height,
        rest: rest,
    })
}

/// An operator of the level above these, and its operand.
#[cycle(trees)]
#[tactic(auto, using(dscript_ast::proofs::NodeViews::tree_views), unfolding(dscript_grammar::specs::ExprReading::read_operand, dscript_grammar::specs::Reading::and_then, dscript_grammar::specs::Reading::pick))]
fn operand<'a>(alloc: Global, depth: Depth, tighter: u32, tokens: &'a [Token]) -> Parse<'a, Operand>
    requires { tighter < CHAIN_LEVELS }
    ensures { Parses operand_tree (at_depth read_operand depth.levels (chain_level tighter)
        (at_depth read_chain depth.levels tighter)) (suc depth.levels) tokens.now result }
{
    let Some(operator) = operator(tokens) else {
        return Err(Refusal::Syntax);
    };
    if operator.value.precedence() != tighter + precedence::PRODUCT {
        return Err(Refusal::Syntax);
    }
    let operand = chain(alloc, depth, tighter, operator.rest)?;
    let value = Operand {
        operator: operator.value,
        value: operand.value,
    };
    Ok(Parsed {
        value: value,
        height: operand.height,
        rest: operand.rest,
    })
}

/// An operand, with the operators before it.
#[cycle(trees)]
#[tactic(auto, unfolding(dscript_grammar::specs::ExprReading::read_unary, dscript_grammar::specs::Reading::and_then))]
fn unary<'a>(alloc: Global, depth: Depth, tokens: &'a [Token]) -> Parse<'a, Expr>
    ensures { Parses expr_tree (at_depth read_unary depth.levels) (suc depth.levels) tokens.now result }
{
    let operators = prefixes(alloc, depth, tokens)?;
    let operand = postfix(alloc, depth, operators.rest)?;
    as_unary(alloc, depth, operators.value, operand)
}

/// A primary expression, and the parts after it.
#[cycle(trees)]
#[tactic(auto, unfolding(dscript_grammar::specs::ExprReading::read_postfix, dscript_grammar::specs::Reading::and_then))]
fn postfix<'a>(alloc: Global, depth: Depth, tokens: &'a [Token]) -> Parse<'a, Expr>
    ensures { Parses expr_tree (at_depth read_postfix depth.levels) (suc depth.levels) tokens.now result }
{
    let first = primary(alloc, depth, tokens)?;
    let parts = parts(alloc, depth, first.rest)?;
    as_postfix(alloc, depth, first, parts)
}

/// Members, indices and calls.
#[cycle(trees)]
fn parts<'a>(alloc: Global, depth: Depth, tokens: &'a [Token]) -> Parse<'a, Vec<PostfixPart>>
    ensures { MayRead (λ v. map part_tree v.items)
        (λ ts. read_many at_part (at_depth read_part depth.levels) (suc (length ts)) ts)
        depth.levels tokens.now result }
{
    many(alloc, depth, tokens, at_part, part)
}

/// A member, an index or a call.
#[cycle(trees)]
#[tactic(auto, using(dscript_ast::proofs::NodeViews::tree_views), unfolding(dscript_grammar::specs::ExprReading::read_part, dscript_grammar::specs::ExprReading::read_index, dscript_grammar::specs::Reading::and_then, dscript_grammar::specs::Reading::choose))]
fn part<'a>(alloc: Global, depth: Depth, tokens: &'a [Token]) -> Parse<'a, PostfixPart>
    ensures { Parses part_tree (at_depth read_part depth.levels) depth.levels tokens.now result }
{
    if let Some(rest) = take_punctuator(tokens, b".") {
        let member = name(rest)?;
        return Ok(Parsed {
            value: PostfixPart::Member(member.value),
            height: 0,
            rest: member.rest,
        });
    }
    if let Some(rest) = take_punctuator(tokens, b"[") {
        let index = closed(expr(alloc, depth, rest)?, b"]")?;
        return Ok(Parsed {
            value: PostfixPart::Index(Box::new(alloc, index.value)?),
            height: index.height,
            rest: index.rest,
        });
    }
    call(alloc, depth, tokens)
}

/// The arguments of a call.
#[cycle(trees)]
#[tactic(auto, using(dscript_ast::proofs::NodeViews::tree_views), unfolding(dscript_grammar::specs::ExprReading::read_call, dscript_grammar::specs::Reading::and_then))]
fn call<'a>(alloc: Global, depth: Depth, tokens: &'a [Token]) -> Parse<'a, PostfixPart>
    ensures { Parses part_tree (at_depth read_call depth.levels) depth.levels tokens.now result }
{
    let rest = punctuator(tokens, b"(")?;
    let arguments = arguments(alloc, depth, rest)?;
    Ok(Parsed {
        value: PostfixPart::Call(arguments.value),
        height: arguments.height,
        rest: arguments.rest,
    })
}

/// Arguments, and the parenthesis after them.
#[cycle(trees)]
fn arguments<'a>(alloc: Global, depth: Depth, tokens: &'a [Token]) -> Parse<'a, Vec<Expr>>
    ensures { Parses (λ v. map expr_tree v.items) (read_closed_list ")" (read_expr depth.levels)) depth.levels
        tokens.now result }
{
    list(alloc, depth, b")", tokens, expr)
}

/// An expression that parts may follow.
#[cycle(trees)]
#[tactic(auto, using(dscript_ast::proofs::NodeViews::tree_views), unfolding(dscript_grammar::specs::ExprReading::read_primary, dscript_grammar::specs::ExprReading::read_elements, dscript_grammar::specs::ExprReading::read_object, dscript_grammar::specs::Reading::and_then, dscript_grammar::specs::Reading::choose))]
fn primary<'a>(alloc: Global, depth: Depth, tokens: &'a [Token]) -> Parse<'a, Expr>
    ensures { Parses expr_tree (at_depth read_primary depth.levels) (suc depth.levels) tokens.now result }
{
    if let Some(rest) = take_punctuator(tokens, b"(") {
        return enclosed(alloc, depth, rest);
    }
    if let Some(rest) = take_punctuator(tokens, b"[") {
        let elements = elements(alloc, depth, rest)?;
        return Ok(Parsed {
            value: Expr::List(elements.value),
            height: elements.height + 1,
            rest: elements.rest,
        });
    }
    if let Some(rest) = take_punctuator(tokens, b"{") {
        let props = props(alloc, depth, rest)?;
        return Ok(Parsed {
            value: Expr::Object(props.value),
            height: props.height + 1,
            rest: props.rest,
        });
    }
    plain(alloc, depth, tokens)
}

/// An expression, and the parenthesis after it.
#[cycle(trees)]
#[tactic(auto, unfolding(dscript_grammar::specs::ExprReading::read_enclosed, dscript_grammar::specs::Reading::and_then))]
fn enclosed<'a>(alloc: Global, depth: Depth, tokens: &'a [Token]) -> Parse<'a, Expr>
    ensures { Parses expr_tree (at_depth read_enclosed depth.levels) (suc depth.levels) tokens.now result }
{
    let inner = closed(expr(alloc, depth, tokens)?, b")")?;
    Ok(Parsed {
        value: inner.value,
        height: inner.height + 1,
        rest: inner.rest,
    })
}

/// A template, a name, a literal of a path, or an expression of one token.
#[cycle(trees)]
#[tactic(auto, using(dscript_ast::proofs::NodeViews::tree_views), unfolding(dscript_grammar::specs::ExprReading::read_plain, dscript_grammar::specs::Reading::and_then, dscript_grammar::specs::Reading::pick))]
fn plain<'a>(alloc: Global, depth: Depth, tokens: &'a [Token]) -> Parse<'a, Expr>
    ensures { Parses expr_tree (at_depth read_plain depth.levels) (suc depth.levels) tokens.now result }
{
    if at_template(tokens) {
        let template = template(alloc, depth, tokens)?;
        let value = Expr::Template(template.value.text, template.value.holes);
        return Ok(Parsed {
            value: value,
            height: template.height + 1,
            rest: template.rest,
        });
    }
    if at_identifier(tokens) {
        return named(alloc, depth, tokens);
    }
    literal(tokens)
}

/// A name, or a literal of a path.
#[cycle(trees)]
#[tactic(auto, using(dscript_ast::proofs::NodeViews::tree_views), unfolding(dscript_grammar::specs::ExprReading::read_named, dscript_grammar::specs::Reading::and_then, dscript_grammar::specs::Reading::choose))]
fn named<'a>(alloc: Global, depth: Depth, tokens: &'a [Token]) -> Parse<'a, Expr>
    ensures { Parses expr_tree (at_depth read_named depth.levels) (suc depth.levels) tokens.now result }
{
    let Some(kind) = letter(tokens) else {
        let name = identifier(tokens)?;
        return Ok(Parsed {
            value: Expr::Name(name.value),
            height: 1,
            rest: name.rest,
        });
    };
    let template = template(alloc, depth, kind.rest)?;
    let value = Expr::Path(kind.value, template.value.text, template.value.holes);
    Ok(Parsed {
        value: value,
        height: template.height + 1,
        rest: template.rest,
    })
}

/// A template.
#[cycle(trees)]
#[tactic(auto, unfolding(dscript_grammar::specs::ExprReading::read_template, dscript_grammar::specs::Reading::and_then, dscript_grammar::specs::Reading::choose))]
fn template<'a>(alloc: Global, depth: Depth, tokens: &'a [Token]) -> Parse<'a, TemplateParts>
    ensures { Parses template_view (at_depth read_template depth.levels) depth.levels tokens.now result }
{
    if let Some(whole) = template_whole(tokens) {
        let template = TemplateParts {
            text: whole.value.share()?,
            holes: Vec::new(alloc),
        };
        return Ok(Parsed {
            value: template,
            height: 0,
            rest: whole.rest,
        });
    }
    let Some(head) = template_head(tokens) else {
        return Err(Refusal::Syntax);
    };
    let text = head.value.share()?;
    let holes = holes(alloc, depth, head.rest)?;
    let template = TemplateParts {
        text,
        holes: holes.value,
    };
    Ok(Parsed {
        value: template,
        height: holes.height,
        rest: holes.rest,
    })
}

/// The holes of a template, after its first text.
#[cycle(trees)]
fn holes<'a>(alloc: Global, depth: Depth, tokens: &'a [Token]) -> Parse<'a, Vec<Hole>>
    ensures { Parses (λ v. map hole_tree v.items)
        (λ ts. at_depth read_holes depth.levels (length ts) ts) depth.levels
        tokens.now result }
{
    let mut holes = Vec::new(alloc);
    let mut height = 0;
    let mut rest = tokens;
    'holes: loop {
        let hole = expr(alloc, depth, rest)?;
        height = higher(height, hole.height);
        if let Some(tail) = template_tail(hole.rest) {
            let text = tail.value.share()?;
            let value = hole.value;
            holes.push(Hole { value, text })?;
            return Ok(Parsed {
                value: holes,
                height: height,
                rest: tail.rest,
            });
        }
        let Some(middle) = template_middle(hole.rest) else {
            return Err(Refusal::Syntax);
        };
        let text = middle.value.share()?;
        let value = hole.value;
        holes.push(Hole { value, text })?;
        rest = middle.rest;
    }
}

/// The elements of a list, and the bracket after them.
#[cycle(trees)]
fn elements<'a>(alloc: Global, depth: Depth, tokens: &'a [Token]) -> Parse<'a, Vec<Element>>
    ensures { Parses (λ v. map element_tree v.items) (read_closed_list "]"
        (at_depth read_element depth.levels))
        depth.levels tokens.now result }
{
    list(alloc, depth, b"]", tokens, element)
}

/// An element of a list.
#[cycle(trees)]
#[tactic(auto, using(dscript_ast::proofs::NodeViews::tree_views), unfolding(dscript_grammar::specs::ExprReading::read_element, dscript_grammar::specs::Reading::and_then))]
fn element<'a>(alloc: Global, depth: Depth, tokens: &'a [Token]) -> Parse<'a, Element>
    ensures { Parses element_tree (at_depth read_element depth.levels) depth.levels tokens.now result }
{
    let (spread, rest) = flag(tokens, b"...");
    let element = expr(alloc, depth, rest)?;
    let value = Element {
        spread,
        value: element.value,
    };
    Ok(Parsed {
        value: value,
        height: element.height,
        rest: element.rest,
    })
}

/// The properties of an object, and the brace after them.
#[cycle(trees)]
fn props<'a>(alloc: Global, depth: Depth, tokens: &'a [Token]) -> Parse<'a, Vec<Prop>>
    ensures { Parses (λ v. map prop_tree v.items) (read_closed_list "}" (at_depth read_prop depth.levels))
        depth.levels tokens.now result }
{
    list(alloc, depth, b"}", tokens, prop)
}

/// A property of an object.
#[cycle(trees)]
#[tactic(auto, using(dscript_ast::proofs::NodeViews::tree_views), unfolding(dscript_grammar::specs::ExprReading::read_prop, dscript_grammar::specs::ExprReading::read_word_prop, dscript_grammar::specs::Reading::and_then, dscript_grammar::specs::Reading::choose))]
fn prop<'a>(alloc: Global, depth: Depth, tokens: &'a [Token]) -> Parse<'a, Prop>
    ensures { Parses prop_tree (at_depth read_prop depth.levels) depth.levels tokens.now result }
{
    if let Some(rest) = take_punctuator(tokens, b"...") {
        let spread = expr(alloc, depth, rest)?;
        return Ok(Parsed {
            value: Prop::Spread(spread.value),
            height: spread.height,
            rest: spread.rest,
        });
    }
    if let Some(quoted) = string_at(tokens) {
        let text = quoted.value.share()?;
        let rest = punctuator(quoted.rest, b":")?;
        let value = expr(alloc, depth, rest)?;
        return Ok(Parsed {
            value: Prop::Quoted(text, value.value),
            height: value.height,
            rest: value.rest,
        });
    }
    let named = name(tokens)?;
    let Some(rest) = take_punctuator(named.rest, b":") else {
        let short = identifier(tokens)?;
        return Ok(Parsed {
            value: Prop::Short(short.value),
            height: 0,
            rest: short.rest,
        });
    };
    let value = expr(alloc, depth, rest)?;
    Ok(Parsed {
        value: Prop::Named(named.value, value.value),
        height: value.height,
        rest: value.rest,
    })
}
