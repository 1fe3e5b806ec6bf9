//! Types.

ghost use Rattle.std.specs.Prelude.{◌≡◌, ◌+◌, ◌≤◌, suc, length, map};
ghost use Rattle.dscript_parse_tokens.specs.Gives.{kinds, Gives, MayRead, Parses};
ghost use Rattle.dscript_grammar.specs.TypeReading.{at_fields, at_function, after_member_end};
ghost use Rattle.dscript_grammar.specs.TypeReading.{read_type, read_any, read_union, as_union, read_array};
ghost use Rattle.dscript_grammar.specs.TypeReading.{as_array};
ghost use Rattle.dscript_grammar.specs.TypeReading.{read_brackets, read_function, read_base, read_enclosed};
ghost use Rattle.dscript_grammar.specs.TypeReading.{read_literal, read_named, read_arguments, read_body};
ghost use Rattle.dscript_grammar.specs.TypeReading.{read_ended};
ghost use Rattle.dscript_grammar.specs.TypeReading.{read_member, read_method, read_fields, read_field};
ghost use Rattle.dscript_grammar.specs.Reading.{read_separated};
ghost use Rattle.dscript_ast.specs.TypeTree.{to_types};
ghost use Rattle.dscript_ast.specs.Views.{type_tree, member_tree, field_tree};

use crate::depth::Depth;
use crate::lists::{dotted, list, separated, until};
use crate::parsed::{Parse, Parsed, Refusal, higher, node};
use crate::tokens::{
    at_identifier, at_punctuator, flag, identifier, is_text, name, punctuator, take_punctuator,
};
use bx_tree::Text;
use dscript_ast::{Field, Member, TypeNode};
use dscript_lex::{Token, TokenKind};
use std::alloc::Global;

/// Whether the tokens begin with the parameters of a function type, and not with a type.
#[tactic(auto, unfolding(dscript_grammar::specs::TypeReading::at_fields))]
pub(crate) fn at_fields(tokens: &[Token]) -> bool
    ensures { result ≡ at_fields (kinds tokens.now) }
{
    let Some((token, rest)) = tokens.split_first() else {
        return false;
    };
    match &token.kind {
        TokenKind::Word(_) => at_punctuator(rest, b":") || at_punctuator(rest, b"?"),
        _ => at_punctuator(tokens, b")"),
    }
}

/// Whether the tokens begin with a function type.
#[tactic(auto, unfolding(dscript_grammar::specs::TypeReading::at_function, dscript_grammar::specs::Reading::choose))]
pub(crate) fn at_function(tokens: &[Token]) -> bool
    ensures { result ≡ at_function (kinds tokens.now) }
{
    match take_punctuator(tokens, b"(") {
        Some(rest) => at_fields(rest),
        None => false,
    }
}

/// The tokens after the `;` or `,` of a member, if one of them is there.
#[tactic(auto, unfolding(dscript_grammar::specs::TypeReading::after_member_end, dscript_grammar::specs::Reading::choose))]
pub(crate) fn after_member_end(tokens: &[Token]) -> &[Token]
    ensures after { kinds result.now ≡ after_member_end (kinds tokens.now) }
    ensures not_longer { length (kinds result.now) ≤ length (kinds tokens.now) }
{
    if let Some(rest) = take_punctuator(tokens, b";") {
        return rest;
    }
    if let Some(rest) = take_punctuator(tokens, b",") {
        return rest;
    }
    tokens
}

/// A type.
#[cycle(types)]
#[tactic(auto, unfolding(dscript_grammar::specs::TypeReading::read_type))]
pub fn type_node<'a>(alloc: Global, depth: Depth, tokens: &'a [Token]) -> Parse<'a, TypeNode>
    ensures { Parses type_tree (read_type depth.levels) depth.levels tokens.now result }
{
    any_type(alloc, depth.below()?, tokens)
}

/// A parameter with its type.
#[cycle(types)]
#[tactic(auto, using(dscript_ast::proofs::NodeViews::type_views), unfolding(dscript_grammar::specs::TypeReading::read_field, dscript_grammar::specs::Reading::and_then))]
fn field<'a>(alloc: Global, depth: Depth, tokens: &'a [Token]) -> Parse<'a, Field>
    ensures { Parses field_tree (read_field (read_type depth.levels)) depth.levels tokens.now result }
{
    let name = identifier(tokens)?;
    let (optional, rest) = flag(name.rest, b"?");
    let rest = punctuator(rest, b":")?;
    let field_type = type_node(alloc, depth, rest)?;
    let field = Field {
        name: name.value,
        optional,
        type_node: field_type.value,
    };
    Ok(Parsed {
        value: field,
        height: field_type.height,
        rest: field_type.rest,
    })
}

/// Parameters in parentheses.
#[cycle(types)]
#[tactic(auto, unfolding(dscript_grammar::specs::TypeReading::read_fields, dscript_grammar::specs::Reading::and_then))]
fn fields<'a>(alloc: Global, depth: Depth, tokens: &'a [Token]) -> Parse<'a, Vec<Field>>
    ensures { Parses (λ v. map field_tree v.items)
        (read_fields (read_type depth.levels)) depth.levels tokens.now result }
{
    let rest = punctuator(tokens, b"(")?;
    list(alloc, depth, b")", rest, field)
}

/// The parameters and the result of a method.
#[cycle(types)]
#[tactic(auto, using(dscript_ast::proofs::NodeViews::type_views), unfolding(dscript_grammar::specs::TypeReading::read_method, dscript_grammar::specs::Reading::and_then))]
fn method<'a>(
    alloc: Global,
    depth: Depth,
    name: Text,
    optional: bool,
    tokens: &'a [Token],
) -> Parse<'a, Member>
    ensures { Parses member_tree (read_method (read_type depth.levels) name optional) depth.levels tokens.now
        result }
{
    let fields = fields(alloc, depth, tokens)?;
    let rest = punctuator(fields.rest, b":")?;
    let result = type_node(alloc, depth, rest)?;
    Ok(Parsed {
        value: Member::Method(name, optional, fields.value, result.value),
        height: higher(fields.height, result.height),
        rest: result.rest,
    })
}

/// A member.
#[cycle(types)]
#[tactic(auto, using(dscript_ast::proofs::NodeViews::type_views), unfolding(dscript_grammar::specs::TypeReading::read_member, dscript_grammar::specs::Reading::and_then, dscript_grammar::specs::Reading::choose))]
fn member<'a>(alloc: Global, depth: Depth, tokens: &'a [Token]) -> Parse<'a, Member>
    ensures { Parses member_tree (read_member (read_type depth.levels)) depth.levels tokens.now result }
{
    let name = name(tokens)?;
    let (optional, rest) = flag(name.rest, b"?");
    let Some(rest) = take_punctuator(rest, b":") else {
        return method(alloc, depth, name.value, optional, rest);
    };
    let property = type_node(alloc, depth, rest)?;
    Ok(Parsed {
        value: Member::Property(name.value, optional, property.value),
        height: property.height,
        rest: property.rest,
    })
}

/// A member and its end.
#[cycle(types)]
#[tactic(auto, unfolding(dscript_grammar::specs::TypeReading::read_ended, dscript_grammar::specs::Reading::and_then))]
fn ended_member<'a>(alloc: Global, depth: Depth, tokens: &'a [Token]) -> Parse<'a, Member>
    ensures { Parses member_tree (read_ended (read_type depth.levels)) depth.levels tokens.now result }
{
    let member = member(alloc, depth, tokens)?;
    Ok(Parsed {
        value: member.value,
        height: member.height,
        rest: after_member_end(member.rest),
    })
}

/// Members in braces.
#[cycle(types)]
#[tactic(auto, unfolding(dscript_grammar::specs::TypeReading::read_body, dscript_grammar::specs::Reading::and_then))]
pub fn body<'a>(alloc: Global, depth: Depth, tokens: &'a [Token]) -> Parse<'a, Vec<Member>>
    ensures { Parses (λ v. map member_tree v.items)
        (read_body (read_type depth.levels)) depth.levels tokens.now result }
{
    let rest = punctuator(tokens, b"{")?;
    until(alloc, depth, b"}", rest, ended_member)
}

/// Types with commas between them.
#[cycle(types)]
pub fn type_list<'a>(alloc: Global, depth: Depth, tokens: &'a [Token]) -> Parse<'a, Vec<TypeNode>>
    ensures { Parses (λ v. map type_tree v.items)
        (λ ts. read_separated "," (read_type depth.levels) (length ts) ts)
        depth.levels tokens.now result }
{
    separated(alloc, depth, b",", tokens, type_node)
}

/// The types in angle brackets, if there are any.
#[cycle(types)]
#[tactic(auto, unfolding(dscript_grammar::specs::TypeReading::read_arguments, dscript_grammar::specs::Reading::and_then, dscript_grammar::specs::Reading::choose))]
fn arguments<'a>(alloc: Global, depth: Depth, tokens: &'a [Token]) -> Parse<'a, Vec<TypeNode>>
    ensures { MayRead (λ v. to_types (map type_tree v.items))
        (read_arguments (read_type depth.levels)) depth.levels
        tokens.now result }
{
    let Some(rest) = take_punctuator(tokens, b"<") else {
        return Ok(Parsed {
            value: Vec::new(alloc),
            height: 0,
            rest: tokens,
        });
    };
    let types = type_list(alloc, depth, rest)?;
    Ok(Parsed {
        value: types.value,
        height: types.height,
        rest: punctuator(types.rest, b">")?,
    })
}

/// A dotted name and its arguments.
#[cycle(types)]
#[tactic(auto, using(dscript_ast::proofs::NodeViews::type_views), unfolding(dscript_grammar::specs::TypeReading::read_named, dscript_grammar::specs::Reading::and_then))]
fn named<'a>(alloc: Global, depth: Depth, tokens: &'a [Token]) -> Parse<'a, TypeNode>
    ensures { Parses type_tree (read_named (read_type depth.levels)) (suc depth.levels) tokens.now result }
{
    let names = dotted(alloc, depth, tokens)?;
    let arguments = arguments(alloc, depth, names.rest)?;
    Ok(Parsed {
        value: TypeNode::Named(names.value, arguments.value),
        height: arguments.height + 1,
        rest: arguments.rest,
    })
}

/// A type that is one token.
#[tactic(auto, using(dscript_ast::proofs::NodeViews::type_views), unfolding(dscript_grammar::specs::TypeReading::read_literal, dscript_grammar::specs::Reading::pick))]
pub(crate) fn literal(tokens: &[Token]) -> Parse<'_, TypeNode>
    ensures { Parses type_tree read_literal 1 tokens.now result }
{
    let Some((token, rest)) = tokens.split_first() else {
        return Err(Refusal::Syntax);
    };
    let value = match &token.kind {
        TokenKind::Str(text) => TypeNode::Str(text.share()?),
        TokenKind::Number(number) => TypeNode::Number(*number),
        TokenKind::Word(text) if is_text(text, b"undefined") => TypeNode::Undefined,
        TokenKind::Word(text) if is_text(text, b"true") => TypeNode::True,
        TokenKind::Word(text) if is_text(text, b"false") => TypeNode::False,
        _ => return Err(Refusal::Syntax),
    };
    Ok(Parsed {
        value,
        height: 1,
        rest,
    })
}

/// A type in parentheses, after the opening one.
#[cycle(types)]
#[tactic(auto, unfolding(dscript_grammar::specs::TypeReading::read_enclosed, dscript_grammar::specs::Reading::and_then))]
fn enclosed<'a>(alloc: Global, depth: Depth, tokens: &'a [Token]) -> Parse<'a, TypeNode>
    ensures { Parses type_tree (read_enclosed (read_type depth.levels)) (suc depth.levels) tokens.now result }
{
    let inner = type_node(alloc, depth, tokens)?;
    Ok(Parsed {
        value: inner.value,
        height: inner.height + 1,
        rest: punctuator(inner.rest, b")")?,
    })
}

/// A type that `[` may follow.
#[cycle(types)]
#[tactic(auto, using(dscript_ast::proofs::NodeViews::type_views), unfolding(dscript_grammar::specs::TypeReading::read_base, dscript_grammar::specs::Reading::and_then, dscript_grammar::specs::Reading::choose, dscript_grammar::specs::Reading::pick))]
fn base<'a>(alloc: Global, depth: Depth, tokens: &'a [Token]) -> Parse<'a, TypeNode>
    ensures { Parses type_tree (read_base (read_type depth.levels)) (suc depth.levels) tokens.now result }
{
    if let Some(rest) = take_punctuator(tokens, b"(") {
        return enclosed(alloc, depth, rest);
    }
    if at_punctuator(tokens, b"{") {
        let members = body(alloc, depth, tokens)?;
        return Ok(Parsed {
            value: TypeNode::Body(members.value),
            height: members.height + 1,
            rest: members.rest,
        });
    }
    if at_identifier(tokens) {
        return named(alloc, depth, tokens);
    }
    literal(tokens)
}

/// A function type.
#[cycle(types)]
#[tactic(auto, using(dscript_ast::proofs::NodeViews::type_views), unfolding(dscript_grammar::specs::TypeReading::read_function, dscript_grammar::specs::Reading::and_then))]
fn function<'a>(alloc: Global, depth: Depth, tokens: &'a [Token]) -> Parse<'a, TypeNode>
    ensures { Parses type_tree (read_function (read_type depth.levels)) (suc depth.levels) tokens.now result }
{
    let fields = fields(alloc, depth, tokens)?;
    let rest = punctuator(fields.rest, b"=>")?;
    let result = type_node(alloc, depth, rest)?;
    Ok(Parsed {
        value: TypeNode::Function(fields.value, Box::new(alloc, result.value)?),
        height: higher(fields.height, result.height) + 1,
        rest: result.rest,
    })
}

/// How many `[]` the tokens begin with.
pub(crate) fn brackets(tokens: &[Token]) -> Parse<'_, usize>
    ensures { MayRead (λ n. n) (λ ts. read_brackets (length ts) ts) 0 tokens.now result }
{
    let mut count = 0;
    let mut rest = tokens;
    'brackets: while let Some(inner) = take_punctuator(rest, b"[") {
        rest = punctuator(inner, b"]")?;
        count += 1;
    }
    Ok(Parsed {
        value: count,
        height: 0,
        rest,
    })
}

/// A type with this many `[]` after it.
#[tactic(auto, using(dscript_ast::proofs::NodeViews::type_views), unfolding(dscript_grammar::specs::TypeReading::as_array, dscript_grammar::specs::Reading::pick))]
pub(crate) fn as_array<'a>(
    alloc: Global,
    depth: Depth,
    element: Parsed<'a, TypeNode>,
    brackets: Parsed<'a, usize>,
) -> Parse<'a, TypeNode>
    requires { element.height ≤ suc depth.levels }
    ensures { Gives type_tree
        (as_array (read_type depth.levels) depth.levels (type_tree element.entry.value) element.entry.height
        brackets.entry.value (kinds brackets.entry.rest.now))
        (suc depth.levels) (suc (length (kinds brackets.entry.rest.now))) result }
{
    if brackets.value == 0 {
        return Ok(Parsed {
            value: element.value,
            height: element.height,
            rest: brackets.rest,
        });
    }
    let array = TypeNode::Array(Box::new(alloc, element.value)?, brackets.value);
    node(depth, array, element.height, brackets.rest)
}

/// A type, and the `[]` after it.
#[cycle(types)]
#[tactic(auto, unfolding(dscript_grammar::specs::TypeReading::read_array, dscript_grammar::specs::Reading::and_then))]
fn array<'a>(alloc: Global, depth: Depth, tokens: &'a [Token]) -> Parse<'a, TypeNode>
    ensures { Parses type_tree (read_array (read_type depth.levels) depth.levels)
        (suc depth.levels) tokens.now result }
{
    let element = base(alloc, depth, tokens)?;
    let brackets = brackets(element.rest)?;
    as_array(alloc, depth, element, brackets)
}

/// Types with `|` between them; a function type is the last.
#[cycle(types)]
fn union<'a>(alloc: Global, depth: Depth, tokens: &'a [Token]) -> Parse<'a, Vec<TypeNode>>
    ensures { Parses (λ v. map type_tree v.items)
        (λ ts. read_union (read_type depth.levels) depth.levels (suc (length ts)) ts)
        (suc depth.levels) tokens.now result }
{
    let mut types = Vec::new(alloc);
    let mut height = 0;
    let mut rest = tokens;
    'alternatives: while !at_function(rest) {
        let alternative = array(alloc, depth, rest)?;
        let after = alternative.rest;
        height = higher(height, alternative.height);
        types.push(alternative.value)?;
        match take_punctuator(after, b"|") {
            Some(next) => rest = next,
            None => {
                return Ok(Parsed {
                    value: types,
                    height,
                    rest: after,
                });
            }
        }
    }
    let last = function(alloc, depth, rest)?;
    types.push(last.value)?;
    Ok(Parsed {
        value: types,
        height: higher(height, last.height),
        rest: last.rest,
    })
}

/// The union of types, or the only one.
#[tactic(auto, using(dscript_ast::proofs::NodeViews::type_views), unfolding(dscript_grammar::specs::TypeReading::as_union, dscript_grammar::specs::Reading::pick))]
pub(crate) fn as_union<'a>(
    depth: Depth,
    alternatives: Parsed<'a, Vec<TypeNode>>,
) -> Parse<'a, TypeNode>
    requires { alternatives.height ≤ suc depth.levels }
    ensures { Gives type_tree
        (as_union (read_type depth.levels) depth.levels (map type_tree alternatives.entry.value.items)
        alternatives.entry.height (kinds alternatives.entry.rest.now))
        (suc depth.levels) (suc (length (kinds alternatives.entry.rest.now))) result }
{
    let mut types = alternatives.value;
    if types.len() > 1 {
        return node(
            depth,
            TypeNode::Union(types),
            alternatives.height,
            alternatives.rest,
        );
    }
    match types.pop() {
        Some(only) => Ok(Parsed {
            value: only,
            height: alternatives.height,
            rest: alternatives.rest,
        }),
        None => Err(Refusal::Syntax),
    }
}

/// A type whose height is at most one more than the levels that are left below it.
#[cycle(types)]
#[tactic(auto, unfolding(dscript_grammar::specs::TypeReading::read_any, dscript_grammar::specs::Reading::and_then))]
fn any_type<'a>(alloc: Global, depth: Depth, tokens: &'a [Token]) -> Parse<'a, TypeNode>
    ensures { Parses type_tree (read_any (read_type depth.levels) depth.levels)
        (suc depth.levels) tokens.now result }
{
    let alternatives = union(alloc, depth, tokens)?;
    as_union(depth, alternatives)
}
