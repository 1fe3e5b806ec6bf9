//! Tests on the next tokens, and tokens that only expressions and statements have.

ghost use Rattle.std.specs.Prelude.{◌≡◌, ◌∷◌, [], length};
ghost use Rattle.dscript_ast.specs.Operators.{precedence};
ghost use Rattle.dscript_grammar.specs.ExprReading.{after_param_name, at_arrow, at_assign, at_params};
ghost use Rattle.dscript_grammar.specs.ExprReading.{at_part, at_prefix};
ghost use Rattle.dscript_grammar.specs.ExprReading.{at_template, closes_params, ends_param, letter_of};
ghost use Rattle.dscript_grammar.specs.ExprReading.{optional_param};
ghost use Rattle.dscript_grammar.specs.ExprReading.{read_letter, read_loop_keyword};
ghost use Rattle.dscript_grammar.specs.ExprReading.{read_operator, read_prefix};
ghost use Rattle.dscript_grammar.specs.ExprReading.{operator_precedence, read_whole, read_head, read_middle};
ghost use Rattle.dscript_grammar.specs.ExprReading.{read_tail};
ghost use Rattle.dscript_parse_exprs.specs.Spelled.{operator_spelled, read_spelled};
ghost use Rattle.dscript_parse_tokens.specs.Gives.{kinds, Offers, Parses};

use bx_tree::Text;
use dscript_ast::{BinaryOp, LoopKind, PathKind, UnaryOp};
use dscript_lex::{Token, TokenKind};
use dscript_parse_tokens::{
    Depth, Parse, Parsed, Refusal, at_punctuator, is_text, take_keyword, take_punctuator,
};
use std::alloc::Global;

/// What a token is, which has no height, and the tokens after it.
fn flat<'a, T>(value: T, rest: &'a [Token]) -> Parsed<'a, T>
    ensures { result ≡ record { value = value; height = 0; rest = rest.entry } }
{
    Parsed {
        value,
        height: 0,
        rest,
    }
}

/// A template without holes, if it is the first token.
#[tactic(auto, unfolding(dscript_grammar::specs::ExprReading::read_whole))]
pub(crate) fn template_whole(tokens: &[Token]) -> Option<Parsed<'_, &Text>>
    ensures { Offers (λ x. x.now) (read_whole (kinds tokens.now)) (length (kinds tokens.now)) result }
{
    let (token, rest) = tokens.split_first()?;
    match &token.kind {
        TokenKind::Whole(text) => Some(flat(text, rest)),
        _ => None,
    }
}

/// The text before the first hole of a template, if it is the first token.
#[tactic(auto, unfolding(dscript_grammar::specs::ExprReading::read_head))]
pub(crate) fn template_head(tokens: &[Token]) -> Option<Parsed<'_, &Text>>
    ensures { Offers (λ x. x.now) (read_head (kinds tokens.now)) (length (kinds tokens.now)) result }
{
    let (token, rest) = tokens.split_first()?;
    match &token.kind {
        TokenKind::Head(text) => Some(flat(text, rest)),
        _ => None,
    }
}

/// The text between two holes, if it is the first token.
#[tactic(auto, unfolding(dscript_grammar::specs::ExprReading::read_middle))]
pub(crate) fn template_middle(tokens: &[Token]) -> Option<Parsed<'_, &Text>>
    ensures { Offers (λ x. x.now) (read_middle (kinds tokens.now)) (length (kinds tokens.now)) result }
{
    let (token, rest) = tokens.split_first()?;
    match &token.kind {
        TokenKind::Middle(text) => Some(flat(text, rest)),
        _ => None,
    }
}

/// The text after the last hole, if it is the first token.
#[tactic(auto, unfolding(dscript_grammar::specs::ExprReading::read_tail))]
pub(crate) fn template_tail(tokens: &[Token]) -> Option<Parsed<'_, &Text>>
    ensures { Offers (λ x. x.now) (read_tail (kinds tokens.now)) (length (kinds tokens.now)) result }
{
    let (token, rest) = tokens.split_first()?;
    match &token.kind {
        TokenKind::Tail(text) => Some(flat(text, rest)),
        _ => None,
    }
}

/// Whether the first token begins a template.
#[tactic(auto, unfolding(dscript_grammar::specs::ExprReading::at_template))]
pub(crate) fn at_template(tokens: &[Token]) -> bool
    ensures { result ≡ at_template (kinds tokens.now) }
{
    match tokens.split_first() {
        Some((token, _)) => matches!(&token.kind, TokenKind::Whole(_) | TokenKind::Head(_)),
        None => false,
    }
}

/// The kind of literal that a letter means.
#[tactic(auto, unfolding(dscript_grammar::specs::ExprReading::letter_of, dscript_grammar::specs::Reading::pick))]
fn letter_of(text: &Text) -> Option<PathKind>
    ensures { result ≡ letter_of text.now }
{
    if is_text(text, b"p") {
        return Some(PathKind::Path);
    }
    if is_text(text, b"f") {
        return Some(PathKind::File);
    }
    if is_text(text, b"d") {
        return Some(PathKind::Directory);
    }
    if is_text(text, b"r") {
        return Some(PathKind::Relative);
    }
    if is_text(text, b"a") {
        return Some(PathKind::Atom);
    }
    None
}

/// The letter of a literal, if it is the first token and a template is the next.
#[tactic(auto, unfolding(dscript_grammar::specs::ExprReading::read_letter, dscript_grammar::specs::Reading::pick, dscript_grammar::specs::Reading::choose))]
pub(crate) fn letter(tokens: &[Token]) -> Option<Parsed<'_, PathKind>>
    ensures { Offers (λ k. k) (read_letter (kinds tokens.now)) (length (kinds tokens.now)) result }
{
    let (token, rest) = tokens.split_first()?;
    match &token.kind {
        TokenKind::Word(text) => {
            if !at_template(rest) {
                return None;
            }
            let kind = letter_of(text)?;
            Some(flat(kind, rest))
        }
        _ => None,
    }
}

/// The operator of one byte with this spelling.
#[tactic(auto, unfolding(crate::specs::Spelled::operator_spelled))]
fn operator_of_one(a: u8) -> Option<BinaryOp>
    ensures { result ≡ operator_spelled (a ∷ []) }
{
    match a {
        b'<' => Some(BinaryOp::Less),
        b'>' => Some(BinaryOp::Greater),
        b'+' => Some(BinaryOp::Add),
        b'-' => Some(BinaryOp::Subtract),
        b'*' => Some(BinaryOp::Multiply),
        _ => None,
    }
}

/// The operator of two bytes with this spelling.
#[tactic(auto, unfolding(crate::specs::Spelled::operator_spelled))]
fn operator_of_two(a: u8, b: u8) -> Option<BinaryOp>
    ensures { result ≡ operator_spelled (a ∷ b ∷ []) }
{
    match (a, b) {
        (b'|', b'|') => Some(BinaryOp::Or),
        (b'&', b'&') => Some(BinaryOp::And),
        (b'<', b'=') => Some(BinaryOp::LessOrEqual),
        (b'>', b'=') => Some(BinaryOp::GreaterOrEqual),
        _ => None,
    }
}

/// The operator of three bytes with this spelling.
#[tactic(auto, unfolding(crate::specs::Spelled::operator_spelled))]
fn operator_of_three(a: u8, b: u8, c: u8) -> Option<BinaryOp>
    ensures { result ≡ operator_spelled (a ∷ b ∷ c ∷ []) }
{
    if b != b'=' || c != b'=' {
        return None;
    }
    match a {
        b'=' => Some(BinaryOp::Equal),
        b'!' => Some(BinaryOp::NotEqual),
        _ => None,
    }
}

/// The operator between two operands with this spelling.
#[tactic(auto, unfolding(crate::specs::Spelled::operator_spelled))]
fn operator_spelled(text: &[u8]) -> Option<BinaryOp>
    ensures { result ≡ operator_spelled text.now }
{
    match text {
        [a] => operator_of_one(*a),
        [a, b] => operator_of_two(*a, *b),
        [a, b, c] => operator_of_three(*a, *b, *c),
        _ => None,
    }
}

/// The operator between two operands that the first token is, by its spelling.
#[tactic(auto, unfolding(crate::specs::Spelled::read_spelled, dscript_grammar::specs::Reading::choose))]
fn first_operator(tokens: &[Token]) -> Option<Parsed<'_, BinaryOp>>
    ensures { Offers (λ o. o) (read_spelled (kinds tokens.now)) (length (kinds tokens.now)) result }
{
    let (token, rest) = tokens.split_first()?;
    match &token.kind {
        TokenKind::Punct(text) => {
            let operator = operator_spelled(text.bytes())?;
            Some(flat(operator, rest))
        }
        _ => None,
    }
}

/// The operator between two operands, if it is the first token.
pub(crate) fn operator(tokens: &[Token]) -> Option<Parsed<'_, BinaryOp>>
    ensures { Offers (λ o. o) (read_operator (kinds tokens.now)) (length (kinds tokens.now)) result }
{
    first_operator(tokens)
}

/// The level of the operator that is the first token; 100 where it is none.
#[tactic(auto, unfolding(dscript_grammar::specs::ExprReading::operator_precedence, dscript_grammar::specs::Reading::choose))]
pub(crate) fn next_precedence(tokens: &[Token]) -> u32
    ensures { result ≡ operator_precedence (kinds tokens.now) }
{
    match operator(tokens) {
        Some(operator) => operator.value.precedence(),
        None => 100,
    }
}

/// Whether the first token is an operator before an operand.
#[tactic(auto, unfolding(dscript_grammar::specs::ExprReading::at_prefix))]
pub(crate) fn at_prefix(tokens: &[Token]) -> bool
    ensures { result ≡ at_prefix (kinds tokens.now) }
{
    at_punctuator(tokens, b"!") || at_punctuator(tokens, b"-")
}

/// An operator before an operand.
#[tactic(auto, unfolding(dscript_grammar::specs::ExprReading::read_prefix, dscript_grammar::specs::Reading::choose))]
pub(crate) fn prefix<'a>(_alloc: Global, depth: Depth, tokens: &'a [Token]) -> Parse<'a, UnaryOp>
    ensures { Parses (λ o. o) read_prefix depth.levels tokens.now result }
{
    if let Some(rest) = take_punctuator(tokens, b"!") {
        return Ok(flat(UnaryOp::Not, rest));
    }
    match take_punctuator(tokens, b"-") {
        Some(rest) => Ok(flat(UnaryOp::Negate, rest)),
        None => Err(Refusal::Syntax),
    }
}

/// Whether the tokens begin with a member, an index or arguments.
#[tactic(auto, unfolding(dscript_grammar::specs::ExprReading::at_part))]
pub(crate) fn at_part(tokens: &[Token]) -> bool
    ensures { result ≡ at_part (kinds tokens.now) }
{
    at_punctuator(tokens, b".") || at_punctuator(tokens, b"[") || at_punctuator(tokens, b"(")
}

/// Whether a parameter ends before the first token.
#[tactic(auto, unfolding(dscript_grammar::specs::ExprReading::ends_param))]
fn ends_param(tokens: &[Token]) -> bool
    ensures { result ≡ ends_param (kinds tokens.now) }
{
    at_punctuator(tokens, b")") || at_punctuator(tokens, b",") || at_punctuator(tokens, b":")
}

/// Whether the first token is `?`, and a parameter ends after it.
#[tactic(auto, unfolding(dscript_grammar::specs::ExprReading::optional_param, dscript_grammar::specs::Reading::choose))]
fn optional_param(tokens: &[Token]) -> bool
    ensures { result ≡ optional_param (kinds tokens.now) }
{
    match take_punctuator(tokens, b"?") {
        Some(rest) => ends_param(rest),
        None => false,
    }
}

/// Whether the first tokens are `)` and `=>`.
#[tactic(auto, unfolding(dscript_grammar::specs::ExprReading::closes_params, dscript_grammar::specs::Reading::choose))]
fn closes_params(tokens: &[Token]) -> bool
    ensures { result ≡ closes_params (kinds tokens.now) }
{
    match take_punctuator(tokens, b")") {
        Some(rest) => at_punctuator(rest, b"=>"),
        None => false,
    }
}

/// Whether a name before these tokens is a parameter of an arrow function.
fn after_param_name(tokens: &[Token]) -> bool
    ensures { result ≡ after_param_name (kinds tokens.now) }
{
    at_punctuator(tokens, b",")
        || at_punctuator(tokens, b":")
        || optional_param(tokens)
        || closes_params(tokens)
}

/// Whether the tokens after a `(` are parameters of an arrow function, and no expression.
#[tactic(auto, unfolding(dscript_grammar::specs::ExprReading::at_params))]
fn at_params(tokens: &[Token]) -> bool
    ensures { result ≡ at_params (kinds tokens.now) }
{
    let Some((token, rest)) = tokens.split_first() else {
        return false;
    };
    match &token.kind {
        TokenKind::Word(_) => after_param_name(rest),
        _ => at_punctuator(tokens, b")"),
    }
}

/// Whether the tokens begin with an arrow function.
#[tactic(auto, unfolding(dscript_grammar::specs::ExprReading::at_arrow, dscript_grammar::specs::Reading::choose))]
pub(crate) fn at_arrow(tokens: &[Token]) -> bool
    ensures { result ≡ at_arrow (kinds tokens.now) }
{
    let Some((token, rest)) = tokens.split_first() else {
        return false;
    };
    match &token.kind {
        TokenKind::Word(_) => at_punctuator(rest, b"=>"),
        _ => match take_punctuator(tokens, b"(") {
            Some(inner) => at_params(inner),
            None => false,
        },
    }
}

/// Whether the tokens begin with an assignment.
#[tactic(auto, unfolding(dscript_grammar::specs::ExprReading::at_assign))]
pub(crate) fn at_assign(tokens: &[Token]) -> bool
    ensures { result ≡ at_assign (kinds tokens.now) }
{
    let Some((token, rest)) = tokens.split_first() else {
        return false;
    };
    match &token.kind {
        TokenKind::Word(_) => at_punctuator(rest, b"="),
        _ => false,
    }
}

/// How the variable of a loop is declared.
#[tactic(auto, unfolding(dscript_grammar::specs::ExprReading::read_loop_keyword, dscript_grammar::specs::Reading::choose, dscript_grammar::specs::Reading::and_then))]
pub(crate) fn loop_kind(tokens: &[Token]) -> Parse<'_, LoopKind>
    ensures { Parses (λ k. k) read_loop_keyword 0 tokens.now result }
{
    if let Some(rest) = take_keyword(tokens, b"const") {
        return Ok(flat(LoopKind::Const, rest));
    }
    match take_keyword(tokens, b"let") {
        Some(rest) => Ok(flat(LoopKind::Let, rest)),
        None => Err(Refusal::Syntax),
    }
}
