//! Single tokens.

ghost use Rattle.std.specs.Prelude.{bytes_eq, ◌≡◌, ◌≤◌, length, map};
ghost use Rattle.dscript_parse_tokens.specs.Gives.{kinds, MayRead, Offers, Parses, Takes, Wants};
ghost use Rattle.dscript_grammar.specs.Language.{is_one_of, is_reserved};
ghost use Rattle.dscript_grammar.specs.TypeReading.{at_identifier};
ghost use Rattle.dscript_grammar.specs.Reading.{is_punctuator_bytes, is_keyword_bytes, at_punctuator_bytes};
ghost use Rattle.dscript_grammar.specs.Reading.{take_punctuator_bytes, take_keyword_bytes};
ghost use Rattle.dscript_grammar.specs.Reading.{read_identifier, read_name, read_string, flag_by, got};

use crate::parsed::{Parse, Parsed, Refusal};
use bx_tree::Text;
use dscript_lex::{Token, TokenKind};

/// Whether the text is this one.
pub fn is_text(text: &Text, bytes: &[u8]) -> bool
    ensures { result ≡ bytes_eq text.now bytes.now }
{
    text.bytes() == bytes
}

/// Whether the token is this punctuator.
fn is_punctuator(token: &Token, spelling: &[u8]) -> bool
    ensures { result ≡ is_punctuator_bytes spelling.now token.now.kind }
{
    match &token.kind {
        TokenKind::Punct(text) => text.bytes() == spelling,
        _ => false,
    }
}

/// Whether the token is this word.
fn is_keyword(token: &Token, spelling: &[u8]) -> bool
    ensures { result ≡ is_keyword_bytes spelling.now token.now.kind }
{
    match &token.kind {
        TokenKind::Word(text) => text.bytes() == spelling,
        _ => false,
    }
}

/// Whether the word is one of these.
fn is_one_of(word: &[u8], words: &[&[u8]]) -> bool
    ensures { result ≡ is_one_of word.now (map (λ w. w.now) words.now) }
{
    for candidate in words {
        if word == *candidate {
            return true;
        }
    }
    false
}

/// Whether the word is reserved, so that it names no value.
#[tactic(auto, unfolding(dscript_grammar::specs::Language::is_reserved))]
fn is_reserved(word: &[u8]) -> bool
    ensures { result ≡ is_reserved word.now }
{
    match word.len() {
        2 => is_one_of(word, &[b"if", b"do", b"in"]),
        3 => is_one_of(word, &[b"let", b"for", b"new", b"var", b"try"]),
        4 => is_one_of(word, &[b"else", b"true", b"enum", b"this", b"null"]),
        5 => is_one_of(
            word,
            &[b"const", b"false", b"class", b"while", b"break", b"throw"],
        ),
        6 => is_one_of(
            word,
            &[b"import", b"export", b"return", b"switch", b"typeof"],
        ),
        7 => is_one_of(word, &[b"default"]),
        8 => is_one_of(word, &[b"function", b"continue"]),
        9 => is_one_of(word, &[b"interface", b"undefined"]),
        _ => false,
    }
}

/// The tokens after this punctuator, if it is the first.
#[tactic(auto, unfolding(dscript_grammar::specs::Reading::take_punctuator_bytes, dscript_grammar::specs::Reading::pick))]
pub fn take_punctuator<'a>(tokens: &'a [Token], spelling: &[u8]) -> Option<&'a [Token]>
    ensures { Takes result (take_punctuator_bytes spelling.now (kinds tokens.now))
        (length (kinds tokens.now)) }
{
    let (token, rest) = tokens.split_first()?;
    if is_punctuator(token, spelling) {
        Some(rest)
    } else {
        None
    }
}

/// The tokens after this word, if it is the first.
#[tactic(auto, unfolding(dscript_grammar::specs::Reading::take_keyword_bytes, dscript_grammar::specs::Reading::pick))]
pub fn take_keyword<'a>(tokens: &'a [Token], spelling: &[u8]) -> Option<&'a [Token]>
    ensures { Takes result (take_keyword_bytes spelling.now (kinds tokens.now)) (length (kinds tokens.now)) }
{
    let (token, rest) = tokens.split_first()?;
    if is_keyword(token, spelling) {
        Some(rest)
    } else {
        None
    }
}

/// Whether this punctuator is the first token.
#[tactic(auto, unfolding(dscript_grammar::specs::Reading::at_punctuator_bytes))]
pub fn at_punctuator(tokens: &[Token], spelling: &[u8]) -> bool
    ensures { result ≡ at_punctuator_bytes spelling.now (kinds tokens.now) }
{
    match tokens.split_first() {
        Some((token, _)) => is_punctuator(token, spelling),
        None => false,
    }
}

/// The tokens after this punctuator, which has to be the first.
pub fn punctuator<'a>(tokens: &'a [Token], spelling: &[u8]) -> Result<&'a [Token], Refusal>
    ensures { Wants result (take_punctuator_bytes spelling.now (kinds tokens.now))
        (length (kinds tokens.now)) }
{
    take_punctuator(tokens, spelling).ok_or(Refusal::Syntax)
}

/// The tokens after this word, which has to be the first.
pub fn keyword<'a>(tokens: &'a [Token], spelling: &[u8]) -> Result<&'a [Token], Refusal>
    ensures { Wants result (take_keyword_bytes spelling.now (kinds tokens.now)) (length (kinds tokens.now)) }
{
    take_keyword(tokens, spelling).ok_or(Refusal::Syntax)
}

/// A word, reserved or not.
#[tactic(auto, unfolding(dscript_grammar::specs::Reading::read_name))]
pub fn name(tokens: &[Token]) -> Parse<'_, Text>
    ensures { Parses (λ x. x) read_name 0 tokens.now result }
{
    let Some((token, rest)) = tokens.split_first() else {
        return Err(Refusal::Syntax);
    };
    match &token.kind {
        TokenKind::Word(text) => Ok(Parsed {
            value: text.share()?,
            height: 0,
            rest,
        }),
        _ => Err(Refusal::Syntax),
    }
}

/// A word that is not reserved.
#[tactic(auto, unfolding(dscript_grammar::specs::Reading::read_identifier, dscript_grammar::specs::Reading::pick))]
pub fn identifier(tokens: &[Token]) -> Parse<'_, Text>
    ensures { Parses (λ x. x) read_identifier 0 tokens.now result }
{
    let Some((token, rest)) = tokens.split_first() else {
        return Err(Refusal::Syntax);
    };
    match &token.kind {
        TokenKind::Word(text) => {
            if is_reserved(text.bytes()) {
                return Err(Refusal::Syntax);
            }
            Ok(Parsed {
                value: text.share()?,
                height: 0,
                rest,
            })
        }
        _ => Err(Refusal::Syntax),
    }
}

/// A string.
#[tactic(auto, unfolding(dscript_grammar::specs::Reading::read_string))]
pub fn string(tokens: &[Token]) -> Parse<'_, Text>
    ensures { Parses (λ x. x) read_string 0 tokens.now result }
{
    let Some((token, rest)) = tokens.split_first() else {
        return Err(Refusal::Syntax);
    };
    match &token.kind {
        TokenKind::Str(text) => Ok(Parsed {
            value: text.share()?,
            height: 0,
            rest,
        }),
        _ => Err(Refusal::Syntax),
    }
}

/// A string, if it is the first token.
#[tactic(auto, unfolding(dscript_grammar::specs::Reading::read_string))]
pub fn string_at(tokens: &[Token]) -> Option<Parsed<'_, &Text>>
    ensures { Offers (λ x. x.now) (read_string (kinds tokens.now)) (length (kinds tokens.now)) result }
{
    let (token, rest) = tokens.split_first()?;
    match &token.kind {
        TokenKind::Str(text) => Some(Parsed {
            value: text,
            height: 0,
            rest,
        }),
        _ => None,
    }
}

/// Whether this punctuator is the first token, and the tokens after it then.
#[tactic(auto, unfolding(dscript_grammar::specs::Reading::flag_by, dscript_grammar::specs::Reading::choose))]
pub fn flag<'a>(tokens: &'a [Token], spelling: &[u8]) -> (bool, &'a [Token])
    ensures read { flag_by spelling.now (kinds tokens.now) ≡ got result.0 0 (kinds result.1.now) }
    ensures not_longer { length (kinds result.1.now) ≤ length (kinds tokens.now) }
{
    match take_punctuator(tokens, spelling) {
        Some(rest) => (true, rest),
        None => (false, tokens),
    }
}

/// Whether the first token is a word that is not reserved.
#[tactic(auto, unfolding(dscript_grammar::specs::TypeReading::at_identifier))]
pub fn at_identifier(tokens: &[Token]) -> bool
    ensures { result ≡ at_identifier (kinds tokens.now) }
{
    let Some((token, _)) = tokens.split_first() else {
        return false;
    };
    match &token.kind {
        TokenKind::Word(text) => !is_reserved(text.bytes()),
        _ => false,
    }
}
