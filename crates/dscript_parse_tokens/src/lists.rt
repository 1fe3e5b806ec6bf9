//! Lists of what one function reads.

ghost use Rattle.std.specs.Prelude.{◌≡◌, ◌<◌, ◌≤◌, Bool, List, codes, length, map, max, suc, MatchResult};
ghost use Rattle.dscript_lex.specs.declared.token.TokenKind.{TokenKind};
ghost use Rattle.dscript_parse_tokens.specs.Gives.{kinds, EachReads, EachShortens, EachTests, MayRead, Parses};
ghost use Rattle.dscript_parse_tokens.specs.Enclosed.{Spelling, read_closed_list, read_closed_many};
ghost use Rattle.dscript_parse_tokens.specs.declared.parsed.Refusal.TheVariants as refusals;
ghost use Rattle.dscript_grammar.specs.Reading.{Reader, read_identifier, read_many, read_separated};
ghost use Rattle.dscript_grammar.specs.Reading.{take_punctuator_bytes};

use crate::depth::Depth;
use crate::parsed::{Parse, Parsed, Refusal, higher};
use crate::syntax::Syntax;
use crate::tokens::{at_punctuator, identifier, punctuator, take_punctuator};
use bx_tree::Text;
use dscript_lex::Token;
use std::alloc::Global;

/// What was read, once the punctuator after it is taken.
pub fn closed<'a, T: Drop>(read: Parsed<'a, T>, close: &[u8]) -> Parse<'a, T>
    ensures { MatchResult result
        (λ p. (p.value ≡ read.entry.value) × (p.height ≡ read.entry.height)
        × (take_punctuator_bytes close.now (kinds read.entry.rest.now) ≡ Some (kinds p.rest.now))
        × (length (kinds p.rest.now) < length (kinds read.entry.rest.now)))
        (λ fault. (fault ≡ refusals.Syntax)
        × (take_punctuator_bytes close.now (kinds read.entry.rest.now) ≡ None)) }
{
    let rest = punctuator(read.rest, close)?;
    Ok(Parsed {
        value: read.value,
        height: read.height,
        rest,
    })
}

/// Values with commas between them, and perhaps after the last, up to a closing punctuator, which is
/// taken.
pub fn list<'a, T: Syntax, F: Fn(Global, Depth, &'a [Token]) -> Parse<'a, T>>(
    alloc: Global,
    depth: Depth,
    close: &[u8],
    tokens: &'a [Token],
    one: F,
) -> Parse<'a, Vec<T>>
    requires callable { (ts : _) → F.pre one alloc depth ts }
    requires shortens { EachShortens (F.post one alloc depth) }
    ensures { (reader : Reader T.Tree) (closer : Spelling)
        → EachReads T.tree reader depth.levels (F.post one alloc depth) → close.now ≡ codes closer
        → Parses (λ v. map T.tree v.items) (read_closed_list closer reader) depth.levels tokens.now result }
{
    let mut values = Vec::new(alloc);
    let mut height = 0;
    let mut rest = tokens;
    'values: while !at_punctuator(rest, close) {
        let item = one(alloc, depth, rest)?;
        let after = item.rest;
        height = higher(height, item.height);
        values.push(item.value)?;
        match take_punctuator(after, b",") {
            Some(next) => rest = next,
            None => {
                let read = Parsed {
                    value: values,
                    height,
                    rest: after,
                };
                return closed(read, close);
            }
        }
    }
    let read = Parsed {
        value: values,
        height,
        rest,
    };
    closed(read, close)
}

/// Values one after the other, up to a closing punctuator, which is taken.
pub fn until<'a, T: Syntax, F: Fn(Global, Depth, &'a [Token]) -> Parse<'a, T>>(
    alloc: Global,
    depth: Depth,
    close: &[u8],
    tokens: &'a [Token],
    one: F,
) -> Parse<'a, Vec<T>>
    requires callable { (ts : _) → F.pre one alloc depth ts }
    requires shortens { EachShortens (F.post one alloc depth) }
    ensures { (reader : Reader T.Tree) (closer : Spelling)
        → EachReads T.tree reader depth.levels (F.post one alloc depth) → close.now ≡ codes closer
        → Parses (λ v. map T.tree v.items) (read_closed_many closer reader) depth.levels tokens.now result }
{
    let mut values = Vec::new(alloc);
    let mut height = 0;
    let mut rest = tokens;
    'values: while !at_punctuator(rest, close) {
        let item = one(alloc, depth, rest)?;
        rest = item.rest;
        height = higher(height, item.height);
        values.push(item.value)?;
    }
    let read = Parsed {
        value: values,
        height,
        rest,
    };
    closed(read, close)
}

/// Values one after the other, as long as the tokens begin with one.
pub fn many<'a, T, G, F>(
    alloc: Global,
    depth: Depth,
    tokens: &'a [Token],
    goes_on: G,
    one: F,
) -> Parse<'a, Vec<T>>
where
    T: Syntax,
    G: Fn(&'a [Token]) -> bool,
    F: Fn(Global, Depth, &'a [Token]) -> Parse<'a, T>,
    requires test { G.IsAlwaysCallable goes_on }
    requires callable { (ts : _) → F.pre one alloc depth ts }
    requires shortens { EachShortens (F.post one alloc depth) }
    ensures { (reader : Reader T.Tree) (test : List TokenKind → Bool)
        → EachReads T.tree reader depth.levels (F.post one alloc depth) → EachTests test (G.post goes_on)
        → MayRead (λ v. map T.tree v.items)
        (λ ts. read_many test reader (suc (length ts)) ts) depth.levels tokens.now result }
{
    let mut values = Vec::new(alloc);
    let mut height = 0;
    let mut rest = tokens;
    'values: while goes_on(rest) {
        let item = one(alloc, depth, rest)?;
        rest = item.rest;
        height = higher(height, item.height);
        values.push(item.value)?;
    }
    Ok(Parsed {
        value: values,
        height,
        rest,
    })
}

/// Values with a punctuator between any two: at least one value.
pub fn separated<'a, T: Syntax, F: Fn(Global, Depth, &'a [Token]) -> Parse<'a, T>>(
    alloc: Global,
    depth: Depth,
    separator: &[u8],
    tokens: &'a [Token],
    one: F,
) -> Parse<'a, Vec<T>>
    requires callable { (ts : _) → F.pre one alloc depth ts }
    requires shortens { EachShortens (F.post one alloc depth) }
    ensures { (reader : Reader T.Tree) (between : Spelling)
        → EachReads T.tree reader depth.levels (F.post one alloc depth) → separator.now ≡ codes between
        → Parses (λ v. map T.tree v.items)
        (λ ts. read_separated between reader (length ts) ts) depth.levels tokens.now result }
{
    let mut values = Vec::new(alloc);
    let mut height = 0;
    let mut rest = tokens;
    'values: loop {
        let item = one(alloc, depth, rest)?;
        let after = item.rest;
        height = higher(height, item.height);
        values.push(item.value)?;
        match take_punctuator(after, separator) {
            Some(next) => rest = next,
            None => {
                return Ok(Parsed {
                    value: values,
                    height,
                    rest: after,
                });
            }
        }
    }
}

/// A name, as lists read it.
fn one_name<'a>(_alloc: Global, depth: Depth, tokens: &'a [Token]) -> Parse<'a, Text>
    ensures { Parses (λ x. x) read_identifier depth.levels tokens.now result }
{
    identifier(tokens)
}

/// Names with dots between them.
pub fn dotted<'a>(alloc: Global, depth: Depth, tokens: &'a [Token]) -> Parse<'a, Vec<Text>>
    ensures { Parses (λ v. v.items) (λ ts. read_separated "." read_identifier (length ts) ts) depth.levels
        tokens.now result }
{
    separated(alloc, depth, b".", tokens, one_name)
}

/// Names with commas between them.
pub fn names<'a>(alloc: Global, depth: Depth, tokens: &'a [Token]) -> Parse<'a, Vec<Text>>
    ensures { Parses (λ v. v.items) (λ ts. read_separated "," read_identifier (length ts) ts) depth.levels
        tokens.now result }
{
    separated(alloc, depth, b",", tokens, one_name)
}
