//! Declarations.

ghost use Rattle.std.specs.Prelude.{◌≡◌, suc, length, map};
ghost use Rattle.dscript_ast.specs.Views.{decl_tree, marked_tree, type_tree};
ghost use Rattle.dscript_grammar.specs.FileReading.{read_alias, read_const, read_decl, read_declared};
ghost use Rattle.dscript_grammar.specs.FileReading.{read_extends};
ghost use Rattle.dscript_grammar.specs.FileReading.{read_function, read_interface, read_mark, read_marked};
ghost use Rattle.dscript_grammar.specs.FileReading.{read_namespace, read_type_params};
ghost use Rattle.dscript_parse_tokens.specs.Enclosed.{read_closed_many};
ghost use Rattle.dscript_parse_tokens.specs.Gives.{kinds, MayRead, Parses};

use bx_tree::Text;
use dscript_ast::{Decl, Mark, Marked, TypeNode};
use dscript_lex::Token;
use dscript_parse_exprs::{block, note, params, value};
use dscript_parse_tokens::{
    Depth, Parse, Parsed, body, closed, dotted, higher, identifier, keyword, names, punctuator,
    take_keyword, take_punctuator, type_list, type_node, until,
};
use std::alloc::Global;

/// Who may see the declaration that follows.
#[tactic(auto, unfolding(dscript_grammar::specs::FileReading::read_mark, dscript_grammar::specs::Reading::choose, dscript_grammar::specs::Reading::and_then))]
pub(crate) fn mark(tokens: &[Token]) -> Parse<'_, Mark>
    ensures { MayRead (λ m. m) read_mark 0 tokens.now result }
{
    if let Some(rest) = take_punctuator(tokens, b"@@") {
        let rest = keyword(rest, b"public")?;
        let rest = keyword(rest, b"export")?;
        return Ok(Parsed {
            value: Mark::Public,
            height: 0,
            rest: rest,
        });
    }
    if let Some(rest) = take_keyword(tokens, b"export") {
        return Ok(Parsed {
            value: Mark::Export,
            height: 0,
            rest: rest,
        });
    }
    Ok(Parsed {
        value: Mark::Plain,
        height: 0,
        rest: tokens,
    })
}

/// Type parameters in angle brackets, if there are any.
#[tactic(auto, unfolding(dscript_grammar::specs::FileReading::read_type_params, dscript_grammar::specs::Reading::choose, dscript_grammar::specs::Reading::and_then))]
pub(crate) fn type_params<'a>(
    alloc: Global,
    depth: Depth,
    tokens: &'a [Token],
) -> Parse<'a, Vec<Text>>
    ensures { MayRead (λ v. v.items) read_type_params depth.levels tokens.now result }
{
    let Some(rest) = take_punctuator(tokens, b"<") else {
        return Ok(Parsed {
            value: Vec::new(alloc),
            height: 0,
            rest: tokens,
        });
    };
    let names = names(alloc, depth, rest)?;
    let rest = punctuator(names.rest, b">")?;
    Ok(Parsed {
        value: names.value,
        height: 0,
        rest: rest,
    })
}

/// The types that an interface extends, if there are any.
#[tactic(auto, unfolding(dscript_grammar::specs::FileReading::read_extends, dscript_grammar::specs::Reading::choose))]
pub(crate) fn extends<'a>(
    alloc: Global,
    depth: Depth,
    tokens: &'a [Token],
) -> Parse<'a, Vec<TypeNode>>
    ensures { MayRead (λ v. map type_tree v.items) (read_extends depth.levels) depth.levels
        tokens.now result }
{
    match take_keyword(tokens, b"extends") {
        Some(rest) => type_list(alloc, depth, rest),
        None => Ok(Parsed {
            value: Vec::new(alloc),
            height: 0,
            rest: tokens,
        }),
    }
}

/// A constant, after its keyword.
#[tactic(auto, using(dscript_ast::proofs::NodeViews::tree_views), unfolding(dscript_grammar::specs::FileReading::read_const, dscript_grammar::specs::Reading::and_then))]
pub(crate) fn constant<'a>(alloc: Global, depth: Depth, tokens: &'a [Token]) -> Parse<'a, Decl>
    ensures { Parses decl_tree
        (read_const depth.levels (read_marked depth.levels)) depth.levels tokens.now result }
{
    let name = identifier(tokens)?;
    let note = note(alloc, depth, name.rest)?;
    let value = value(alloc, depth, note.rest)?;
    Ok(Parsed {
        value: Decl::Const(name.value, note.value, value.value),
        height: higher(note.height, value.height),
        rest: value.rest,
    })
}

/// A function, after its keyword.
#[tactic(auto, using(dscript_ast::proofs::NodeViews::tree_views), unfolding(dscript_grammar::specs::FileReading::read_function, dscript_grammar::specs::Reading::and_then))]
pub(crate) fn function<'a>(alloc: Global, depth: Depth, tokens: &'a [Token]) -> Parse<'a, Decl>
    ensures { Parses decl_tree
        (read_function depth.levels (read_marked depth.levels)) depth.levels tokens.now result }
{
    let name = identifier(tokens)?;
    let types = type_params(alloc, depth, name.rest)?;
    let params = params(alloc, depth, types.rest)?;
    let note = note(alloc, depth, params.rest)?;
    let body = block(alloc, depth, note.rest)?;
    let height = higher(params.height, higher(note.height, body.height));
    let function = Decl::Function(
        name.value,
        types.value,
        params.value,
        note.value,
        body.value,
    );
    Ok(Parsed {
        value: function,
        height,
        rest: body.rest,
    })
}

/// An interface, after its keyword.
#[tactic(auto, using(dscript_ast::proofs::NodeViews::tree_views), unfolding(dscript_grammar::specs::FileReading::read_interface, dscript_grammar::specs::Reading::and_then))]
pub(crate) fn interface<'a>(alloc: Global, depth: Depth, tokens: &'a [Token]) -> Parse<'a, Decl>
    ensures { Parses decl_tree
        (read_interface depth.levels (read_marked depth.levels)) depth.levels tokens.now result }
{
    let name = identifier(tokens)?;
    let types = type_params(alloc, depth, name.rest)?;
    let extended = extends(alloc, depth, types.rest)?;
    let members = body(alloc, depth, extended.rest)?;
    let interface = Decl::Interface(name.value, types.value, extended.value, members.value);
    Ok(Parsed {
        value: interface,
        height: higher(extended.height, members.height),
        rest: members.rest,
    })
}

/// A name for a type, after its keyword.
#[tactic(auto, using(dscript_ast::proofs::NodeViews::tree_views), unfolding(dscript_grammar::specs::FileReading::read_alias, dscript_grammar::specs::Reading::and_then))]
pub(crate) fn type_alias<'a>(alloc: Global, depth: Depth, tokens: &'a [Token]) -> Parse<'a, Decl>
    ensures { Parses decl_tree
        (read_alias depth.levels (read_marked depth.levels)) depth.levels tokens.now result }
{
    let name = identifier(tokens)?;
    let types = type_params(alloc, depth, name.rest)?;
    let rest = punctuator(types.rest, b"=")?;
    let named = closed(type_node(alloc, depth, rest)?, b";")?;
    Ok(Parsed {
        value: Decl::TypeAlias(name.value, types.value, named.value),
        height: named.height,
        rest: named.rest,
    })
}

/// Declarations, and the brace after them.
#[cycle(decls)]
fn declarations<'a>(alloc: Global, depth: Depth, tokens: &'a [Token]) -> Parse<'a, Vec<Marked>>
    ensures { Parses (λ v. map marked_tree v.items)
        (read_closed_many "}" (read_marked depth.levels)) depth.levels tokens.now result }
{
    until(alloc, depth, b"}", tokens, marked)
}

/// A namespace, after its keyword.
#[cycle(decls)]
#[tactic(auto, using(dscript_ast::proofs::NodeViews::tree_views), unfolding(dscript_grammar::specs::FileReading::read_namespace, dscript_grammar::specs::Reading::and_then))]
fn namespace<'a>(alloc: Global, depth: Depth, tokens: &'a [Token]) -> Parse<'a, Decl>
    ensures { Parses decl_tree
        (read_namespace depth.levels (read_marked depth.levels)) depth.levels tokens.now result }
{
    let names = dotted(alloc, depth, tokens)?;
    let rest = punctuator(names.rest, b"{")?;
    let declarations = declarations(alloc, depth, rest)?;
    Ok(Parsed {
        value: Decl::Namespace(names.value, declarations.value),
        height: declarations.height,
        rest: declarations.rest,
    })
}

/// A declaration without its mark.
#[cycle(decls)]
#[tactic(auto, unfolding(dscript_grammar::specs::FileReading::read_decl, dscript_grammar::specs::Reading::choose, dscript_grammar::specs::Reading::and_then))]
fn declaration<'a>(alloc: Global, depth: Depth, tokens: &'a [Token]) -> Parse<'a, Decl>
    ensures { Parses decl_tree
        (read_decl depth.levels (read_marked depth.levels)) depth.levels tokens.now result }
{
    if let Some(rest) = take_keyword(tokens, b"const") {
        return constant(alloc, depth, rest);
    }
    if let Some(rest) = take_keyword(tokens, b"function") {
        return function(alloc, depth, rest);
    }
    if let Some(rest) = take_keyword(tokens, b"namespace") {
        return namespace(alloc, depth, rest);
    }
    if let Some(rest) = take_keyword(tokens, b"interface") {
        return interface(alloc, depth, rest);
    }
    let rest = keyword(tokens, b"type")?;
    type_alias(alloc, depth, rest)
}

/// A declaration with its mark, over the levels that are left below it.
#[cycle(decls)]
#[tactic(auto, using(dscript_ast::proofs::NodeViews::tree_views), unfolding(dscript_grammar::specs::FileReading::read_declared, dscript_grammar::specs::Reading::and_then))]
fn declared<'a>(alloc: Global, depth: Depth, tokens: &'a [Token]) -> Parse<'a, Marked>
    ensures { Parses marked_tree
        (read_declared depth.levels (read_marked depth.levels)) (suc depth.levels) tokens.now result }
{
    let mark = mark(tokens)?;
    let decl = declaration(alloc, depth, mark.rest)?;
    let marked = Marked {
        mark: mark.value,
        decl: decl.value,
    };
    Ok(Parsed {
        value: marked,
        height: decl.height + 1,
        rest: decl.rest,
    })
}

/// A declaration with its mark.
#[cycle(decls)]
#[tactic(auto, unfolding(dscript_grammar::specs::FileReading::read_marked))]
pub(crate) fn marked<'a>(alloc: Global, depth: Depth, tokens: &'a [Token]) -> Parse<'a, Marked>
    ensures { Parses marked_tree (read_marked depth.levels) depth.levels tokens.now result }
{
    declared(alloc, depth.below()?, tokens)
}
