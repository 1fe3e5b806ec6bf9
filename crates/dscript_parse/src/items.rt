//! Items of a project file, which is a list of them.

ghost use Rattle.std.specs.Prelude.{◌≡◌, length, map};
ghost use Rattle.dscript_ast.specs.Views.{import_tree, item_tree};
ghost use Rattle.dscript_grammar.specs.FileReading.{read_import, read_import_all, read_import_name};
ghost use Rattle.dscript_grammar.specs.FileReading.{read_import_names};
ghost use Rattle.dscript_grammar.specs.FileReading.{read_item, read_source};
ghost use Rattle.dscript_parse_tokens.specs.Enclosed.{read_closed_list};
ghost use Rattle.dscript_parse_tokens.specs.Gives.{kinds, Parses};

use crate::decls::marked;
use bx_tree::Text;
use dscript_ast::{ImportName, ImportedNames, Item};
use dscript_lex::Token;
use dscript_parse_tokens::{
    Depth, Parse, Parsed, identifier, keyword, list, punctuator, string, take_keyword,
    take_punctuator,
};
use std::alloc::Global;

/// A name that is imported, and its name in the file if it is another.
#[tactic(auto, unfolding(dscript_grammar::specs::FileReading::read_import_name, dscript_grammar::specs::Reading::choose, dscript_grammar::specs::Reading::and_then))]
pub(crate) fn import_name<'a>(
    _alloc: Global,
    depth: Depth,
    tokens: &'a [Token],
) -> Parse<'a, ImportName>
    ensures { Parses import_tree read_import_name depth.levels tokens.now result }
{
    let name = identifier(tokens)?;
    let Some(rest) = take_keyword(name.rest, b"as") else {
        let import = ImportName {
            name: name.value,
            alias: None,
        };
        return Ok(Parsed {
            value: import,
            height: 0,
            rest: name.rest,
        });
    };
    let alias = identifier(rest)?;
    let import = ImportName {
        name: name.value,
        alias: Some(alias.value),
    };
    Ok(Parsed {
        value: import,
        height: 0,
        rest: alias.rest,
    })
}

/// Names that are imported, and the brace after them.
fn imported<'a>(alloc: Global, depth: Depth, tokens: &'a [Token]) -> Parse<'a, Vec<ImportName>>
    ensures { Parses (λ v. map import_tree v.items)
        (read_closed_list "}" read_import_name) depth.levels tokens.now result }
{
    list(alloc, depth, b"}", tokens, import_name)
}

/// The name of the module of an import, after its names.
#[tactic(auto, unfolding(dscript_grammar::specs::FileReading::read_source, dscript_grammar::specs::Reading::and_then))]
fn source(tokens: &[Token]) -> Parse<'_, Text>
    ensures { Parses (λ x. x) read_source 0 tokens.now result }
{
    let rest = keyword(tokens, b"from")?;
    let module = string(rest)?;
    let rest = punctuator(module.rest, b";")?;
    Ok(Parsed {
        value: module.value,
        height: 0,
        rest: rest,
    })
}

/// The import of a whole module, after its `*`.
#[tactic(auto, unfolding(dscript_grammar::specs::FileReading::read_import_all, dscript_grammar::specs::Reading::and_then))]
fn import_all(tokens: &[Token]) -> Parse<'_, Item>
    ensures { Parses item_tree read_import_all 1 tokens.now result }
{
    let rest = keyword(tokens, b"as")?;
    let name = identifier(rest)?;
    let module = source(name.rest)?;
    Ok(Parsed {
        value: Item::ImportAll(name.value, module.value),
        height: 1,
        rest: module.rest,
    })
}

/// The import of names, after its keyword.
#[tactic(auto, unfolding(dscript_grammar::specs::FileReading::read_import_names, dscript_grammar::specs::Reading::and_then))]
fn import_names<'a>(alloc: Global, depth: Depth, tokens: &'a [Token]) -> Parse<'a, Item>
    ensures { Parses item_tree read_import_names 1 tokens.now result }
{
    let rest = punctuator(tokens, b"{")?;
    let names = imported(alloc, depth, rest)?;
    let module = source(names.rest)?;
    let import = ImportedNames {
        names: names.value,
        module: module.value,
    };
    Ok(Parsed {
        value: Item::ImportNames(Box::new(alloc, import)?),
        height: 1,
        rest: module.rest,
    })
}

/// An import, after its keyword.
#[tactic(auto, unfolding(dscript_grammar::specs::FileReading::read_import, dscript_grammar::specs::Reading::choose))]
fn import<'a>(alloc: Global, depth: Depth, tokens: &'a [Token]) -> Parse<'a, Item>
    ensures { Parses item_tree read_import 1 tokens.now result }
{
    match take_punctuator(tokens, b"*") {
        Some(rest) => import_all(rest),
        None => import_names(alloc, depth, tokens),
    }
}

/// An item.
#[tactic(auto, unfolding(dscript_grammar::specs::FileReading::read_item, dscript_grammar::specs::Reading::choose, dscript_grammar::specs::Reading::and_then))]
pub(crate) fn item<'a>(alloc: Global, depth: Depth, tokens: &'a [Token]) -> Parse<'a, Item>
    ensures { Parses item_tree (read_item depth.levels) depth.levels tokens.now result }
{
    depth.below()?;
    if let Some(rest) = take_punctuator(tokens, b";") {
        return Ok(Parsed {
            value: Item::Empty,
            height: 1,
            rest: rest,
        });
    }
    if let Some(rest) = take_keyword(tokens, b"import") {
        return import(alloc, depth, rest);
    }
    let declared = marked(alloc, depth, tokens)?;
    Ok(Parsed {
        value: Item::Declared(Box::new(alloc, declared.value)?),
        height: declared.height,
        rest: declared.rest,
    })
}
