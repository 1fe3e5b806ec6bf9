//! The names of a file, gathered from its items.

ghost use Rattle.std.specs.Prelude.{◌≡◌, ◌∷◌, [], ◌++◌, IfOk, map};
ghost use Rattle.std.specs.Option.{unwrap_or};
ghost use Rattle.dscript_ast.specs.FileTree.{to_marked};
ghost use Rattle.dscript_ast.specs.Views.{decl_tree, import_tree, item_tree, marked_tree};
ghost use Rattle.dscript_names_scopes.specs.Declarations.{all_declared, declared};
ghost use Rattle.dscript_names_scopes.specs.Declarations.{declared_as, declared_by, first_opened};
ghost use Rattle.dscript_names_scopes.specs.Declarations.{imported_name};
ghost use Rattle.dscript_names.specs.Gathered.{GathersItem, GathersItems};

use bx_tree::{Memory, Text};
use dscript_ast::{Decl, ImportName, Item, Mark, Marked};
use dscript_names_scopes::{Declared, DottedName, Imported};
use std::alloc::Global;

/// For how many declarations of a file at most memory is taken before the first is met.
const FIRST_DECLS: usize = 1024;

/// The names of a file.
#[derive(Drop)]
pub(crate) struct Names {
    pub(crate) decls: Vec<Declared>,
    pub(crate) opened: Vec<Text>,
    pub(crate) imports: Vec<Imported>,
}

/// The names of both lists, one list after the other, as shared texts.
pub(crate) fn joined(alloc: Global, before: &[Text], names: &[Text]) -> Result<Vec<Text>, Memory>
    ensures { IfOk result (λ all. all.items ≡ before.now ++ names.now) }
{
    let mut all = Vec::new(alloc);
    'earlier: for name in before {
        all.push(name.share()?)?;
    }
    'names: for name in names {
        all.push(name.share()?)?;
    }
    Ok(all)
}

/// Adds a declaration.
fn add(
    decls: &mut Vec<Declared>,
    alloc: Global,
    around: &[Text],
    name: &Text,
    mark: Mark,
    is_value: bool,
) -> Result<(), Memory>
    ensures { IfOk result (λ _. decls.new.items
        ≡ decls.old.items ++ declared around.now mark is_value name.now) }
{
    let mut parts = joined(alloc, around, &[])?;
    parts.push(name.share()?)?;
    decls.push(Declared {
        name: DottedName::new(parts),
        mark,
        is_value,
    })?;
    Ok(())
}

/// Adds a declaration, or those of a namespace.
#[cycle(decls)]
#[tactic(auto, using(dscript_ast::proofs::NodeViews::tree_views), unfolding(dscript_names_scopes::specs::Declarations::declared_by))]
fn add_decl(
    decls: &mut Vec<Declared>,
    alloc: Global,
    decl: &Decl,
    around: &[Text],
    mark: Mark,
) -> Result<(), Memory>
    ensures { IfOk result (λ _. decls.new.items
        ≡ decls.old.items ++ declared_as around.now mark (decl_tree decl.now)) }
{
    match decl {
        Decl::Const(name, _, _) => add(decls, alloc, around, name, mark, true),
        Decl::Function(name, _, _, _, _) => add(decls, alloc, around, name, mark, true),
        Decl::Namespace(names, inner) => {
            let all = joined(alloc, around, names.as_slice())?;
            add_all(decls, alloc, inner.as_slice(), all.as_slice())
        }
        Decl::Interface(name, _, _, _) => add(decls, alloc, around, name, mark, false),
        Decl::TypeAlias(name, _, _) => add(decls, alloc, around, name, mark, false),
    }
}

/// Adds a declaration with its mark.
#[cycle(decls)]
#[tactic(auto, using(dscript_ast::proofs::NodeViews::tree_views), unfolding(dscript_names_scopes::specs::Declarations::declared_by))]
fn add_marked(
    decls: &mut Vec<Declared>,
    alloc: Global,
    marked: &Marked,
    around: &[Text],
) -> Result<(), Memory>
    ensures { IfOk result (λ _. decls.new.items
        ≡ decls.old.items ++ declared_by around.now (marked_tree marked.now)) }
{
    add_decl(decls, alloc, &marked.decl, around, marked.mark)
}

/// Adds declarations with their marks.
#[cycle(decls)]
#[tactic(auto, using(dscript_ast::proofs::NodeViews::tree_views), unfolding(dscript_names_scopes::specs::Declarations::declared_by))]
fn add_all(
    decls: &mut Vec<Declared>,
    alloc: Global,
    marked: &[Marked],
    around: &[Text],
) -> Result<(), Memory>
    ensures { IfOk result (λ _. decls.new.items
        ≡ decls.old.items ++ all_declared around.now (to_marked (map marked_tree marked.now))) }
{
    'decls: for one in marked {
        add_marked(decls, alloc, one, around)?;
    }
    Ok(())
}

/// Adds the first name of a namespace that is opened.
fn add_opened(opened: &mut Vec<Text>, decl: &Decl) -> Result<(), Memory>
    ensures { IfOk result (λ _. opened.new.items ≡ opened.old.items ++ first_opened (decl_tree decl.now)) }
{
    if let Decl::Namespace(names, _) = decl {
        if let Some(name) = names.as_slice().first() {
            opened.push(name.share()?)?;
        }
    }
    Ok(())
}

/// The name that an imported name gets.
fn own_name(import: &ImportName) -> Result<Text, Memory>
    ensures { IfOk result (λ name. name ≡ unwrap_or import.now.alias import.now.name) }
{
    match &import.alias {
        Some(alias) => alias.share(),
        None => import.name.share(),
    }
}

/// Adds names that are imported in braces.
fn add_imports(
    imports: &mut Vec<Imported>,
    names: &[ImportName],
    module_name: &Text,
) -> Result<(), Memory>
    ensures { IfOk result (λ _. imports.new.items
        ≡ imports.old.items ++ map (imported_name module_name.now) (map import_tree names.now)) }
{
    'names: for import in names {
        imports.push(Imported {
            name: own_name(import)?,
            module_name: module_name.share()?,
            original: Some(import.name.share()?),
        })?;
    }
    Ok(())
}

impl Names {
    /// Adds the names of an item.
    fn add_item(&mut self, alloc: Global, item: &Item) -> Result<(), Memory>
        ensures { GathersItem self.old self.new result (item_tree item.now) }
    {
        match item {
            Item::ImportAll(name, module_name) => {
                self.imports.push(Imported {
                    name: name.share()?,
                    module_name: module_name.share()?,
                    original: None,
                })?;
                Ok(())
            }
            Item::ImportNames(imported) => {
                let names = imported.names.as_slice();
                add_imports(&mut self.imports, names, &imported.module)
            }
            Item::Declared(marked) => {
                add_opened(&mut self.opened, &marked.decl)?;
                add_marked(&mut self.decls, alloc, marked, &[])
            }
            Item::Empty => Ok(()),
        }
    }
}

/// The names of a file with these items.
pub(crate) fn names_of(alloc: Global, items: &[Item]) -> Result<Names, Memory>
    ensures { GathersItems result (map item_tree items.now) }
{
    let mut names = Names {
        decls: Vec::with_capacity(alloc, FIRST_DECLS.min(items.len()))?,
        opened: Vec::new(alloc),
        imports: Vec::new(alloc),
    };
    'items: for item in items {
        names.add_item(alloc, item)?;
    }
    Ok(names)
}
