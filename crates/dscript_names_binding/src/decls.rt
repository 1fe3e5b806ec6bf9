//! Declarations and items of a file.

ghost use Rattle.std.specs.Prelude.{◌≡◌, [], ◌++◌, IfOk, map};
ghost use Rattle.dscript_ast.specs.FileTree.{to_marked};
ghost use Rattle.dscript_ast.specs.Views.{decl_tree, expr_tree, import_tree, item_tree, marked_tree};
ghost use Rattle.dscript_ast.specs.Views.{param_tree, stmt_tree};
ghost use Rattle.dscript_program.specs.Views.{around_names, decl_data, expr_data, kind_data};
ghost use Rattle.dscript_names_scopes.specs.Answers.{Checks};
ghost use Rattle.dscript_names_binding.specs.Binding.{bind_all_marked, bind_decl, bind_expr, bind_item, bind_items};
ghost use Rattle.dscript_names_binding.specs.Binding.{bind_marked, declared_function, imports_fault, named_decl};
ghost use Rattle.dscript_names_binding.specs.Declares.{Begun, Comes, Gathers};
ghost use Rattle.dscript_names_binding.specs.Scenes.{site_at, world_at};
ghost use Rattle.dscript_names_binding.specs.Walk.{declaration};

use crate::scene::Scene;
use crate::walker::Walker;
use bx_tree::{Memory, Text};
use dscript_ast::{Decl, Expr, ImportName, Item, Mark, Marked, Param, Stmt};
use dscript_names_scopes::{Scopes, Site, Stop, check_imported, check_module};
use dscript_program::{BoundDecl, BoundExpr, DeclKind, Namespace};
use std::alloc::Global;
use std::mem;
use std::rc::Rc;

/// A walk through the declarations of a file, and those that it has gathered.
#[derive(Drop)]
pub struct Binder {
    pub walker: Walker,
    pub decls: Vec<BoundDecl>,
}

/// The names of a namespace in others.
fn joined(alloc: Global, around: &[Text], names: &[Text]) -> Result<Vec<Text>, Memory>
    ensures { IfOk result (λ all. all.items ≡ around.now ++ names.now) }
{
    let mut all = Vec::new(alloc);
    'around: for name in around {
        all.push(name.share()?)?;
    }
    'names: for name in names {
        all.push(name.share()?)?;
    }
    Ok(all)
}

/// Checks the names in braces of an import, and then its module.
fn check_imports(scene: &Scene<'_>, names: &[ImportName], module_name: &Text) -> Result<(), Stop>
    ensures { Checks result (imports_fault (world_at scene.now) (map import_tree names.now) module_name.now) }
{
    let mut left = names;
    'names: while let Some((name, rest)) = left.split_first() {
        check_imported(scene.alloc, scene.world, module_name, &name.name)?;
        left = rest;
    }
    match check_module(scene.world, module_name) {
        Ok(()) => Ok(()),
        Err(kind) => Err(Stop::Fault(kind)),
    }
}

impl Walker {
    /// Begins a declaration, whose locals are counted from 0.
    fn begin(&mut self, alloc: Global)
        ensures { Begun self.old self.new }
    {
        self.scopes = Scopes::new(alloc);
        self.locals = 0;
        self.names.clear();
    }

    /// The value of a constant.
    fn constant(&mut self, scene: &Scene<'_>, value: Expr) -> Result<BoundExpr, Stop>
        ensures { Comes expr_data
            (declaration (bind_expr (world_at scene.now) (site_at scene.now) (expr_tree value)))
            self.old self.new result }
    {
        self.begin(scene.alloc);
        self.expr(scene, value)
    }

    /// A declared function, by its number.
    fn declared(
        &mut self,
        scene: &Scene<'_>,
        body: Vec<Stmt>,
        params: Vec<Param>,
    ) -> Result<u32, Stop>
        ensures { Comes (λ n. n)
            (declaration (declared_function (world_at scene.now) (site_at scene.now)
            (map param_tree params.items) (map stmt_tree body.items)))
            self.old self.new result }
    {
        self.begin(scene.alloc);
        self.function(scene, body, params)
    }
}

impl Binder {
    /// Adds a declaration.
    fn add(
        &mut self,
        around: &Option<Rc<Namespace>>,
        mark: Mark,
        name: Text,
        kind: DeclKind,
    ) -> Result<(), Stop>
        ensures { Gathers (named_decl (around_names around.now) mark name (kind_data kind))
            self.old self.new result }
    {
        let around = shared(around)?;
        self.decls.push(BoundDecl {
            around,
            name,
            mark,
            kind,
        })?;
        Ok(())
    }

    /// Resolves the names in a declaration, or in those of a namespace.
    #[cycle(decls)]
    #[tactic(auto, unfolding(crate::specs::Binding::bind_marked))]
    fn decl(
        &mut self,
        scene: &Scene<'_>,
        decl: Decl,
        around: &Option<Rc<Namespace>>,
        mark: Mark,
    ) -> Result<(), Stop>
        requires { around_names around.now ≡ scene.now.site.around.now }
        ensures { Gathers (bind_decl (world_at scene.now) scene.now.site.number scene.now.site.file.now
            scene.now.site.around.now mark (decl_tree decl)) self.old self.new result }
    {
        match decl {
            Decl::Const(name, note, value) => {
                let value = self.walker.constant(scene, value)?;
                self.add(around, mark, name, DeclKind::Const(note, value))
            }
            Decl::Function(name, type_params, params, note, body) => {
                let number = self.walker.declared(scene, body, params)?;
                self.add(
                    around,
                    mark,
                    name,
                    DeclKind::Function(type_params, note, number),
                )
            }
            Decl::Namespace(names, decls) => self.namespace(scene, decls, around, names),
            Decl::Interface(name, type_params, extended, members) => {
                let kind = DeclKind::Interface(type_params, extended, members);
                self.add(around, mark, name, kind)
            }
            Decl::TypeAlias(name, type_params, node) => {
                self.add(around, mark, name, DeclKind::TypeAlias(type_params, node))
            }
        }
    }

    /// Resolves the names in a declaration with its mark.
    #[cycle(decls)]
    #[tactic(auto, unfolding(crate::specs::Binding::bind_marked))]
    fn marked(
        &mut self,
        scene: &Scene<'_>,
        marked: Marked,
        around: &Option<Rc<Namespace>>,
    ) -> Result<(), Stop>
        requires { around_names around.now ≡ scene.now.site.around.now }
        ensures { Gathers (bind_marked (world_at scene.now) scene.now.site.number scene.now.site.file.now
            scene.now.site.around.now (marked_tree marked)) self.old self.new result }
    {
        self.decl(scene, marked.decl, around, marked.mark)
    }

    /// Resolves the names in the declarations of a namespace.
    #[cycle(decls)]
    #[tactic(auto, unfolding(crate::specs::Binding::bind_marked))]
    fn namespace(
        &mut self,
        scene: &Scene<'_>,
        decls: Vec<Marked>,
        around: &Option<Rc<Namespace>>,
        names: Vec<Text>,
    ) -> Result<(), Stop>
        requires { around_names around.now ≡ scene.now.site.around.now }
        ensures { Gathers (bind_all_marked (world_at scene.now) scene.now.site.number scene.now.site.file.now
            (scene.now.site.around.now ++ names.items) (to_marked (map marked_tree decls.items)))
            self.old self.new result }
    {
        let all = joined(scene.alloc, scene.site.around, names.as_slice())?;
        let namespace = inner(scene.alloc, around, names)?;
        let inside = Scene {
            alloc: scene.alloc,
            world: scene.world,
            site: Site {
                number: scene.site.number,
                file: scene.site.file,
                around: all.as_slice(),
            },
        };
        self.all_marked(&inside, decls, &namespace)
    }

    /// Resolves the names in declarations, one after the other.
    #[cycle(decls)]
    #[tactic(auto, unfolding(crate::specs::Binding::bind_marked))]
    fn all_marked(
        &mut self,
        scene: &Scene<'_>,
        decls: Vec<Marked>,
        around: &Option<Rc<Namespace>>,
    ) -> Result<(), Stop>
        requires { around_names around.now ≡ scene.now.site.around.now }
        ensures { Gathers (bind_all_marked (world_at scene.now) scene.now.site.number scene.now.site.file.now
            scene.now.site.around.now (to_marked (map marked_tree decls.items))) self.old self.new result }
    {
        'decls: for marked in decls {
            self.marked(scene, marked, around)?;
        }
        Ok(())
    }

    /// Resolves the names in an item, outside of namespaces.
    fn item(&mut self, scene: &Scene<'_>, item: Item) -> Result<(), Stop>
        requires { [] ≡ scene.now.site.around.now }
        ensures { Gathers (bind_item (world_at scene.now) scene.now.site.number scene.now.site.file.now
            (item_tree item)) self.old self.new result }
    {
        match item {
            Item::ImportAll(_, module_name) => check_imports(scene, &[], &module_name),
            Item::ImportNames(imported) => {
                check_imports(scene, imported.names.as_slice(), &imported.module)
            }
            Item::Declared(marked) => self.marked(scene, Box::into_inner(marked), &None),
            Item::Empty => Ok(()),
        }
    }

    /// Resolves the names in items, one after the other.
    fn items(&mut self, scene: &Scene<'_>, items: Vec<Item>) -> Result<(), Stop>
        requires { [] ≡ scene.now.site.around.now }
        ensures { Gathers (bind_items (world_at scene.now) scene.now.site.number scene.now.site.file.now
            (map item_tree items.items)) self.old self.new result }
    {
        'items: for item in items {
            self.item(scene, item)?;
        }
        Ok(())
    }

    /// The declarations of a file. Its functions are added to those of the files before it.
    pub fn file(&mut self, scene: &Scene<'_>, items: Vec<Item>) -> Result<Vec<BoundDecl>, Stop>
        requires { [] ≡ scene.now.site.around.now }
        ensures { Comes (λ v. map decl_data v.items)
            (declaration (bind_items (world_at scene.now) scene.now.site.number scene.now.site.file.now
            (map item_tree items.items))) self.old.walker self.new.walker result }
    {
        self.walker.begin(scene.alloc);
        self.decls = Vec::new(scene.alloc);
        self.items(scene, items)?;
        Ok(mem::replace(&mut self.decls, Vec::new(scene.alloc)))
    }
}

/// Another owner of a namespace.
fn shared(around: &Option<Rc<Namespace>>) -> Result<Option<Rc<Namespace>>, Memory>
    ensures { IfOk result (λ copy. around_names copy ≡ around_names around.now) }
{
    Ok(around.clone()?)
}

/// A namespace in another.
fn inner(
    alloc: Global,
    around: &Option<Rc<Namespace>>,
    names: Vec<Text>,
) -> Result<Option<Rc<Namespace>>, Memory>
    ensures { IfOk result (λ all. around_names all ≡ around_names around.now ++ names.items) }
{
    let namespace = Namespace {
        outer: shared(around)?,
        names,
    };
    Ok(Some(Rc::new(alloc, namespace)?))
}
