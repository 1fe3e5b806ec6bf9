//! Files and their items.

ghost use Rattle.std.specs.Prelude.{◌≡◌, IfOk, ◌++◌, ◌∷◌, [], map, false};
ghost use Rattle.dscript_grammar.specs.ExprGrammar.{any_expr};
ghost use Rattle.dscript_ast.specs.Views.{expr_tree, item_tree, file_tree};
ghost use Rattle.dscript_print.specs.ExprKinds.{expr_kinds};
ghost use Rattle.dscript_print.specs.FileKinds.{item_kinds, file_kinds};
ghost use Rattle.dscript_print.specs.Written.{Writes};
ghost use Rattle.dscript_print.specs.Runs.{punct, concat_tokens};

use crate::exprs::ANY_EXPR;
use crate::writer::Writer;
use bx_tree::Memory;
use dscript_ast::{Expr, File, Item};

impl Writer {
    /// Writes a whole file.
    pub(crate) fn file(&mut self, file: &File) -> Result<(), Memory>
        ensures { Writes self.old self.new result (file_kinds (file_tree file.now)) }
    {
        match file {
            File::Project(items) => self.items(items.as_slice()),
            File::Config(value) => {
                self.keyword(b"config")?;
                self.called(value)
            }
            File::Module(value) => {
                self.keyword(b"module")?;
                self.called(value)
            }
        }
    }

    /// Writes an argument in parentheses, and a semicolon.
    fn called(&mut self, value: &Expr) -> Result<(), Memory>
        ensures { Writes self.old self.new result
            (punct "(" ∷ (expr_kinds false any_expr (expr_tree value.now) ++ (punct ")" ∷ punct ";" ∷ []))) }
    {
        self.punctuator(b"(")?;
        self.expr(value, false, ANY_EXPR)?;
        self.punctuator(b")")?;
        self.punctuator(b";")
    }

    /// Writes items, each on a line of its own.
    fn items(&mut self, items: &[Item]) -> Result<(), Memory>
        ensures { Writes self.old self.new result (concat_tokens (map item_kinds (map item_tree items.now))) }
    {
        for item in items {
            self.item(item)?;
            self.line();
        }
        Ok(())
    }

    /// Writes an item.
    fn item(&mut self, item: &Item) -> Result<(), Memory>
        ensures { Writes self.old self.new result (item_kinds (item_tree item.now)) }
    {
        match item {
            Item::ImportAll(name, from) => self.import_all(name, from),
            Item::ImportNames(imported) => {
                self.import_names(imported.names.as_slice(), &imported.module)
            }
            Item::Declared(marked) => self.marked(marked),
            Item::Empty => self.punctuator(b";"),
        }
    }
}
