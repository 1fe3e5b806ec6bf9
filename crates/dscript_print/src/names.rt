//! Marks, and imports with the names in them.

ghost use Rattle.std.specs.Prelude.{◌≡◌, IfOk, ◌++◌, ◌∷◌, [], map};
ghost use Rattle.dscript_lex.specs.declared.token.TokenKind.TheVariants as kinds;
ghost use Rattle.dscript_ast.specs.Views.{import_tree};
ghost use Rattle.dscript_print.specs.FileKinds.{alias_kinds, import_kinds, mark_kinds};
ghost use Rattle.dscript_print.specs.Written.{Writes};
ghost use Rattle.dscript_print.specs.Runs.{punct, keyword, separate};

use crate::writer::Writer;
use bx_tree::{Memory, Text};
use dscript_ast::{ImportName, Mark};

impl Writer {
    /// Writes who may see a declaration.
    pub(crate) fn mark(&mut self, mark: Mark) -> Result<(), Memory>
        ensures { Writes self.old self.new result (mark_kinds mark) }
    {
        match mark {
            Mark::Plain => Ok(()),
            Mark::Export => {
                self.keyword(b"export")?;
                self.space();
                Ok(())
            }
            Mark::Public => {
                self.punctuator(b"@@")?;
                self.keyword(b"public")?;
                self.space();
                self.keyword(b"export")?;
                self.space();
                Ok(())
            }
        }
    }

    /// Writes an import of a whole module.
    pub(crate) fn import_all(&mut self, name: &Text, from: &Text) -> Result<(), Memory>
        ensures { Writes self.old self.new result
            (keyword "import" ∷ punct "*" ∷ keyword "as" ∷ kinds.Word name.now ∷ keyword "from"
            ∷ kinds.Str from.now ∷ punct ";" ∷ []) }
    {
        self.keyword(b"import")?;
        self.spaced(b"*")?;
        self.keyword(b"as")?;
        self.space();
        self.name(name)?;
        self.import_from(from)
    }

    /// Writes an import of names.
    pub(crate) fn import_names(&mut self, names: &[ImportName], from: &Text) -> Result<(), Memory>
        ensures { Writes self.old self.new result
            (keyword "import" ∷ punct "{" ∷ (separate "," (map import_kinds (map import_tree names.now))
            ++ (punct "}" ∷ keyword "from" ∷ kinds.Str from.now ∷ punct ";" ∷ []))) }
    {
        self.keyword(b"import")?;
        self.space();
        self.punctuator(b"{")?;
        self.imported(names)?;
        self.punctuator(b"}")?;
        self.import_from(from)
    }

    /// Writes the name of the module that an import is from, and a semicolon.
    fn import_from(&mut self, from: &Text) -> Result<(), Memory>
        ensures { Writes self.old self.new result (keyword "from" ∷ kinds.Str from.now ∷ punct ";" ∷ []) }
    {
        self.space();
        self.keyword(b"from")?;
        self.space();
        self.string(from)?;
        self.punctuator(b";")
    }

    /// Writes names that are imported, with commas between them.
    fn imported(&mut self, names: &[ImportName]) -> Result<(), Memory>
        ensures { Writes self.old self.new result
            (separate "," (map import_kinds (map import_tree names.now))) }
    {
        let Some((first, others)) = names.split_first() else {
            return Ok(());
        };
        self.import_name(first)?;
        for import in others {
            self.comma()?;
            self.import_name(import)?;
        }
        Ok(())
    }

    /// Writes a name that is imported, and the name after `as` where there is one.
    fn import_name(&mut self, import: &ImportName) -> Result<(), Memory>
        ensures { Writes self.old self.new result (import_kinds (import_tree import.now)) }
    {
        self.name(&import.name)?;
        self.alias(&import.alias)
    }

    /// Writes `as` and a name, where there is one.
    fn alias(&mut self, alias: &Option<Text>) -> Result<(), Memory>
        ensures { Writes self.old self.new result (alias_kinds alias.now) }
    {
        match alias {
            Some(alias) => {
                self.space();
                self.keyword(b"as")?;
                self.space();
                self.name(alias)
            }
            None => Ok(()),
        }
    }
}
