//! Type parameters.

ghost use Rattle.std.specs.Prelude.{◌≡◌, IfOk, ◌++◌, map};
ghost use Rattle.dscript_print.specs.FileKinds.{type_params_kinds};
ghost use Rattle.dscript_print.specs.Written.{Writes};
ghost use Rattle.dscript_print.specs.Runs.{preceded, word_run};

use crate::writer::Writer;
use bx_tree::{Memory, Text};

impl Writer {
    /// Writes type parameters in angle brackets, where there are any.
    pub(crate) fn type_params(&mut self, names: &[Text]) -> Result<(), Memory>
        ensures { Writes self.old self.new result (type_params_kinds names.now) }
    {
        match names.split_first() {
            None => Ok(()),
            Some((first, others)) => {
                self.punctuator(b"<")?;
                self.name(first)?;
                self.more_names(others)?;
                self.punctuator(b">")
            }
        }
    }

    /// Writes a comma before each name.
    fn more_names(&mut self, names: &[Text]) -> Result<(), Memory>
        ensures { Writes self.old self.new result (preceded "," (map word_run names.now)) }
    {
        for name in names {
            self.comma()?;
            self.name(name)?;
        }
        Ok(())
    }
}
