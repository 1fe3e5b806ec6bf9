//! Parameters.

ghost use Rattle.std.specs.Prelude.{◌≡◌, IfOk, ◌++◌, ◌∷◌, [], map};
ghost use Rattle.dscript_ast.specs.Views.{param_tree, head_tree};
ghost use Rattle.dscript_print.specs.ExprKinds.{param_kinds, params_kinds, head_kinds};
ghost use Rattle.dscript_print.specs.Written.{Writes};

use crate::writer::Writer;
use bx_tree::Memory;
use dscript_ast::{ArrowHead, Param};

impl Writer {
    /// Writes the part of an arrow function before its `=>`.
    pub(crate) fn head(&mut self, head: &ArrowHead) -> Result<(), Memory>
        ensures { Writes self.old self.new result (head_kinds (head_tree head.now)) }
    {
        match head {
            ArrowHead::Name(name) => self.name(name),
            ArrowHead::Params(params) => self.params(params.as_slice()),
        }
    }

    /// Writes parameters in parentheses.
    pub(crate) fn params(&mut self, params: &[Param]) -> Result<(), Memory>
        ensures { Writes self.old self.new result (params_kinds (map param_tree params.now)) }
    {
        self.punctuator(b"(")?;
        if let Some((first, others)) = params.split_first() {
            self.param(first)?;
            for param in others {
                self.comma()?;
                self.param(param)?;
            }
        }
        self.punctuator(b")")
    }

    /// Writes a parameter.
    fn param(&mut self, param: &Param) -> Result<(), Memory>
        ensures { Writes self.old self.new result (param_kinds (param_tree param.now)) }
    {
        self.optional_name(&param.name, param.optional)?;
        self.note(&param.type_node)
    }
}
