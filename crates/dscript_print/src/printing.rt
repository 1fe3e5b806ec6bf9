//! The printed text of a file.

ghost use Rattle.std.specs.Prelude.{IfOk};
ghost use Rattle.dscript_ast.specs.Views.{file_tree};
ghost use Rattle.dscript_print.specs.Printing.{Prints};

use crate::writer::Writer;
use bx_tree::Memory;
use dscript_ast::File;
use dscript_print_tokens::spell;
use std::alloc::Global;

/// A text of the file: each item and statement on a line of its own, the contents of braces indented by four
/// spaces a level, and parentheses only where the grammar needs them.
///
/// A file that is derived from no text, as one whose names are no words, gets some text.
pub fn print(alloc: Global, file: &File) -> Result<Vec<u8>, Memory>
    ensures { IfOk result (λ text. Prints text.items (file_tree file.now)) }
{
    let mut writer = Writer::new(alloc);
    writer.file(file)?;
    spell(alloc, writer.laid.as_slice())
}
