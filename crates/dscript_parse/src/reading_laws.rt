//! Laws of texts that are read as files. The functions do nothing: their clauses are the laws.

ghost use Rattle.std.specs.Prelude.{◌≡◌, ℕ, List};
ghost use Rattle.dscript_ast.specs.declared.file.Form.{Form};
ghost use Rattle.dscript_parse.specs.Reading.{Reading, ReadsAs};

/// A text comes to one reading at most as a file of a form.
pub fn one_reading()
    ensures { (form : Form) (text : List ℕ) (r s : Reading)
        → ReadsAs form text r → ReadsAs form text s → r ≡ s }
{}

/// A text comes to some reading as a file of each form.
pub fn some_reading()
    ensures { (form : Form) (text : List ℕ) → (reading : Reading) × ReadsAs form text reading }
{}
