//! Laws of printed tokens.

ghost use Rattle.std.specs.Prelude.{◌≡◌, ℕ, List, map};
ghost use Rattle.dscript_lex.specs.declared.token.Token.{Token};
ghost use Rattle.dscript_lex.specs.Tokens.{AreTokens};
ghost use Rattle.dscript_ast.specs.declared.file.Form.{Form};
ghost use Rattle.dscript_grammar.specs.Derives.{Derives};
ghost use Rattle.dscript_ast.specs.FileTree.{FileTree};
ghost use Rattle.dscript_print_tokens.specs.Spellable.{AreSpellable};
ghost use Rattle.dscript_print.specs.FileKinds.{file_kinds};
ghost use Rattle.dscript_print.specs.Printing.{Prints, TextDerives};

/// The tokens that are printed of a file derive it, within the height within which tokens of some text derive
/// it, and they can be written one after another.
pub fn printed_tokens_derive()
    ensures derive { (form : Form) (source : List ℕ) (tokens : List Token) (file : FileTree) (height : ℕ)
        → AreTokens source tokens → Derives form (map (λ t. t.kind) tokens) file height
        → Derives form (file_kinds file) file height }
    ensures are_written { (form : Form) (source : List ℕ) (tokens : List Token) (file : FileTree) (height : ℕ)
        → AreTokens source tokens → Derives form (map (λ t. t.kind) tokens) file height
        → AreSpellable (file_kinds file) }
{}

/// The file that the grammar derives from the tokens of a printed text is the file that was printed, if some
/// text is parsed to it.
pub fn printed_text_reads_back()
    ensures { (form : Form) (file other : FileTree) (source printed : List ℕ) (height other_height : ℕ)
        (tokens : List Token)
        → Prints printed file → TextDerives form source file height
        → AreTokens printed tokens → Derives form (map (λ t. t.kind) tokens) other other_height
        → other ≡ file }
{}
