//! What is proved of the grammar itself. The functions do nothing: their clauses are the laws.

ghost use Rattle.std.specs.Prelude.{◌≡◌, ◌<◌, ◌≤◌, ◌⊎◌, ℕ, List, length, Some, None};
ghost use Rattle.dscript_lex.specs.declared.token.TokenKind.{TokenKind};
ghost use Rattle.dscript_ast.specs.declared.file.Form.{Form};
ghost use Rattle.dscript_ast.specs.declared.file.Form.TheVariants as forms;
ghost use Rattle.dscript_ast.specs.FileTree.{FileTree, ItemTree};
ghost use Rattle.dscript_grammar.specs.declared.height.TheConstants.{MAX_HEIGHT};
ghost use Rattle.dscript_grammar.specs.Derives.{Derives};
ghost use Rattle.dscript_grammar.specs.FileGrammar.{item_at};
ghost use Rattle.dscript_grammar.specs.FileReading.{file_of, tokens_read};
ghost use Rattle.dscript_grammar.specs.Place.{IsRefusedAt};

/// The grammar derives at most one file of a form from a list of tokens, whatever the heights.
pub fn at_most_one_file()
    ensures { (form : Form) (tokens : List TokenKind) (f g : FileTree) (h k : ℕ)
        → Derives form tokens f h → Derives form tokens g k → f ≡ g }
{}

/// A file of some height is derived within every greater height that counts, and heights above MAX_HEIGHT do
/// not count.
pub fn heights_that_count()
    ensures higher { (form : Form) (tokens : List TokenKind) (f : FileTree) (h k : ℕ)
        → h ≤ k → k ≤ MAX_HEIGHT → Derives form tokens f h → Derives form tokens f k }
    ensures too_high { (form : Form) (tokens : List TokenKind) (f : FileTree) (h : ℕ)
        → MAX_HEIGHT < h → Derives form tokens f h → ⊥ }
{}

/// The reader of `specs/` is sound and complete: it gives exactly the file that the grammar derives.
pub fn reading_is_deriving()
    ensures sound { (form : Form) (tokens : List TokenKind) (f : FileTree)
        → file_of form tokens ≡ Some f → Derives form tokens f MAX_HEIGHT }
    ensures complete { (form : Form) (tokens : List TokenKind) (f : FileTree) (h : ℕ)
        → Derives form tokens f h → file_of form tokens ≡ Some f }
{}

/// Each list of tokens has a file of the form, or a place where it is refused. That it does not have both is
/// part of what a refusal means.
pub fn file_or_place()
    ensures { (form : Form) (tokens : List TokenKind)
        → ((f : FileTree) × Derives form tokens f MAX_HEIGHT) ⊎ ((at : ℕ) × IsRefusedAt form tokens at) }
{}

/// A list of tokens is refused at one place at most, and a project file at one of its tokens.
pub fn at_most_one_place()
    ensures one { (form : Form) (tokens : List TokenKind) (at other : ℕ)
        → IsRefusedAt form tokens at → IsRefusedAt form tokens other → at ≡ other }
    ensures at_a_token { (tokens : List TokenKind) (at : ℕ)
        → IsRefusedAt forms.Project tokens at → at < length tokens }
{}

/// No item is a prefix of another: whatever the heights, at most one is derived at the start of some tokens,
/// and it ends at one place at most.
pub fn items_are_prefix_free()
    ensures { (i j : ItemTree) (h k : ℕ) (tokens rest other : List TokenKind)
        → item_at h i tokens rest → item_at k j tokens other → (i ≡ j) × (rest ≡ other) }
{}

/// The place where a project file is refused is where reading its items one by one stops.
pub fn reading_finds_the_place()
    ensures refuses { (tokens : List TokenKind)
        → file_of forms.Project tokens ≡ None → IsRefusedAt forms.Project tokens (tokens_read tokens) }
    ensures finds { (tokens : List TokenKind) (at : ℕ)
        → IsRefusedAt forms.Project tokens at → at ≡ tokens_read tokens }
{}
