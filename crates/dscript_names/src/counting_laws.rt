//! What is proved of counting. The functions do nothing: their clauses are the laws.

ghost use Rattle.std.specs.Prelude.{◌≡◌, ◌^◌, ◌<◌, ℕ, Bool, List, Ok, length, map};
ghost use Rattle.bx_tree.specs.Bundle.{IsBundle};
ghost use Rattle.bx_tree.specs.Paths.{Atoms};
ghost use Rattle.bx_tree.specs.Trees.{Files};
ghost use Rattle.bx_tree.specs.declared.limits.TheConstants.{MAX_BUNDLE_BYTES, MAX_FILES};
ghost use Rattle.dscript_ast.specs.FileTree.{ItemTree, Project};
ghost use Rattle.dscript_ast.specs.declared.file.Form.TheVariants as forms;
ghost use Rattle.dscript_names_binding.specs.Binding.{bind_items};
ghost use Rattle.dscript_names_binding.specs.Walk.{Bound, Here};
ghost use Rattle.dscript_grammar.specs.Derives.{Derives};
ghost use Rattle.dscript_lex.specs.Tokens.{AreTokens};
ghost use Rattle.dscript_lex.specs.declared.token.Token.{Token};
ghost use Rattle.dscript_lex.specs.declared.token.TokenKind.{TokenKind};
ghost use Rattle.dscript_program.specs.Workspaces.{ModuleData};
ghost use Rattle.dscript_names.specs.Named.{named};
ghost use Rattle.dscript_program.specs.ProgramData.{DeclData, ProgramData};
ghost use Rattle.dscript_names_scopes.specs.Declarations.{ParsedData, world_of};
ghost use Rattle.dscript_names_scopes.specs.Names.{FileNames, World};
ghost use Rattle.dscript_names.specs.Counted.{CountedWithin, ProgramWithin, WorldWithin};
ghost use Rattle.dscript_names.specs.Texts.{AreProjectsAmong};

/// A file has at most as many declarations and functions as it has tokens, and its parameters and locals have
/// numbers below that. So each of these is at most the number of its bytes.
pub fn counts_are_bounded()
    ensures by_tokens { (tokens : List TokenKind) (items : List ItemTree) (height : ℕ)
        → Derives forms.Project tokens (Project items) height
        → (world : World) (number : ℕ) (names : FileNames) (here : Here) (b : Bound (List DeclData))
        → bind_items world number names items here ≡ Ok b → CountedWithin (length tokens) b }
    ensures by_bytes { (text : List ℕ) (tokens : List Token) (items : List ItemTree) (height : ℕ)
        → AreTokens text tokens → Derives forms.Project (map (λ t. t.kind) tokens) (Project items) height
        → (world : World) (number : ℕ) (names : FileNames) (here : Here) (b : Bound (List DeclData))
        → bind_items world number names items here ≡ Ok b → CountedWithin (length text) b }
{}

/// In the program of project files of one bundle, the declarations of a file, all functions, and the numbers
/// of parameters and locals are at most the bytes of the largest bundle. So are the names that a file
/// declares, also where there is no program, and there are at most as many files as a bundle may have.
pub fn program_counts_are_bounded()
    ensures program { (text : List ℕ) (files : Files) → IsBundle text files
        → (chosen : Atoms × List ℕ → Bool) (parsed : List ParsedData) → AreProjectsAmong chosen files parsed
        → (modules : List ModuleData) (p : ProgramData) → named modules parsed ≡ Ok p
        → ProgramWithin MAX_BUNDLE_BYTES p }
    ensures names { (text : List ℕ) (files : Files) → IsBundle text files
        → (chosen : Atoms × List ℕ → Bool) (parsed : List ParsedData) → AreProjectsAmong chosen files parsed
        → (modules : List ModuleData) → WorldWithin MAX_FILES MAX_BUNDLE_BYTES (world_of modules parsed) }
    ensures below { MAX_BUNDLE_BYTES < 2 ^ 32 }
{}
