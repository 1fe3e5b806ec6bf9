//! What holds of the names of files, and of programs whose names are resolved.
ghost use Rattle.std.specs.Prelude.{◌≡◌, ℕ, List, [], Ok};
ghost use Rattle.dscript_ast.specs.FileTree.{ItemTree, Project};
ghost use Rattle.dscript_ast.specs.declared.file.Form.TheVariants as forms;
ghost use Rattle.dscript_grammar.specs.Derives.{Derives};
ghost use Rattle.dscript_lex.specs.declared.token.TokenKind.{TokenKind};
ghost use Rattle.dscript_names.specs.Named.{named};
ghost use Rattle.dscript_names_laws.specs.Met.{Occur, items_met};
ghost use Rattle.dscript_names_laws.specs.Whole.{IsWhole};
ghost use Rattle.dscript_names_scopes.specs.Declarations.{ParsedData};
ghost use Rattle.dscript_program.specs.ProgramData.{ProgramData};
ghost use Rattle.dscript_program.specs.Workspaces.{ModuleData};

/// The names that a walk through a project file meets stand among any tokens that derive the file in the order in
/// which it meets them, each at a token of its own.
pub fn names_are_met_in_order()
    ensures { (tokens : List TokenKind) (items : List ItemTree) (height : ℕ)
        → Derives forms.Project tokens (Project items) height → Occur (items_met items) tokens [] }
{}

/// In a program whose names are resolved, all that a function or a constant uses is there: each local that it names is
/// its own or captured, each that it sets its own, and each declaration, each function and each file has its number in
/// the program.
pub fn resolved_programs_are_whole()
    ensures { (modules : List ModuleData) (files : List ParsedData) (p : ProgramData)
        → named modules files ≡ Ok p → IsWhole p }
{}
