//! The grammar derives what the parser reads in a row. The functions do nothing: their clauses are the laws.

ghost use Rattle.std.specs.Prelude.{ℕ, length};
ghost use Rattle.dscript_grammar.specs.Language.{identifier, separated};
ghost use Rattle.dscript_grammar.specs.Reading.{read_identifier, read_separated};
ghost use Rattle.dscript_parse_tokens.specs.Deriving.{EndsRow, IsComplete, IsSound};
ghost use Rattle.dscript_parse_tokens.specs.Enclosed.{Spelling};

/// What `dotted` and `names` read are identifiers in a row that the grammar derives, and each reads such a row
/// that is as long as it can be.
pub fn names_are_derived()
    ensures sound { (between : Spelling) → IsSound (λ _. separated between identifier)
        (λ ts. read_separated between read_identifier (length ts) ts) }
    ensures complete { (between : Spelling) (depth : ℕ) → IsComplete (λ _. separated between identifier)
        (λ _. EndsRow between (λ _. Unit {0})) depth
        (λ ts. read_separated between read_identifier (length ts) ts) }
{}
