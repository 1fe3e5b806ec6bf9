//! The grammar of types derives what the parser reads. The functions do nothing: their clauses are the laws.

ghost use Rattle.std.specs.Prelude.{ℕ, length};
ghost use Rattle.dscript_grammar.specs.Language.{separated};
ghost use Rattle.dscript_grammar.specs.Reading.{read_separated};
ghost use Rattle.dscript_grammar.specs.TypeGrammar.{any_type, body, type_at};
ghost use Rattle.dscript_grammar.specs.TypeReading.{read_body, read_type};
ghost use Rattle.dscript_parse_tokens.specs.Deriving.{EndsAnywhere, EndsRow, IsComplete, IsSound};
ghost use Rattle.dscript_parse_tokens.specs.Endings.{EndsType};

/// What `type_node` reads is a type that the grammar derives, and it reads each such type of at most its
/// height that is as long as it can be.
pub fn types_are_derived()
    ensures sound { (depth : ℕ) → IsSound (λ h. type_at h any_type) (read_type depth) }
    ensures complete { (depth : ℕ) → IsComplete (λ h. type_at h any_type) (λ _. EndsType) depth
        (read_type depth) }
{}

/// What `body` reads are members in braces that the grammar derives, and it reads all of these.
pub fn bodies_are_derived()
    ensures sound { (depth : ℕ) → IsSound (λ h. body (type_at h)) (read_body (read_type depth)) }
    ensures complete { (depth : ℕ) → IsComplete (λ h. body (type_at h)) EndsAnywhere depth
        (read_body (read_type depth)) }
{}

/// What `type_list` reads are types with commas between them that the grammar derives, and it reads each such
/// row of types of at most its height that is as long as it can be.
pub fn rows_of_types_are_derived()
    ensures sound { (depth : ℕ) → IsSound (λ h. separated "," (type_at h any_type))
        (λ ts. read_separated "," (read_type depth) (length ts) ts) }
    ensures complete { (depth : ℕ) → IsComplete (λ h. separated "," (type_at h any_type))
        (λ _. EndsRow "," EndsType) depth (λ ts. read_separated "," (read_type depth) (length ts) ts) }
{}
