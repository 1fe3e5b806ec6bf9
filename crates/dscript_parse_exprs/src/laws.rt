//! The grammar derives what the parser reads of expressions and statements. The functions do nothing: their
//! clauses are the laws.

ghost use Rattle.std.specs.Prelude.{ℕ};
ghost use Rattle.dscript_grammar.specs.ExprGrammar.{any_expr, block, expr_at, params, stmt_at, type_note};
ghost use Rattle.dscript_grammar.specs.ExprReading.{read_block, read_expr, read_note, read_params};
ghost use Rattle.dscript_grammar.specs.ExprReading.{read_value};
ghost use Rattle.dscript_grammar.specs.Language.{◌⋅◌, optional, punctuator};
ghost use Rattle.dscript_parse_exprs.specs.Endings.{EndsExpr, EndsNote};
ghost use Rattle.dscript_parse_exprs.specs.Levels.{at_depth};
ghost use Rattle.dscript_parse_tokens.specs.Deriving.{EndsAnywhere, IsComplete, IsSound};

/// What `expr` reads is an expression that the grammar derives, and it reads each such expression of at most
/// its height that is as long as it can be.
pub fn expressions_are_derived()
    ensures sound { (depth : ℕ) → IsSound (λ h. expr_at h any_expr) (read_expr depth) }
    ensures complete { (depth : ℕ) → IsComplete (λ h. expr_at h any_expr) (λ _. EndsExpr) depth
        (read_expr depth) }
{}

/// What `block` reads are statements in braces that the grammar derives, and it reads all of these.
pub fn blocks_are_derived()
    ensures sound { (depth : ℕ) → IsSound (λ h. block h (expr_at h) (stmt_at h)) (at_depth read_block depth) }
    ensures complete { (depth : ℕ) → IsComplete (λ h. block h (expr_at h) (stmt_at h)) EndsAnywhere depth
        (at_depth read_block depth) }
{}

/// What `value` reads is an expression between `=` and `;` that the grammar derives, and it reads all of
/// these.
pub fn values_are_derived()
    ensures sound { (depth : ℕ) → IsSound (λ h e. punctuator "=" ⋅ expr_at h any_expr e ⋅ punctuator ";")
        (at_depth read_value depth) }
    ensures complete { (depth : ℕ) → IsComplete
        (λ h e. punctuator "=" ⋅ expr_at h any_expr e ⋅ punctuator ";")
        EndsAnywhere depth (at_depth read_value depth) }
{}

/// What `note` reads is a type after a colon, or nothing, as the grammar derives it, and it reads each such
/// note that is as long as it can be.
pub fn notes_are_derived()
    ensures sound { (depth : ℕ) → IsSound (λ h. optional (type_note h)) (at_depth read_note depth) }
    ensures complete { (depth : ℕ) → IsComplete (λ h. optional (type_note h)) (λ _. EndsNote) depth
        (at_depth read_note depth) }
{}

/// What `params` reads are parameters in parentheses that the grammar derives, and it reads all of these.
pub fn params_are_derived()
    ensures sound { (depth : ℕ) → IsSound params (at_depth read_params depth) }
    ensures complete { (depth : ℕ) → IsComplete params EndsAnywhere depth (at_depth read_params depth) }
{}
