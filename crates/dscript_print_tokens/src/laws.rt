//! Which tokens have a spelling.

ghost use Rattle.std.specs.Prelude.{◌↔◌, Bool};
ghost use Rattle.dscript_lex.specs.declared.token.TokenKind.{TokenKind};
ghost use Rattle.dscript_print_tokens.specs.Spellable.{HasSpelling};
ghost use Rattle.dscript_print_tokens.specs.Writable.{IsWritable};

/// Which tokens have a spelling, inside a template's hole and outside.
pub fn spelled_tokens()
    ensures { (is_in_hole : Bool) (kind : TokenKind) →
        HasSpelling is_in_hole kind ↔ IsWritable is_in_hole kind }
{}
