//! What a type says of its values. The functions do nothing: their clauses are the laws.

ghost use Rattle.std.specs.Prelude.{◌≡◌, ◌⊎◌, true};
ghost use Rattle.dscript_value.specs.Plain.{Plain as AnyPlain};
ghost use Rattle.dscript_types_meaning.specs.Fits.{fits};
ghost use Rattle.dscript_types_meaning.specs.Types.{TypeData};
ghost use Rattle.dscript_types_meaning.specs.Unions.{join};
ghost use Rattle.dscript_types_meaning.specs.Values.{HasType};

/// A value of a type is of each type that the type fits.
pub fn fitting_values_have_types()
    ensures { (x : AnyPlain) (t u : TypeData) → fits t u ≡ true → HasType x t → HasType x u }
{}

/// A value is of a union of two types exactly where it is of one of them.
pub fn unions_have_their_values()
    ensures left { (x : AnyPlain) (t u : TypeData) → HasType x t → HasType x (join t u) }
    ensures right { (x : AnyPlain) (t u : TypeData) → HasType x u → HasType x (join t u) }
    ensures one { (x : AnyPlain) (t u : TypeData) → HasType x (join t u) → HasType x t ⊎ HasType x u }
{}
