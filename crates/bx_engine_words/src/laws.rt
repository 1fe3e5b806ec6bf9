//! Laws of the words. The functions do nothing: their clauses are the laws.

ghost use Rattle.std.specs.Prelude.{◌≡◌, ℕ, List};
ghost use Rattle.bx_engine_words.specs.Words.{HasCrew, IsBuild, Orders};
ghost use Rattle.bx_engine_words.specs.declared.order.Order.{Order as TheOrder};

/// Words are one order at most.
pub fn one_order()
    ensures { (words : List (List ℕ)) (a b : TheOrder) → Orders words a → Orders words b → a ≡ b }
{}

/// Words that are an order to build ask for some workers, and for no more than there may be.
pub fn some_workers()
    ensures { (words : List (List ℕ)) (order : TheOrder) → Orders words order → IsBuild order
        → HasCrew order }
{}
