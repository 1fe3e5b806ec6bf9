//! A text has a fault exactly where it is no tool.
ghost use Rattle.std.specs.Prelude.{◌≡◌, ◌↔◌, [], ℕ, List};
ghost use Rattle.tool_text.specs.Grammar.{IsTool};
ghost use Rattle.tool_text.specs.declared.tool.Instr.{Instr as AnyInstr};
ghost use Rattle.tool_faults.specs.Faults.{faults_of};

/// Nothing is wrong in a text exactly where the grammar gives it a tool.
pub fn wrong_exactly()
    ensures { (text : List ℕ) → (faults_of text ≡ []) ↔ ((tool : List AnyInstr) × IsTool text tool) }
{}
