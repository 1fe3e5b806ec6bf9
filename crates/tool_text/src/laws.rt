//! A text has one tool at most, and is read as it.
ghost use Rattle.std.specs.Prelude.{◌≡◌, ◌↔◌, ℕ, List, Some};
ghost use Rattle.tool_text.specs.declared.tool.Instr.{Instr as AnyInstr};
ghost use Rattle.tool_text.specs.Grammar.{IsTool};
ghost use Rattle.tool_text.specs.Reading.{tool_of};

/// A text is read as a tool exactly where the grammar gives it that tool.
pub fn one_tool()
    ensures read { (text : List ℕ) (tool : List AnyInstr) → (tool_of text ≡ Some tool) ↔ IsTool text tool }
    ensures only { (text : List ℕ) (s t : List AnyInstr) → IsTool text s → IsTool text t → s ≡ t }
{}
