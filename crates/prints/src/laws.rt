//! What holds of all fingerprints.
ghost use Rattle.std.specs.Prelude.{◌≡◌, ◌↔◌, ℕ, List, Some};
ghost use Rattle.prints.specs.Processes.{IsWeak, without_pips};
ghost use Rattle.prints.specs.ReadWeak.{read_weak_text};
ghost use Rattle.prints.specs.Strong.{IsStrong, read_strong_text, strong_text};
ghost use Rattle.prints.specs.Weak.{weak_text};
ghost use Rattle.prints.specs.declared.strong_parts.StrongParts.{StrongParts as AnyStrong};
ghost use Rattle.prints.specs.declared.weak_parts.WeakParts.{WeakParts as AnyWeak};

/// What has a weak text is read back without its pips, and what is read has the text.
pub fn weak_texts()
    ensures again { (parts : AnyWeak) → IsWeak parts →
        read_weak_text (weak_text parts) ≡ Some (without_pips parts) }
    ensures found { (text : List ℕ) (parts : AnyWeak) → read_weak_text text ≡ Some parts →
        IsWeak parts × (without_pips parts ≡ parts) × (text ≡ weak_text parts) }
{}

/// A text is read as a version, two digests and answers exactly where it is their strong text.
pub fn strong_texts()
    ensures { (text : List ℕ) (parts : AnyStrong) →
        (read_strong_text text ≡ Some parts) ↔ (IsStrong parts × (text ≡ strong_text parts)) }
{}
