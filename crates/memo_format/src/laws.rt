//! What holds of all stored forms.
ghost use Rattle.std.specs.Prelude.{◌≡◌, ◌↔◌, ℕ, List, Some};
ghost use Rattle.memo_format.specs.declared.entry.Entry.{Entry as AnyEntry};
ghost use Rattle.memo_format.specs.declared.selector.Selector.{Selector as AnySelector};
ghost use Rattle.memo_format.specs.Entries.{IsEntry, entry_text, read_entry_text};
ghost use Rattle.memo_format.specs.Selectors.{AreSelectors, read_selectors_text, selectors_text};

/// A text is read as a list of selectors exactly where it is the text of that list.
pub fn selector_texts()
    ensures { (text : List ℕ) (list : List AnySelector) →
        (read_selectors_text text ≡ Some list) ↔ (AreSelectors list × (text ≡ selectors_text list)) }
{}

/// A text is read as an entry exactly where it is the text of that entry.
pub fn entry_texts()
    ensures { (text : List ℕ) (entry : AnyEntry) →
        (read_entry_text text ≡ Some entry) ↔ (IsEntry entry × (text ≡ entry_text entry)) }
{}
