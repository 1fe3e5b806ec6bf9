//! What follows from the definitions of the texts.
ghost use Rattle.std.specs.Prelude.{◌≡◌};
ghost use Rattle.build_report.specs.Notes.{AreInRange, notes_text};
ghost use Rattle.build_report.specs.declared.counts.Counts.{Counts as AnyCounts};

/// A text is the notes of one set of counts at most.
pub fn one_set_of_counts()
    ensures { (counts others : AnyCounts) → AreInRange counts → AreInRange others
        → notes_text counts ≡ notes_text others → counts ≡ others }
{}
