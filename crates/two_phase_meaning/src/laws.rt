//! What holds of all honest stores.
ghost use Rattle.std.specs.Prelude.{◌≡◌, ◌≢◌, ◌⊎◌, ℕ, IsTrue, List, map};
ghost use Rattle.std.specs.FinMap.{empty};
ghost use Rattle.bx_tree.specs.Members.{Has};
ghost use Rattle.bx_io.specs.Holdings.{Change, Holdings, IsPrefix, holdings_after};
ghost use Rattle.pip_model_types.specs.declared.desc.Desc.{Desc as AnyDesc};
ghost use Rattle.observed.specs.declared.ask.Ask.{Ask as AnyAsk};
ghost use Rattle.observed.specs.declared.access.Answer.{Answer as AnyAnswer};
ghost use Rattle.memo_format.specs.Entries.{output_paths};
ghost use Rattle.memo_format.specs.Found.{output_lines};
ghost use Rattle.memo_format.specs.StoreNames.{HoldsBlob, HoldsEntry, HoldsList};
ghost use Rattle.memo_format.specs.declared.entry.Entry.{Entry as AnyEntry};
ghost use Rattle.memo_format.specs.declared.selector.Selector.{Selector as AnySelector};
ghost use Rattle.tool_run.specs.Described.{described};
ghost use Rattle.run_record.specs.Facts.{Facts, Sound};
ghost use Rattle.two_phase_meaning.specs.Honest.{Honest, IsGoodRun};
ghost use Rattle.run_record.specs.Collisions.{NoCollision};
ghost use Rattle.run_record.specs.Digests.{IsReadBack, weak_of};
ghost use Rattle.two_phase_meaning.specs.Saving.{ComparedInSave, ComparedInStay, FilesFit, IsGood, Spelled, list_at};
ghost use Rattle.two_phase_meaning.specs.Saving.{blobs_of, outcome_files, puts_of, record_entry, record_selector, with_first};
ghost use Rattle.two_phase_meaning.specs.Compared.{ComparedInRun};
ghost use Rattle.two_phase_meaning.specs.Usable.{Usable, UsableAt, fits};

/// What a usable selector in the list of a process leads to, where the store is honest, is what the run on the
/// view gives.
pub fn hits()
    ensures { (S : Holdings) (d : AnyDesc) (see : AnyAsk → AnyAnswer) → Honest S → IsReadBack d
        → NoCollision (ComparedInRun S d see) → (s : AnySelector) (asks : List AnyAsk)
        → (u : UsableAt S d see s asks) → IsGoodRun (described d) see u.by.asks u.by.files }
{}

/// An honest store stays honest after each of the puts of a record of a success.
pub fn puts_stay_honest()
    ensures { (S : Holdings) (f : Facts) → Honest S → Sound f → IsGood f → Spelled f → NoCollision (ComparedInSave S f)
        → (list : List AnySelector) (made : List Change) → IsPrefix made (puts_of f list)
        → Honest (holdings_after S made) }
{}

/// After any prefix of the puts of a record, a content that is held was held before or is one of those that
/// are put, and an entry that is held was held before or is that of the record.
pub fn puts_add()
    ensures contents { (S : Holdings) (f : Facts) (list : List AnySelector) (made : List Change)
        → IsPrefix made (puts_of f list) → (x : List ℕ) → HoldsBlob (holdings_after S made) x
        → HoldsBlob S x ⊎ Has (blobs_of f) x }
    ensures entries { (S : Holdings) (f : Facts) (list : List AnySelector) (made : List Change) → Spelled f
        → IsPrefix made (puts_of f list) → (e : AnyEntry) → HoldsEntry (holdings_after S made) e
        → HoldsEntry S e ⊎ (e ≡ record_entry f) }
{}

/// What was saved whole is usable at the record's selector on each view that answers as the record says, where
/// its files fit its process.
pub fn saved_is_usable()
    ensures { (S : Holdings) (f : Facts) → Spelled f → NoCollision (ComparedInSave S f) → FilesFit f
        → (see : AnyAsk → AnyAnswer) → f.answers ≡ map see f.paths
        → UsableAt (holdings_after S (puts_of f (with_first (record_selector f) (list_at S (weak_of f.desc)))))
        f.desc see (record_selector f) f.paths }
{}

/// While a record of a process with another weak text is put, the list of a process stays, and what is usable
/// at one of its selectors stays so.
pub fn others_stay()
    ensures list { (S : Holdings) (f : Facts) (d : AnyDesc) → weak_of f.desc ≢ weak_of d
        → (list held : List AnySelector) → HoldsList S (weak_of d) held
        → HoldsList (holdings_after S (puts_of f list)) (weak_of d) held }
    ensures usable { (S : Holdings) (f : Facts) (d : AnyDesc) (see : AnyAsk → AnyAnswer) (s : AnySelector)
        (asks : List AnyAsk) → NoCollision (ComparedInStay S f d see s.paths asks) → weak_of f.desc ≢ weak_of d
        → (list : List AnySelector) → UsableAt S d see s asks
        → UsableAt (holdings_after S (puts_of f list)) d see s asks }
{}

/// Something is usable just where one of the selectors that are held for the process is.
pub fn usable_at_one()
    ensures one { (S : Holdings) (d : AnyDesc) (see : AnyAsk → AnyAnswer) → Usable S d see
        → (s : AnySelector) × ((asks : List AnyAsk) × UsableAt S d see s asks) }
    ensures any { (S : Holdings) (d : AnyDesc) (see : AnyAsk → AnyAnswer) (s : AnySelector)
        (asks : List AnyAsk) → UsableAt S d see s asks → Usable S d see }
{}

/// The store that holds nothing is honest.
pub fn empty_is_honest()
    ensures { Honest empty }
{}

/// The files of a record of a success are those that its process declares, and none that it may not make.
pub fn good_files_fit()
    ensures { (f : Facts) → Sound f → IsGood f
        → IsTrue (fits f.desc.process (output_paths (output_lines (outcome_files f.outcome)))) }
{}
