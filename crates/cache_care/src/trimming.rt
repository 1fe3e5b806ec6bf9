//! Trims of a store.
ghost use Rattle.std.specs.Prelude.{◌≡◌, ◌≤◌, ◌++◌, [], ◌∷◌, ℕ, List, All, Err, IfOk, IsSome, OnErr, OnOk, Some};
ghost use Rattle.std.specs.Prelude.{codes, filter, if◌then◌else◌, length, map, not, string_bytes, take};
ghost use Rattle.std.specs.FinMap.{get, keys};
ghost use Rattle.std.specs.List.{AllByRecursion, flat_map, list_any};
ghost use Rattle.std.specs.Str.{bytes_eq};
ghost use Rattle.bx_digest.specs.Digests.{IsDigest};
ghost use Rattle.bx_io.specs.Holdings.{Drop, Holdings, Keeps, MakesPrefix, Put, held_in, name_of};
ghost use Rattle.bx_io.specs.Names.{IsName};
ghost use Rattle.prints.specs.Lines.{begins};
ghost use Rattle.memo_format.specs.Selectors.{IsSelector, selectors_text};
ghost use Rattle.memo_format.specs.StoreNames.{at_blob, at_entry};
ghost use Rattle.memo_format.specs.declared.selector.TheConstants.{MAX_SELECTORS};
ghost use Rattle.two_phase.specs.Calls.{KeeperCall};
ghost use Rattle.two_phase_meaning.specs.Saving.{selectors_in};
ghost use Rattle.cache_care_check.specs.Known.{AreRight};
ghost use Rattle.cache_care.specs.Counts.{CountsMade, drop_count};
ghost use Rattle.cache_care.specs.Digests.{AddsAll, IsSetOf, has_digest};
ghost use Rattle.cache_care.specs.Naming.{named_at};
ghost use Rattle.cache_care.specs.Planning.{planned_change};
ghost use Rattle.cache_care.specs.Trimming.{AreTrims, DoesTrim, IsListName, IsTrim, OnlyTrims, cut_at, entry_names};
ghost use Rattle.cache_care.specs.Trimming.{is_selected, left_at, list_change, list_changes, named_digests, read_at};
ghost use Rattle.cache_care.specs.Trimming.{remaining, trims};

use crate::digests::DigestSet;
use crate::naming::add_named;
use crate::planning::{CareCount, Planned, apply_all, counted};
use bx_digest::Digest;
use bx_io::{Got, Keeper};
use cache_care_check::{CareFault, KnownContents, Named, held_entry, names_of, read_name};
use memo_format::{FormatFault, Selector, read_selectors, write_selectors};
use std::alloc::{AllocError, Global};

// The strong digests of selectors that stay, or the digests that entries name which stay, and the changes so far.
#[derive(Drop)]
struct Trim {
    digests: DigestSet,
    changes: Vec<Planned>,
}

impl Trim {
    fn new(alloc: Global) -> Trim
        ensures digests { IsSetOf result.digests [] }
        ensures changes { result.changes.items ≡ [] }
    {
        Trim {
            digests: DigestSet::new(alloc),
            changes: Vec::new(alloc),
        }
    }

    // Plans to drop a name.
    fn drop_name(&mut self, name: &String) -> Result<(), AllocError>
        ensures changes { OnOk result (map planned_change self.new.changes.items
            ≡ map planned_change self.old.changes.items ++ Drop (string_bytes name.now) ∷ []) }
        ensures digests { self.new.digests ≡ self.old.digests }
    {
        self.changes.push(Planned::Drop(name.clone()?))?;
        Ok(())
    }
}

fn add_selected(
    alloc: Global,
    selected: &mut DigestSet,
    list: &[Selector],
) -> Result<(), AllocError>
    ensures { OnOk result (AddsAll selected.old selected.new (map (λ s. s.strong) list.now)) }
{
    'selectors: for selector in list {
        selected.add(alloc, &selector.strong)?;
    }
    Ok(())
}

// Plans to put what is left of a list, if it was cut.
fn put_cut(
    alloc: Global,
    changes: &mut Vec<Planned>,
    name: &String,
    list: &[Selector],
    is_cut: bool,
) -> Result<(), AllocError>
    requires { length list.now ≤ MAX_SELECTORS }
    ensures { OnOk result (map planned_change changes.new.items ≡ map planned_change changes.old.items
        ++ (if is_cut then Put (string_bytes name.now) (selectors_text list.now) ∷ [] else [])) }
{
    if !is_cut {
        return Ok(());
    }
    let text = write_selectors(alloc, list)?;
    changes.push(Planned::Put(name.clone()?, text))?;
    Ok(())
}

// What becomes of a well-formed list: its first selectors stay.
fn cut_list(
    alloc: Global,
    trim: &mut Trim,
    name: &String,
    list: Vec<Selector>,
    keep: usize,
) -> Result<(), AllocError>
    requires few { length list.items ≤ MAX_SELECTORS }
    requires each { AllByRecursion IsSelector list.items }
    requires name { IsListName (string_bytes name.now) }
    ensures changes { OnOk result (map planned_change trim.new.changes.items ≡ map planned_change trim.old.changes.items
        ++ list_change keep (string_bytes name.now) (Some list.items)) }
    ensures selected { OnOk result (AddsAll trim.old.digests trim.new.digests
        (map (λ s. s.strong) (take keep list.items))) }
    ensures trims { OnOk result ((names : List (List ℕ)) → AreTrims names (map planned_change trim.old.changes.items)
        → AreTrims (names ++ string_bytes name.now ∷ []) (map planned_change trim.new.changes.items)) }
{
    let mut list = list;
    let is_cut = keep < list.len();
    list.truncate(keep);
    if list.is_empty() {
        return trim.drop_name(name);
    }
    put_cut(alloc, &mut trim.changes, name, list.as_slice(), is_cut)?;
    add_selected(alloc, &mut trim.digests, list.as_slice())
}

// What becomes of the list under a name; one that is not well-formed is dropped.
fn trim_list<K: Keeper>(
    alloc: Global,
    keeper: &mut K,
    trim: &mut Trim,
    name: &String,
    keep: usize,
) -> Result<(), CareFault>
    requires is_name { IsName (string_bytes name.now) }
    requires name { IsListName (string_bytes name.now) }
    ensures changes { (S : Holdings) → held_in (K.known keeper.new) ≡ Some S →
        OnOk result (map planned_change trim.new.changes.items ≡ map planned_change trim.old.changes.items
        ++ list_change keep (string_bytes name.now) (read_at S (string_bytes name.now))) }
    ensures selected { (S : Holdings) → held_in (K.known keeper.new) ≡ Some S →
        OnOk result (AddsAll trim.old.digests trim.new.digests
        (map (λ s. s.strong) (take keep (selectors_in (get S (string_bytes name.now)))))) }
    ensures trims { OnOk result ((names : List (List ℕ)) → AreTrims names (map planned_change trim.old.changes.items)
        → AreTrims (names ++ string_bytes name.now ∷ []) (map planned_change trim.new.changes.items)) }
    ensures known { Keeps (K.known keeper.old) (K.known keeper.new) }
    ensures keeper { KeeperCall (K.bound keeper.old) (K.bound keeper.new) (K.faults keeper.old)
        (K.faults keeper.new) (result ≡ Err CareFault.Failed) }
{
    match keeper.get(alloc, name.as_str()) {
        Got::Found(text) => match read_selectors(alloc, text.as_slice()) {
            Ok(list) => Ok(cut_list(alloc, trim, name, list, keep)?),
            Err(FormatFault::BadForm) => Ok(trim.drop_name(name)?),
            Err(FormatFault::Memory) => Err(CareFault::Memory),
        },
        Got::None => Ok(trim.drop_name(name)?),
        Got::Failed => Err(CareFault::Failed),
        Got::Memory => Err(CareFault::Memory),
    }
}

// What becomes of a name, if it is that of a list.
fn trim_list_name<K: Keeper>(
    alloc: Global,
    keeper: &mut K,
    trim: &mut Trim,
    name: &String,
    keep: usize,
) -> Result<(), CareFault>
    requires { IsName (string_bytes name.now) }
    ensures changes { (S : Holdings) → held_in (K.known keeper.new) ≡ Some S →
        OnOk result (map planned_change trim.new.changes.items ≡ map planned_change trim.old.changes.items
        ++ flat_map (cut_at S keep) (filter (begins (codes "w/")) (string_bytes name.now ∷ []))) }
    ensures selected { (S : Holdings) → held_in (K.known keeper.new) ≡ Some S →
        OnOk result (AddsAll trim.old.digests trim.new.digests
        (map (λ s. s.strong) (flat_map (left_at S keep) (filter (begins (codes "w/")) (string_bytes name.now ∷ []))))) }
    ensures trims { OnOk result ((names : List (List ℕ)) → AreTrims names (map planned_change trim.old.changes.items)
        → AreTrims (names ++ filter (begins (codes "w/")) (string_bytes name.now ∷ []))
        (map planned_change trim.new.changes.items)) }
    ensures known { Keeps (K.known keeper.old) (K.known keeper.new) }
    ensures keeper { KeeperCall (K.bound keeper.old) (K.bound keeper.new) (K.faults keeper.old)
        (K.faults keeper.new) (result ≡ Err CareFault.Failed) }
{
    match read_name(name.as_str()) {
        Named::Selectors(_) => trim_list(alloc, keeper, trim, name, keep),
        Named::Content(_) => Ok(()),
        Named::Entry(_) => Ok(()),
    }
}

// What becomes of all lists.
fn trim_lists<K: Keeper>(
    alloc: Global,
    keeper: &mut K,
    names: &[String],
    keep: usize,
) -> Result<Trim, CareFault>
    requires { All (λ name. IsName (string_bytes name)) names.now }
    ensures changes { (S : Holdings) → held_in (K.known keeper.new) ≡ Some S → map string_bytes names.now ≡ keys S →
        IfOk result (λ trim. map planned_change trim.changes.items ≡ list_changes S keep) }
    ensures selected { (S : Holdings) → held_in (K.known keeper.new) ≡ Some S → map string_bytes names.now ≡ keys S →
        IfOk result (λ trim. IsSetOf trim.digests (map (λ s. s.strong) (remaining S keep))) }
    ensures trims { IfOk result (λ trim. AreTrims (filter (begins (codes "w/")) (map string_bytes names.now))
        (map planned_change trim.changes.items)) }
    ensures known { Keeps (K.known keeper.old) (K.known keeper.new) }
    ensures keeper { KeeperCall (K.bound keeper.old) (K.bound keeper.new) (K.faults keeper.old)
        (K.faults keeper.new) (result ≡ Err CareFault.Failed) }
{
    let mut trim = Trim::new(alloc);
    'names: for name in names {
        trim_list_name(alloc, keeper, &mut trim, name, keep)?;
    }
    Ok(trim)
}

// Adds the digests that the name of an entry names.
fn add_named_at<K: Keeper>(
    alloc: Global,
    keeper: &mut K,
    contents: &mut KnownContents,
    named: &mut DigestSet,
    name: &String,
    strong: &Digest,
) -> Result<(), CareFault>
    requires right { AreRight (held_in (K.known keeper.old)) contents.old }
    requires is_name { IsName (string_bytes name.now) }
    requires name { string_bytes name.now ≡ at_entry strong.now }
    ensures added { (S : Holdings) → held_in (K.known keeper.new) ≡ Some S → IsDigest strong.now →
        OnOk result (AddsAll named.old named.new (named_at S (string_bytes name.now))) }
    ensures right { AreRight (held_in (K.known keeper.new)) contents.new }
    ensures known { Keeps (K.known keeper.old) (K.known keeper.new) }
    ensures keeper { KeeperCall (K.bound keeper.old) (K.bound keeper.new) (K.faults keeper.old)
        (K.faults keeper.new) (result ≡ Err CareFault.Failed) }
{
    match held_entry(alloc, keeper, name.as_str(), strong)? {
        Some(entry) => add_named(alloc, keeper, contents, named, &entry),
        None => Ok(()),
    }
}

// What becomes of an entry: it stays where a selector that stays names it, and then what it names is added.
fn trim_entry<K: Keeper>(
    alloc: Global,
    keeper: &mut K,
    contents: &mut KnownContents,
    trim: &mut Trim,
    selected: &DigestSet,
    name: &String,
    strong: &Digest,
) -> Result<(), CareFault>
    requires right { AreRight (held_in (K.known keeper.old)) contents.old }
    requires is_name { IsName (string_bytes name.now) }
    requires name { string_bytes name.now ≡ at_entry strong.now }
    ensures changes { OnOk result (map planned_change trim.new.changes.items
        ≡ map planned_change trim.old.changes.items
        ++ (if has_digest selected.now strong.now then [] else Drop (string_bytes name.now) ∷ [])) }
    ensures named { (S : Holdings) → held_in (K.known keeper.new) ≡ Some S →
        OnOk result (AddsAll trim.old.digests trim.new.digests
        (if has_digest selected.now strong.now then named_at S (string_bytes name.now) else [])) }
    ensures trims { OnOk result ((names : List (List ℕ)) → AreTrims names (map planned_change trim.old.changes.items)
        → AreTrims (names ++ string_bytes name.now ∷ []) (map planned_change trim.new.changes.items)) }
    ensures is_digest { IsDigest strong.now }
    ensures right { AreRight (held_in (K.known keeper.new)) contents.new }
    ensures known { Keeps (K.known keeper.old) (K.known keeper.new) }
    ensures keeper { KeeperCall (K.bound keeper.old) (K.bound keeper.new) (K.faults keeper.old)
        (K.faults keeper.new) (result ≡ Err CareFault.Failed) }
{
    if selected.has(strong) {
        return add_named_at(alloc, keeper, contents, &mut trim.digests, name, strong);
    }
    Ok(trim.drop_name(name)?)
}

// What becomes of a name, if it is that of an entry.
fn trim_entry_name<K: Keeper>(
    alloc: Global,
    keeper: &mut K,
    contents: &mut KnownContents,
    trim: &mut Trim,
    selected: &DigestSet,
    name: &String,
) -> Result<(), CareFault>
    requires right { AreRight (held_in (K.known keeper.old)) contents.old }
    requires is_name { IsName (string_bytes name.now) }
    ensures changes { (S : Holdings) (keep : ℕ) → held_in (K.known keeper.new) ≡ Some S
        → IsSetOf selected.now (map (λ s. s.strong) (remaining S keep))
        → OnOk result (map planned_change trim.new.changes.items ≡ map planned_change trim.old.changes.items
        ++ map Drop (filter (λ name. not (is_selected S keep name))
        (filter (begins (codes "e/")) (string_bytes name.now ∷ [])))) }
    ensures named { (S : Holdings) (keep : ℕ) → held_in (K.known keeper.new) ≡ Some S
        → IsSetOf selected.now (map (λ s. s.strong) (remaining S keep))
        → OnOk result (AddsAll trim.old.digests trim.new.digests
        (flat_map (named_at S) (filter (is_selected S keep) (filter (begins (codes "e/")) (string_bytes name.now ∷ []))))) }
    ensures trims { OnOk result ((names : List (List ℕ)) → AreTrims names (map planned_change trim.old.changes.items)
        → AreTrims (names ++ filter (begins (codes "e/")) (string_bytes name.now ∷ []))
        (map planned_change trim.new.changes.items)) }
    ensures right { AreRight (held_in (K.known keeper.new)) contents.new }
    ensures known { Keeps (K.known keeper.old) (K.known keeper.new) }
    ensures keeper { KeeperCall (K.bound keeper.old) (K.bound keeper.new) (K.faults keeper.old)
        (K.faults keeper.new) (result ≡ Err CareFault.Failed) }
{
    match read_name(name.as_str()) {
        Named::Entry(strong) => {
            trim_entry(alloc, keeper, contents, trim, selected, name, &strong)
        }
        Named::Content(_) => Ok(()),
        Named::Selectors(_) => Ok(()),
    }
}

// What becomes of all entries.
fn trim_entries<K: Keeper>(
    alloc: Global,
    keeper: &mut K,
    names: &[String],
    selected: &DigestSet,
) -> Result<Trim, CareFault>
    requires { All (λ name. IsName (string_bytes name)) names.now }
    ensures changes { (S : Holdings) (keep : ℕ) → held_in (K.known keeper.new) ≡ Some S
        → map string_bytes names.now ≡ keys S → IsSetOf selected.now (map (λ s. s.strong) (remaining S keep))
        → IfOk result (λ trim. map planned_change trim.changes.items
        ≡ map Drop (filter (λ name. not (is_selected S keep name)) (entry_names S))) }
    ensures named { (S : Holdings) (keep : ℕ) → held_in (K.known keeper.new) ≡ Some S
        → map string_bytes names.now ≡ keys S → IsSetOf selected.now (map (λ s. s.strong) (remaining S keep))
        → IfOk result (λ trim. IsSetOf trim.digests (named_digests S keep)) }
    ensures trims { IfOk result (λ trim. AreTrims (filter (begins (codes "e/")) (map string_bytes names.now))
        (map planned_change trim.changes.items)) }
    ensures known { Keeps (K.known keeper.old) (K.known keeper.new) }
    ensures keeper { KeeperCall (K.bound keeper.old) (K.bound keeper.new) (K.faults keeper.old)
        (K.faults keeper.new) (result ≡ Err CareFault.Failed) }
{
    let mut contents = KnownContents::new(alloc);
    let mut trim = Trim::new(alloc);
    'names: for name in names {
        trim_entry_name(alloc, keeper, &mut contents, &mut trim, selected, name)?;
    }
    Ok(trim)
}

// Plans to drop a content, unless it is named.
fn drop_unnamed(
    plan: &mut Vec<Planned>,
    name: &String,
    digest: &Digest,
    named_digests: &DigestSet,
) -> Result<(), AllocError>
    ensures changes { OnOk result (map planned_change plan.new.items ≡ map planned_change plan.old.items
        ++ (if has_digest named_digests.now digest.now then [] else Drop (string_bytes name.now) ∷ [])) }
    ensures is_digest { IsDigest digest.now }
{
    if named_digests.has(digest) {
        return Ok(());
    }
    plan.push(Planned::Drop(name.clone()?))?;
    Ok(())
}

// What becomes of a name, if it is that of a content.
fn drop_content(
    plan: &mut Vec<Planned>,
    name: &String,
    named_digests: &DigestSet,
) -> Result<(), AllocError>
    requires { IsName (string_bytes name.now) }
    ensures changes { (digests : List (List ℕ)) → IsSetOf named_digests.now digests → AllByRecursion IsDigest digests →
        OnOk result (map planned_change plan.new.items ≡ map planned_change plan.old.items
        ++ map Drop (filter (λ name. not (list_any (λ digest. bytes_eq (at_blob digest) name) digests))
        (filter (begins (codes "b/")) (string_bytes name.now ∷ [])))) }
    ensures trims { OnOk result ((before : List (List ℕ)) → AreTrims before (map planned_change plan.old.items)
        → AreTrims (before ++ filter (begins (codes "b/")) (string_bytes name.now ∷ []))
        (map planned_change plan.new.items)) }
{
    match read_name(name.as_str()) {
        Named::Content(digest) => drop_unnamed(plan, name, &digest, named_digests),
        Named::Entry(_) => Ok(()),
        Named::Selectors(_) => Ok(()),
    }
}

// Plans to drop each content that is not named.
fn drop_contents(
    plan: &mut Vec<Planned>,
    names: &[String],
    named_digests: &DigestSet,
) -> Result<(), AllocError>
    requires { All (λ name. IsName (string_bytes name)) names.now }
    ensures changes { (digests : List (List ℕ)) → IsSetOf named_digests.now digests → AllByRecursion IsDigest digests →
        OnOk result (map planned_change plan.new.items ≡ map planned_change plan.old.items
        ++ map Drop (filter (λ name. not (list_any (λ digest. bytes_eq (at_blob digest) name) digests))
        (filter (begins (codes "b/")) (map string_bytes names.now)))) }
    ensures trims { OnOk result ((before : List (List ℕ)) → AreTrims before (map planned_change plan.old.items)
        → AreTrims (before ++ filter (begins (codes "b/")) (map string_bytes names.now)) (map planned_change plan.new.items)) }
{
    'names: for name in names {
        drop_content(plan, name, named_digests)?;
    }
    Ok(())
}

// All changes of a trim, which are planned before the first is made.
fn plan<K: Keeper>(
    alloc: Global,
    keeper: &mut K,
    names: &[String],
    keep: usize,
) -> Result<Vec<Planned>, CareFault>
    requires { All (λ name. IsName (string_bytes name)) names.now }
    ensures plan { (S : Holdings) → held_in (K.known keeper.new) ≡ Some S → map string_bytes names.now ≡ keys S
        → IfOk result (λ plan. map planned_change plan.items ≡ trims S keep) }
    ensures names { IfOk result (λ plan. All (λ planned. IsName (name_of (planned_change planned))) plan.items) }
    ensures few { IfOk result (λ plan. drop_count (map planned_change plan.items) ≤ length names.now) }
    ensures trims { IfOk result (λ plan. All (λ planned. IsTrim (planned_change planned)) plan.items) }
    ensures known { Keeps (K.known keeper.old) (K.known keeper.new) }
    ensures keeper { KeeperCall (K.bound keeper.old) (K.bound keeper.new) (K.faults keeper.old)
        (K.faults keeper.new) (result ≡ Err CareFault.Failed) }
{
    let mut lists = trim_lists(alloc, keeper, names, keep)?;
    let mut entries = trim_entries(alloc, keeper, names, &lists.digests)?;
    entries.changes.append(&mut lists.changes)?;
    drop_contents(&mut entries.changes, names, &entries.digests)?;
    Ok(entries.changes)
}

/// Leaves of each well-formed list its first selectors, the entries that these name, and the contents that those name:
/// first the other entries are dropped, then the lists are put that were cut and dropped that are not well-formed or have
/// nothing left, and then the other contents are dropped. It stops at the first call of the store that fails; then a part
/// of that was done.
pub fn trim_store<K: Keeper>(
    alloc: Global,
    keeper: &mut K,
    keep: u32,
) -> Result<CareCount, CareFault>
    ensures trimmed { (S : Holdings) → held_in (K.known keeper.old) ≡ Some S → IsSome (held_in (K.known keeper.new))
        → IfOk result (DoesTrim S keep (K.known keeper.old) (K.known keeper.new)) }
    ensures cut { (S : Holdings) → held_in (K.known keeper.old) ≡ Some S → IsSome (held_in (K.known keeper.new))
        → OnErr result (MakesPrefix (K.known keeper.old) (K.known keeper.new) (trims S keep)) }
    ensures counted { IfOk result (CountsMade (K.known keeper.old) (K.known keeper.new)) }
    ensures trims { OnlyTrims (K.known keeper.old) (K.known keeper.new) }
    ensures keeper { KeeperCall (K.bound keeper.old) (K.bound keeper.new) (K.faults keeper.old)
        (K.faults keeper.new) (result ≡ Err CareFault.Failed) }
{
    let names = names_of(alloc, keeper)?;
    let plan = plan(alloc, keeper, names.as_slice(), keep as usize)?;
    apply_all(alloc, keeper, plan.as_slice())?;
    Ok(counted(names.len(), plan.as_slice()))
}
