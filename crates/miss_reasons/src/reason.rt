//! Reasons.
ghost use Rattle.std.specs.Prelude.{◌≡◌, ◌≢◌, Err, IfOk, None, Some};
ghost use Rattle.std.specs.FinMap.{get};
ghost use Rattle.observed.specs.declared.ask.Ask.{Ask as AnyAsk};
ghost use Rattle.observed.specs.declared.access.Answer.{Answer as AnyAnswer};
ghost use Rattle.bx_io.specs.Holdings.{Holdings};
ghost use Rattle.memo_format.specs.Selectors.{read_selectors_text};
ghost use Rattle.memo_format.specs.StoreNames.{at_list};
ghost use Rattle.run_record.specs.Digests.{weak_of};
ghost use Rattle.two_phase_meaning.specs.Usable.{Usable};
ghost use Rattle.two_phase.specs.Calls.{ReaderCall};
ghost use Rattle.miss_reasons.specs.Finding.{IsListText, Told};
ghost use Rattle.miss_reasons.specs.Reasons.{IsReason};

use crate::nearest::{Known, nearest};
use crate::selectors::no_fits;
use bx_digest::{Blob, Digest};
use bx_io::{Got, KeepReader};
use content_store::list_name;
use memo_format::{FormatFault, OutputLine, Selector, read_selectors};
use observed::{Answer, Ask, View};
use pip_model_types::Desc;
use prints::{AnswerLine, WeakParts};
use run_record::weak_digest;
use std::alloc::{AllocError, AllocFailed, Global};
use std::marker::Model;

/// Why a selector is not usable.
#[derive(Drop)]
pub enum NoFit {
    /// Its path set is not held, or damaged.
    NoPaths,
    /// This ask is the first that is answered otherwise: the stored line, what it is answered now, and of a listing the
    /// stored names, as far as they are held.
    Answered(Ask, AnswerLine, Answer, Option<Blob>),
    /// An ask is answered otherwise, but the stored answers are not held.
    AnsweredOtherwise,
    /// Its entry is not held, or damaged.
    NoEntry,
    /// Its entry is one of another process or path set, or has outputs that do not fit.
    OtherEntry,
    /// This output of its entry is not held, or damaged.
    NoOutput(OutputLine),
}

/// Selectors, in order. Contracts see them as a list.
#[derive(Drop)]
pub struct SelectorList {
    list: Vec<Selector>,
}

impl Model for SelectorList {
    ghost use Rattle.std.specs.Prelude.{List};
    ghost use Rattle.memo_format.specs.declared.selector.Selector.{Selector};

    ghost Value = { List Selector };

    ghost view = { λ s. s.list.items };
}

impl SelectorList {
    /// The selectors, in order.
    pub fn list(&self) -> &[Selector]
        ensures { result.now ≡ self.now }
    {
        self.list.as_slice()
    }
}

/// Reasons of selectors, in their order. Contracts see them as a list.
#[derive(Drop)]
pub struct NoFits {
    list: Vec<NoFit>,
}

impl Model for NoFits {
    ghost use Rattle.std.specs.Prelude.{List};
    ghost use Rattle.miss_reasons.specs.declared.reason.NoFit.{NoFit};

    ghost Value = { List NoFit };

    ghost view = { λ n. n.list.items };
}

impl NoFits {
    pub(crate) fn of(list: Vec<NoFit>) -> NoFits
        ensures { result ≡ list.items }
    {
        NoFits { list }
    }

    /// The reasons, in order.
    pub fn list(&self) -> &[NoFit]
        ensures { result.now ≡ self.now }
    {
        self.list.as_slice()
    }
}

/// A stored description beside that of a process.
#[derive(Drop)]
pub struct Near {
    pub stored: WeakParts,
    pub own: WeakParts,
}

/// Why nothing is usable for a process.
#[derive(Drop)]
pub enum Reason {
    /// No selectors are held for it. Of the stored descriptions that make the same, this is the nearest.
    NoList(Option<Near>),
    /// What is held in place of its selectors, for this weak digest, is ill-formed.
    BadList(Digest),
    /// None of its selectors is usable, each for its reason.
    NoneFits(SelectorList, NoFits),
}

/// Why no reason was found: the reader failed, or there was no memory.
#[derive(Clone, Copy, Debug, PartialEq, Eq)]
pub enum ReadFault {
    Failed,
    Memory,
}

impl From<AllocError> for ReadFault {
    ghost use Rattle.std.specs.Prelude.{◌≡◌};
    ghost use Rattle.miss_reasons.specs.declared.reason.ReadFault.TheVariants as read_faults;

    ghost from_gives = { λ _ e. e ≡ read_faults.Memory };

    fn from(_: AllocError) -> Self {
        ReadFault::Memory
    }
}

impl<T: Drop> From<AllocFailed<T>> for ReadFault {
    ghost use Rattle.std.specs.Prelude.{◌≡◌};
    ghost use Rattle.miss_reasons.specs.declared.reason.ReadFault.TheVariants as read_faults;

    ghost from_gives = { λ _ e. e ≡ read_faults.Memory };

    fn from(_: AllocFailed<T>) -> Self {
        ReadFault::Memory
    }
}

// The selectors of a text, if it is a list of them.
fn read_list(alloc: Global, text: &[u8]) -> Result<Option<SelectorList>, ReadFault>
    ensures read { IfOk result (λ list. read_selectors_text text.now ≡ list) }
    ensures no_fault { result ≢ Err ReadFault.Failed }
{
    match read_selectors(alloc, text) {
        Ok(list) => Ok(Some(SelectorList { list })),
        Err(FormatFault::BadForm) => Ok(None),
        Err(FormatFault::Memory) => Err(ReadFault::Memory),
    }
}

// The text that is held where the selectors of a weak text are, if one is.
fn list_text<R: KeepReader>(
    alloc: Global,
    reader: &mut R,
    weak: &Digest,
) -> Result<Option<Vec<u8>>, ReadFault>
    ensures text { IfOk result (Told (R.held reader.new) (λ S text. IsListText S weak.now text)) }
    ensures reader { ReaderCall (R.held reader.old) (R.held reader.new) (R.bound reader.old) (R.bound reader.new)
        (R.faults reader.old) (R.faults reader.new) (result ≡ Err ReadFault.Failed) }
{
    let name = list_name(alloc, weak)?;
    match reader.get(alloc, name.as_str()) {
        Got::Found(text) => Ok(Some(text)),
        Got::None => Ok(None),
        Got::Failed => Err(ReadFault::Failed),
        Got::Memory => Err(ReadFault::Memory),
    }
}

// Why none of the selectors is usable in the text that is held for a process.
fn list_reason<R: KeepReader, V: View>(
    alloc: Global,
    reader: &mut R,
    desc: &Desc,
    weak: &Digest,
    text: &[u8],
    view: &mut V,
) -> Result<Reason, ReadFault>
    requires weak { weak.now ≡ weak_of desc.now }
    requires held { (S : Holdings) → R.held reader.old ≡ Some S → get S (at_list weak.now) ≡ Some text.now }
    requires unusable { (S : Holdings) → R.held reader.old ≡ Some S → Usable S desc.now (V.answers view.old) → ⊥ }
    ensures reason { IfOk result
        (Told (R.held reader.new) (λ S reason. IsReason S desc.now (V.answers view.old) reason)) }
    ensures same { V.answers view.new ≡ V.answers view.old }
    ensures reader { ReaderCall (R.held reader.old) (R.held reader.new) (R.bound reader.old) (R.bound reader.new)
        (R.faults reader.old) (R.faults reader.new) (result ≡ Err ReadFault.Failed) }
{
    match read_list(alloc, text)? {
        Some(list) => {
            let selectors = list.list();
            let why = no_fits(alloc, reader, desc, weak, selectors, view)?;
            Ok(Reason::NoneFits(list, why))
        }
        None => Ok(Reason::BadList(*weak)),
    }
}

// Why nothing is usable for a process for which no selectors are held.
fn no_list<R: KeepReader>(
    alloc: Global,
    reader: &mut R,
    known: &mut Known,
    desc: &Desc,
) -> Result<Reason, ReadFault>
    requires absent { (S : Holdings) → R.held reader.old ≡ Some S → get S (at_list (weak_of desc.now)) ≡ None }
    ensures reason { (see : AnyAsk → AnyAnswer)
        → IfOk result (Told (R.held reader.new) (λ S reason. IsReason S desc.now see reason)) }
    ensures reader { ReaderCall (R.held reader.old) (R.held reader.new) (R.bound reader.old) (R.bound reader.new)
        (R.faults reader.old) (R.faults reader.new) (result ≡ Err ReadFault.Failed) }
{
    let near = nearest(alloc, reader, known, desc)?;
    Ok(Reason::NoList(near))
}

/// Why nothing that the reader tells to be held is usable for a process on this view, where that is so.
pub fn reason_of<R: KeepReader, V: View>(
    alloc: Global,
    reader: &mut R,
    known: &mut Known,
    desc: &Desc,
    view: &mut V,
) -> Result<Reason, ReadFault>
    requires unusable { (S : Holdings) → R.held reader.old ≡ Some S → Usable S desc.now (V.answers view.old) → ⊥ }
    ensures reason { IfOk result (λ reason. (S : Holdings) → R.held reader.new ≡ Some S
        → IsReason S desc.now (V.answers view.old) reason) }
    ensures same { V.answers view.new ≡ V.answers view.old }
    ensures reader { ReaderCall (R.held reader.old) (R.held reader.new) (R.bound reader.old) (R.bound reader.new)
        (R.faults reader.old) (R.faults reader.new) (result ≡ Err ReadFault.Failed) }
{
    let weak = weak_digest(alloc, desc)?;
    match list_text(alloc, reader, &weak)? {
        Some(text) => list_reason(alloc, reader, desc, &weak, text.as_slice(), view),
        None => no_list(alloc, reader, known, desc),
    }
}
