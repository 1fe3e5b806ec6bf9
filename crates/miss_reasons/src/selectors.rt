//! Why selectors are not usable.
ghost use Rattle.std.specs.Prelude.{◌≡◌, ◌≢◌, ◌↔◌, ◌<◌, Err, IfOk, IfSome, IsTrue, Some, length};
ghost use Rattle.bx_io.specs.Holdings.{Holdings};
ghost use Rattle.observed.specs.Texts.{read_paths_text};
ghost use Rattle.observed.specs.declared.ask.Ask.{Ask as AnyAsk};
ghost use Rattle.observed.specs.declared.access.Answer.{Answer as AnyAnswer};
ghost use Rattle.prints.specs.Strong.{line_of, read_strong_text};
ghost use Rattle.memo_format.specs.Entries.{IsEntry, OutputsRise, output_paths};
ghost use Rattle.memo_format.specs.declared.entry.Entry.{Entry as AnyEntry};
ghost use Rattle.content_store.specs.Contents.{IsContent};
ghost use Rattle.content_store.specs.HeldEntries.{IsHeld};
ghost use Rattle.run_record.specs.Digests.{weak_of};
ghost use Rattle.two_phase_meaning.specs.Contents.{HoldsPaths, HoldsStrong};
ghost use Rattle.two_phase_meaning.specs.Usable.{AnyUsable, UsableBy, fits as all_fit};
ghost use Rattle.two_phase.specs.Calls.{ReaderCall};
ghost use Rattle.two_phase.specs.Finding.{FindsOne};
ghost use Rattle.miss_reasons.specs.Finding.{IsAnsweredBy, IsFirstOther, IsMissing, IsOther, IsOtherOf, IsTakenWhole, Told};
ghost use Rattle.miss_reasons.specs.Finding.{line_kind};
ghost use Rattle.miss_reasons.specs.Reasons.{AreNoFits, AreStoredNames, IsNoFit};

use crate::reason::{NoFit, NoFits, ReadFault};
use bx_digest::{Blob, Digest};
use bx_io::KeepReader;
use bx_tree::Memory;
use content_store::{Fetched, FetchedEntry, get_blob, get_entry};
use memo_format::{Entry, OutputLine, Selector};
use observed::{Answer, Ask, PathSet, SetFault, View, answers_to};
use pip_model_types::Desc;
use prints::{AnswerLine, PrintFault, StrongParts, read_strong, strong_of};
use std::alloc::Global;
use two_phase::fits;

// The content of a digest, if it is held.
pub(crate) fn content<R: KeepReader>(
    alloc: Global,
    reader: &mut R,
    digest: &Digest,
) -> Result<Option<Blob>, ReadFault>
    ensures found { IfOk result (FindsOne (R.held reader.new) (λ S bytes. IsContent S digest.now bytes)) }
    ensures reader { ReaderCall (R.held reader.old) (R.held reader.new) (R.bound reader.old) (R.bound reader.new)
        (R.faults reader.old) (R.faults reader.new) (result ≡ Err ReadFault.Failed) }
{
    match get_blob(alloc, reader, digest) {
        Fetched::Found(blob) => Ok(Some(blob)),
        Fetched::NotWell => Ok(None),
        Fetched::Fault => Err(ReadFault::Failed),
        Fetched::Memory => Err(ReadFault::Memory),
    }
}

// The path set of a text, if it is one.
fn set_in(alloc: Global, text: &[u8]) -> Result<Option<PathSet>, ReadFault>
    ensures read { IfOk result (λ set. read_paths_text text.now ≡ set) }
    ensures no_fault { result ≢ Err ReadFault.Failed }
{
    match PathSet::read(alloc, text) {
        Ok(set) => Ok(Some(set)),
        Err(SetFault::BadSet) => Ok(None),
        Err(SetFault::Memory) => Err(ReadFault::Memory),
    }
}

// The path set whose text has a digest, if it is held.
fn path_set<R: KeepReader>(
    alloc: Global,
    reader: &mut R,
    digest: &Digest,
) -> Result<Option<PathSet>, ReadFault>
    ensures found { IfOk result (FindsOne (R.held reader.new) (λ S asks. HoldsPaths S digest.now asks)) }
    ensures reader { ReaderCall (R.held reader.old) (R.held reader.new) (R.bound reader.old) (R.bound reader.new)
        (R.faults reader.old) (R.faults reader.new) (result ≡ Err ReadFault.Failed) }
{
    match content(alloc, reader, digest)? {
        Some(text) => set_in(alloc, text.bytes()),
        None => Ok(None),
    }
}

// What a text says, if it is a strong text.
fn strong_in(alloc: Global, text: &[u8]) -> Result<Option<StrongParts>, ReadFault>
    ensures read { IfOk result (λ parts. read_strong_text text.now ≡ parts) }
    ensures no_fault { result ≢ Err ReadFault.Failed }
{
    match read_strong(alloc, text) {
        Ok(parts) => Ok(Some(parts)),
        Err(PrintFault::BadPrint) => Ok(None),
        Err(PrintFault::Memory) => Err(ReadFault::Memory),
    }
}

// What the strong text says that has a digest, if it is held.
fn stored_parts<R: KeepReader>(
    alloc: Global,
    reader: &mut R,
    digest: &Digest,
) -> Result<Option<StrongParts>, ReadFault>
    ensures found { IfOk result (FindsOne (R.held reader.new) (λ S parts. HoldsStrong S digest.now parts)) }
    ensures reader { ReaderCall (R.held reader.old) (R.held reader.new) (R.bound reader.old) (R.bound reader.new)
        (R.faults reader.old) (R.faults reader.new) (result ≡ Err ReadFault.Failed) }
{
    match content(alloc, reader, digest)? {
        Some(text) => strong_in(alloc, text.bytes()),
        None => Ok(None),
    }
}

// The line that says an answer.
fn said(answer: &Answer) -> AnswerLine
    ensures { result ≡ line_of answer.now }
{
    match answer {
        Answer::Absent => AnswerLine::Absent,
        Answer::Content(bytes) => AnswerLine::Content(bytes.digest()),
        Answer::File => AnswerLine::File,
        Answer::Directory => AnswerLine::Directory,
        Answer::Names(names) => AnswerLine::Names(names.digest()),
        Answer::Denied => AnswerLine::Denied,
    }
}

// The place of a line's kind.
fn kind_of(line: &AnswerLine) -> u8
    ensures { result ≡ line_kind line.now }
{
    match line {
        AnswerLine::Absent => 0,
        AnswerLine::Content(_) => 1,
        AnswerLine::File => 2,
        AnswerLine::Directory => 3,
        AnswerLine::Names(_) => 4,
        AnswerLine::Denied => 5,
    }
}

fn is_same_digest(x: &Digest, y: &Digest) -> bool
    ensures { IsTrue result ↔ x.now ≡ y.now }
{
    *x == *y
}

// Whether a line says a content with this digest.
fn has_content(line: &AnswerLine, digest: &Digest) -> bool
    ensures { IsTrue result ↔ line.now ≡ AnswerLine.Content digest.now }
{
    match line {
        AnswerLine::Content(own) => is_same_digest(own, digest),
        _ => false,
    }
}

// Whether a line says names with this digest.
fn has_names(line: &AnswerLine, digest: &Digest) -> bool
    ensures { IsTrue result ↔ line.now ≡ AnswerLine.Names digest.now }
{
    match line {
        AnswerLine::Names(own) => is_same_digest(own, digest),
        _ => false,
    }
}

// Whether lines are the same: of one kind, and with the same digest.
fn is_same_line(a: &AnswerLine, b: &AnswerLine) -> bool
    ensures { IsTrue result ↔ a.now ≡ b.now }
{
    match a {
        AnswerLine::Content(digest) => has_content(b, digest),
        AnswerLine::Names(digest) => has_names(b, digest),
        _ => {
            let mine = kind_of(a);
            let other = kind_of(b);
            mine == other
        }
    }
}

// Whether a line says an answer.
fn says(line: &AnswerLine, answer: &Answer) -> bool
    ensures { IsTrue result ↔ line.now ≡ line_of answer.now }
{
    let own = said(answer);
    is_same_line(line, &own)
}

// The place of the first line that does not say its answer, of those that have one.
fn first_other(lines: &[AnswerLine], answers: &[Answer]) -> Option<usize>
    ensures first { IfSome result (IsFirstOther lines.now answers.now) }
    ensures within { IfSome result (λ place. (place < length lines.now) × (place < length answers.now)) }
{
    'places: for place in 0..lines.len() {
        if place >= answers.len() {
            return None;
        }
        if !says(&lines[place], &answers[place]) {
            return Some(place);
        }
    }
    None
}

// The place of the first ask whose line does not say its answer.
fn other_place(lines: &[AnswerLine], asks: &[Ask], answers: &[Answer]) -> Option<usize>
    ensures first { IfSome result (IsFirstOther lines.now answers.now) }
    ensures within { IfSome result (λ place.
        (place < length lines.now) × ((place < length asks.now) × (place < length answers.now))) }
{
    match first_other(lines, answers) {
        Some(place) if place < asks.len() => Some(place),
        _ => None,
    }
}

// The stored names of a line, if it has some and they are held.
fn stored_names<R: KeepReader>(
    alloc: Global,
    reader: &mut R,
    line: &AnswerLine,
) -> Result<Option<Blob>, ReadFault>
    ensures names { IfOk result (Told (R.held reader.new) (λ S names. AreStoredNames S line.now names)) }
    ensures reader { ReaderCall (R.held reader.old) (R.held reader.new) (R.bound reader.old) (R.bound reader.new)
        (R.faults reader.old) (R.faults reader.new) (result ≡ Err ReadFault.Failed) }
{
    match line {
        AnswerLine::Names(digest) => content(alloc, reader, digest),
        _ => Ok(None),
    }
}

// That an ask is answered otherwise than a line says.
fn other_at<R: KeepReader>(
    alloc: Global,
    reader: &mut R,
    ask: &Ask,
    line: &AnswerLine,
    answer: &Answer,
) -> Result<NoFit, ReadFault>
    ensures told { IfOk result (Told (R.held reader.new) (λ S why. IsAnsweredBy S ask.now line.now answer.now why)) }
    ensures reader { ReaderCall (R.held reader.old) (R.held reader.new) (R.bound reader.old) (R.bound reader.new)
        (R.faults reader.old) (R.faults reader.new) (result ≡ Err ReadFault.Failed) }
{
    let names = stored_names(alloc, reader, line)?;
    let ask = ask.share()?;
    let answer = answer.share()?;
    Ok(NoFit::Answered(ask, *line, answer, names))
}

// Which ask of a path set is answered otherwise than these lines say, of the selector's strong text.
fn other_of<R: KeepReader>(
    alloc: Global,
    reader: &mut R,
    lines: &[AnswerLine],
    asks: &[Ask],
    answers: &[Answer],
) -> Result<NoFit, ReadFault>
    ensures told { IfOk result (Told (R.held reader.new) (λ S why. IsOtherOf S lines.now asks.now answers.now why)) }
    ensures reader { ReaderCall (R.held reader.old) (R.held reader.new) (R.bound reader.old) (R.bound reader.new)
        (R.faults reader.old) (R.faults reader.new) (result ≡ Err ReadFault.Failed) }
{
    match other_place(lines, asks, answers) {
        Some(place) => other_at(alloc, reader, &asks[place], &lines[place], &answers[place]),
        None => Ok(NoFit::AnsweredOtherwise),
    }
}

// Which ask of a path set is answered otherwise than the selector's strong text says.
fn answered<R: KeepReader>(
    alloc: Global,
    reader: &mut R,
    selector: &Selector,
    asks: &[Ask],
    answers: &[Answer],
) -> Result<NoFit, ReadFault>
    ensures other { IfOk result (Told (R.held reader.new) (λ S why. IsOther S selector.now asks.now answers.now why)) }
    ensures reader { ReaderCall (R.held reader.old) (R.held reader.new) (R.bound reader.old) (R.bound reader.new)
        (R.faults reader.old) (R.faults reader.new) (result ≡ Err ReadFault.Failed) }
{
    match stored_parts(alloc, reader, &selector.strong)? {
        Some(stored) => other_of(alloc, reader, stored.lines.lines(), asks, answers),
        None => Ok(NoFit::AnsweredOtherwise),
    }
}

fn shared(output: &OutputLine) -> Result<OutputLine, Memory>
    ensures { IfOk result (λ line. line ≡ output.now) }
{
    let path = output.path.share()?;
    Ok(OutputLine {
        path,
        digest: output.digest,
    })
}

// The first output that is not held.
fn missing_output<R: KeepReader>(
    alloc: Global,
    reader: &mut R,
    outputs: &[OutputLine],
) -> Result<Option<OutputLine>, ReadFault>
    ensures missing { IfOk result (Told (R.held reader.new) (λ S missing. IsMissing S outputs.now missing)) }
    ensures reader { ReaderCall (R.held reader.old) (R.held reader.new) (R.bound reader.old) (R.bound reader.new)
        (R.faults reader.old) (R.faults reader.new) (result ≡ Err ReadFault.Failed) }
{
    'outputs: for output in outputs {
        let found = content(alloc, reader, &output.digest)?;
        match found {
            Some(_) => (),
            None => {
                let line = shared(output)?;
                return Ok(Some(line));
            }
        }
    }
    Ok(None)
}

// The entry of a strong digest, if it is held.
fn entry<R: KeepReader>(
    alloc: Global,
    reader: &mut R,
    strong: &Digest,
) -> Result<Option<Entry>, ReadFault>
    ensures found { IfOk result (FindsOne (R.held reader.new) (λ S e. IsHeld S strong.now e)) }
    ensures entry { IfOk result (λ found. IfSome found IsEntry) }
    ensures reader { ReaderCall (R.held reader.old) (R.held reader.new) (R.bound reader.old) (R.bound reader.new)
        (R.faults reader.old) (R.faults reader.new) (result ≡ Err ReadFault.Failed) }
{
    match get_entry(alloc, reader, strong) {
        FetchedEntry::Found(entry) => Ok(Some(entry)),
        FetchedEntry::NotWell => Ok(None),
        FetchedEntry::Fault => Err(ReadFault::Failed),
        FetchedEntry::Memory => Err(ReadFault::Memory),
    }
}

// Whether an entry is one of a process with this weak digest and of the path set of a selector, and its outputs fit.
fn is_for(desc: &Desc, weak: &Digest, selector: &Selector, entry: &Entry) -> bool
    requires { OutputsRise entry.now.outputs }
    ensures { IsTrue result ↔ (entry.now.weak ≡ weak.now) × ((entry.now.paths ≡ selector.now.paths)
        × IsTrue (all_fit desc.now.process (output_paths entry.now.outputs))) }
{
    entry.weak == *weak
        && entry.paths == selector.paths
        && fits(&desc.process, entry.outputs.lines())
}

// Why the entry that is held for a selector, whose path set gives its strong digest, makes it not usable.
fn with_entry<R: KeepReader>(
    alloc: Global,
    reader: &mut R,
    desc: &Desc,
    weak: &Digest,
    selector: &Selector,
    entry: &Entry,
) -> Result<NoFit, ReadFault>
    requires weak { weak.now ≡ weak_of desc.now }
    requires rise { OutputsRise entry.now.outputs }
    requires held { (S : Holdings) → R.held reader.old ≡ Some S → IsHeld S selector.now.strong entry.now }
    requires not_whole { (S : Holdings) → R.held reader.old ≡ Some S
        → IsTakenWhole S desc.now selector.now entry.now → ⊥ }
    ensures fit { (see : AnyAsk → AnyAnswer)
        → IfOk result (Told (R.held reader.new) (λ S why. IsNoFit S desc.now see selector.now why)) }
    ensures reader { ReaderCall (R.held reader.old) (R.held reader.new) (R.bound reader.old) (R.bound reader.new)
        (R.faults reader.old) (R.faults reader.new) (result ≡ Err ReadFault.Failed) }
{
    if !is_for(desc, weak, selector, entry) {
        return Ok(NoFit::OtherEntry);
    }
    match missing_output(alloc, reader, entry.outputs.lines())? {
        Some(output) => Ok(NoFit::NoOutput(output)),
        None => Ok(NoFit::OtherEntry),
    }
}

// Why a selector does not lead to outputs whose path set gives its strong digest.
fn without_outputs<R: KeepReader>(
    alloc: Global,
    reader: &mut R,
    desc: &Desc,
    weak: &Digest,
    selector: &Selector,
) -> Result<NoFit, ReadFault>
    requires weak { weak.now ≡ weak_of desc.now }
    requires not_whole { (S : Holdings) → R.held reader.old ≡ Some S → (e : AnyEntry) → IsHeld S selector.now.strong e
        → IsTakenWhole S desc.now selector.now e → ⊥ }
    ensures fit { (see : AnyAsk → AnyAnswer)
        → IfOk result (Told (R.held reader.new) (λ S why. IsNoFit S desc.now see selector.now why)) }
    ensures reader { ReaderCall (R.held reader.old) (R.held reader.new) (R.bound reader.old) (R.bound reader.new)
        (R.faults reader.old) (R.faults reader.new) (result ≡ Err ReadFault.Failed) }
{
    match entry(alloc, reader, &selector.strong)? {
        Some(entry) => with_entry(alloc, reader, desc, weak, selector, &entry),
        None => Ok(NoFit::NoEntry),
    }
}

// Why a selector whose path set is held is not usable.
fn asked_now<R: KeepReader, V: View>(
    alloc: Global,
    reader: &mut R,
    desc: &Desc,
    weak: &Digest,
    selector: &Selector,
    paths: &PathSet,
    view: &mut V,
) -> Result<NoFit, ReadFault>
    requires weak { weak.now ≡ weak_of desc.now }
    requires paths { (S : Holdings) → R.held reader.old ≡ Some S → HoldsPaths S selector.now.paths paths.now }
    requires unusable { (S : Holdings) → R.held reader.old ≡ Some S
        → UsableBy S desc.now (V.answers view.old) selector.now → ⊥ }
    ensures fit { IfOk result
        (Told (R.held reader.new) (λ S why. IsNoFit S desc.now (V.answers view.old) selector.now why)) }
    ensures same { V.answers view.new ≡ V.answers view.old }
    ensures reader { ReaderCall (R.held reader.old) (R.held reader.new) (R.bound reader.old) (R.bound reader.new)
        (R.faults reader.old) (R.faults reader.new) (result ≡ Err ReadFault.Failed) }
{
    let answers = answers_to(alloc, paths, view)?;
    let given = answers.as_slice();
    let second = paths.has_match();
    let asked = strong_of(alloc, second, weak, &selector.paths, given)?;
    if asked.digest == selector.strong {
        without_outputs(alloc, reader, desc, weak, selector)
    } else {
        answered(alloc, reader, selector, paths.asks(), given)
    }
}

// Why a selector is not usable.
fn no_fit<R: KeepReader, V: View>(
    alloc: Global,
    reader: &mut R,
    desc: &Desc,
    weak: &Digest,
    selector: &Selector,
    view: &mut V,
) -> Result<NoFit, ReadFault>
    requires weak { weak.now ≡ weak_of desc.now }
    requires unusable { (S : Holdings) → R.held reader.old ≡ Some S
        → UsableBy S desc.now (V.answers view.old) selector.now → ⊥ }
    ensures fit { IfOk result
        (Told (R.held reader.new) (λ S why. IsNoFit S desc.now (V.answers view.old) selector.now why)) }
    ensures same { V.answers view.new ≡ V.answers view.old }
    ensures reader { ReaderCall (R.held reader.old) (R.held reader.new) (R.bound reader.old) (R.bound reader.new)
        (R.faults reader.old) (R.faults reader.new) (result ≡ Err ReadFault.Failed) }
{
    match path_set(alloc, reader, &selector.paths)? {
        Some(paths) => asked_now(alloc, reader, desc, weak, selector, &paths, view),
        None => Ok(NoFit::NoPaths),
    }
}

// Why none of the selectors is usable.
pub(crate) fn no_fits<R: KeepReader, V: View>(
    alloc: Global,
    reader: &mut R,
    desc: &Desc,
    weak: &Digest,
    list: &[Selector],
    view: &mut V,
) -> Result<NoFits, ReadFault>
    requires weak { weak.now ≡ weak_of desc.now }
    requires unusable { (S : Holdings) → R.held reader.old ≡ Some S
        → AnyUsable S desc.now (V.answers view.old) list.now → ⊥ }
    ensures fits { IfOk result
        (Told (R.held reader.new) (λ S why. AreNoFits S desc.now (V.answers view.old) list.now why)) }
    ensures same { V.answers view.new ≡ V.answers view.old }
    ensures reader { ReaderCall (R.held reader.old) (R.held reader.new) (R.bound reader.old) (R.bound reader.new)
        (R.faults reader.old) (R.faults reader.new) (result ≡ Err ReadFault.Failed) }
{
    let mut why = Vec::new(alloc);
    'selectors: for selector in list {
        let one = no_fit(alloc, reader, desc, weak, selector, view)?;
        why.push(one)?;
    }
    Ok(NoFits::of(why))
}
