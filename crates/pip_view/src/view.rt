//! What a pip sees.
ghost use Rattle.std.specs.Prelude.{◌≡◌, ◌≢◌, ◌<◌, ◌||◌, ◌++◌, IfOk, IfSome, OnOk, false, if◌then◌else◌, length};
ghost use Rattle.std.specs.Prelude.{slice_get, true};
ghost use Rattle.std.specs.List.{filter_map, list_any};
ghost use Rattle.bx_tree.specs.Below.{is_directly_in, next_atom};
ghost use Rattle.bx_tree.specs.Lent.{texts_now};
ghost use Rattle.std.specs.Option.{option_copied};
ghost use Rattle.bx_tree.specs.Paths.{is_root};
ghost use Rattle.bx_tree.specs.Trees.{file_at, paths_of};
ghost use Rattle.tool_run_writes.specs.Writes.{has_below as file_below, own_names};
ghost use Rattle.pip_view_inputs.specs.Plain.{process_in};
ghost use Rattle.pip_view_directories.specs.Near.{AreTaken};
ghost use Rattle.pip_model_types.specs.Dirs.{RiseByForm};
ghost use Rattle.violations.specs.Producing.{dirs_at as dirs_of_pip};
ghost use Rattle.pip_view.specs.InputFiles as files;
ghost use Rattle.pip_view.specs.Sees as seen;
ghost use Rattle.observed.specs.Asks.{is_listing};
ghost use Rattle.pip_view.specs.Seen.{SearchedAt, answer_elsewhere, answer_unnamed, is_sealed_at, is_unseen_at};
ghost use Rattle.pip_view.specs.Seen.{named_in, names_in, opaque_in, taken_in, view_answers};
ghost use Rattle.pip_view.specs.Sees.{sees};

use crate::below::add_next;
use crate::members::{add_members, find_member, has_member, opaque_by_pip, opaque_searched};
use crate::taken::{add_taken, has_taken, taken_blob};
use bx_digest::Blob;
use bx_tree::{Memory, Path, text_below};
use observed::{Answer, Ask, AskKind, View};
use pip_model::{DirInput, DirInputs, Pip, Plan, ProcessDesc, SealForm, Sources};
use pip_view_directories::{around_dirs, other_dirs, searched};
use pip_view_inputs::{Inputs, process_at};
use std::alloc::Global;
use std::marker::Model;
use tool_run::{asked_names, in_order, lines};
use violations::least_unseen;

/// What a pip sees of the source files and of what its inputs made, without what its own run writes.
#[derive(Drop)]
pub struct PipView<'a> {
    plan: &'a Plan,
    sources: &'a Sources,
    inputs: &'a Inputs,
    pip: u32,
    opaque: Vec<&'a DirInput>,
    others: DirInputs,
    // Where the last source file was found that was looked for.
    place: usize,
}

impl<'a> Model for PipView<'a> {
    ghost use Rattle.pip_view.specs.Gathered.{dirs_now};
    ghost use Rattle.pip_view.specs.Seen.{KeepsView, ViewData};

    ghost Value = { ViewData };

    ghost view = { λ v. record {
      pips = v.plan.now.pips;
      tree = v.sources.now;
      inputs = v.inputs.now;
      pip = v.pip;
    } };

    ghost invariant = { λ v. KeepsView (record {
      pips = v.plan.now.pips;
      tree = v.sources.now;
      inputs = v.inputs.now;
      pip = v.pip;
    }) (dirs_now v.opaque.items) v.others };
}

// Whether a source file is a member of a seal of this form and root.
fn is_member(path: &Path, form: SealForm, root: &Path) -> bool
    ensures { result ≡ files.is_source_member path.now form root.now }
{
    match form {
        SealForm::Full | SealForm::Partial => false,
        SealForm::SourceAll => path.is_below(root),
        SealForm::SourceTop => is_directly_in(path, root),
    }
}

// Whether a path lies in a directory itself, and not in one below it.
fn is_directly_in(path: &Path, dir: &Path) -> bool
    ensures { result ≡ is_directly_in path.now dir.now }
{
    if !path.is_below(dir) {
        return false;
    }
    !text_below(dir, path).contains(&b'/')
}

// Whether a source file is a member of a directory, which is a seal of source files.
fn is_source_of(path: &Path, dir: &DirInput) -> bool
    ensures { result ≡ files.is_source_of path.now dir.now }
{
    match dir {
        DirInput::Sealed(_, form, root) => is_member(path, *form, root),
        DirInput::Opaque(_, _) => false,
    }
}

// Whether a source file is a member of one of the directories.
fn is_sealed(path: &Path, dirs: &[DirInput]) -> bool
    ensures { result ≡ list_any (files.is_source_of path.now) dirs.now }
{
    dirs.iter().any(|dir| is_source_of(path, dir))
}

// A file that was found, shared.
fn share_found(found: Option<&Blob>) -> Result<Option<Blob>, Memory>
    ensures { IfOk result (λ shared. shared ≡ option_copied found.entry) }
{
    match found {
        Some(blob) => Ok(Some(blob.share()?)),
        None => Ok(None),
    }
}

// A file that may be read and is there.
fn as_input(kind: &AskKind, blob: &Blob) -> Result<Answer, Memory>
    ensures { IfOk result (λ answer. answer ≡ seen.as_input kind.now blob.now) }
{
    match kind {
        AskKind::Read => Ok(Answer::Content(blob.share()?)),
        AskKind::Probe => Ok(Answer::File),
        AskKind::List | AskKind::Match(_) => Ok(Answer::Absent),
    }
}

// The answer of a source file that is no input: it may be probed and not read.
fn as_source(kind: &AskKind) -> Answer
    ensures { result ≡ seen.as_source kind.now }
{
    match kind {
        AskKind::Read => Answer::Denied,
        AskKind::Probe => Answer::File,
        AskKind::List | AskKind::Match(_) => Answer::Absent,
    }
}

// A directory, or nothing.
fn directory_if(there: bool) -> Answer
    ensures { result ≡ (if there then Answer.Directory else Answer.Absent) }
{
    if there {
        Answer::Directory
    } else {
        Answer::Absent
    }
}

// Adds the names of the source files that lie below a directory.
fn add_sources<'a>(
    names: &mut Vec<&'a [u8]>,
    sources: &'a Sources,
    dir: &Path,
) -> Result<(), Memory>
    ensures { OnOk result (texts_now names.new.items
        ≡ texts_now names.old.items ++ filter_map (next_atom dir.now) (paths_of sources.entry.now)) }
{
    add_next(names, sources.paths_below(dir), dir)
}

// The directories that a pip takes, in order.
fn taken_dirs(pips: &[Pip], pip: u32) -> &[DirInput]
    ensures dirs { result.now ≡ dirs_of_pip (slice_get pips.entry.now pip) }
    ensures rising { RiseByForm result.now }
{
    match process_at(pips, pip) {
        Some(process) => process.dirs.dirs(),
        None => &[],
    }
}

impl<'a> PipView<'a> {
    /// What a pip sees, where these are the files that its inputs made.
    pub fn new(
        alloc: Global,
        plan: &'a Plan,
        sources: &'a Sources,
        pip: u32,
        inputs: &'a Inputs,
    ) -> Result<PipView<'a>, Memory>
        requires { pip < length plan.now.pips }
        ensures { IfOk result (λ view. ⟦<PipView<'a> as View>⟧.answers view
            ≡ sees plan.now.pips sources.now inputs.now pip) }
    {
        let dirs = taken_dirs(plan.pips(), pip);
        let opaque = opaque_by_pip(alloc, dirs)?;
        let others = other_dirs(alloc, dirs)?;
        Ok(PipView {
            plan,
            sources,
            inputs,
            pip,
            opaque,
            others,
            place: 0,
        })
    }

    // Directories that are searched at a path in place of all that the pip takes, if these are few.
    fn near(&self, alloc: Global, path: &Path) -> Result<Option<DirInputs>, Memory>
        ensures { IfOk result (λ near. IfSome near (SearchedAt self.now path.now)) }
    {
        around_dirs(alloc, &self.others, path)
    }

    // The process that the pip is, if it is one.
    fn process(&self) -> Option<&ProcessDesc>
        ensures taken { IfSome result (λ process. AreTaken self.entry.now.pips process.now.dirs) }
        ensures found { option_copied result ≡ process_in (slice_get self.entry.now.pips self.entry.now.pip) }
    {
        process_at(self.plan.pips(), self.pip)
    }

    // The bytes of the file at a path that the pip takes by name.
    fn taken(&self, alloc: Global, path: &Path) -> Result<Option<Blob>, Memory>
        ensures { IfOk result (λ found. found ≡ file_at (taken_in self.now) path.now) }
    {
        match self.process() {
            Some(process) => {
                taken_blob(alloc, self.plan, self.sources, self.inputs, process, path)
            }
            None => Ok(None),
        }
    }

    // The bytes of the member of an opaque directory at a path.
    fn member(&self, alloc: Global, path: &Path) -> Result<Option<Blob>, Memory>
        ensures { IfOk result (λ found. found ≡ file_at (opaque_in self.now) path.now) }
    {
        if self.opaque.is_empty() {
            return Ok(None);
        }
        let near = self.near(alloc, path)?;
        let opaque = opaque_searched(alloc, &near, self.opaque.as_slice())?;
        share_found(find_member(self.inputs, opaque.as_slice(), path))
    }

    // The bytes of the named input file at a path.
    fn named(&self, alloc: Global, path: &Path) -> Result<Option<Blob>, Memory>
        ensures found { IfOk result (λ found. found ≡ file_at (named_in self.now) path.now) }
        ensures there { IfOk result (λ found. self.now.pip < length self.now.pips) }
    {
        // The type of the view says that its pip is one of the plan.
        let _pip = self.pip;
        let taken = self.taken(alloc, path)?;
        match taken {
            Some(blob) => Ok(Some(blob)),
            None => self.member(alloc, path),
        }
    }

    // Whether a file that the pip takes by name lies below a path.
    fn has_taken(&self, alloc: Global, path: &Path) -> Result<bool, Memory>
        ensures { IfOk result (λ yes. yes ≡ file_below (taken_in self.now) path.now) }
    {
        match self.process() {
            Some(process) => has_taken(alloc, self.plan, process, path),
            None => Ok(false),
        }
    }

    // Whether a member of an opaque directory lies below a path.
    fn has_member(&self, alloc: Global, path: &Path) -> Result<bool, Memory>
        ensures { IfOk result (λ yes. yes ≡ file_below (opaque_in self.now) path.now) }
    {
        if self.opaque.is_empty() {
            return Ok(false);
        }
        let near = self.near(alloc, path)?;
        let opaque = opaque_searched(alloc, &near, self.opaque.as_slice())?;
        Ok(has_member(self.inputs, opaque.as_slice(), path))
    }

    // Whether a named input file lies below a path.
    fn has_named(&self, alloc: Global, path: &Path) -> Result<bool, Memory>
        ensures { IfOk result (λ yes. yes ≡ file_below (named_in self.now) path.now) }
    {
        let taken = self.has_taken(alloc, path)?;
        if taken {
            return Ok(true);
        }
        self.has_member(alloc, path)
    }

    // Adds the names of the files below a directory that the pip takes by name.
    fn add_taken<'s>(
        &'s self,
        alloc: Global,
        names: &mut Vec<&'s [u8]>,
        dir: &Path,
    ) -> Result<(), Memory>
        ensures { OnOk result (texts_now names.new.items
            ≡ texts_now names.old.items ++ own_names (taken_in self.entry.now) dir.now) }
    {
        match self.process() {
            Some(process) => add_taken(alloc, names, self.plan, process, dir),
            None => Ok(()),
        }
    }

    // Adds the names of the members of opaque directories below a directory.
    fn add_members<'s>(
        &'s self,
        alloc: Global,
        names: &mut Vec<&'s [u8]>,
        dir: &Path,
    ) -> Result<(), Memory>
        ensures { OnOk result (texts_now names.new.items
            ≡ texts_now names.old.items ++ own_names (opaque_in self.entry.now) dir.now) }
    {
        let near = self.near(alloc, dir)?;
        let opaque = opaque_searched(alloc, &near, self.opaque.as_slice())?;
        add_members(names, self.inputs, opaque.as_slice(), dir)
    }

    // Whether another pip can produce a path by an output that is no input of the pip.
    fn is_unseen(&self, path: &Path) -> bool
        ensures { result ≡ is_unseen_at self.now path.now }
    {
        least_unseen(self.plan, self.pip, path).is_some()
    }

    // Whether a source file is a member of a directory that the pip takes.
    fn is_sealed(&self, alloc: Global, path: &Path) -> Result<bool, Memory>
        ensures { IfOk result (λ yes. yes ≡ is_sealed_at self.now path.now) }
    {
        let near = self.near(alloc, path)?;
        let all = taken_dirs(self.plan.pips(), self.pip);
        Ok(is_sealed(path, searched(&near, all)))
    }

    // The names in a directory, in order and each once.
    fn gather(&self, alloc: Global, dir: &Path) -> Result<Vec<&[u8]>, Memory>
        ensures names { IfOk result (λ names. texts_now names.items ≡ names_in self.entry.now dir.now) }
        ensures there { IfOk result (λ names. self.entry.now.pip < length self.entry.now.pips) }
    {
        let mut names = Vec::new(alloc);
        add_sources(&mut names, self.sources, dir)?;
        self.add_taken(alloc, &mut names, dir)?;
        self.add_members(alloc, &mut names, dir)?;
        in_order(names)
    }

    // The names of a listing, those that its pattern matches if it has one.
    fn names(&self, alloc: Global, ask: &Ask) -> Result<Answer, Memory>
        requires { is_listing ask.now.kind ≡ true }
        ensures { IfOk result (λ answer. answer ≡ view_answers self.now ask.now) }
    {
        let names = self.gather(alloc, &ask.path)?;
        let asked = asked_names(alloc, &ask.kind, names)?;
        let text = lines(alloc, asked.as_slice())?;
        Ok(Answer::Names(Blob::new(alloc, text)?))
    }

    // Whether a path is the root, or a file lies below it, where `below` says whether an input file does.
    fn is_directory(&self, path: &Path, below: bool) -> bool
        ensures { result ≡ (below || is_root path.now || file_below self.now.tree path.now) }
    {
        if below || path.is_root() {
            return true;
        }
        !self.sources.paths_below(path).is_empty()
    }

    // What is answered of a path at which neither an input file nor a source file is.
    fn elsewhere(&self, alloc: Global, path: &Path) -> Result<Answer, Memory>
        ensures { IfOk result (λ answer. answer
            ≡ answer_elsewhere self.now path.now (file_below (named_in self.now) path.now)) }
    {
        if self.is_unseen(path) {
            return Ok(Answer::Denied);
        }
        let below = self.has_named(alloc, path)?;
        Ok(directory_if(self.is_directory(path, below)))
    }

    // What is answered of a source file at which no named input file is.
    fn source(&self, alloc: Global, ask: &Ask, blob: &Blob) -> Result<Answer, Memory>
        ensures { IfOk result (λ answer. answer
            ≡ (if is_sealed_at self.now ask.now.path then seen.as_input ask.now.kind blob.now
            else seen.as_source ask.now.kind)) }
    {
        if self.is_sealed(alloc, &ask.path)? {
            return as_input(&ask.kind, blob);
        }
        Ok(as_source(&ask.kind))
    }

    // The source file at a path. It is looked for near the last one, since most asks come in the order of paths.
    fn find_source(&mut self, path: &Path) -> Option<&'a Blob>
        ensures found { option_copied result ≡ file_at self.old.tree path.now }
        ensures same { self.new ≡ self.old }
    {
        self.sources.find_near(&mut self.place, path)
    }

    // What is answered of a path at which no named input file is.
    fn unnamed(&mut self, alloc: Global, ask: &Ask) -> Result<Answer, Memory>
        ensures answer { IfOk result (λ answer. answer ≡ answer_unnamed self.old ask.now.kind ask.now.path
            (file_below (named_in self.old) ask.now.path)) }
        ensures same { self.new ≡ self.old }
    {
        match self.find_source(&ask.path) {
            Some(blob) => self.source(alloc, ask, blob),
            None => self.elsewhere(alloc, &ask.path),
        }
    }

    // What a read or a probe is answered.
    fn looked(&mut self, alloc: Global, ask: &Ask) -> Result<Answer, Memory>
        requires { is_listing ask.now.kind ≡ false }
        ensures answer { IfOk result (λ answer. answer ≡ view_answers self.old ask.now) }
        ensures same { self.new ≡ self.old }
    {
        let named = self.named(alloc, &ask.path)?;
        match named {
            Some(blob) => as_input(&ask.kind, &blob),
            None => self.unnamed(alloc, ask),
        }
    }
}

impl<'a> View for PipView<'a> {
    ghost use Rattle.pip_view.specs.Seen.{view_answers};

    ghost answers = { view_answers };

    fn ask(&mut self, alloc: Global, ask: &Ask) -> Result<Answer, Memory> {
        if ask.kind.is_listing() {
            return self.names(alloc, ask);
        }
        self.looked(alloc, ask)
    }
}
