//! What a lookup finds.
ghost use Rattle.std.specs.Prelude.{◌≡◌, IfOk, IfSome, Some, length};
ghost use Rattle.bx_tree.specs.Trees.{NoneNested, paths_of};
ghost use Rattle.memo_format.specs.Entries.{read_entry_text};
ghost use Rattle.memo_format.specs.Found.{IsFound, IsFoundFor, found_parts, output_lines, strong_of_found};

use crate::answer_list::AnswerList;
use crate::entry::Entry;
use crate::read_paths::ReadPaths;
use observed::{Answer, PathSet};
use pip_model_types::{Desc, Made};
use std::alloc::{AllocError, Global};
use std::marker::Model;
use std::sync::Arc;

// What is found.
#[derive(Drop)]
struct FoundFields {
    entry: Entry,
    text: Vec<u8>,
    paths: ReadPaths,
    answers: AnswerList,
    made: Made,
}

impl Model for FoundFields {
    ghost use Rattle.std.specs.Prelude.{◌≡◌, Some};
    ghost use Rattle.memo_format.specs.Entries.{read_entry_text};
    ghost use Rattle.memo_format.specs.Found.{FoundParts, IsFound, found_parts};

    ghost Value = { FoundParts };

    ghost view = { λ f. found_parts f.entry f.paths.asks f.answers f.made };

    ghost invariant = { λ f. IsFound (found_parts f.entry f.paths.asks f.answers f.made)
        × ((f.paths.digest ≡ f.entry.paths) × (read_entry_text f.text.items ≡ Some f.entry)) };
}

// A process with the contents of its files, shared.
#[derive(Drop)]
struct Work {
    desc: Arc<Desc>,
}

impl Model for Work {
    ghost use Rattle.std.specs.Arc.{arc_value};
    ghost use Rattle.pip_model_types.specs.declared.desc.Desc.{Desc};

    ghost Value = { Desc };

    ghost view = { λ w. arc_value w.desc };
}

impl Work {
    fn of(alloc: Global, desc: Desc) -> Result<Work, AllocError>
        ensures { IfOk result (λ work. work ≡ desc) }
    {
        Ok(Work {
            desc: Arc::new(alloc, desc)?,
        })
    }

    fn desc(&self) -> &Desc
        ensures { result.now ≡ self.now }
    {
        &*self.desc
    }

    fn share(&self) -> Result<Work, AllocError>
        ensures { IfOk result (λ work. work ≡ self.now) }
    {
        Ok(Work {
            desc: self.desc.clone()?,
        })
    }
}

/// What a lookup finds: an entry, its path set, what its asks are answered now, and the files of its outputs.
/// Contracts see it as these four. There is one answer for each ask, and their strong text has the digest that the entry
/// names; and the files are just the outputs of the entry, by path and digest. The process that it was found for may be
/// with it. It is shared.
#[derive(Drop)]
pub struct Found {
    fields: Arc<FoundFields>,
    work: Option<Work>,
}

impl Model for Found {
    ghost use Rattle.std.specs.Arc.{arc_value};
    ghost use Rattle.std.specs.Prelude.{IfSome};
    ghost use Rattle.memo_format.specs.Found.{FoundParts, IsFoundFor};

    ghost Value = { FoundParts };

    ghost view = { λ f. arc_value f.fields };

    ghost invariant = { λ f. IfSome f.work (IsFoundFor (arc_value f.fields)) };
}

// A process, shared, if there is one.
fn share_work(work: &Option<Work>) -> Result<Option<Work>, AllocError>
    ensures { IfOk result (λ shared. shared ≡ work.now) }
{
    match work {
        Some(work) => Ok(Some(work.share()?)),
        None => Ok(None),
    }
}

impl Found {
    /// An entry, of which this is the text, with its path set, the answers to its asks, and the files of its outputs.
    pub fn new(
        alloc: Global,
        entry: Entry,
        text: Vec<u8>,
        paths: ReadPaths,
        answers: AnswerList,
        made: Made,
    ) -> Result<Found, AllocError>
        requires one_each { length answers ≡ length paths.asks }
        requires text { read_entry_text text.items ≡ Some entry }
        requires paths { paths.digest ≡ entry.paths }
        requires strong { strong_of_found (found_parts entry paths.asks answers made) ≡ entry.strong }
        requires made { output_lines made ≡ entry.outputs }
        requires unnested { NoneNested (paths_of made) }
        ensures entry { IfOk result (λ found. found.entry ≡ entry) }
        ensures paths { IfOk result (λ found. found.paths ≡ paths.asks) }
        ensures answers { IfOk result (λ found. found.answers ≡ answers) }
        ensures made { IfOk result (λ found. found.made ≡ made) }
    {
        let fields = FoundFields {
            entry,
            text,
            paths,
            answers,
            made,
        };
        Ok(Found {
            fields: Arc::new(alloc, fields)?,
            work: None,
        })
    }

    /// The same, with the process that it was found for.
    pub fn for_work(self, alloc: Global, desc: Desc) -> Result<Found, AllocError>
        requires { IsFoundFor self desc }
        ensures { IfOk result (λ found. found ≡ self) }
    {
        let work = Work::of(alloc, desc)?;
        let Found { fields, .. } = self;
        Ok(Found {
            fields,
            work: Some(work),
        })
    }

    /// What was found, shared.
    pub fn share(&self) -> Result<Found, AllocError>
        ensures { IfOk result (λ found. found ≡ self.now) }
    {
        Ok(Found {
            fields: self.fields.clone()?,
            work: share_work(&self.work)?,
        })
    }

    /// The process that it was found for, where that is with it.
    pub fn work(&self) -> Option<&Desc>
        ensures { IfSome result (λ desc. IsFoundFor self.entry.now desc.now) }
    {
        match &self.work {
            Some(work) => Some(work.desc()),
            None => None,
        }
    }

    /// The entry.
    pub fn entry(&self) -> &Entry
        ensures entry { result.now ≡ self.now.entry }
        ensures found { IsFound self.now }
    {
        &self.fields.entry
    }

    /// The text of the entry.
    pub fn entry_text(&self) -> &[u8]
        ensures { read_entry_text result.now ≡ Some self.now.entry }
    {
        self.fields.text.as_slice()
    }

    /// The path set.
    pub fn paths(&self) -> &PathSet
        ensures paths { result.now ≡ self.now.paths }
        ensures found { IsFound self.now }
    {
        self.fields.paths.asks()
    }

    /// The path set with its text, whose digest the entry names.
    pub fn read_paths(&self) -> &ReadPaths
        ensures asks { result.now.asks ≡ self.now.paths }
        ensures digest { result.now.digest ≡ self.now.entry.paths }
    {
        &self.fields.paths
    }

    /// What the asks of the path set are answered, in their order.
    pub fn answers(&self) -> &[Answer]
        ensures answers { result.now ≡ self.now.answers }
        ensures found { IsFound self.now }
    {
        self.fields.answers.answers()
    }

    /// The files of the outputs.
    pub fn made(&self) -> &Made
        ensures made { result.now ≡ self.now.made }
        ensures found { IsFound self.now }
    {
        &self.fields.made
    }
}
