//! Tools that were read, so that the text of a tool is read once and not for each run; and what the last run asked and was
//! answered.
ghost use Rattle.std.specs.Prelude.{◌≡◌, IfOk, true};
ghost use Rattle.std.specs.Arc.{arc_value};
ghost use Rattle.std.specs.Option.{option_copied};
ghost use Rattle.tool_text.specs.Reading.{tool_of};

use crate::trace::Trace;
use bx_digest::Blob;
use bx_tree::Path;
use std::alloc::{AllocError, Global};
use std::collections::BTreeMap;
use std::marker::Model;
use std::sync::Arc;
use tool_text::{Tool, ToolFault, read_tool};

// The text of an executable, with the tool that it is, if it is one.
#[derive(Drop)]
struct ReadParts {
    text: Blob,
    tool: Option<Tool>,
}

impl Model for ReadParts {
    ghost use Rattle.run_record.specs.Tables.{IsReadOf, ReadText};

    ghost Value = { ReadText };

    ghost view = { λ r. record { text = r.text; tool = r.tool } };

    ghost invariant = { λ r. IsReadOf (record { text = r.text; tool = r.tool }) };
}

// A text that was read, shared.
#[derive(Drop)]
pub(crate) struct ReadTool {
    parts: Arc<ReadParts>,
}

impl Model for ReadTool {
    ghost use Rattle.std.specs.Arc.{arc_value};
    ghost use Rattle.run_record.specs.Tables.{ReadText};

    ghost Value = { ReadText };

    ghost view = { λ r. arc_value r.parts };
}

// The tool of a text, if it is one.
fn tool_in(alloc: Global, text: &Blob) -> Result<Option<Tool>, AllocError>
    ensures { IfOk result (λ tool. tool_of text.now ≡ tool) }
{
    match read_tool(alloc, text.bytes()) {
        Ok(tool) => Ok(Some(tool)),
        Err(ToolFault::BadTool) => Ok(None),
        Err(ToolFault::Memory) => Err(AllocError),
    }
}

impl ReadTool {
    // Reads a text.
    fn read(alloc: Global, text: &Blob) -> Result<ReadTool, AllocError>
        ensures { IfOk result (λ r. r.text ≡ text.now) }
    {
        let parts = ReadParts {
            text: text.share()?,
            tool: tool_in(alloc, text)?,
        };
        Ok(ReadTool {
            parts: Arc::new(alloc, parts)?,
        })
    }

    fn share(&self) -> Result<ReadTool, AllocError>
        ensures { IfOk result (λ shared. shared ≡ self.now) }
    {
        Ok(ReadTool {
            parts: self.parts.clone()?,
        })
    }

    // Whether this is the text that was read.
    fn is_of(&self, text: &Blob) -> bool
        ensures { result ≡ true → self.now.text ≡ text.now }
    {
        self.parts.text.bytes() == text.bytes()
    }

    // The tool, if the text is one.
    pub(crate) fn tool(&self) -> Option<&Tool>
        ensures tool { option_copied result ≡ self.entry.now.tool }
        ensures read { tool_of self.entry.now.text ≡ self.entry.now.tool }
    {
        self.parts.tool.as_ref()
    }
}

/// Tools by the paths of their files. What was read at a path is used only where the text there is still the one that
/// was read, so any table is right for any build. And what the last run asked and was answered, which the next one shares if it
/// asks the same and is answered the same.
#[derive(Drop)]
pub struct Tools {
    read: BTreeMap<Path, ReadTool>,
    last: Option<Arc<Trace>>,
}

impl Tools {
    /// No tools yet.
    pub fn new(alloc: Global) -> Tools {
        Tools {
            read: BTreeMap::new(alloc),
            last: None,
        }
    }

    // The text of an executable, read now or before.
    pub(crate) fn of(
        &mut self,
        alloc: Global,
        path: &Path,
        text: &Blob,
    ) -> Result<ReadTool, AllocError>
        ensures { IfOk result (λ r. r.text ≡ text.now) }
    {
        if let Some(read) = self.read.get(path) {
            if read.is_of(text) {
                return read.share();
            }
        }
        let read = ReadTool::read(alloc, text)?;
        let shared = read.share()?;
        self.read.insert(path.share()?, read)?;
        Ok(shared)
    }

    // What a run asked and was answered, shared with the last run if that is the same.
    pub(crate) fn share(&mut self, alloc: Global, trace: Trace) -> Result<Arc<Trace>, AllocError>
        ensures { IfOk result (λ shared. arc_value shared ≡ trace) }
    {
        if let Some(last) = &self.last {
            if last.is_same(&trace) {
                return last.clone();
            }
        }
        let made = Arc::new(alloc, trace)?;
        self.last = Some(made.clone()?);
        Ok(made)
    }
}
