//! What a run comes to.
ghost use Rattle.std.specs.Prelude.{◌≡◌, IfOk};
ghost use Rattle.std.specs.Option.{option_copied};
ghost use Rattle.tool_run.specs.Described.{described};
ghost use Rattle.tool_run.specs.Seen.{seen};
ghost use Rattle.run_record.specs.Outcomes.{completed as completed_of, first_missing, last_access};
ghost use Rattle.run_record.specs.Outcomes.{outcome_of, refused, with_console};

use bx_digest::Blob;
use bx_tree::Path;
use observed::{Access, End};
use pip_model_types::{Desc, Made};
use std::alloc::{AllocError, Global};
use tool_run::Ran;
use tool_run_writes::with_file;

/// Why a run did not succeed. Where several causes apply, the first of them counts, in the order denied
/// access, fault of the tool, exit code, missing output.
#[derive(Drop)]
pub enum Cause {
    /// The tool ended with a code other than 0.
    Exit(u8),
    /// The tool was at fault.
    Tool(End),
    /// A declared output file was not written: the least one.
    MissingOutput(Path),
    /// This access was denied.
    Denied(Access),
}

/// What a run comes to: the files that it made, the console file among them, or why it failed.
#[derive(Drop)]
pub enum Outcome {
    Good(Made),
    Failed(Cause),
}

fn share_access(access: &Access) -> Result<Access, AllocError>
    ensures { IfOk result (λ shared. shared ≡ access.now) }
{
    match access {
        Access::Asked(ask, answer) => Ok(Access::Asked(ask.share()?, answer.share()?)),
        Access::Wrote(path) => Ok(Access::Wrote(path.share()?)),
        Access::WriteDenied(path) => Ok(Access::WriteDenied(path.share()?)),
    }
}

// The last access of a run.
fn last(accesses: &[Access]) -> Option<&Access>
    ensures { option_copied result ≡ last_access accesses.entry.now }
{
    accesses.last()
}

// The first of the paths at which nothing was written.
fn missing<'a>(outs: &'a [Path], writes: &Made) -> Option<&'a Path>
    ensures { option_copied result ≡ first_missing outs.entry.now writes.now }
{
    'outs: for out in outs {
        if writes.find(out).is_none() {
            return Some(out);
        }
    }
    None
}

// The files that a run wrote, and the console file with what it said.
fn made(
    alloc: Global,
    console: Option<&Path>,
    writes: &Made,
    said: &[u8],
) -> Result<Made, AllocError>
    ensures { IfOk result (λ made. made ≡ with_console (option_copied console.entry) writes.now said.now) }
{
    match console {
        Some(path) => {
            let blob = Blob::new(alloc, Vec::from_slice(alloc, said)?)?;
            with_file(alloc, writes, path.share()?, blob)
        }
        None => writes.share(),
    }
}

// A run that ended with code 0.
fn completed(alloc: Global, desc: &Desc, ran: &Ran) -> Result<Outcome, AllocError>
    ensures { IfOk result (λ outcome. outcome ≡ completed_of (described desc.now) (seen ran.now)) }
{
    if let Some(out) = missing(desc.process.outs.paths(), &ran.writes) {
        return Ok(Outcome::Failed(Cause::MissingOutput(out.share()?)));
    }
    let files = made(
        alloc,
        desc.process.console.as_ref(),
        &ran.writes,
        ran.console.as_slice(),
    )?;
    Ok(Outcome::Good(files))
}

// A run that ended by a denied access.
fn denied(ran: &Ran) -> Result<Outcome, AllocError>
    ensures { IfOk result (λ outcome. outcome ≡ refused (last_access ran.now.accesses.items)) }
{
    match last(ran.accesses.as_slice()) {
        Some(access) => Ok(Outcome::Failed(Cause::Denied(share_access(access)?))),
        None => Ok(Outcome::Failed(Cause::Tool(End::Denied))),
    }
}

// What a run comes to.
pub(crate) fn judge(alloc: Global, desc: &Desc, ran: &Ran) -> Result<Outcome, AllocError>
    ensures { IfOk result (λ outcome. outcome ≡ outcome_of (described desc.now) (seen ran.now)) }
{
    match ran.end {
        End::Exit(0) => completed(alloc, desc, ran),
        End::Exit(code) => Ok(Outcome::Failed(Cause::Exit(code))),
        End::Denied => denied(ran),
        End::BadProgram | End::BadPath | End::Budget | End::TooLong | End::NotADirectory => {
            Ok(Outcome::Failed(Cause::Tool(ran.end)))
        }
    }
}
