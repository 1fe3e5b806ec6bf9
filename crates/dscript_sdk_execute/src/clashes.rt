//! Outputs of a process that clash.
ghost use Rattle.std.specs.Prelude.{◌≡◌, ◌↔◌, false, IsTrue, Contains, Ok, IfOk, MatchResult};
ghost use Rattle.std.specs.List.{list_any};
ghost use Rattle.std.specs.List.Sorted.{IsStrictlySortedBy};
ghost use Rattle.bx_tree.specs.Paths.{same_path};
ghost use Rattle.pip_model_types.specs.Outputs.{outdir_cmp};
ghost use Rattle.pip_model_types.specs.declared.outputs.OutDir.{OutDir as AnyDir};
ghost use Rattle.dscript_sdk_values.specs.Outcomes.{Refuses};
ghost use Rattle.dscript_sdk_execute.specs.Execute.{clashes_console as console_clash, has_other_sharing};
ghost use Rattle.dscript_sdk_execute.specs.Execute.{shares_exclusive as any_shares, unless_clashing as unless_clash};

use bx_tree::{Memory, Path};
use dscript_sdk_values::SdkFault;
use pip_model_types::{OutDir, OutDirs, Outputs, ProcessDesc};

// Whether a directory is one of some, which rise.
fn has_directory(dirs: &[OutDir], dir: &OutDir) -> bool
    requires { IsStrictlySortedBy outdir_cmp dirs.now }
    ensures { IsTrue result ↔ Contains dirs.now dir.now }
{
    dirs.binary_search(dir).is_ok()
}

// A directory as the process alone writes it.
fn exclusive_of(dir: &OutDir) -> Result<OutDir, Memory>
    ensures { IfOk result (λ other. other ≡ record { path = dir.now.path; shared = false }) }
{
    Ok(OutDir {
        path: dir.path.share()?,
        shared: false,
    })
}

// Whether a shared directory is an exclusive one too.
fn is_exclusive_too(dirs: &OutDirs, dir: &OutDir) -> Result<bool, Memory>
    ensures { IfOk result (λ other. other ≡ has_other_sharing dirs.now dir.now) }
{
    if !dir.shared {
        return Ok(false);
    }
    let exclusive = exclusive_of(dir)?;
    Ok(has_directory(dirs.dirs(), &exclusive))
}

// Whether one directory is both exclusive and shared.
fn shares_exclusive(dirs: &OutDirs) -> Result<bool, Memory>
    ensures { IfOk result (λ shares. shares ≡ any_shares dirs.now) }
{
    let all = dirs.dirs();
    'dirs: for dir in all {
        if is_exclusive_too(dirs, dir)? {
            return Ok(true);
        }
    }
    Ok(false)
}

fn has_path(dirs: &[OutDir], path: &Path) -> bool
    ensures { result ≡ list_any (λ (d : AnyDir). same_path path.now d.path) dirs.now }
{
    'dirs: for dir in dirs {
        if *path == dir.path {
            return true;
        }
    }
    false
}

/// Whether a path is one of the output files of a process.
pub fn has_output(outs: &Outputs, path: &Path) -> bool
    ensures { result ≡ list_any (same_path path.now) outs.now }
{
    outs.has(path)
}

// Whether the console's path is that of another output.
fn clashes_console(console: &Option<Path>, outs: &Outputs, dirs: &OutDirs) -> bool
    ensures { result ≡ console_clash console.now outs.now dirs.now }
{
    match console {
        Some(path) => has_output(outs, path) || has_path(dirs.dirs(), path),
        None => false,
    }
}

/// The process, unless its outputs clash.
pub(crate) fn unless_clashing(process: ProcessDesc) -> Result<ProcessDesc, SdkFault>
    ensures { MatchResult result
        (λ same. unless_clash process ≡ Ok same)
        (λ fault. Refuses fault (unless_clash process)) }
{
    if shares_exclusive(&process.outdirs)?
        || clashes_console(&process.console, &process.outs, &process.outdirs)
    {
        return Err(SdkFault::BadArgument);
    }
    Ok(process)
}
