//! Writes of two processes in shared directories that clash.
ghost use Rattle.std.specs.Prelude.{◌≡◌, ◌≤◌, ◌<◌, ◌&&◌, None, IfOk, if◌then◌else◌, length, map, slice_get};
ghost use Rattle.std.specs.List.{list_any};
ghost use Rattle.violations.specs.Slots.{slot_files};
ghost use Rattle.pip_model_types.specs.Made.{made_files};
ghost use Rattle.pip_model_types.specs.declared.made.MadeFile.{MadeFile as AnyFile};
ghost use Rattle.pip_model_types.specs.declared.outputs.OutDir.{OutDir as AnyDir};
ghost use Rattle.violations.specs.Verdicts.{with_pip};
ghost use Rattle.violations.specs.DoubleWrites as double_writes;
ghost use Rattle.pip_model_types.specs.Kinds.{outdirs_of};

use crate::classes::with_other;
use crate::verdict::{DeedKind, Violation, ViolationKind};
use bx_tree::{Memory, Path};
use pip_model::{Made, MadeFile, OutDir, Pip, PipKind, Plan, Slot};

fn outdirs_of(kind: &PipKind) -> &[OutDir]
    ensures { result.now ≡ outdirs_of kind.entry.now }
{
    match kind {
        PipKind::Process(process) => process.outdirs.dirs(),
        PipKind::Copy(_) | PipKind::Write(_) | PipKind::Seal(_) => &[],
    }
}

/// The output directories of the pip with a number, none if there is no such pip.
pub fn outdirs_at(pips: &[Pip], pip: u32) -> &[OutDir]
    ensures { result.now ≡ double_writes.outdirs_in (slice_get pips.entry.now pip) }
{
    match pips.get(pip as usize) {
        Some(pip) => outdirs_of(&pip.kind),
        None => &[],
    }
}

// Whether one of the directories is shared.
fn shares_any(dirs: &[OutDir]) -> bool
    ensures { result ≡ list_any (λ (dir : AnyDir). dir.shared) dirs.now }
{
    dirs.iter().any(|dir| dir.shared)
}

/// Whether a path lies strictly below one of the directories that is shared.
pub fn is_shared(dirs: &[OutDir], path: &Path) -> bool
    ensures { result ≡ double_writes.is_shared dirs.now path.now }
{
    dirs.iter()
        .any(|dir| dir.shared && path.is_below(&dir.path))
}

// Whether two paths cannot both be those of files.
fn is_clash(p: &Path, q: &Path) -> bool
    ensures { result ≡ double_writes.is_clash p.now q.now }
{
    *p == *q || p.is_below(q) || q.is_below(p)
}

// Whether one of the files, in a directory that is shared, clashes with a path.
fn any_clash(path: &Path, dirs: &[OutDir], files: &[MadeFile]) -> bool
    ensures { result ≡ list_any (λ (file : AnyFile).
        double_writes.is_shared dirs.now file.path && double_writes.is_clash path.now file.path) files.now }
{
    files.iter().any(|file| is_shared(dirs, &file.path) && is_clash(path, &file.path))
}

// Whether one of the files of a pip clashes with a path; answered at once where no directory is shared.
fn any_shared_clash(path: &Path, dirs: &[OutDir], files: &[MadeFile]) -> bool
    ensures { result ≡ (list_any (λ (dir : AnyDir). dir.shared) dirs.now && list_any (λ (file : AnyFile).
        double_writes.is_shared dirs.now file.path && double_writes.is_clash path.now file.path) files.now) }
{
    shares_any(dirs) && any_clash(path, dirs, files)
}

// Whether a file of a pip, in a directory that it shares, clashes with a path.
fn has_clash(path: &Path, kind: &PipKind, files: &[MadeFile]) -> bool
    ensures { result ≡ double_writes.has_clash path.now kind.now (made_files files.now) }
{
    let dirs = outdirs_of(kind);
    any_shared_clash(path, dirs, files)
}

// Whether a pip that ended so clashes with a path.
fn slot_clashes(path: &Path, kind: &PipKind, slot: &Slot) -> bool
    ensures { result ≡ double_writes.has_clash path.now kind.now (slot_files slot.now) }
{
    match slot {
        Slot::Good(made) => has_clash(path, kind, made.files()),
        Slot::Empty | Slot::Bad => false,
    }
}

fn least_clash(path: &Path, pips: &[Pip], slots: &[Slot]) -> Option<u32>
    requires long { length pips.now ≤ length slots.now }
    requires few { length pips.now ≤ u32.MAX }
    ensures { result ≡ double_writes.least_clash path.now 0 pips.now (map slot_files slots.now) }
{
    'pips: for (number, pip) in pips.iter().enumerate() {
        if slot_clashes(path, &pip.kind, &slots[number]) {
            return Some(number as u32);
        }
    }
    None
}

// The least of the pips that clashes with a file, if the file lies in a directory that is shared.
fn file_clash(path: &Path, dirs: &[OutDir], pips: &[Pip], slots: &[Slot]) -> Option<u32>
    requires long { length pips.now ≤ length slots.now }
    requires few { length pips.now ≤ u32.MAX }
    ensures { result ≡ (if double_writes.is_shared dirs.now path.now
        then double_writes.least_clash path.now 0 pips.now (map slot_files slots.now) else None) }
{
    if is_shared(dirs, path) {
        least_clash(path, pips, slots)
    } else {
        None
    }
}

// A write that clashes with one of another pip.
fn clash(path: &Path, other: u32) -> Result<Violation, Memory>
    ensures { IfOk result (λ violation. violation
        ≡ with_pip ViolationKind.DoubleWrite DeedKind.Write path.now other) }
{
    with_other(ViolationKind::DoubleWrite, DeedKind::Write, path, other)
}

fn first_clash(
    dirs: &[OutDir],
    files: &[MadeFile],
    pips: &[Pip],
    slots: &[Slot],
) -> Result<Option<Violation>, Memory>
    requires long { length pips.now ≤ length slots.now }
    requires few { length pips.now ≤ u32.MAX }
    ensures { IfOk result (λ violation. violation
        ≡ double_writes.clash_of pips.now (map slot_files slots.now) dirs.now (made_files files.now)) }
{
    'files: for file in files {
        if let Some(other) = file_clash(&file.path, dirs, pips, slots) {
            return Ok(Some(clash(&file.path, other)?));
        }
    }
    Ok(None)
}

/// The least path of what a process made in a directory that it shares which clashes with a file that an
/// earlier pip made in one of its own, with the least such pip. The slots of the earlier pips come first.
pub fn double_write(
    plan: &Plan,
    pip: u32,
    made: &Made,
    slots: &[Slot],
) -> Result<Option<Violation>, Memory>
    requires pip { pip < length plan.now.pips }
    requires slots { pip ≤ length slots.now }
    ensures { IfOk result (λ violation. violation ≡ double_writes.clash_at plan.now.pips
        (map slot_files slots.now) pip made.now) }
{
    let pips = plan.pips();
    let dirs = outdirs_at(pips, pip);
    let files = made.files();
    let before = &pips[..pip as usize];
    first_clash(dirs, files, before, slots)
}
