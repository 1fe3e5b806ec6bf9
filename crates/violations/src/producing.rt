//! Which pips can produce a path by an output that is no input of a process.
ghost use Rattle.std.specs.Prelude.{◌≡◌, ◌<◌, ◌&&◌, ◌==◌, IfSome, not, length, slice_get, get_or, take};
ghost use Rattle.std.specs.List.{list_any};
ghost use Rattle.pip_model.specs.Outputs.{numbers_from};
ghost use Rattle.violations.specs.Least as least;
ghost use Rattle.violations.specs.Least.{Covers, CoversAbove, Passes, Stays};
ghost use Rattle.violations.specs.Producing as producing;
ghost use Rattle.pip_model_types.specs.Kinds.{taken_dirs};

use bx_tree::Path;
use pip_model::{DirInput, OutDir, Pip, PipKind, Plan};
use pip_model_types::is_console;

fn is_dir_of(pip: u32, path: &Path, dir: &DirInput) -> bool
    ensures { result ≡ producing.is_dir_of pip path.now dir.now }
{
    match dir {
        DirInput::Sealed(_, _, _) => false,
        DirInput::Opaque(maker, taken) => *maker == pip && *taken == *path,
    }
}

fn takes_dir(dirs: &[DirInput], pip: u32, path: &Path) -> bool
    ensures { result ≡ producing.takes_dir dirs.now pip path.now }
{
    dirs.iter().any(|dir| is_dir_of(pip, path, dir))
}

fn is_unseen_in(dirs: &[DirInput], pip: u32, path: &Path, out: &OutDir) -> bool
    ensures { result ≡ producing.is_unseen_in dirs.now pip path.now out.now }
{
    path.is_below(&out.path) && !takes_dir(dirs, pip, &out.path)
}

fn is_unseen_in_any(dirs: &[DirInput], pip: u32, path: &Path, outs: &[OutDir]) -> bool
    ensures { result ≡ list_any (producing.is_unseen_in dirs.now pip path.now) outs.now }
{
    outs.iter().any(|out| is_unseen_in(dirs, pip, path, out))
}

// Whether a pip can produce a path by an output other than these directories.
fn produces_unseen(dirs: &[DirInput], pip: u32, path: &Path, kind: &PipKind) -> bool
    ensures { result ≡ producing.produces_unseen dirs.now pip path.now kind.now }
{
    match kind {
        PipKind::Process(process) => {
            process.outs.has(path)
                || is_console(&process.console, path)
                || is_unseen_in_any(dirs, pip, path, process.outdirs.dirs())
        }
        PipKind::Copy(copy) => copy.to == *path,
        PipKind::Write(write) => write.to == *path,
        PipKind::Seal(_) => false,
    }
}

// Whether a pip other than this one can produce a path by an output other than these directories.
fn is_producer(dirs: &[DirInput], pip: u32, path: &Path, number: u32, kind: &PipKind) -> bool
    ensures { result
        ≡ (not (number == pip) && producing.produces_unseen dirs.now number path.now kind.now) }
{
    number != pip && produces_unseen(dirs, number, path, kind)
}

// The directories that a pip of this kind takes.
fn dirs_of(kind: &PipKind) -> &[DirInput]
    ensures { result.now ≡ taken_dirs kind.entry.now }
{
    match kind {
        PipKind::Process(process) => process.dirs.dirs(),
        PipKind::Copy(_) | PipKind::Write(_) | PipKind::Seal(_) => &[],
    }
}

/// The directories that the pip with a number takes.
pub fn dirs_at(pips: &[Pip], pip: u32) -> &[DirInput]
    ensures { result.now ≡ producing.dirs_at (slice_get pips.entry.now pip) }
{
    match pips.get(pip as usize) {
        Some(pip) => dirs_of(&pip.kind),
        None => &[],
    }
}

// Whether the pip with a number is another than this one, and can produce a path by an output other than
// these directories.
fn is_producer_at(dirs: &[DirInput], pip: u32, path: &Path, pips: &[Pip], number: u32) -> bool
    ensures { result ≡ least.is_producer dirs.now pip path.now pips.now number }
{
    match pips.get(number as usize) {
        Some(other) => is_producer(dirs, pip, path, number, &other.kind),
        None => false,
    }
}

// Whether a number is less than the least so far.
fn is_less(number: u32, found: Option<u32>) -> bool
    ensures { result ≡ least.is_less number found }
{
    match found {
        Some(found) => number < found,
        None => true,
    }
}

// The pip with a number, if it is a producer and less than the least so far, or else the least so far.
fn least_with(
    dirs: &[DirInput],
    pip: u32,
    path: &Path,
    pips: &[Pip],
    number: u32,
    found: Option<u32>,
) -> Option<u32>
    ensures { result
        ≡ least.least_with (least.is_producer dirs.now pip path.now pips.now) number found }
{
    if is_less(number, found) && is_producer_at(dirs, pip, path, pips, number) {
        Some(number)
    } else {
        found
    }
}

// The least pip so far and of those with these numbers.
fn least_of(
    dirs: &[DirInput],
    pip: u32,
    path: &Path,
    pips: &[Pip],
    numbers: &[u32],
    before: Option<u32>,
) -> Option<u32>
    ensures passes { Passes (least.is_producer dirs.now pip path.now pips.now) before
        → Passes (least.is_producer dirs.now pip path.now pips.now) result }
    ensures stays { Stays before result }
    ensures covers { Covers (least.is_producer dirs.now pip path.now pips.now) numbers.now result }
{
    let mut found = before;
    'numbers: for number in numbers {
        found = least_with(dirs, pip, path, pips, *number, found);
    }
    found
}

// The least pip so far and of those with an output whose path has this text.
fn least_at(
    plan: &Plan,
    dirs: &[DirInput],
    pip: u32,
    path: &Path,
    text: &[u8],
    before: Option<u32>,
) -> Option<u32>
    ensures passes { Passes (least.is_producer dirs.now pip path.now plan.now.pips) before
        → Passes (least.is_producer dirs.now pip path.now plan.now.pips) result }
    ensures stays { Stays before result }
    ensures covers { Covers (least.is_producer dirs.now pip path.now plan.now.pips)
        (numbers_from 0 text.now plan.now.pips) result }
{
    let numbers = plan.pips_with_output(text);
    least_of(dirs, pip, path, plan.pips(), numbers, before)
}

// The least pip so far and, if a slash is at this place of a text, of those with an output whose path has the
// text before it.
fn least_before(
    plan: &Plan,
    dirs: &[DirInput],
    pip: u32,
    path: &Path,
    text: &[u8],
    at: usize,
    before: Option<u32>,
) -> Option<u32>
    requires { at < length text.now }
    ensures passes { Passes (least.is_producer dirs.now pip path.now plan.now.pips) before
        → Passes (least.is_producer dirs.now pip path.now plan.now.pips) result }
    ensures stays { Stays before result }
    ensures covers { get_or text.now at 0 ≡ 47
        → Covers (least.is_producer dirs.now pip path.now plan.now.pips)
        (numbers_from 0 (take at text.now) plan.now.pips) result }
{
    if text[at] == b'/' {
        least_at(plan, dirs, pip, path, &text[..at], before)
    } else {
        before
    }
}

// The least pip so far and of those with an output at a directory above a path, but for the root.
fn least_above(
    plan: &Plan,
    dirs: &[DirInput],
    pip: u32,
    path: &Path,
    text: &[u8],
    before: Option<u32>,
) -> Option<u32>
    ensures passes { Passes (least.is_producer dirs.now pip path.now plan.now.pips) before
        → Passes (least.is_producer dirs.now pip path.now plan.now.pips) result }
    ensures stays { Stays before result }
    ensures covers { CoversAbove (least.is_producer dirs.now pip path.now plan.now.pips) plan.now.pips
        text.now (length text.now) result }
{
    let mut found = before;
    'places: for at in 0..text.len() {
        found = least_before(plan, dirs, pip, path, text, at, found);
    }
    found
}

/// The least pip other than this one that can produce a path by an output that is no input of this one. Only
/// the pips with an output at the path or at a directory above it are tried.
pub fn least_unseen(plan: &Plan, pip: u32, path: &Path) -> Option<u32>
    ensures least { result ≡ producing.least_unseen
        (producing.dirs_at (slice_get plan.now.pips pip)) pip path.now 0 plan.now.pips }
    ensures there { IfSome result (λ number. number < length plan.now.pips) }
{
    let dirs = dirs_at(plan.pips(), pip);
    let text = path.text().as_bytes();
    let at_path = least_at(plan, dirs, pip, path, text, None);
    let at_root = least_at(plan, dirs, pip, path, b".", at_path);
    least_above(plan, dirs, pip, path, text, at_root)
}
