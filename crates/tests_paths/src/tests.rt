ghost use Rattle.std.specs.Prelude.{◌≡◌, ◌+◌, ◌≤◌, IfOk, OnOk, length};
ghost use Rattle.bx_tree.specs.Paths.{Names};

use bx_tree::{Path, PathFault};
use bx_tree_paths::{PathId, PathTable, SortedPaths, Span, Steps};
use std::alloc::Global;
use std::marker::Brand;
use std::sync::ledger::{Blank, Ledger};
use std::test::Fail;

fn path(alloc: Global, text: &[u8]) -> Result<Path, PathFault>
    ensures { IfOk result (Names text.now) }
{
    Path::read(alloc, text)
}

// The paths `b`, `a/c`, `a-b`, `a` and `a/b`, sorted.
fn five_paths(alloc: Global) -> Result<SortedPaths, Fail> {
    let b = path(alloc, b"b")?;
    let a_c = path(alloc, b"a/c")?;
    let a_dash_b = path(alloc, b"a-b")?;
    let a = path(alloc, b"a")?;
    let a_b = path(alloc, b"a/b")?;
    Ok(SortedPaths::of(vec![in alloc; b, a_c, a_dash_b, a, a_b]?)?)
}

#[test]
fn a_path_is_found_at_its_place(rt: HostRuntime) -> Result<(), Fail> {
    let paths = five_paths(rt.alloc())?;
    assert_eq!(rt; paths.place_of(&path(rt.alloc(), b"a/c")?), Some(3));
    assert_eq!(rt; paths.place_of(&path(rt.alloc(), b"a-b")?), Some(1));
    assert_eq!(rt; paths.place_of(&path(rt.alloc(), b"a/d")?), None);
    Ok(())
}

// Where the paths below a directory are, from and to.
fn ends_below<L: Ledger>(paths: &SortedPaths, dir: &Path, blank: Blank) -> (usize, usize)
    requires name { blank.name ≡ L.name }
    requires parts { blank.parts ≡ L.parts }
    requires some { 1 ≤ L.parts }
{
    let mut steps: Steps<L> = Steps::new(blank);
    let Span { from, to } = paths.below(dir, &mut steps);
    (from, to)
}

#[test]
fn the_paths_below_a_directory_are_neighbours(rt: HostRuntime) -> Result<(), Fail> {
    let paths = five_paths(rt.alloc())?;
    let a = path(rt.alloc(), b"a")?;
    let root = Path::root(rt.alloc())?;
    assert_eq!(rt; ends_below::<Brand>(&paths, &a, Blank::new(1)), (2, 4));
    assert_eq!(rt; ends_below::<Brand>(&paths, &root, Blank::new(1)), (0, 5));
    assert_eq!(rt; paths.paths_below(&a).len(), 2);
    Ok(())
}

// Adds a path to a table.
fn number(alloc: Global, table: &mut PathTable, text: &[u8]) -> Result<PathId, Fail> {
    if table.len() >= u32::MAX as usize {
        return Err(PathFault::Memory.into());
    }
    Ok(table.add(alloc, &path(alloc, text)?)?)
}

#[test]
fn a_path_keeps_its_number(rt: HostRuntime) -> Result<(), Fail> {
    let mut table = PathTable::new(rt.alloc())?;
    assert_eq!(rt; number(rt.alloc(), &mut table, b"a")?, PathId(0));
    assert_eq!(rt; number(rt.alloc(), &mut table, b"b")?, PathId(1));
    assert_eq!(rt; number(rt.alloc(), &mut table, b"a")?, PathId(0));
    assert_eq!(rt; table.len(), 2);
    assert_eq!(rt; table.find(&path(rt.alloc(), b"c")?), None);
    assert_eq!(rt; table.find_text(b"b"), Some(PathId(1)));
    Ok(())
}
