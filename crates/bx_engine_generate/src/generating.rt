//! The whole bundle.

ghost use Rattle.std.specs.Prelude.{◌≡◌, ◌++◌, IfOk};
ghost use Rattle.bx_engine_generate.specs.Generated.{generated, lines_from, specification_path as path_of_specification};
ghost use Rattle.bx_engine_generate.specs.Generated.{tool_path as path_of_tool};

use crate::numbers::Numbers;
use crate::pip_lines::append_pip;
use bx_tree::{Memory, Path, PathFault, append_file};
use std::alloc::{AllocError, Global};

/// The tool of each pip that joins: of both files the first bytes, one after the other.
const TOOL: &str =
    "tool 1\narg r0, 0, bad\narg r1, 1, bad\narg r2, 2, bad\nread r3, r1, bad\nread r4, r2, bad\nhead r3, r3, 16\nhead r4, r4, 16\ncat r5, r3, r4\nwrite r0, r5\nexit 0\nbad: exit 1\n";

fn specification_path(alloc: Global) -> Result<Path, Memory>
    ensures { IfOk result (λ path. path ≡ path_of_specification) }
{
    match Path::read(alloc, b"build.dsc") {
        Ok(path) => Ok(path),
        Err(PathFault::BadPath) => unreachable!(),
        Err(PathFault::Memory) => Err(AllocError),
    }
}

fn tool_path(alloc: Global) -> Result<Path, Memory>
    ensures { IfOk result (λ path. path ≡ path_of_tool) }
{
    match Path::read(alloc, b"cat.tool") {
        Ok(path) => Ok(path),
        Err(PathFault::BadPath) => unreachable!(),
        Err(PathFault::Memory) => Err(AllocError),
    }
}

// The specification: the line of each pip.
fn specification(alloc: Global, seed: u64, pips: u32) -> Result<Vec<u8>, Memory>
    ensures { IfOk result (λ text. text.items ≡ lines_from pips 0 seed) }
{
    let mut text = Vec::new(alloc);
    let mut numbers = Numbers::of(seed);
    'pips: for pip in 0..pips {
        append_pip(alloc, &mut text, pip, &mut numbers)?;
    }
    Ok(text)
}

/// The bundle of a workload of this many pips, three of four of which run a tool. The same seed and number give the same
/// bytes.
pub fn generate(alloc: Global, seed: u64, pips: u32) -> Result<Vec<u8>, Memory>
    ensures { IfOk result (λ text. text.items ≡ generated seed pips) }
{
    let specification = specification(alloc, seed, pips)?;
    let mut text = Vec::from_slice(alloc, b"bundle 1\n")?;
    append_file(
        alloc,
        &mut text,
        &specification_path(alloc)?,
        specification.as_slice(),
    )?;
    append_file(alloc, &mut text, &tool_path(alloc)?, TOOL.as_bytes())?;
    text.extend_from_slice(b"end\n")?;
    Ok(text)
}
