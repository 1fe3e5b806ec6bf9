//! The line of a specification that makes one pip.

ghost use Rattle.std.specs.Prelude.{◌≡◌, ◌≢◌, ◌++◌, IfOk, OnOk, string_bytes};
ghost use Rattle.bx_engine_generate.specs.Generated.{join_line, line_at, state_after, write_line};

use crate::numbers::Numbers;
use std::alloc::{AllocError, Global};

/// Every so many pips one writes a number.
pub const WRITES_EACH: u32 = 4;

// A pip that writes a number.
fn write_number(alloc: Global, pip: u32, number: u64) -> Result<String, AllocError>
    ensures { IfOk result (λ line. string_bytes line ≡ write_line pip number) }
{
    let line = format!(in alloc;
        "const v{pip} = Transformer.writeAllText({{outputPath: p`out/{pip}`, text: \"{number}\"}});\n"
    )?;
    Ok(line)
}

// A pip that runs the tool on what two earlier ones made.
fn join(alloc: Global, pip: u32, first: u64, second: u64) -> Result<String, AllocError>
    ensures { IfOk result (λ line. string_bytes line ≡ join_line pip first second) }
{
    let line = format!(in alloc;
        "const v{pip} = Transformer.execute({{tool: {{exe: f`cat.tool`}}, arguments: [Cmd.argument(Artifact.output(p`out/{pip}`)), Cmd.argument(Artifact.input(v{first})), Cmd.argument(Artifact.input(v{second}))]}}).getOutputFile(p`out/{pip}`);\n"
    )?;
    Ok(line)
}

// The line of a pip. One that joins is not the first.
fn line(alloc: Global, pip: u32, numbers: &mut Numbers) -> Result<String, AllocError>
    ensures line { IfOk result (λ line. string_bytes line ≡ line_at pip numbers.old) }
    ensures state { OnOk result (numbers.new ≡ state_after pip numbers.old) }
{
    if pip % WRITES_EACH == 0 {
        let number = numbers.draw();
        return write_number(alloc, pip, number);
    }
    let first = numbers.draw() % pip as u64;
    let second = numbers.draw() % pip as u64;
    join(alloc, pip, first, second)
}

/// Adds the line of a pip.
pub(crate) fn append_pip(
    alloc: Global,
    text: &mut Vec<u8>,
    pip: u32,
    numbers: &mut Numbers,
) -> Result<(), AllocError>
    ensures text { OnOk result (text.new.items ≡ text.old.items ++ line_at pip numbers.old) }
    ensures state { OnOk result (numbers.new ≡ state_after pip numbers.old) }
{
    let line = line(alloc, pip, numbers)?;
    text.extend_from_slice(line.as_bytes())
}
