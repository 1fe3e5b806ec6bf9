//! The weak text of a process.
ghost use Rattle.std.specs.Prelude.{◌≡◌, ◌<◌, ◌^◌, ◌++◌, IfOk, IfSome, OnOk, Some};
ghost use Rattle.std.specs.Option.{option_copied};
ghost use Rattle.sha2.specs.Sha256.{sha256};
ghost use Rattle.bx_tree.specs.Paths.{IsPath};
ghost use Rattle.bx_digest.specs.Digests.{IsDigest};
ghost use Rattle.prints.specs.Processes.{AreListsWeak, IsHeadWeak, weak_parts};
ghost use Rattle.prints.specs.ReadWeak.{read_weak_text};
ghost use Rattle.prints.specs.Weak.{console_line, head_text, lists_text, weak_text};

use crate::line::{append_lines, have_lines};
use crate::part::{append_digest, append_number, append_path};
use crate::printed::Printed;
use crate::weak_lines::{
    ArgKind, DirLine, EnvKind, FileLine, InKind, IndirKind, OutKind, OutdirKind,
};
use bx_tree::{Path, Text};
use pip_model_types::{Desc, DirInput, EnvPair, MadeFile, OutDir};
use std::alloc::{AllocError, Global};

// Adds the line of the console file.
fn append_console(text: &mut Vec<u8>, console: Option<&Path>) -> Result<(), AllocError>
    ensures text { OnOk result
        (text.new.items ≡ text.old.items ++ console_line (option_copied console.entry)) }
    ensures path { OnOk result (IfSome (option_copied console.entry) IsPath) }
{
    match console {
        Some(path) => {
            text.extend_from_slice(b"console ")?;
            append_path(text, path, b'\n')
        }
        None => {
            text.extend_from_slice(b"no-console\n")?;
            Ok(())
        }
    }
}

// Adds the lines that are there once.
fn append_head(alloc: Global, text: &mut Vec<u8>, desc: &Desc) -> Result<(), AllocError>
    ensures text { OnOk result (text.new.items ≡ text.old.items ++ head_text (weak_parts desc.now)) }
    ensures weak { OnOk result (IsHeadWeak (weak_parts desc.now)) }
{
    text.extend_from_slice(b"exe ")?;
    append_path(text, &desc.process.exe, b' ')?;
    append_digest(alloc, text, &desc.exe.digest(), b'\n')?;
    text.extend_from_slice(b"cwd ")?;
    append_path(text, &desc.process.dir, b'\n')?;
    text.extend_from_slice(b"budget ")?;
    append_number(alloc, text, desc.budget, b'\n')?;
    append_console(text, desc.process.console.as_ref())
}

// Adds the lines of the lists.
fn append_lists(alloc: Global, text: &mut Vec<u8>, desc: &Desc) -> Result<(), AllocError>
    ensures text { OnOk result (text.new.items ≡ text.old.items ++ lists_text (weak_parts desc.now)) }
    ensures weak { OnOk result (AreListsWeak (weak_parts desc.now)) }
{
    let process = &desc.process;
    append_lines::<Text, Text, ArgKind>(alloc, text, process.args.texts())?;
    append_lines::<EnvPair, EnvPair, EnvKind>(alloc, text, process.env.pairs())?;
    append_lines::<MadeFile, FileLine, InKind>(alloc, text, desc.files.files())?;
    append_lines::<DirInput, DirLine, IndirKind>(alloc, text, process.dirs.dirs())?;
    append_lines::<Path, Path, OutKind>(alloc, text, process.outs.paths())?;
    append_lines::<OutDir, OutDir, OutdirKind>(alloc, text, process.outdirs.dirs())?;
    Ok(())
}

// What is known of the console file.
fn known_console(console: Option<&Path>)
    ensures { IfSome (option_copied console.entry) IsPath }
{
    match console {
        Some(path) => {
            let _path = path.text();
        }
        None => {}
    }
}

// What is known of the parts of a process that are there once.
#[tactic(auto, using(bx_digest::proofs::HashesAreDigests::is_digest))]
fn known_head(desc: &Desc)
    ensures { IsHeadWeak (weak_parts desc.now) }
{
    let _exe = desc.process.exe.text();
    let _dir = desc.process.dir.text();
    let _budget = desc.budget;
    known_console(desc.process.console.as_ref());
}

// What is known of its lists.
fn known_lists(desc: &Desc)
    ensures { AreListsWeak (weak_parts desc.now) }
{
    let process = &desc.process;
    have_lines::<Text, Text, ArgKind>(process.args.texts());
    have_lines::<EnvPair, EnvPair, EnvKind>(process.env.pairs());
    have_lines::<MadeFile, FileLine, InKind>(desc.files.files());
    have_lines::<DirInput, DirLine, IndirKind>(process.dirs.dirs());
    have_lines::<Path, Path, OutKind>(process.outs.paths());
    have_lines::<OutDir, OutDir, OutdirKind>(process.outdirs.dirs());
}

/// What is known of every process with its contents, without writing its weak text: that the text is read back as what it
/// is written of. It changes nothing, and hashes nothing.
pub fn reads_back(desc: &Desc)
    ensures { read_weak_text (weak_text (weak_parts desc.now)) ≡ Some (weak_parts desc.now) }
{
    known_head(desc);
    known_lists(desc);
}

/// The weak text of a process with its contents, with its digest.
pub fn weak(alloc: Global, desc: &Desc) -> Result<Printed, AllocError>
    ensures text { IfOk result (λ printed. printed.text.items ≡ weak_text (weak_parts desc.now)) }
    ensures digest { IfOk result (λ printed. printed.digest ≡ sha256 printed.text.items) }
    ensures read { IfOk result (λ printed. read_weak_text printed.text.items ≡ Some (weak_parts desc.now)) }
{
    let mut text = Vec::from_slice(alloc, b"bxl 1\n")?;
    append_head(alloc, &mut text, desc)?;
    append_lists(alloc, &mut text, desc)?;
    Ok(Printed::of(text))
}
