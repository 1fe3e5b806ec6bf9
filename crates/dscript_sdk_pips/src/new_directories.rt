//! Numbered output directories.
ghost use Rattle.std.specs.Prelude.{◌≡◌, ◌≢◌, ◌++◌, ◌∷◌, [], Ok, Err, Some, None, map};
ghost use Rattle.std.specs.Prelude.{IfOk, IfErr, OnErr, MatchResult};
ghost use Rattle.std.specs.Fmt.{decimal};
ghost use Rattle.bx_path.specs.Joining.{if_short, join_of};
ghost use Rattle.bx_tree.specs.Paths.{IsAtom};
ghost use Rattle.dscript_sdk_values.specs.Outcomes.{Refuses};
ghost use Rattle.dscript_sdk_pips.specs.States.{over_tree};
ghost use Rattle.dscript_sdk_pips.specs.NewOutputDirectory as spec;
ghost use Rattle.dscript_sdk_pips.specs.NewOutputDirectory.{name_in_arguments as read_name_of, named_directory};
ghost use Rattle.dscript_value.specs.Plain.{plain_of};

use crate::site::Site;
use crate::state::SdkState;
use bx_path::join;
use bx_tree::{Path, PathFault, is_atom};
use dscript_sdk_values::{SdkFault, first_argument, read_text};
use dscript_value::Value;
use std::alloc::Global;

// The path to which a text leads.
fn join_text(alloc: Global, base: &Path, text: &[u8]) -> Result<Path, SdkFault>
    ensures { MatchResult result
        (λ path. join_of base.now text.now ≡ Some path)
        (λ fault. fault ≢ SdkFault.Memory → (fault ≡ SdkFault.BadPath) × (join_of base.now text.now ≡ None)) }
{
    match join(alloc, base, text) {
        Ok(path) => Ok(path),
        Err(PathFault::BadPath) => Err(SdkFault::BadPath),
        Err(PathFault::Memory) => Err(SdkFault::Memory),
    }
}

// The path of one more atom.
fn join_atom(alloc: Global, base: &Path, atom: &[u8]) -> Result<Path, SdkFault>
    requires { IsAtom atom.now }
    ensures { MatchResult result
        (λ path. if_short (base.now ++ atom.now ∷ []) ≡ Some path)
        (λ fault. fault ≢ SdkFault.Memory
        → (fault ≡ SdkFault.BadPath) × (if_short (base.now ++ atom.now ∷ []) ≡ None)) }
{
    join_text(alloc, base, atom)
}

// The path of a file below a directory.
fn join_path(alloc: Global, base: &Path, path: &Path) -> Result<Path, SdkFault>
    ensures { MatchResult result
        (λ joined. if_short (base.now ++ path.now) ≡ Some joined)
        (λ fault. fault ≢ SdkFault.Memory
        → (fault ≡ SdkFault.BadPath) × (if_short (base.now ++ path.now) ≡ None)) }
{
    join_text(alloc, base, path.text().as_bytes())
}

// The directory in which calls in a file make the output directories with a name.
fn directory_of(alloc: Global, site: &Site, name: &[u8]) -> Result<Path, SdkFault>
    requires { IsAtom name.now }
    ensures { MatchResult result
        (λ dir. dir ≡ named_directory site.now.file name.now)
        (λ fault. fault ≢ SdkFault.Memory
        → (fault ≡ SdkFault.BadPath) × (if_short (named_directory site.now.file name.now) ≡ None)) }
{
    let root = Path::root(alloc)?;
    let out = join_atom(alloc, &root, b"out")?;
    let below = join_path(alloc, &out, &site.file)?;
    join_atom(alloc, &below, name)
}

// The directory with a number.
pub(crate) fn numbered(alloc: Global, dir: &Path, number: u64) -> Result<Path, SdkFault>
    ensures { MatchResult result
        (λ path. if_short (dir.now ++ decimal number ∷ []) ≡ Some path)
        (λ fault. fault ≢ SdkFault.Memory
        → (fault ≡ SdkFault.BadPath) × (if_short (dir.now ++ decimal number ∷ []) ≡ None)) }
{
    let digits = number.to_string(alloc)?;
    join_atom(alloc, dir, digits.as_str().as_bytes())
}

// The name that the arguments give, which must be an atom.
fn read_name(args: &[Value]) -> Result<&[u8], SdkFault>
    ensures { MatchResult result
        (λ name. IsAtom name.now × (read_name_of (map plain_of args.now) ≡ Ok name.now))
        (λ fault. read_name_of (map plain_of args.now) ≡ Err fault) }
{
    let name = read_text(first_argument(args)?)?.bytes();
    if !is_atom(name) {
        return Err(SdkFault::BadArgument);
    }
    Ok(name)
}

/// The next output directory with a name of the file of the call.
#[tactic(auto, unfolding(crate::specs::NewOutputDirectory::new_output_directory))]
pub fn new_output_directory(
    alloc: Global,
    state: &mut SdkState,
    site: &Site,
    args: &[Value],
) -> Result<Value, SdkFault>
    ensures answer { IfOk result (λ value.
        spec.new_output_directory site.now.file (map plain_of args.now) (over_tree state.old)
        ≡ Ok (plain_of value, over_tree state.new)) }
    ensures fault { IfErr result (λ fault.
        Refuses fault (spec.new_output_directory site.now.file (map plain_of args.now) (over_tree state.old))) }
    ensures unchanged { OnErr result (state.new ≡ state.old) }
    ensures sources { state.new.sources ≡ state.old.sources }
{
    let name = read_name(args)?;
    let dir = directory_of(alloc, site, name)?;
    state.next_directory(alloc, dir)
}
