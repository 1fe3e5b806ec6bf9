//! Calls that seal directories.
ghost use Rattle.std.specs.Prelude.{◌≡◌, [], Ok, Err, map};
ghost use Rattle.std.specs.Prelude.{IfOk, IfErr, OnErr, MatchResult};
ghost use Rattle.std.specs.List.{list_all};
ghost use Rattle.dscript_sdk_values.specs.Outcomes.{Refuses};
ghost use Rattle.dscript_sdk_pips.specs.FileSets.{files_by_path as files_that_count};
ghost use Rattle.dscript_sdk_pips.specs.SealDirectory as full;
ghost use Rattle.dscript_sdk_pips.specs.SealDirectory.{full_seal as full_seal_of};
ghost use Rattle.dscript_sdk_pips.specs.SealPartialDirectory as partial;
ghost use Rattle.dscript_sdk_pips.specs.SealPartialDirectory.{partial_seal as partial_seal_of};
ghost use Rattle.dscript_sdk_pips.specs.SealSourceDirectory as sources;
ghost use Rattle.dscript_sdk_pips.specs.SealSourceDirectory.{form_in, form_named, form_of_rest};
ghost use Rattle.dscript_sdk_pips.specs.Seals as seals;
ghost use Rattle.dscript_sdk_pips.specs.Seals.{sealed_in, with_sealed};
ghost use Rattle.dscript_sdk_calls.specs.Sources.{files_below, tree_answers};
ghost use Rattle.dscript_sdk_calls.specs.declared.tree_ask.TreeAsk.TheVariants as asks;
ghost use Rattle.dscript_sdk_pips.specs.States.{over_tree, with_ask};
ghost use Rattle.dscript_value.specs.Plain.{plain_of};

use crate::file_sets::files_by_path;
use crate::site::Site;
use crate::state::SdkState;
use bx_tree::{FileInput, Memory, Path, Tree};
use dscript_sdk_calls::{TreeAsk, find_below};
use dscript_sdk_values::{SdkFault, read_directory, read_list, two_arguments};
use dscript_value::{StaticDir, Value};
use pip_model_types::{FileInputs, PipKind, SealDesc, SealForm};
use std::alloc::Global;

// A seal, and its directory.
fn add_seal(state: &mut SdkState, site: &Site, seal: SealDesc) -> Result<Value, SdkFault>
    ensures answer { IfOk result (λ value.
        with_sealed site.now.file seal (over_tree state.old) ≡ Ok (plain_of value, over_tree state.new)) }
    ensures fault { IfErr result (λ fault. Refuses fault (with_sealed site.now.file seal (over_tree state.old))) }
    ensures unchanged { OnErr result (state.new ≡ state.old) }
    ensures sources { state.new.sources ≡ state.old.sources }
{
    let root = seal.root.share()?;
    let number = state.add(site, PipKind::Seal(seal))?;
    Ok(Value::Static(StaticDir::Seal(number, root)))
}

// The ask for all source files below a directory.
fn ask_below(dir: &Path) -> Result<TreeAsk, Memory>
    ensures { IfOk result (λ ask. ask ≡ asks.Below dir.now) }
{
    Ok(TreeAsk::Below(dir.share()?))
}

// A seal, and its directory, of a call that asks for all source files below it.
fn add_asked_seal(state: &mut SdkState, site: &Site, seal: SealDesc) -> Result<Value, SdkFault>
    ensures answer { IfOk result (λ value.
        with_sealed site.now.file seal (with_ask (asks.Below seal.root) (over_tree state.old))
        ≡ Ok (plain_of value, over_tree state.new)) }
    ensures fault { IfErr result (λ fault. Refuses fault
        (with_sealed site.now.file seal (with_ask (asks.Below seal.root) (over_tree state.old)))) }
    ensures unchanged { OnErr result (state.new ≡ state.old) }
    ensures sources { state.new.sources ≡ state.old.sources }
{
    let root = seal.root.share()?;
    let ask = ask_below(&seal.root)?;
    let number = state.add_asked(site, PipKind::Seal(seal), ask)?;
    Ok(Value::Static(StaticDir::Seal(number, root)))
}

// The form of a source seal with this name.
fn named_form(text: &[u8]) -> Result<SealForm, SdkFault>
    ensures { MatchResult result
        (λ form. form_named text.now ≡ Ok form)
        (λ fault. form_named text.now ≡ Err fault) }
{
    if text == b"topDirectoryOnly".as_slice() {
        Ok(SealForm::SourceTop)
    } else if text == b"allDirectories".as_slice() {
        Ok(SealForm::SourceAll)
    } else {
        Err(SdkFault::BadArgument)
    }
}

fn read_form(value: &Value) -> Result<SealForm, SdkFault>
    ensures { MatchResult result
        (λ form. form_in (plain_of value.now) ≡ Ok form)
        (λ fault. form_in (plain_of value.now) ≡ Err fault) }
{
    match value {
        Value::Undefined => Ok(SealForm::SourceTop),
        Value::Text(text) => named_form(text.bytes()),
        _ => Err(SdkFault::Kind),
    }
}

// The form that the second argument asks for; a missing one is undefined.
fn form_of(rest: &[Value]) -> Result<SealForm, SdkFault>
    ensures { MatchResult result
        (λ form. form_of_rest (map plain_of rest.now) ≡ Ok form)
        (λ fault. form_of_rest (map plain_of rest.now) ≡ Err fault) }
{
    match rest.split_first() {
        Some((option, _)) => read_form(option),
        None => Ok(SealForm::SourceTop),
    }
}

fn no_files(alloc: Global) -> FileInputs
    ensures { result ≡ [] }
{
    FileInputs::of(Vec::new(alloc))
}

// What the arguments ask to seal.
fn read_source_seal(alloc: Global, args: &[Value]) -> Result<SealDesc, SdkFault>
    ensures { MatchResult result
        (λ seal. sources.sealed_sources (map plain_of args.now) ≡ Ok seal)
        (λ fault. Refuses fault (sources.sealed_sources (map plain_of args.now))) }
{
    let Some((dir, rest)) = args.split_first() else {
        return Err(SdkFault::BadArgument);
    };
    let root = read_directory(dir)?;
    let form = form_of(rest)?;
    Ok(SealDesc {
        form,
        root: root.share()?,
        files: no_files(alloc),
    })
}

/// A seal of the source files directly in a directory, or of all below it.
#[tactic(auto, unfolding(crate::specs::SealSourceDirectory::seal_source_directory))]
pub fn seal_source_directory(
    alloc: Global,
    state: &mut SdkState,
    site: &Site,
    args: &[Value],
) -> Result<Value, SdkFault>
    ensures answer { IfOk result (λ value.
        sources.seal_source_directory site.now.file (map plain_of args.now) (over_tree state.old)
        ≡ Ok (plain_of value, over_tree state.new)) }
    ensures fault { IfErr result (λ fault.
        Refuses fault (sources.seal_source_directory site.now.file (map plain_of args.now) (over_tree state.old))) }
    ensures unchanged { OnErr result (state.new ≡ state.old) }
    ensures sources { state.new.sources ≡ state.old.sources }
{
    let seal = read_source_seal(alloc, args)?;
    add_seal(state, site, seal)
}

// A directory, and the files that arguments ask to seal in it.
fn read_sealed(alloc: Global, args: &[Value]) -> Result<(Path, Vec<FileInput>), SdkFault>
    ensures { MatchResult result
        (λ given. sealed_in (map plain_of args.now) ≡ Ok (given.0, given.1.items))
        (λ fault. Refuses fault (sealed_in (map plain_of args.now))) }
{
    let (dir, files) = two_arguments(args)?;
    let dir = read_directory(dir)?;
    let files = read_list::<FileInput>(alloc, files)?;
    Ok((dir.share()?, files))
}

// Whether each file lies below a directory.
fn are_below(dir: &Path, files: &[FileInput]) -> bool
    ensures { result ≡ seals.are_below dir.now files.now }
{
    'files: for file in files {
        if !file.path().is_below(dir) {
            return false;
        }
    }
    true
}

// Whether one of the files of a seal has a path.
fn is_listed(files: &FileInputs, path: &Path) -> bool
    ensures { result ≡ seals.is_listed files.now path.now }
{
    files.has_path(path)
}

fn are_listed(files: &FileInputs, paths: &[Path]) -> bool
    ensures { result ≡ list_all (seals.is_listed files.now) paths.now }
{
    'paths: for path in paths {
        if !is_listed(files, path) {
            return false;
        }
    }
    true
}

// Whether each source file below a directory is listed.
fn lists_sources(alloc: Global, tree: &Tree, dir: &Path, files: &FileInputs) -> Result<bool, Memory>
    ensures { IfOk result (λ whole. whole ≡ seals.lists_sources (files_below tree.now dir.now) files.now) }
{
    let paths = find_below(alloc, tree, dir)?;
    Ok(are_listed(files, paths.as_slice()))
}

// The full seal of these files.
#[tactic(auto, using(crate::proofs::AskedSeals::full_beside, crate::proofs::AskedSeals::full_left_out, crate::proofs::AskedSeals::full_whole))]
fn full_seal(
    alloc: Global,
    tree: &Tree,
    root: Path,
    files: &[FileInput],
) -> Result<SealDesc, SdkFault>
    ensures { MatchResult result
        (λ seal. full_seal_of (files_below tree.now root) root files.now ≡ Ok seal)
        (λ fault. Refuses fault (full_seal_of (files_below tree.now root) root files.now)) }
{
    if !are_below(&root, files) {
        return Err(SdkFault::BadArgument);
    }
    let files = files_by_path(alloc, files)?;
    if !lists_sources(alloc, tree, &root, &files)? {
        return Err(SdkFault::BadArgument);
    }
    Ok(SealDesc {
        form: SealForm::Full,
        root,
        files,
    })
}

// The partial seal of these files.
#[tactic(auto, using(crate::proofs::AskedSeals::partial_beside, crate::proofs::AskedSeals::partial_whole))]
fn partial_seal(alloc: Global, root: Path, files: &[FileInput]) -> Result<SealDesc, SdkFault>
    ensures { MatchResult result
        (λ seal. partial_seal_of root files.now ≡ Ok seal)
        (λ fault. Refuses fault (partial_seal_of root files.now)) }
{
    if !are_below(&root, files) {
        return Err(SdkFault::BadArgument);
    }
    Ok(SealDesc {
        form: SealForm::Partial,
        root,
        files: files_by_path(alloc, files)?,
    })
}

// The full seal that arguments ask for.
fn read_full_seal(alloc: Global, tree: &Tree, args: &[Value]) -> Result<SealDesc, SdkFault>
    ensures { MatchResult result
        (λ seal. full.asked_seal (tree_answers tree.now) (map plain_of args.now) ≡ Ok seal)
        (λ fault. Refuses fault (full.asked_seal (tree_answers tree.now) (map plain_of args.now))) }
{
    let (root, files) = read_sealed(alloc, args)?;
    full_seal(alloc, tree, root, files.as_slice())
}

// The partial seal that arguments ask for.
fn read_partial_seal(alloc: Global, args: &[Value]) -> Result<SealDesc, SdkFault>
    ensures { MatchResult result
        (λ seal. partial.asked_seal (map plain_of args.now) ≡ Ok seal)
        (λ fault. Refuses fault (partial.asked_seal (map plain_of args.now))) }
{
    let (root, files) = read_sealed(alloc, args)?;
    partial_seal(alloc, root, files.as_slice())
}

/// A seal that lists each source file below its root.
#[tactic(auto, unfolding(crate::specs::SealDirectory::seal_directory))]
pub fn seal_directory(
    alloc: Global,
    state: &mut SdkState,
    site: &Site,
    args: &[Value],
) -> Result<Value, SdkFault>
    ensures answer { IfOk result (λ value.
        full.seal_directory site.now.file (map plain_of args.now) (over_tree state.old)
        ≡ Ok (plain_of value, over_tree state.new)) }
    ensures fault { IfErr result (λ fault.
        Refuses fault (full.seal_directory site.now.file (map plain_of args.now) (over_tree state.old))) }
    ensures unchanged { OnErr result (state.new ≡ state.old) }
    ensures sources { state.new.sources ≡ state.old.sources }
{
    let seal = read_full_seal(alloc, state.tree(), args)?;
    add_asked_seal(state, site, seal)
}

/// A seal of some files below its root.
#[tactic(auto, unfolding(crate::specs::SealPartialDirectory::seal_partial_directory))]
pub fn seal_partial_directory(
    alloc: Global,
    state: &mut SdkState,
    site: &Site,
    args: &[Value],
) -> Result<Value, SdkFault>
    ensures answer { IfOk result (λ value.
        partial.seal_partial_directory site.now.file (map plain_of args.now) (over_tree state.old)
        ≡ Ok (plain_of value, over_tree state.new)) }
    ensures fault { IfErr result (λ fault.
        Refuses fault (partial.seal_partial_directory site.now.file (map plain_of args.now) (over_tree state.old))) }
    ensures unchanged { OnErr result (state.new ≡ state.old) }
    ensures sources { state.new.sources ≡ state.old.sources }
{
    let seal = read_partial_seal(alloc, args)?;
    add_seal(state, site, seal)
}
