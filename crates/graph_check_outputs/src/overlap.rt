//! The rule that files, output directories and full seals keep apart.
ghost use Rattle.std.specs.Prelude.{◌↔◌, ◌⊎◌, Any, IsTrue, IfOk, Some};
ghost use Rattle.pip_model_types.specs.declared.pip.Pip.{Pip as AnyPip};
ghost use Rattle.graph_check_outputs.specs.Firsts.{IsFirst};
ghost use Rattle.graph_check_outputs.specs.Overlap.{IsUnlisted, OverlapAt, full_seals};
ghost use Rattle.graph_check_outputs.specs.Claims.{AreClaims};
ghost use Rattle.graph_check_outputs.specs.Sharing.{HasFileDir, HasNested, HasOverlap, HasSealedDir, HasUnlisted};
ghost use Rattle.graph_check_outputs.specs.Sharing.{TellsUnshared};
ghost use Rattle.graph_check_outputs.specs.Gathered.{IsInOrder};

use crate::gathered::{Claim, Wanted, all_claims, list_of};
use crate::nesting::{any_nested, any_within};
use crate::unlisted::has_unlisted;
use crate::unshared::first_unshared;
use bx_tree::{Memory, Path};
use pip_model_types::{Pip, PipKind, SealForm};
use std::alloc::Global;

// Whether outputs of these pips lie below each other, or a file is a directory.
fn outputs_overlap(alloc: Global, claims: &[Claim], pips: &[Pip]) -> Result<bool, Memory>
    requires { AreClaims pips.now claims.now }
    ensures { IfOk result (λ has. IsTrue has ↔ (HasNested pips.now ⊎ HasFileDir pips.now)) }
{
    let outputs = list_of(alloc, claims, Wanted::Outputs, pips)?;
    if any_nested(outputs.as_slice()) {
        return Ok(true);
    }
    let dirs = list_of(alloc, claims, Wanted::Dirs, pips)?;
    if dirs.is_empty() {
        return Ok(false);
    }
    let files = list_of(alloc, claims, Wanted::Files, pips)?;
    Ok(any_within(files.as_slice(), dirs.as_slice()))
}

// Whether a full seal of these pips meets an output directory.
fn seals_meet_dirs(alloc: Global, claims: &[Claim], pips: &[Pip]) -> Result<bool, Memory>
    requires { AreClaims pips.now claims.now }
    ensures { IfOk result (λ has. IsTrue has ↔ HasSealedDir pips.now) }
{
    let dirs = list_of(alloc, claims, Wanted::Dirs, pips)?;
    let roots = list_of(alloc, claims, Wanted::Roots, pips)?;
    if any_within(dirs.as_slice(), roots.as_slice()) {
        return Ok(true);
    }
    Ok(any_within(roots.as_slice(), dirs.as_slice()))
}

// Whether some of these files lies in this pip, if it is a full seal, without being a member.
fn leaves_out(files: &[Path], kind: &PipKind) -> bool
    requires { IsInOrder files.now }
    ensures { IsTrue result ↔ Any (λ seal. Any (IsUnlisted seal) files.now) (full_seals kind.now) }
{
    match kind {
        PipKind::Seal(seal) => match seal.form {
            SealForm::Full => has_unlisted(files, seal),
            _ => false,
        },
        _ => false,
    }
}

// Whether some of these files lies in a full seal of these pips without being a member.
fn any_leaves_out(files: &[Path], pips: &[Pip]) -> bool
    requires { IsInOrder files.now }
    ensures { IsTrue result ↔ Any (λ (pip : AnyPip).
        Any (λ seal. Any (IsUnlisted seal) files.now) (full_seals pip.kind)) pips.now }
{
    pips.iter().any(|pip| leaves_out(files, &pip.kind))
}

// Whether a file of these pips lies in a full seal of them without being a member.
fn seals_leave_out(alloc: Global, claims: &[Claim], pips: &[Pip]) -> Result<bool, Memory>
    requires { AreClaims pips.now claims.now }
    ensures { IfOk result (λ has. IsTrue has ↔ HasUnlisted pips.now) }
{
    let roots = list_of(alloc, claims, Wanted::Roots, pips)?;
    if roots.is_empty() {
        return Ok(false);
    }
    let files = list_of(alloc, claims, Wanted::Files, pips)?;
    Ok(any_leaves_out(files.as_slice(), pips))
}

// Whether two of these pips overlap, or one of them alone does.
fn has_overlap(
    alloc: Global,
    claims: &[Claim],
    unshared: usize,
    pips: &[Pip],
) -> Result<bool, Memory>
    requires claims { AreClaims pips.now claims.now }
    requires unshared { TellsUnshared pips.now unshared }
    ensures { IfOk result (λ has. IsTrue has ↔ HasOverlap pips.now) }
{
    if unshared < pips.len() {
        return Ok(true);
    }
    if outputs_overlap(alloc, claims, pips)? {
        return Ok(true);
    }
    if seals_meet_dirs(alloc, claims, pips)? {
        return Ok(true);
    }
    seals_leave_out(alloc, claims, pips)
}

// The first pip of these that overlaps with itself or an earlier pip. Some first pips overlap if fewer of them
// do, so it is found by binary search. Each half takes a pass over the claims, which are sorted once.
fn least_overlap(
    alloc: Global,
    claims: &[Claim],
    unshared: usize,
    pips: &[Pip],
) -> Result<usize, Memory>
    requires claims { AreClaims pips.now claims.now }
    requires unshared { TellsUnshared pips.now unshared }
    requires overlap { HasOverlap pips.now }
    ensures { IfOk result (λ number. IsFirst (OverlapAt pips.now) (Some number)) }
{
    let mut apart = 0;
    let mut overlapping = pips.len();
    'bounds: while overlapping - apart > 1 {
        let middle = apart + (overlapping - apart) / 2;
        if has_overlap(alloc, claims, unshared, &pips[..middle])? {
            overlapping = middle;
        } else {
            apart = middle;
        }
    }
    Ok(apart)
}

// The first pip that overlaps with itself or an earlier pip, if there is one.
fn overlap_among(
    alloc: Global,
    claims: &[Claim],
    unshared: usize,
    pips: &[Pip],
) -> Result<Option<usize>, Memory>
    requires claims { AreClaims pips.now claims.now }
    requires unshared { TellsUnshared pips.now unshared }
    ensures { IfOk result (IsFirst (OverlapAt pips.now)) }
{
    if has_overlap(alloc, claims, unshared, pips)? {
        Ok(Some(least_overlap(alloc, claims, unshared, pips)?))
    } else {
        Ok(None)
    }
}

/// The first pip that overlaps with itself or an earlier pip.
pub fn first_overlap(alloc: Global, pips: &[Pip]) -> Result<Option<usize>, Memory>
    ensures { IfOk result (IsFirst (OverlapAt pips.now)) }
{
    let unshared = first_unshared(alloc, pips)?;
    let claims = all_claims(alloc, pips)?;
    overlap_among(alloc, claims.as_slice(), unshared, pips)
}
