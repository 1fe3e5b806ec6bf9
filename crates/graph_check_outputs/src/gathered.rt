//! What all pips declare together, each path with its pip, and the lists of it for the first pips.
ghost use Rattle.std.specs.Prelude.{◌≡◌, ◌++◌, IfOk, OnOk, map};
ghost use Rattle.std.specs.List.Sorted.{IsPermutation};
ghost use Rattle.graph_check_outputs.specs.Claims.{AreClaims, IsInClaimOrder, claim_of, claims_of, if_wanted};
ghost use Rattle.graph_check_outputs.specs.Claims.{paths_among};
ghost use Rattle.graph_check_outputs.specs.Claims.{wants, wanted_items};
ghost use Rattle.graph_check_outputs.specs.Gathered.{IsListOf};

use crate::declared::{add_path, dirs_of, files_of, roots_of};
use bx_tree::Path;
use pip_model_types::{Pip, PipKind};
use std::alloc::{AllocError, Global};

/// What a path is declared as: an output file, an output directory or the root of a full seal.
#[derive(Clone, Copy)]
pub(crate) enum Role {
    File,
    Dir,
    Root,
}

/// Which paths are asked for. Outputs are files and directories.
#[derive(Clone, Copy)]
pub(crate) enum Wanted {
    Files,
    Dirs,
    Outputs,
    Roots,
}

/// A path that a pip declares.
#[derive(Drop)]
pub(crate) struct Claim {
    pub(crate) role: Role,
    pub(crate) pip: usize,
    pub(crate) path: Path,
}

fn add_claims(
    claims: &mut Vec<Claim>,
    role: Role,
    pip: usize,
    paths: &[Path],
) -> Result<(), AllocError>
    ensures { OnOk result (claims.new.items ≡ claims.old.items ++ map (claim_of role pip) paths.now) }
{
    'paths: for path in paths {
        let path = path.share()?;
        claims.push(Claim { role, pip, path })?;
    }
    Ok(())
}

fn add_pip(
    alloc: Global,
    claims: &mut Vec<Claim>,
    pip: usize,
    kind: &PipKind,
) -> Result<(), AllocError>
    ensures { OnOk result (claims.new.items ≡ claims.old.items ++ claims_of pip kind.now) }
{
    let files = files_of(alloc, kind)?;
    add_claims(claims, Role::File, pip, files.as_slice())?;
    let dirs = dirs_of(alloc, kind)?;
    add_claims(claims, Role::Dir, pip, dirs.as_slice())?;
    let roots = roots_of(alloc, kind)?;
    add_claims(claims, Role::Root, pip, roots.as_slice())
}

// The claims in the order of their paths.
fn in_claim_order(claims: Vec<Claim>) -> Vec<Claim>
    ensures kept { IsPermutation claims.items result.items }
    ensures sorted { IsInClaimOrder result.items }
{
    let mut claims = claims;
    claims.sort_unstable_by(|a, b| a.path.cmp(&b.path));
    claims
}

// The claims of these pips, in the order of their paths.
pub(crate) fn all_claims(alloc: Global, pips: &[Pip]) -> Result<Vec<Claim>, AllocError>
    ensures { IfOk result (λ claims. AreClaims pips.now claims.items) }
{
    let mut claims = Vec::new(alloc);
    'pips: for (number, pip) in pips.iter().enumerate() {
        add_pip(alloc, &mut claims, number, &pip.kind)?;
    }
    Ok(in_claim_order(claims))
}

// Whether paths of a role are asked for.
fn is_wanted(wanted: Wanted, role: Role) -> bool
    ensures { result ≡ wants wanted role }
{
    match role {
        Role::File => matches!(wanted, Wanted::Files | Wanted::Outputs),
        Role::Dir => matches!(wanted, Wanted::Dirs | Wanted::Outputs),
        Role::Root => matches!(wanted, Wanted::Roots),
    }
}

// Adds the path of a claim, if it is asked for and of one of the first pips.
fn add_if_wanted(
    paths: &mut Vec<Path>,
    claim: &Claim,
    wanted: Wanted,
    count: usize,
) -> Result<(), AllocError>
    ensures { OnOk result (paths.new.items ≡ paths.old.items ++ if_wanted wanted count claim.now) }
{
    if claim.pip < count && is_wanted(wanted, claim.role) {
        add_path(paths, &claim.path)
    } else {
        Ok(())
    }
}

// The paths of the first pips that are asked for, in the order of the claims.
fn wanted_paths(
    alloc: Global,
    claims: &[Claim],
    wanted: Wanted,
    count: usize,
) -> Result<Vec<Path>, AllocError>
    ensures { IfOk result (λ paths. paths.items ≡ paths_among wanted count claims.now) }
{
    let mut paths = Vec::new(alloc);
    'claims: for claim in claims {
        add_if_wanted(&mut paths, claim, wanted, count)?;
    }
    Ok(paths)
}

// The paths of these pips that are asked for, in order. The claims may be those of more pips, of which these
// are the first.
pub(crate) fn list_of(
    alloc: Global,
    claims: &[Claim],
    wanted: Wanted,
    pips: &[Pip],
) -> Result<Vec<Path>, AllocError>
    requires { AreClaims pips.now claims.now }
    ensures { IfOk result (λ paths. IsListOf (wanted_items wanted) pips.now paths.items) }
{
    wanted_paths(alloc, claims, wanted, pips.len())
}
