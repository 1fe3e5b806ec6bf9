//! The locals that blocks declare.

ghost use Rattle.std.specs.Prelude.{◌≡◌, IfOk, map};
ghost use Rattle.std.specs.Option.{option_to_list};
ghost use Rattle.dscript_ast.specs.ExprTree.{to_stmts};
ghost use Rattle.dscript_ast.specs.Views.{head_tree, param_tree, stmt_tree};
ghost use Rattle.dscript_names_scopes.specs.Blocks.{block_locals, stmt_locals, undeclared};
ghost use Rattle.dscript_names_binding.specs.Binding.{is_let, loop_local, params_of};
ghost use Rattle.dscript_names_binding.specs.Walk.{params_from};

use bx_tree::{Memory, Text};
use dscript_ast::{ArrowHead, LoopKind, Param, Stmt};
use dscript_names_scopes::Local;
use std::alloc::{AllocError, Global};

/// The parameters of a function, numbered from the first.
pub(crate) fn param_locals(
    alloc: Global,
    params: &[Param],
    first: u32,
) -> Result<Vec<Local>, Memory>
    ensures { IfOk result (λ v. v.items ≡ params_from first (map param_tree params.now)) }
{
    let mut locals = Vec::new(alloc);
    let mut left = params;
    let mut number = first;
    'params: while let Some((param, rest)) = left.split_first() {
        let name = param.name.share()?;
        locals.push(Local {
            name,
            is_let: false,
            number: Some(number),
        })?;
        let Some(next) = number.checked_add(1) else {
            return Err(AllocError);
        };
        number = next;
        left = rest;
    }
    Ok(locals)
}

/// The parameters that an arrow function has before its `=>`.
pub(crate) fn params_of(alloc: Global, head: ArrowHead) -> Result<Vec<Param>, Memory>
    ensures { IfOk result (λ v. map param_tree v.items ≡ params_of (head_tree head)) }
{
    match head {
        ArrowHead::Name(name) => {
            let mut params = Vec::new(alloc);
            params.push(Param {
                name,
                optional: false,
                type_node: None,
            })?;
            Ok(params)
        }
        ArrowHead::Params(params) => Ok(params),
    }
}

/// A local that is not declared yet.
fn undeclared(name: &Text, is_let: bool) -> Result<Option<Local>, Memory>
    ensures { IfOk result (λ l. option_to_list l ≡ undeclared name.now is_let) }
{
    Ok(Some(Local {
        name: name.share()?,
        is_let,
        number: None,
    }))
}

/// The local that a statement declares in its block.
#[tactic(auto, using(dscript_ast::proofs::NodeViews::tree_views))]
fn stmt_local(stmt: &Stmt) -> Result<Option<Local>, Memory>
    ensures { IfOk result (λ l. option_to_list l ≡ stmt_locals (stmt_tree stmt.now)) }
{
    match stmt {
        Stmt::Const(name, _, _) => undeclared(name, false),
        Stmt::Let(name, _, _) => undeclared(name, true),
        _ => Ok(None),
    }
}

/// The locals of a block of one statement.
pub(crate) fn stmt_locals(alloc: Global, stmt: &Stmt) -> Result<Vec<Local>, Memory>
    ensures { IfOk result (λ v. v.items ≡ stmt_locals (stmt_tree stmt.now)) }
{
    let mut locals = Vec::new(alloc);
    if let Some(local) = stmt_local(stmt)? {
        locals.push(local)?;
    }
    Ok(locals)
}

/// The locals of a block.
pub(crate) fn block_locals(alloc: Global, stmts: &[Stmt]) -> Result<Vec<Local>, Memory>
    ensures { IfOk result (λ v. v.items ≡ block_locals (to_stmts (map stmt_tree stmts.now))) }
{
    let mut locals = Vec::new(alloc);
    let mut left = stmts;
    'stmts: while let Some((stmt, rest)) = left.split_first() {
        if let Some(local) = stmt_local(stmt)? {
            locals.push(local)?;
        }
        left = rest;
    }
    Ok(locals)
}

/// Whether the variable of a loop may be assigned.
fn is_let(kind: LoopKind) -> bool
    ensures { result ≡ is_let kind }
{
    matches!(kind, LoopKind::Let)
}

/// The block of the variable of a loop.
pub(crate) fn loop_local(
    alloc: Global,
    kind: LoopKind,
    name: &Text,
    number: u32,
) -> Result<Vec<Local>, Memory>
    ensures { IfOk result (λ v. v.items ≡ loop_local kind name.now number) }
{
    let mut locals = Vec::new(alloc);
    locals.push(Local {
        name: name.share()?,
        is_let: is_let(kind),
        number: Some(number),
    })?;
    Ok(locals)
}
