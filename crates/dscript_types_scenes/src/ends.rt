//! Whether the end of a body may be reached.
ghost use Rattle.std.specs.Option.{option_copied};
ghost use Rattle.std.specs.Prelude.{◌≡◌, map};
ghost use Rattle.dscript_program.specs.BoundTree.{to_stmts};
ghost use Rattle.dscript_program.specs.Views.{body_data, stmt_data};
ghost use Rattle.dscript_types_meaning.specs.Bodies as rules;
ghost use Rattle.dscript_types_scenes.specs.Statements.{maybe_of};

use crate::nodes::other_of;
use dscript_program::{Body, BoundStmt};

/// Whether a function may give undefined without an expression for it.
pub fn may_end(body: &Body) -> bool
    ensures { result ≡ rules.may_end (body_data body.now) }
{
    match body {
        Body::Expr(_) => false,
        Body::Block(block) => all_pass(block.as_slice()) || some_return_nothing(block.as_slice()),
    }
}

// Whether what follows a statement may be reached.
#[cycle(ends)]
#[tactic(auto, using(dscript_program::proofs::NodeViews::bound_views), unfolding(dscript_types_meaning::specs::Bodies::passes))]
fn passes(stmt: &BoundStmt) -> bool
    ensures { result ≡ rules.passes (stmt_data stmt.now) }
{
    match stmt {
        BoundStmt::If(_, one, other) => passes(one) || else_passes(other_of(other)),
        BoundStmt::Return(_) => false,
        BoundStmt::Block(block) => all_pass(block.as_slice()),
        BoundStmt::Const(_, _, _) => true,
        BoundStmt::Let(_, _, _) => true,
        BoundStmt::Assign(_, _) => true,
        BoundStmt::For(_, _, _, _) => true,
        BoundStmt::Value(_) => true,
        BoundStmt::Empty => true,
    }
}

#[cycle(ends)]
#[tactic(auto, unfolding(dscript_types_meaning::specs::Bodies::else_passes))]
fn else_passes(other: Option<&BoundStmt>) -> bool
    ensures { result ≡ rules.else_passes (maybe_of (option_copied other.entry)) }
{
    match other {
        Some(other) => passes(other),
        None => true,
    }
}

#[cycle(ends)]
#[tactic(auto, unfolding(dscript_types_meaning::specs::Bodies::all_pass))]
fn all_pass(stmts: &[BoundStmt]) -> bool
    ensures { result ≡ rules.all_pass (to_stmts (map stmt_data stmts.now)) }
{
    'stmts: for stmt in stmts {
        if !passes(stmt) {
            return false;
        }
    }
    true
}

// Whether some return in a statement has no value.
#[cycle(returns)]
#[tactic(auto, using(dscript_program::proofs::NodeViews::bound_views), unfolding(dscript_types_meaning::specs::Bodies::returns_nothing))]
fn returns_nothing(stmt: &BoundStmt) -> bool
    ensures { result ≡ rules.returns_nothing (stmt_data stmt.now) }
{
    match stmt {
        BoundStmt::If(_, one, other) => returns_nothing(one)
            || else_returns_nothing(other_of(other)),
        BoundStmt::For(_, _, _, one) => returns_nothing(one),
        BoundStmt::Return(value) => match value {
            Some(_) => false,
            None => true,
        },
        BoundStmt::Block(block) => some_return_nothing(block.as_slice()),
        BoundStmt::Const(_, _, _) => false,
        BoundStmt::Let(_, _, _) => false,
        BoundStmt::Assign(_, _) => false,
        BoundStmt::Value(_) => false,
        BoundStmt::Empty => false,
    }
}

#[cycle(returns)]
#[tactic(auto, unfolding(dscript_types_meaning::specs::Bodies::else_returns_nothing))]
fn else_returns_nothing(other: Option<&BoundStmt>) -> bool
    ensures { result ≡ rules.else_returns_nothing (maybe_of (option_copied other.entry)) }
{
    match other {
        Some(other) => returns_nothing(other),
        None => false,
    }
}

#[cycle(returns)]
#[tactic(auto, unfolding(dscript_types_meaning::specs::Bodies::some_return_nothing))]
fn some_return_nothing(stmts: &[BoundStmt]) -> bool
    ensures { result ≡ rules.some_return_nothing (to_stmts (map stmt_data stmts.now)) }
{
    'stmts: for stmt in stmts {
        if returns_nothing(stmt) {
            return true;
        }
    }
    false
}
