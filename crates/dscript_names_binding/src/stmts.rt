//! Statements.

ghost use Rattle.std.specs.Prelude.{◌≡◌, map, option_map};
ghost use Rattle.dscript_ast.specs.ExprTree as tree;
ghost use Rattle.dscript_ast.specs.Views.{expr_tree, param_tree, stmt_tree};
ghost use Rattle.dscript_program.specs.BoundTree as bound_tree;
ghost use Rattle.dscript_program.specs.Views.{expr_data, stmt_data};
ghost use Rattle.dscript_names_binding.specs.Binding.{bind_else, bind_maybe, bind_stmt, bind_stmts};
ghost use Rattle.dscript_names_scopes.specs.Blocks.{block_locals, stmt_locals};
ghost use Rattle.dscript_names_binding.specs.Binding.{declared_function, loop_local};
ghost use Rattle.dscript_names_binding.specs.Scenes.{site_at, world_at};
ghost use Rattle.dscript_names_binding.specs.Walk.{in_turn, within};
ghost use Rattle.dscript_names_binding.specs.Walked.{Walks};

use crate::locals::{block_locals, loop_local, stmt_locals};
use crate::scene::Scene;
use crate::walker::Walker;
use bx_tree::Text;
use dscript_ast::{Expr, LoopKind, Param, Stmt};
use dscript_names_scopes::Stop;
use dscript_program::{Body, BoundExpr, BoundStmt};

impl Walker {
    /// Resolves the names in a statement.
    #[cycle(trees)]
    #[tactic(auto, unfolding(crate::specs::Binding::bind_expr))]
    fn stmt(&mut self, scene: &Scene<'_>, stmt: Stmt) -> Result<BoundStmt, Stop>
        ensures { Walks stmt_data
            (bind_stmt (world_at scene.now) (site_at scene.now) (stmt_tree stmt))
            self.old self.new result }
    {
        match stmt {
            Stmt::Const(name, note, value) => {
                let number = self.next_local()?;
                let value = self.expr(scene, value)?;
                self.declare(&name, number);
                Ok(BoundStmt::Const(number, note, value))
            }
            Stmt::Let(name, note, value) => {
                let number = self.next_local()?;
                let value = self.maybe(scene, value)?;
                self.declare(&name, number);
                Ok(BoundStmt::Let(number, note, value))
            }
            Stmt::Assign(name, value) => {
                let number = self.assigned(&name)?;
                let value = self.expr(scene, value)?;
                Ok(BoundStmt::Assign(number, value))
            }
            Stmt::If(test, body, other) => {
                let test = self.expr(scene, test)?;
                let body = self.nested(scene, body)?;
                let other = self.otherwise(scene, other)?;
                Ok(BoundStmt::If(test, body, other))
            }
            Stmt::For(kind, name, list, body) => {
                let number = self.next_local()?;
                let list = self.expr(scene, list)?;
                let body = self.turn(scene, body, kind, name, number)?;
                Ok(BoundStmt::For(kind, number, list, body))
            }
            Stmt::Return(value) => {
                let value = self.maybe(scene, value)?;
                Ok(BoundStmt::Return(value))
            }
            Stmt::Value(value) => {
                let value = self.expr(scene, value)?;
                Ok(BoundStmt::Value(value))
            }
            Stmt::Block(stmts) => {
                let stmts = self.block(scene, stmts)?;
                Ok(BoundStmt::Block(stmts))
            }
            Stmt::Empty => Ok(BoundStmt::Empty),
        }
    }

    /// An expression, if there is one.
    #[cycle(trees)]
    #[tactic(auto, unfolding(crate::specs::Binding::bind_expr))]
    fn maybe(&mut self, scene: &Scene<'_>, expr: Option<Expr>) -> Result<Option<BoundExpr>, Stop>
        ensures { Walks (λ o. option_map expr_data o)
            (bind_maybe (world_at scene.now) (site_at scene.now) (tree.to_expr (option_map expr_tree expr)))
            self.old self.new result }
    {
        match expr {
            Some(expr) => {
                let bound = self.expr(scene, expr)?;
                Ok(Some(bound))
            }
            None => Ok(None),
        }
    }

    /// A statement with a block of its own.
    #[cycle(trees)]
    #[tactic(auto, unfolding(crate::specs::Binding::bind_expr))]
    fn nested(&mut self, scene: &Scene<'_>, stmt: Box<Stmt>) -> Result<Box<BoundStmt>, Stop>
        ensures { Walks (λ b. stmt_data b.value)
            (within (stmt_locals (stmt_tree stmt.value))
            (bind_stmt (world_at scene.now) (site_at scene.now) (stmt_tree stmt.value)))
            self.old self.new result }
    {
        let locals = stmt_locals(scene.alloc, &stmt)?;
        self.enter(locals, false)?;
        let bound = self.stmt(scene, Box::into_inner(stmt))?;
        self.leave();
        Ok(Box::new(scene.alloc, bound)?)
    }

    /// The statement after `else`, if there is one.
    #[cycle(trees)]
    #[tactic(auto, unfolding(crate::specs::Binding::bind_expr))]
    fn otherwise(
        &mut self,
        scene: &Scene<'_>,
        stmt: Option<Box<Stmt>>,
    ) -> Result<Option<Box<BoundStmt>>, Stop>
        ensures { Walks (λ o. bound_tree.to_stmt (option_map (λ b. stmt_data b.value) o))
            (bind_else (world_at scene.now) (site_at scene.now)
            (tree.to_stmt (option_map (λ s. stmt_tree s.value) stmt)))
            self.old self.new result }
    {
        match stmt {
            Some(stmt) => {
                let bound = self.nested(scene, stmt)?;
                Ok(Some(bound))
            }
            None => Ok(None),
        }
    }

    /// The body of a loop, in the block of its variable.
    #[cycle(trees)]
    #[tactic(auto, unfolding(crate::specs::Binding::bind_expr))]
    fn turn(
        &mut self,
        scene: &Scene<'_>,
        body: Box<Stmt>,
        kind: LoopKind,
        name: Text,
        number: u32,
    ) -> Result<Box<BoundStmt>, Stop>
        ensures { Walks (λ b. stmt_data b.value)
            (within (loop_local kind name number) (within (stmt_locals (stmt_tree body.value))
            (bind_stmt (world_at scene.now) (site_at scene.now) (stmt_tree body.value))))
            self.old self.new result }
    {
        let locals = loop_local(scene.alloc, kind, &name, number)?;
        self.enter(locals, false)?;
        let bound = self.nested(scene, body)?;
        self.leave();
        Ok(bound)
    }

    /// Statements in a block of their own.
    #[cycle(trees)]
    #[tactic(auto, unfolding(crate::specs::Binding::bind_expr))]
    fn block(&mut self, scene: &Scene<'_>, stmts: Vec<Stmt>) -> Result<Vec<BoundStmt>, Stop>
        ensures { Walks (λ v. map stmt_data v.items)
            (within (block_locals (tree.to_stmts (map stmt_tree stmts.items)))
            (in_turn (bind_stmts (world_at scene.now) (site_at scene.now)
            (tree.to_stmts (map stmt_tree stmts.items)))))
            self.old self.new result }
    {
        let locals = block_locals(scene.alloc, stmts.as_slice())?;
        self.enter(locals, false)?;
        let bound = self.stmts(scene, stmts)?;
        self.leave();
        Ok(bound)
    }

    /// A function whose body is statements, by its number.
    #[cycle(trees)]
    #[tactic(auto, unfolding(crate::specs::Binding::bind_expr))]
    pub(crate) fn function(
        &mut self,
        scene: &Scene<'_>,
        body: Vec<Stmt>,
        params: Vec<Param>,
    ) -> Result<u32, Stop>
        ensures { Walks (λ n. n)
            (declared_function (world_at scene.now) (site_at scene.now)
            (map param_tree params.items) (map stmt_tree body.items))
            self.old self.new result }
    {
        let locals = block_locals(scene.alloc, body.as_slice())?;
        let function = self.open(scene.alloc, params, locals)?;
        let body = self.stmts(scene, body)?;
        let number = self.close(scene, function, Body::Block(body))?;
        Ok(number)
    }

    /// Statements in order.
    #[cycle(trees)]
    #[tactic(auto, unfolding(crate::specs::Binding::bind_expr))]
    fn stmts(&mut self, scene: &Scene<'_>, stmts: Vec<Stmt>) -> Result<Vec<BoundStmt>, Stop>
        ensures { Walks (λ v. map stmt_data v.items)
            (in_turn (bind_stmts (world_at scene.now) (site_at scene.now)
            (tree.to_stmts (map stmt_tree stmts.items))))
            self.old self.new result }
    {
        let mut bound = Vec::new(scene.alloc);
        'stmts: for stmt in stmts {
            bound.push(self.stmt(scene, stmt)?)?;
        }
        Ok(bound)
    }
}
