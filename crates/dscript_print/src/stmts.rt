//! Statements.

ghost use Rattle.std.specs.Prelude.{true, ◌++◌, ◌∷◌, [], map, option_map};
ghost use Rattle.dscript_lex.specs.declared.token.TokenKind.TheVariants as kinds;
ghost use Rattle.dscript_ast.specs.ExprTree.{to_expr, to_stmt, to_stmts};
ghost use Rattle.dscript_grammar.specs.ExprGrammar.{any_expr};
ghost use Rattle.dscript_ast.specs.Views.{expr_tree, stmt_tree};
ghost use Rattle.dscript_print.specs.ExprKinds.{expr_kinds, loop_kind, stmt_kinds, stmts_kinds, value_kinds};
ghost use Rattle.dscript_print.specs.ExprKinds.{maybe_kinds, else_kinds};
ghost use Rattle.dscript_print.specs.Written.{constant_kinds, terminated_kinds, variable_kinds, return_kinds};
ghost use Rattle.dscript_print.specs.Written.{Writes};
ghost use Rattle.dscript_print.specs.Runs.{punct, keyword, concat_tokens};

use crate::exprs::ANY_EXPR;
use crate::writer::Writer;
use bx_tree::{Memory, Text};
use dscript_ast::{Expr, LoopKind, Stmt, TypeNode};

impl Writer {
    /// Writes a statement.
    #[tactic(auto, unfolding(crate::specs::ExprKinds::node_kinds))]
    #[cycle(exprs)]
    pub(crate) fn stmt(&mut self, stmt: &Stmt) -> Result<(), Memory>
        ensures { Writes self.old self.new result (stmt_kinds (stmt_tree stmt.now)) }
    {
        match stmt {
            Stmt::Const(name, node, value) => self.constant(name, node, value),
            Stmt::Let(name, node, value) => self.variable(name, node, value),
            Stmt::Assign(name, value) => self.assignment(name, value),
            Stmt::If(test, body, other) => {
                self.if_head()?;
                self.expr(test, false, ANY_EXPR)?;
                self.guarded(body)?;
                self.otherwise(other)
            }
            Stmt::For(kind, name, list, body) => {
                self.for_head(*kind, name)?;
                self.expr(list, false, ANY_EXPR)?;
                self.guarded(body)
            }
            Stmt::Return(value) => self.return_value(value),
            Stmt::Value(value) => self.value(value),
            Stmt::Block(body) => self.block(body.as_slice()),
            Stmt::Empty => self.punctuator(b";"),
        }
    }

    /// Writes a constant.
    #[cycle(exprs)]
    pub(crate) fn constant(
        &mut self,
        name: &Text,
        node: &Option<Box<TypeNode>>,
        value: &Expr,
    ) -> Result<(), Memory>
        ensures { Writes self.old self.new result (constant_kinds name.now node.now value.now) }
    {
        self.keyword(b"const")?;
        self.space();
        self.name(name)?;
        self.note(node)?;
        self.spaced(b"=")?;
        self.terminated(value)
    }

    /// Writes an expression and a semicolon.
    #[cycle(exprs)]
    fn terminated(&mut self, value: &Expr) -> Result<(), Memory>
        ensures { Writes self.old self.new result (terminated_kinds value.now) }
    {
        self.expr(value, false, ANY_EXPR)?;
        self.punctuator(b";")
    }

    /// Writes a variable.
    #[cycle(exprs)]
    fn variable(
        &mut self,
        name: &Text,
        node: &Option<Box<TypeNode>>,
        value: &Option<Expr>,
    ) -> Result<(), Memory>
        ensures { Writes self.old self.new result (variable_kinds name.now node.now value.now) }
    {
        self.keyword(b"let")?;
        self.space();
        self.name(name)?;
        self.note(node)?;
        self.first_value(value)?;
        self.punctuator(b";")
    }

    /// Writes an assignment.
    #[cycle(exprs)]
    fn assignment(&mut self, name: &Text, value: &Expr) -> Result<(), Memory>
        ensures { Writes self.old self.new result
            (kinds.Word name.now ∷ punct "=" ∷ terminated_kinds value.now) }
    {
        self.name(name)?;
        self.spaced(b"=")?;
        self.terminated(value)
    }

    /// Writes the head of a condition up to its test.
    fn if_head(&mut self) -> Result<(), Memory>
        ensures { Writes self.old self.new result (keyword "if" ∷ punct "(" ∷ []) }
    {
        self.keyword(b"if")?;
        self.space();
        self.punctuator(b"(")
    }

    /// Writes `)` and a statement.
    #[cycle(exprs)]
    fn guarded(&mut self, body: &Stmt) -> Result<(), Memory>
        ensures { Writes self.old self.new result (punct ")" ∷ stmt_kinds (stmt_tree body.now)) }
    {
        self.punctuator(b")")?;
        self.space();
        self.stmt(body)
    }

    /// Writes a return.
    #[cycle(exprs)]
    fn return_value(&mut self, value: &Option<Expr>) -> Result<(), Memory>
        ensures { Writes self.old self.new result (return_kinds value.now) }
    {
        self.keyword(b"return")?;
        self.given_value(value)?;
        self.punctuator(b";")
    }

    /// Writes an expression by itself.
    #[cycle(exprs)]
    fn value(&mut self, value: &Expr) -> Result<(), Memory>
        ensures { Writes self.old self.new result
            (expr_kinds true any_expr (expr_tree value.now) ++ (punct ";" ∷ [])) }
    {
        self.expr(value, true, ANY_EXPR)?;
        self.punctuator(b";")
    }

    /// Writes `=` and a value, where one is given.
    #[tactic(auto, unfolding(crate::specs::ExprKinds::node_kinds))]
    #[cycle(exprs)]
    fn first_value(&mut self, value: &Option<Expr>) -> Result<(), Memory>
        ensures { Writes self.old self.new result (value_kinds (to_expr (option_map expr_tree value.now))) }
    {
        match value {
            Some(value) => {
                self.spaced(b"=")?;
                self.expr(value, false, ANY_EXPR)
            }
            None => Ok(()),
        }
    }

    /// Writes a value, where one is given.
    #[tactic(auto, unfolding(crate::specs::ExprKinds::node_kinds))]
    #[cycle(exprs)]
    fn given_value(&mut self, value: &Option<Expr>) -> Result<(), Memory>
        ensures { Writes self.old self.new result (maybe_kinds (to_expr (option_map expr_tree value.now))) }
    {
        match value {
            Some(value) => {
                self.space();
                self.expr(value, false, ANY_EXPR)
            }
            None => Ok(()),
        }
    }

    /// Writes `else` and a statement, where one is given.
    #[tactic(auto, unfolding(crate::specs::ExprKinds::node_kinds))]
    #[cycle(exprs)]
    fn otherwise(&mut self, other: &Option<Box<Stmt>>) -> Result<(), Memory>
        ensures { Writes self.old self.new result
            (else_kinds (to_stmt (option_map (λ b. stmt_tree b.value) other.now))) }
    {
        match other {
            Some(other) => {
                self.space();
                self.keyword(b"else")?;
                self.space();
                self.stmt(other)
            }
            None => Ok(()),
        }
    }

    /// Writes the head of a loop up to its list.
    fn for_head(&mut self, kind: LoopKind, name: &Text) -> Result<(), Memory>
        ensures { Writes self.old self.new result
            (keyword "for" ∷ punct "(" ∷ loop_kind kind ∷ kinds.Word name.now ∷ keyword "of" ∷ []) }
    {
        self.keyword(b"for")?;
        self.space();
        self.punctuator(b"(")?;
        self.loop_keyword(kind)?;
        self.space();
        self.name(name)?;
        self.space();
        self.keyword(b"of")?;
        self.space();
        Ok(())
    }

    /// Writes `const` or `let`.
    fn loop_keyword(&mut self, kind: LoopKind) -> Result<(), Memory>
        ensures { Writes self.old self.new result (loop_kind kind ∷ []) }
    {
        match kind {
            LoopKind::Const => self.keyword(b"const"),
            LoopKind::Let => self.keyword(b"let"),
        }
    }

    /// Writes statements in braces, each on a line of its own.
    #[cycle(exprs)]
    pub(crate) fn block(&mut self, stmts: &[Stmt]) -> Result<(), Memory>
        ensures { Writes self.old self.new result
            (punct "{" ∷ (concat_tokens (stmts_kinds (to_stmts (map stmt_tree stmts.now))) ++ (punct "}" ∷ []))) }
    {
        self.punctuator(b"{")?;
        self.indent();
        self.stmts(stmts)?;
        self.outdent(stmts.is_empty());
        self.punctuator(b"}")
    }

    /// Writes statements, each on a line of its own.
    #[tactic(auto, unfolding(crate::specs::ExprKinds::node_kinds))]
    #[cycle(exprs)]
    fn stmts(&mut self, stmts: &[Stmt]) -> Result<(), Memory>
        ensures { Writes self.old self.new result
            (concat_tokens (stmts_kinds (to_stmts (map stmt_tree stmts.now)))) }
    {
        for stmt in stmts {
            self.line();
            self.stmt(stmt)?;
        }
        Ok(())
    }
}
