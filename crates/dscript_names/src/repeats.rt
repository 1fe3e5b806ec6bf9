//! Blocks that declare a name twice.

ghost use Rattle.std.specs.Prelude.{◌≡◌, ◌∷◌, [], ◌++◌, ◌||◌, IfOk, map, option_map};
ghost use Rattle.std.specs.List.{list_any};
ghost use Rattle.bx_tree.specs.Paths.{same_path};
ghost use Rattle.dscript_ast.specs.ExprTree.{to_elements, to_expr, to_exprs, to_holes, to_operands};
ghost use Rattle.dscript_ast.specs.ExprTree.{to_parts, to_props, to_stmt, to_stmts};
ghost use Rattle.dscript_ast.specs.FileTree.{to_marked};
ghost use Rattle.dscript_ast.specs.Views.{decl_tree, element_tree, expr_tree};
ghost use Rattle.dscript_ast.specs.Views.{head_tree, hole_tree, item_tree};
ghost use Rattle.dscript_ast.specs.Views.{marked_tree, operand_tree, param_tree};
ghost use Rattle.dscript_ast.specs.Views.{part_tree, prop_tree, stmt_tree};
ghost use Rattle.dscript_names_scopes.specs.Duplicates.{all_marked_repeat, block_names};
ghost use Rattle.dscript_names_scopes.specs.Duplicates.{decl_repeats, elements_repeat};
ghost use Rattle.dscript_names_scopes.specs.Duplicates.{else_repeats, expr_repeats};
ghost use Rattle.dscript_names_scopes.specs.Duplicates.{exprs_repeat, has_repeat, head_names};
ghost use Rattle.dscript_names_scopes.specs.Duplicates.{holes_repeat, item_repeats, marked_repeats, maybe_repeats};
ghost use Rattle.dscript_names_scopes.specs.Duplicates.{operands_repeat, param_names, part_repeats, parts_repeat};
ghost use Rattle.dscript_names_scopes.specs.Duplicates.{prop_repeats, props_repeat};
ghost use Rattle.dscript_names_scopes.specs.Duplicates.{repeats, stmt_names, stmt_repeats};
ghost use Rattle.dscript_names_scopes.specs.Duplicates.{stmts_repeat};
ghost use Rattle.dscript_names.specs.Singles.{Finds, element_value, hole_value, operand_value, single};

use crate::seen::has_repeat;
use bx_tree::{Memory, Text};
use dscript_ast::{
    ArrowHead, Decl, Element, Expr, Hole, Item, Marked, Operand, Param, PostfixPart, Prop, Stmt,
};
use dscript_names_scopes::DottedName;
use std::alloc::Global;

/// Whether a block that was met declares a name twice.
#[derive(Drop)]
pub(crate) struct Repeats {
    pub(crate) alloc: Global,
    pub(crate) found: bool,
}

/// Adds a name of one part.
fn add_name(names: &mut Vec<DottedName>, alloc: Global, name: &Text) -> Result<(), Memory>
    ensures { IfOk result (λ _. names.new.items ≡ names.old.items ++ single name.now ∷ []) }
{
    let mut parts = Vec::new(alloc);
    parts.push(name.share()?)?;
    names.push(DottedName::new(parts))?;
    Ok(())
}

/// Adds the names of parameters.
fn add_params(names: &mut Vec<DottedName>, alloc: Global, params: &[Param]) -> Result<(), Memory>
    ensures { IfOk result (λ _. names.new.items
        ≡ names.old.items ++ map single (param_names (map param_tree params.now))) }
{
    'params: for param in params {
        add_name(names, alloc, &param.name)?;
    }
    Ok(())
}

/// Adds the names of the parameters of an arrow function.
fn add_head(names: &mut Vec<DottedName>, alloc: Global, head: &ArrowHead) -> Result<(), Memory>
    ensures { IfOk result (λ _. names.new.items
        ≡ names.old.items ++ map single (head_names (head_tree head.now))) }
{
    match head {
        ArrowHead::Name(name) => add_name(names, alloc, name),
        ArrowHead::Params(params) => add_params(names, alloc, params.as_slice()),
    }
}

/// Adds the name that a statement declares in its block.
fn add_stmt(names: &mut Vec<DottedName>, alloc: Global, stmt: &Stmt) -> Result<(), Memory>
    ensures { IfOk result (λ _. names.new.items
        ≡ names.old.items ++ map single (stmt_names (stmt_tree stmt.now))) }
{
    match stmt {
        Stmt::Const(name, _, _) => add_name(names, alloc, name),
        Stmt::Let(name, _, _) => add_name(names, alloc, name),
        _ => Ok(()),
    }
}

/// Adds the names that statements declare in their block.
fn add_block(names: &mut Vec<DottedName>, alloc: Global, stmts: &[Stmt]) -> Result<(), Memory>
    ensures { IfOk result (λ _. names.new.items
        ≡ names.old.items ++ map single (block_names (to_stmts (map stmt_tree stmts.now)))) }
{
    'stmts: for stmt in stmts {
        add_stmt(names, alloc, stmt)?;
    }
    Ok(())
}

impl Repeats {
    /// Looks at the names of one block.
    fn look(&mut self, names: Vec<DottedName>) -> Result<(), Memory>
        ensures { Finds self.old self.new result (has_repeat same_path names.items) }
    {
        let repeats = has_repeat(names);
        self.found = self.found || repeats;
        Ok(())
    }

    /// Looks at the parameters of an arrow function whose body is an expression.
    fn head(&mut self, head: &ArrowHead) -> Result<(), Memory>
        ensures { Finds self.old self.new result (repeats (head_names (head_tree head.now))) }
    {
        let mut names = Vec::new(self.alloc);
        add_head(&mut names, self.alloc, head)?;
        self.look(names)
    }

    /// Looks at the parameters of an arrow function and the statements of its body.
    fn body(&mut self, head: &ArrowHead, stmts: &[Stmt]) -> Result<(), Memory>
        ensures { Finds self.old self.new result
            (repeats (head_names (head_tree head.now) ++ block_names (to_stmts (map stmt_tree stmts.now)))) }
    {
        let mut names = Vec::new(self.alloc);
        add_head(&mut names, self.alloc, head)?;
        add_block(&mut names, self.alloc, stmts)?;
        self.look(names)
    }

    /// Looks at the parameters of a declared function and the statements of its body.
    fn declared(&mut self, params: &[Param], stmts: &[Stmt]) -> Result<(), Memory>
        ensures { Finds self.old self.new result
            (repeats (param_names (map param_tree params.now)
            ++ block_names (to_stmts (map stmt_tree stmts.now)))) }
    {
        let mut names = Vec::new(self.alloc);
        add_params(&mut names, self.alloc, params)?;
        add_block(&mut names, self.alloc, stmts)?;
        self.look(names)
    }

    /// Looks at the statements of a block.
    fn block(&mut self, stmts: &[Stmt]) -> Result<(), Memory>
        ensures { Finds self.old self.new result
            (repeats (block_names (to_stmts (map stmt_tree stmts.now)))) }
    {
        let mut names = Vec::new(self.alloc);
        add_block(&mut names, self.alloc, stmts)?;
        self.look(names)
    }

    /// Looks through an expression.
    #[cycle(trees)]
    #[tactic(auto, using(dscript_ast::proofs::NodeViews::tree_views, crate::proofs::Found::or_laws), unfolding(dscript_names_scopes::specs::Duplicates::expr_repeats))]
    fn expr(&mut self, expr: &Expr) -> Result<(), Memory>
        ensures { Finds self.old self.new result (expr_repeats (expr_tree expr.now)) }
    {
        match expr {
            Expr::Arrow(head, body) => {
                self.head(head)?;
                self.expr(body)
            }
            Expr::BlockArrow(head, body) => {
                self.body(head, body.as_slice())?;
                self.stmts(body.as_slice())
            }
            Expr::Cond(test, one, other) => {
                self.expr(test)?;
                self.expr(one)?;
                self.expr(other)
            }
            Expr::Or(first, others) => {
                self.expr(first)?;
                self.operands(others.as_slice())
            }
            Expr::And(first, others) => {
                self.expr(first)?;
                self.operands(others.as_slice())
            }
            Expr::Equality(first, others) => {
                self.expr(first)?;
                self.operands(others.as_slice())
            }
            Expr::Relation(first, others) => {
                self.expr(first)?;
                self.operands(others.as_slice())
            }
            Expr::Sum(first, others) => {
                self.expr(first)?;
                self.operands(others.as_slice())
            }
            Expr::Product(first, others) => {
                self.expr(first)?;
                self.operands(others.as_slice())
            }
            Expr::Unary(_, value) => self.expr(value),
            Expr::Postfix(value, parts) => {
                self.expr(value)?;
                self.parts(parts.as_slice())
            }
            Expr::Template(_, holes) => self.holes(holes.as_slice()),
            Expr::Path(_, _, holes) => self.holes(holes.as_slice()),
            Expr::List(elements) => self.elements(elements.as_slice()),
            Expr::Object(props) => self.props(props.as_slice()),
            Expr::Number(_) => Ok(()),
            Expr::Str(_) => Ok(()),
            Expr::True => Ok(()),
            Expr::False => Ok(()),
            Expr::Undefined => Ok(()),
            Expr::Name(_) => Ok(()),
        }
    }

    /// Looks through an operand.
    #[cycle(trees)]
    #[tactic(auto, using(dscript_ast::proofs::NodeViews::tree_views, crate::proofs::Found::or_laws), unfolding(dscript_names_scopes::specs::Duplicates::expr_repeats))]
    fn operand(&mut self, operand: &Operand) -> Result<(), Memory>
        ensures { Finds self.old self.new result (expr_repeats (operand_value (operand_tree operand.now))) }
    {
        self.expr(&operand.value)
    }

    /// Looks through operands.
    #[cycle(trees)]
    #[tactic(auto, using(dscript_ast::proofs::NodeViews::tree_views, crate::proofs::Found::or_laws), unfolding(dscript_names_scopes::specs::Duplicates::expr_repeats))]
    fn operands(&mut self, operands: &[Operand]) -> Result<(), Memory>
        ensures { Finds self.old self.new result
            (operands_repeat (to_operands (map operand_tree operands.now))) }
    {
        'operands: for operand in operands {
            self.operand(operand)?;
        }
        Ok(())
    }

    /// Looks through a member, an index or a call.
    #[cycle(trees)]
    #[tactic(auto, using(dscript_ast::proofs::NodeViews::tree_views, crate::proofs::Found::or_laws), unfolding(dscript_names_scopes::specs::Duplicates::expr_repeats))]
    fn part(&mut self, part: &PostfixPart) -> Result<(), Memory>
        ensures { Finds self.old self.new result (part_repeats (part_tree part.now)) }
    {
        match part {
            PostfixPart::Member(_) => Ok(()),
            PostfixPart::Index(index) => self.expr(index),
            PostfixPart::Call(arguments) => self.exprs(arguments.as_slice()),
        }
    }

    /// Looks through members, indices and calls.
    #[cycle(trees)]
    #[tactic(auto, using(dscript_ast::proofs::NodeViews::tree_views, crate::proofs::Found::or_laws), unfolding(dscript_names_scopes::specs::Duplicates::expr_repeats))]
    fn parts(&mut self, parts: &[PostfixPart]) -> Result<(), Memory>
        ensures { Finds self.old self.new result (parts_repeat (to_parts (map part_tree parts.now))) }
    {
        'parts: for part in parts {
            self.part(part)?;
        }
        Ok(())
    }

    /// Looks through expressions.
    #[cycle(trees)]
    #[tactic(auto, using(dscript_ast::proofs::NodeViews::tree_views, crate::proofs::Found::or_laws), unfolding(dscript_names_scopes::specs::Duplicates::expr_repeats))]
    fn exprs(&mut self, exprs: &[Expr]) -> Result<(), Memory>
        ensures { Finds self.old self.new result (exprs_repeat (to_exprs (map expr_tree exprs.now))) }
    {
        'exprs: for expr in exprs {
            self.expr(expr)?;
        }
        Ok(())
    }

    /// Looks through an element.
    #[cycle(trees)]
    #[tactic(auto, using(dscript_ast::proofs::NodeViews::tree_views, crate::proofs::Found::or_laws), unfolding(dscript_names_scopes::specs::Duplicates::expr_repeats))]
    fn element(&mut self, element: &Element) -> Result<(), Memory>
        ensures { Finds self.old self.new result (expr_repeats (element_value (element_tree element.now))) }
    {
        self.expr(&element.value)
    }

    /// Looks through elements.
    #[cycle(trees)]
    #[tactic(auto, using(dscript_ast::proofs::NodeViews::tree_views, crate::proofs::Found::or_laws), unfolding(dscript_names_scopes::specs::Duplicates::expr_repeats))]
    fn elements(&mut self, elements: &[Element]) -> Result<(), Memory>
        ensures { Finds self.old self.new result
            (elements_repeat (to_elements (map element_tree elements.now))) }
    {
        'elements: for element in elements {
            self.element(element)?;
        }
        Ok(())
    }

    /// Looks through a property.
    #[cycle(trees)]
    #[tactic(auto, using(dscript_ast::proofs::NodeViews::tree_views, crate::proofs::Found::or_laws), unfolding(dscript_names_scopes::specs::Duplicates::expr_repeats))]
    fn prop(&mut self, prop: &Prop) -> Result<(), Memory>
        ensures { Finds self.old self.new result (prop_repeats (prop_tree prop.now)) }
    {
        match prop {
            Prop::Named(_, value) => self.expr(value),
            Prop::Quoted(_, value) => self.expr(value),
            Prop::Short(_) => Ok(()),
            Prop::Spread(value) => self.expr(value),
        }
    }

    /// Looks through properties.
    #[cycle(trees)]
    #[tactic(auto, using(dscript_ast::proofs::NodeViews::tree_views, crate::proofs::Found::or_laws), unfolding(dscript_names_scopes::specs::Duplicates::expr_repeats))]
    fn props(&mut self, props: &[Prop]) -> Result<(), Memory>
        ensures { Finds self.old self.new result (props_repeat (to_props (map prop_tree props.now))) }
    {
        'props: for prop in props {
            self.prop(prop)?;
        }
        Ok(())
    }

    /// Looks through a hole.
    #[cycle(trees)]
    #[tactic(auto, using(dscript_ast::proofs::NodeViews::tree_views, crate::proofs::Found::or_laws), unfolding(dscript_names_scopes::specs::Duplicates::expr_repeats))]
    fn hole(&mut self, hole: &Hole) -> Result<(), Memory>
        ensures { Finds self.old self.new result (expr_repeats (hole_value (hole_tree hole.now))) }
    {
        self.expr(&hole.value)
    }

    /// Looks through holes.
    #[cycle(trees)]
    #[tactic(auto, using(dscript_ast::proofs::NodeViews::tree_views, crate::proofs::Found::or_laws), unfolding(dscript_names_scopes::specs::Duplicates::expr_repeats))]
    fn holes(&mut self, holes: &[Hole]) -> Result<(), Memory>
        ensures { Finds self.old self.new result (holes_repeat (to_holes (map hole_tree holes.now))) }
    {
        'holes: for hole in holes {
            self.hole(hole)?;
        }
        Ok(())
    }

    /// Looks through a statement.
    #[cycle(trees)]
    #[tactic(auto, using(dscript_ast::proofs::NodeViews::tree_views, crate::proofs::Found::or_laws), unfolding(dscript_names_scopes::specs::Duplicates::expr_repeats))]
    fn stmt(&mut self, stmt: &Stmt) -> Result<(), Memory>
        ensures { Finds self.old self.new result (stmt_repeats (stmt_tree stmt.now)) }
    {
        match stmt {
            Stmt::Const(_, _, value) => self.expr(value),
            Stmt::Let(_, _, value) => self.maybe(value),
            Stmt::Assign(_, value) => self.expr(value),
            Stmt::If(test, body, other) => {
                self.expr(test)?;
                self.stmt(body)?;
                self.otherwise(other)
            }
            Stmt::For(_, _, list, body) => {
                self.expr(list)?;
                self.stmt(body)
            }
            Stmt::Return(value) => self.maybe(value),
            Stmt::Value(value) => self.expr(value),
            Stmt::Block(stmts) => {
                self.block(stmts.as_slice())?;
                self.stmts(stmts.as_slice())
            }
            Stmt::Empty => Ok(()),
        }
    }

    /// Looks through an expression, if there is one.
    #[cycle(trees)]
    #[tactic(auto, using(dscript_ast::proofs::NodeViews::tree_views, crate::proofs::Found::or_laws), unfolding(dscript_names_scopes::specs::Duplicates::expr_repeats))]
    fn maybe(&mut self, expr: &Option<Expr>) -> Result<(), Memory>
        ensures { Finds self.old self.new result (maybe_repeats (to_expr (option_map expr_tree expr.now))) }
    {
        match expr {
            Some(expr) => self.expr(expr),
            None => Ok(()),
        }
    }

    /// Looks through the statement after `else`, if there is one.
    #[cycle(trees)]
    #[tactic(auto, using(dscript_ast::proofs::NodeViews::tree_views, crate::proofs::Found::or_laws), unfolding(dscript_names_scopes::specs::Duplicates::expr_repeats))]
    fn otherwise(&mut self, stmt: &Option<Box<Stmt>>) -> Result<(), Memory>
        ensures { Finds self.old self.new result
            (else_repeats (to_stmt (option_map (λ s. stmt_tree s.value) stmt.now))) }
    {
        match stmt {
            Some(stmt) => self.stmt(stmt),
            None => Ok(()),
        }
    }

    /// Looks through statements.
    #[cycle(trees)]
    #[tactic(auto, using(dscript_ast::proofs::NodeViews::tree_views, crate::proofs::Found::or_laws), unfolding(dscript_names_scopes::specs::Duplicates::expr_repeats))]
    fn stmts(&mut self, stmts: &[Stmt]) -> Result<(), Memory>
        ensures { Finds self.old self.new result (stmts_repeat (to_stmts (map stmt_tree stmts.now))) }
    {
        'stmts: for stmt in stmts {
            self.stmt(stmt)?;
        }
        Ok(())
    }

    /// Looks through a declaration.
    #[cycle(decls)]
    #[tactic(auto, using(dscript_ast::proofs::NodeViews::tree_views, crate::proofs::Found::or_laws), unfolding(dscript_names_scopes::specs::Duplicates::marked_repeats))]
    fn decl(&mut self, decl: &Decl) -> Result<(), Memory>
        ensures { Finds self.old self.new result (decl_repeats (decl_tree decl.now)) }
    {
        match decl {
            Decl::Const(_, _, value) => self.expr(value),
            Decl::Function(_, _, params, _, body) => {
                self.declared(params.as_slice(), body.as_slice())?;
                self.stmts(body.as_slice())
            }
            Decl::Namespace(_, decls) => self.all_marked(decls.as_slice()),
            Decl::Interface(_, _, _, _) => Ok(()),
            Decl::TypeAlias(_, _, _) => Ok(()),
        }
    }

    /// Looks through a declaration with its mark.
    #[cycle(decls)]
    #[tactic(auto, using(dscript_ast::proofs::NodeViews::tree_views, crate::proofs::Found::or_laws), unfolding(dscript_names_scopes::specs::Duplicates::marked_repeats))]
    fn marked(&mut self, marked: &Marked) -> Result<(), Memory>
        ensures { Finds self.old self.new result (marked_repeats (marked_tree marked.now)) }
    {
        self.decl(&marked.decl)
    }

    /// Looks through declarations.
    #[cycle(decls)]
    #[tactic(auto, using(dscript_ast::proofs::NodeViews::tree_views, crate::proofs::Found::or_laws), unfolding(dscript_names_scopes::specs::Duplicates::marked_repeats))]
    fn all_marked(&mut self, decls: &[Marked]) -> Result<(), Memory>
        ensures { Finds self.old self.new result (all_marked_repeat (to_marked (map marked_tree decls.now))) }
    {
        'decls: for marked in decls {
            self.marked(marked)?;
        }
        Ok(())
    }
}

impl Repeats {
    /// Looks through an item.
    fn item(&mut self, item: &Item) -> Result<(), Memory>
        ensures { Finds self.old self.new result (item_repeats (item_tree item.now)) }
    {
        match item {
            Item::Declared(marked) => self.marked(marked),
            _ => Ok(()),
        }
    }
}

/// Whether some block in these items declares a name twice.
pub(crate) fn blocks_repeat(alloc: Global, items: &[Item]) -> Result<bool, Memory>
    ensures { IfOk result (λ found. found ≡ list_any item_repeats (map item_tree items.now)) }
{
    let mut repeats = Repeats {
        alloc,
        found: false,
    };
    'items: for item in items {
        repeats.item(item)?;
    }
    Ok(repeats.found)
}
