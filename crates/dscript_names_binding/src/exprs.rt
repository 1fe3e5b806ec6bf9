//! Expressions.

ghost use Rattle.std.specs.Prelude.{◌≡◌, IfOk, drop, map};
ghost use Rattle.dscript_ast.specs.ExprTree as tree;
ghost use Rattle.dscript_ast.specs.Views.{element_tree, expr_tree, head_tree, hole_tree, operand_tree};
ghost use Rattle.dscript_ast.specs.Views.{part_tree, prop_tree, stmt_tree};
ghost use Rattle.dscript_program.specs.Views.{element_data, expr_data, hole_data, operand_data};
ghost use Rattle.dscript_program.specs.Views.{part_data, prop_data};
ghost use Rattle.dscript_names_binding.specs.Binding.{bind_element, bind_expr, bind_exprs, bind_elements};
ghost use Rattle.dscript_names_binding.specs.Binding.{bind_hole, bind_holes, bind_operand};
ghost use Rattle.dscript_names_binding.specs.Binding.{bind_operands, bind_part, bind_parts, bind_prop, bind_props};
ghost use Rattle.dscript_names_binding.specs.Binding.{with_parts};
ghost use Rattle.dscript_names_binding.specs.Scenes.{chain_after, dotted_parts, parts_after, site_at, world_at};
ghost use Rattle.dscript_names_binding.specs.Walk.{in_turn};
ghost use Rattle.dscript_names_binding.specs.Walked.{Walks};
ghost use Rattle.dscript_ast.specs.Literals.{name_of};

use crate::locals::params_of;
use crate::scene::Scene;
use crate::walker::Walker;
use bx_tree::{Memory, Text};
use dscript_ast::{ArrowHead, Element, Expr, Hole, Operand, PostfixPart, Prop, Stmt};
use dscript_names_scopes::Stop;
use dscript_program::{
    Body, BoundElement, BoundExpr, BoundHole, BoundOperand, BoundPart, BoundProp,
};
use std::alloc::Global;

/// An expression with the parts after it, if any.
#[tactic(auto, using(dscript_program::proofs::NodeViews::bound_views))]
fn with_parts(alloc: Global, value: BoundExpr, parts: Vec<BoundPart>) -> Result<BoundExpr, Memory>
    ensures { IfOk result (λ e. expr_data e ≡ with_parts (expr_data value) (map part_data parts.items)) }
{
    if parts.is_empty() {
        return Ok(value);
    }
    Ok(BoundExpr::Postfix(Box::new(alloc, value)?, parts))
}

/// The name that an expression is, shared.
fn name_of(expr: &Expr) -> Result<Option<Text>, Memory>
    ensures { IfOk result (λ name. name ≡ name_of (expr_tree expr.now)) }
{
    match expr {
        Expr::Name(name) => Ok(Some(name.share()?)),
        _ => Ok(None),
    }
}

impl Walker {
    /// Resolves the names in an expression.
    #[cycle(trees)]
    #[tactic(auto, unfolding(crate::specs::Binding::bind_expr))]
    pub(crate) fn expr(&mut self, scene: &Scene<'_>, expr: Expr) -> Result<BoundExpr, Stop>
        ensures { Walks expr_data
            (bind_expr (world_at scene.now) (site_at scene.now) (expr_tree expr))
            self.old self.new result }
    {
        match expr {
            Expr::Arrow(head, body) => self.arrow(scene, body, head),
            Expr::BlockArrow(head, body) => self.block_arrow(scene, body, head),
            Expr::Cond(test, one, other) => {
                let test = self.boxed(scene, test)?;
                let one = self.boxed(scene, one)?;
                let other = self.boxed(scene, other)?;
                Ok(BoundExpr::Cond(test, one, other))
            }
            Expr::Or(first, others) => {
                let first = self.boxed(scene, first)?;
                self.chain(scene, others, first)
            }
            Expr::And(first, others) => {
                let first = self.boxed(scene, first)?;
                self.chain(scene, others, first)
            }
            Expr::Equality(first, others) => {
                let first = self.boxed(scene, first)?;
                self.chain(scene, others, first)
            }
            Expr::Relation(first, others) => {
                let first = self.boxed(scene, first)?;
                self.chain(scene, others, first)
            }
            Expr::Sum(first, others) => {
                let first = self.boxed(scene, first)?;
                self.chain(scene, others, first)
            }
            Expr::Product(first, others) => {
                let first = self.boxed(scene, first)?;
                self.chain(scene, others, first)
            }
            Expr::Unary(operators, value) => {
                let value = self.boxed(scene, value)?;
                Ok(BoundExpr::Unary(operators, value))
            }
            Expr::Postfix(value, parts) => {
                let name = name_of(&value)?;
                match name {
                    Some(name) => self.dotted(scene, parts, name),
                    None => {
                        let value = self.boxed(scene, value)?;
                        self.postfix(scene, parts, Box::into_inner(value))
                    }
                }
            }
            Expr::Number(number) => Ok(BoundExpr::Number(number)),
            Expr::Str(text) => Ok(BoundExpr::Str(text)),
            Expr::True => Ok(BoundExpr::True),
            Expr::False => Ok(BoundExpr::False),
            Expr::Undefined => Ok(BoundExpr::Undefined),
            Expr::Template(text, holes) => {
                let holes = self.holes(scene, holes)?;
                Ok(BoundExpr::Template(text, holes))
            }
            Expr::Path(kind, text, holes) => {
                let holes = self.holes(scene, holes)?;
                Ok(BoundExpr::Path(kind, text, holes))
            }
            Expr::Name(name) => {
                let found = self.alone(scene, &name)?;
                Ok(BoundExpr::Name(found.target))
            }
            Expr::List(elements) => {
                let elements = self.elements(scene, elements)?;
                Ok(BoundExpr::List(elements))
            }
            Expr::Object(props) => {
                let props = self.props(scene, props)?;
                Ok(BoundExpr::Object(props))
            }
        }
    }

    /// An expression that is a part of another.
    #[cycle(trees)]
    #[tactic(auto, using(dscript_ast::proofs::NodeViews::tree_views, dscript_program::proofs::NodeViews::bound_views), unfolding(crate::specs::Binding::bind_expr))]
    fn boxed(&mut self, scene: &Scene<'_>, expr: Box<Expr>) -> Result<Box<BoundExpr>, Stop>
        ensures { Walks (λ b. expr_data b.value)
            (bind_expr (world_at scene.now) (site_at scene.now) (expr_tree expr.value))
            self.old self.new result }
    {
        let bound = self.expr(scene, Box::into_inner(expr))?;
        Ok(Box::new(scene.alloc, bound)?)
    }

    /// A function whose body is an expression.
    #[cycle(trees)]
    #[tactic(auto, unfolding(crate::specs::Binding::bind_expr))]
    fn arrow(
        &mut self,
        scene: &Scene<'_>,
        body: Box<Expr>,
        head: Box<ArrowHead>,
    ) -> Result<BoundExpr, Stop>
        ensures { Walks expr_data
            (bind_expr (world_at scene.now) (site_at scene.now)
            (tree.Arrow (head_tree head.value) (expr_tree body.value)))
            self.old self.new result }
    {
        let params = params_of(scene.alloc, Box::into_inner(head))?;
        let function = self.open(scene.alloc, params, Vec::new(scene.alloc))?;
        let body = self.expr(scene, Box::into_inner(body))?;
        let number = self.close(scene, function, Body::Expr(body))?;
        Ok(BoundExpr::Arrow(number))
    }

    /// A function whose body is a block.
    #[cycle(trees)]
    #[tactic(auto, unfolding(crate::specs::Binding::bind_expr))]
    fn block_arrow(
        &mut self,
        scene: &Scene<'_>,
        body: Vec<Stmt>,
        head: Box<ArrowHead>,
    ) -> Result<BoundExpr, Stop>
        ensures { Walks expr_data
            (bind_expr (world_at scene.now) (site_at scene.now)
            (tree.BlockArrow (head_tree head.value) (tree.to_stmts (map stmt_tree body.items))))
            self.old self.new result }
    {
        let params = params_of(scene.alloc, Box::into_inner(head))?;
        let number = self.function(scene, body, params)?;
        Ok(BoundExpr::Arrow(number))
    }

    /// The operands of a chain after the first.
    #[cycle(trees)]
    #[tactic(auto, unfolding(crate::specs::Binding::bind_expr))]
    fn chain(
        &mut self,
        scene: &Scene<'_>,
        others: Vec<Operand>,
        first: Box<BoundExpr>,
    ) -> Result<BoundExpr, Stop>
        ensures { Walks expr_data
            (chain_after (world_at scene.now) (site_at scene.now) (expr_data first.value)
            (tree.to_operands (map operand_tree others.items)))
            self.old self.new result }
    {
        let others = self.operands(scene, others)?;
        Ok(BoundExpr::Chain(first, others))
    }

    /// A name with the parts after it.
    #[cycle(trees)]
    #[tactic(auto, unfolding(crate::specs::Binding::bind_expr))]
    fn dotted(
        &mut self,
        scene: &Scene<'_>,
        parts: Vec<PostfixPart>,
        name: Text,
    ) -> Result<BoundExpr, Stop>
        ensures { Walks expr_data
            (dotted_parts (world_at scene.now) (site_at scene.now)
            name (tree.to_parts (map part_tree parts.items)))
            self.old self.new result }
    {
        let found = self.named(scene, &name, parts.as_slice())?;
        let parts = self.parts(scene, parts, found.parts)?;
        Ok(with_parts(scene.alloc, BoundExpr::Name(found.target), parts)?)
    }

    /// The parts after an expression that is no name.
    #[cycle(trees)]
    #[tactic(auto, unfolding(crate::specs::Binding::bind_expr))]
    fn postfix(
        &mut self,
        scene: &Scene<'_>,
        parts: Vec<PostfixPart>,
        value: BoundExpr,
    ) -> Result<BoundExpr, Stop>
        ensures { Walks expr_data
            (parts_after (world_at scene.now) (site_at scene.now) (expr_data value)
            (tree.to_parts (map part_tree parts.items)))
            self.old self.new result }
    {
        let parts = self.parts(scene, parts, 0)?;
        Ok(with_parts(scene.alloc, value, parts)?)
    }

    /// The parts after those that belong to a dotted name.
    #[cycle(trees)]
    #[tactic(auto, unfolding(crate::specs::Binding::bind_expr))]
    fn parts(
        &mut self,
        scene: &Scene<'_>,
        parts: Vec<PostfixPart>,
        skipped: usize,
    ) -> Result<Vec<BoundPart>, Stop>
        ensures { Walks (λ v. map part_data v.items)
            (in_turn (drop skipped
            (bind_parts (world_at scene.now) (site_at scene.now)
            (tree.to_parts (map part_tree parts.items)))))
            self.old self.new result }
    {
        let mut bound = Vec::new(scene.alloc);
        let mut left = skipped;
        'parts: for part in parts {
            if left > 0 {
                left -= 1;
            } else {
                bound.push(self.part(scene, part)?)?;
            }
        }
        Ok(bound)
    }

    /// A member, an index or a call.
    #[cycle(trees)]
    #[tactic(auto, unfolding(crate::specs::Binding::bind_expr))]
    fn part(&mut self, scene: &Scene<'_>, part: PostfixPart) -> Result<BoundPart, Stop>
        ensures { Walks part_data
            (bind_part (world_at scene.now) (site_at scene.now) (part_tree part))
            self.old self.new result }
    {
        match part {
            PostfixPart::Member(name) => Ok(BoundPart::Member(name)),
            PostfixPart::Index(index) => {
                let index = self.boxed(scene, index)?;
                Ok(BoundPart::Index(index))
            }
            PostfixPart::Call(arguments) => {
                let arguments = self.exprs(scene, arguments)?;
                Ok(BoundPart::Call(arguments))
            }
        }
    }

    /// An operand.
    #[cycle(trees)]
    #[tactic(auto, using(dscript_ast::proofs::NodeViews::tree_views, dscript_program::proofs::NodeViews::bound_views), unfolding(crate::specs::Binding::bind_expr))]
    fn operand(&mut self, scene: &Scene<'_>, operand: Operand) -> Result<BoundOperand, Stop>
        ensures { Walks operand_data
            (bind_operand (world_at scene.now) (site_at scene.now) (operand_tree operand))
            self.old self.new result }
    {
        let value = self.expr(scene, operand.value)?;
        Ok(BoundOperand {
            operator: operand.operator,
            value,
        })
    }

    /// An element.
    #[cycle(trees)]
    #[tactic(auto, using(dscript_ast::proofs::NodeViews::tree_views, dscript_program::proofs::NodeViews::bound_views), unfolding(crate::specs::Binding::bind_expr))]
    fn element(&mut self, scene: &Scene<'_>, element: Element) -> Result<BoundElement, Stop>
        ensures { Walks element_data
            (bind_element (world_at scene.now) (site_at scene.now) (element_tree element))
            self.old self.new result }
    {
        let value = self.expr(scene, element.value)?;
        Ok(BoundElement {
            spread: element.spread,
            value,
        })
    }

    /// A hole.
    #[cycle(trees)]
    #[tactic(auto, using(dscript_ast::proofs::NodeViews::tree_views, dscript_program::proofs::NodeViews::bound_views), unfolding(crate::specs::Binding::bind_expr))]
    fn hole(&mut self, scene: &Scene<'_>, hole: Hole) -> Result<BoundHole, Stop>
        ensures { Walks hole_data
            (bind_hole (world_at scene.now) (site_at scene.now) (hole_tree hole))
            self.old self.new result }
    {
        let value = self.expr(scene, hole.value)?;
        Ok(BoundHole {
            value,
            text: hole.text,
        })
    }

    /// A property.
    #[cycle(trees)]
    #[tactic(auto, unfolding(crate::specs::Binding::bind_expr))]
    fn prop(&mut self, scene: &Scene<'_>, prop: Prop) -> Result<BoundProp, Stop>
        ensures { Walks prop_data
            (bind_prop (world_at scene.now) (site_at scene.now) (prop_tree prop))
            self.old self.new result }
    {
        match prop {
            Prop::Named(name, value) => {
                let value = self.expr(scene, value)?;
                Ok(BoundProp::Named(name, value))
            }
            Prop::Quoted(text, value) => {
                let value = self.expr(scene, value)?;
                Ok(BoundProp::Quoted(text, value))
            }
            Prop::Short(name) => {
                let found = self.alone(scene, &name)?;
                Ok(BoundProp::Short(name, found.target))
            }
            Prop::Spread(value) => {
                let value = self.expr(scene, value)?;
                Ok(BoundProp::Spread(value))
            }
        }
    }

    /// Expressions in order.
    #[cycle(trees)]
    #[tactic(auto, unfolding(crate::specs::Binding::bind_expr))]
    fn exprs(&mut self, scene: &Scene<'_>, exprs: Vec<Expr>) -> Result<Vec<BoundExpr>, Stop>
        ensures { Walks (λ v. map expr_data v.items)
            (in_turn (bind_exprs (world_at scene.now) (site_at scene.now)
            (tree.to_exprs (map expr_tree exprs.items))))
            self.old self.new result }
    {
        let mut bound = Vec::new(scene.alloc);
        'exprs: for expr in exprs {
            bound.push(self.expr(scene, expr)?)?;
        }
        Ok(bound)
    }

    /// Operands in order.
    #[cycle(trees)]
    #[tactic(auto, unfolding(crate::specs::Binding::bind_expr))]
    fn operands(
        &mut self,
        scene: &Scene<'_>,
        operands: Vec<Operand>,
    ) -> Result<Vec<BoundOperand>, Stop>
        ensures { Walks (λ v. map operand_data v.items)
            (in_turn (bind_operands (world_at scene.now) (site_at scene.now)
            (tree.to_operands (map operand_tree operands.items))))
            self.old self.new result }
    {
        let mut bound = Vec::new(scene.alloc);
        'operands: for operand in operands {
            bound.push(self.operand(scene, operand)?)?;
        }
        Ok(bound)
    }

    /// Elements in order.
    #[cycle(trees)]
    #[tactic(auto, unfolding(crate::specs::Binding::bind_expr))]
    fn elements(
        &mut self,
        scene: &Scene<'_>,
        elements: Vec<Element>,
    ) -> Result<Vec<BoundElement>, Stop>
        ensures { Walks (λ v. map element_data v.items)
            (in_turn (bind_elements (world_at scene.now) (site_at scene.now)
            (tree.to_elements (map element_tree elements.items))))
            self.old self.new result }
    {
        let mut bound = Vec::new(scene.alloc);
        'elements: for element in elements {
            bound.push(self.element(scene, element)?)?;
        }
        Ok(bound)
    }

    /// Properties in order.
    #[cycle(trees)]
    #[tactic(auto, unfolding(crate::specs::Binding::bind_expr))]
    fn props(&mut self, scene: &Scene<'_>, props: Vec<Prop>) -> Result<Vec<BoundProp>, Stop>
        ensures { Walks (λ v. map prop_data v.items)
            (in_turn (bind_props (world_at scene.now) (site_at scene.now)
            (tree.to_props (map prop_tree props.items))))
            self.old self.new result }
    {
        let mut bound = Vec::new(scene.alloc);
        'props: for prop in props {
            bound.push(self.prop(scene, prop)?)?;
        }
        Ok(bound)
    }

    /// Holes in order.
    #[cycle(trees)]
    #[tactic(auto, unfolding(crate::specs::Binding::bind_expr))]
    fn holes(&mut self, scene: &Scene<'_>, holes: Vec<Hole>) -> Result<Vec<BoundHole>, Stop>
        ensures { Walks (λ v. map hole_data v.items)
            (in_turn (bind_holes (world_at scene.now) (site_at scene.now)
            (tree.to_holes (map hole_tree holes.items))))
            self.old self.new result }
    {
        let mut bound = Vec::new(scene.alloc);
        'holes: for hole in holes {
            bound.push(self.hole(scene, hole)?)?;
        }
        Ok(bound)
    }
}
