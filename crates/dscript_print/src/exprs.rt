//! Expressions.

ghost use Rattle.std.specs.Prelude.{◌≡◌, IfOk, ◌++◌, ◌∷◌, [], map, option_map};
ghost use Rattle.dscript_lex.specs.declared.token.TokenKind.TheVariants as kinds;
ghost use Rattle.dscript_grammar.specs.ExprGrammar.{expr_precedence};
ghost use Rattle.dscript_ast.specs.ExprTree.{to_exprs, to_operands, to_parts, to_elements, to_props};
ghost use Rattle.dscript_ast.specs.ExprTree.{to_holes, to_stmts};
ghost use Rattle.dscript_ast.specs.Views.{expr_tree, operand_tree, part_tree, element_tree, prop_tree};
ghost use Rattle.dscript_ast.specs.Views.{hole_tree, stmt_tree};
ghost use Rattle.dscript_print.specs.ExprKinds.{is_object, is_enclosed, prefix_kind, operator_kind};
ghost use Rattle.dscript_print.specs.ExprKinds.{letter_kind, expr_kinds, node_kinds, exprs_kinds};
ghost use Rattle.dscript_print.specs.ExprKinds.{operand_kinds, operands_kinds, part_kinds, parts_kinds};
ghost use Rattle.dscript_print.specs.ExprKinds.{element_kinds, elements_kinds, prop_kinds, props_kinds};
ghost use Rattle.dscript_print.specs.ExprKinds.{holes_kinds, first_text};
ghost use Rattle.dscript_print.specs.Written.{arrow_kinds, block_arrow_kinds, branch_kinds, unary_kinds};
ghost use Rattle.dscript_print.specs.Written.{template_kinds, Writes, middle_run, tail_run};
ghost use Rattle.dscript_print.specs.Runs.{punct, run_if, concat_tokens, separate};

use crate::writer::Writer;
use bx_tree::{Memory, Text};
use dscript_ast::{
    ArrowHead, BinaryOp, Element, Expr, Hole, Operand, PathKind, PostfixPart, Prop, Stmt, UnaryOp,
    precedence,
};
use dscript_lex::TokenKind;

/// The level of any expression.
pub(crate) const ANY_EXPR: u32 = precedence::ARROW;

/// The precedence level of an expression.
fn expr_precedence(expr: &Expr) -> u32
    ensures { result ≡ expr_precedence (expr_tree expr.now) }
{
    match expr {
        Expr::Arrow(_, _) | Expr::BlockArrow(_, _) => precedence::ARROW,
        Expr::Cond(_, _, _) => precedence::CONDITIONAL,
        Expr::Or(_, _) => precedence::OR,
        Expr::And(_, _) => precedence::AND,
        Expr::Equality(_, _) => precedence::EQUALITY,
        Expr::Relation(_, _) => precedence::RELATION,
        Expr::Sum(_, _) => precedence::SUM,
        Expr::Product(_, _) => precedence::PRODUCT,
        Expr::Unary(_, _) => precedence::UNARY,
        Expr::Postfix(_, _) => precedence::POSTFIX,
        _ => precedence::PRIMARY,
    }
}

/// Whether the expression is an object.
fn is_object(expr: &Expr) -> bool
    ensures { result ≡ is_object (expr_tree expr.now) }
{
    matches!(expr, Expr::Object(_))
}

/// Whether an expression needs parentheses where at most this level is allowed and, if the flag is set, no
/// `{` at the start.
fn is_enclosed(expr: &Expr, unbraced: bool, level: u32) -> bool
    ensures { result ≡ is_enclosed unbraced level (expr_tree expr.now) }
{
    level < expr_precedence(expr) || (unbraced && is_object(expr))
}

impl Writer {
    /// Writes an expression where at most this level is allowed and, if the flag is set, no `{` at the start.
    #[cycle(exprs)]
    pub(crate) fn expr(&mut self, expr: &Expr, unbraced: bool, level: u32) -> Result<(), Memory>
        ensures { Writes self.old self.new result (expr_kinds unbraced level (expr_tree expr.now)) }
    {
        if !is_enclosed(expr, unbraced, level) {
            return self.node(expr, unbraced);
        }
        self.punctuator(b"(")?;
        self.node(expr, false)?;
        self.punctuator(b")")
    }

    /// Writes an expression without parentheses around it.
    #[tactic(auto, unfolding(crate::specs::ExprKinds::node_kinds))]
    #[cycle(exprs)]
    fn node(&mut self, expr: &Expr, unbraced: bool) -> Result<(), Memory>
        ensures { Writes self.old self.new result (node_kinds (expr_tree expr.now) unbraced) }
    {
        match expr {
            Expr::Arrow(head, body) => self.arrow(head, body),
            Expr::BlockArrow(head, body) => self.block_arrow(head, body.as_slice()),
            Expr::Cond(test, one, other) => {
                self.expr(test, unbraced, precedence::OR)?;
                self.cond_branch(b"?", one)?;
                self.cond_branch(b":", other)
            }
            Expr::Or(first, others) => {
                self.expr(first, unbraced, precedence::AND)?;
                self.operands(others.as_slice(), precedence::AND)
            }
            Expr::And(first, others) => {
                self.expr(first, unbraced, precedence::EQUALITY)?;
                self.operands(others.as_slice(), precedence::EQUALITY)
            }
            Expr::Equality(first, others) => {
                self.expr(first, unbraced, precedence::RELATION)?;
                self.operands(others.as_slice(), precedence::RELATION)
            }
            Expr::Relation(first, others) => {
                self.expr(first, unbraced, precedence::SUM)?;
                self.operands(others.as_slice(), precedence::SUM)
            }
            Expr::Sum(first, others) => {
                self.expr(first, unbraced, precedence::PRODUCT)?;
                self.operands(others.as_slice(), precedence::PRODUCT)
            }
            Expr::Product(first, others) => {
                self.expr(first, unbraced, precedence::UNARY)?;
                self.operands(others.as_slice(), precedence::UNARY)
            }
            Expr::Unary(operators, value) => self.unary(operators.as_slice(), value),
            Expr::Postfix(value, parts) => {
                self.expr(value, unbraced, precedence::PRIMARY)?;
                self.parts(parts.as_slice())
            }
            Expr::Number(number) => self.number(*number),
            Expr::Str(text) => self.string(text),
            Expr::True => self.keyword(b"true"),
            Expr::False => self.keyword(b"false"),
            Expr::Undefined => self.keyword(b"undefined"),
            Expr::Template(text, holes) => self.template(text, holes.as_slice()),
            Expr::Path(kind, text, holes) => self.path(*kind, text, holes.as_slice()),
            Expr::Name(name) => self.name(name),
            Expr::List(elements) => self.list(elements.as_slice()),
            Expr::Object(props) => self.object(props.as_slice()),
        }
    }

    /// Writes an arrow function whose body is an expression.
    #[cycle(exprs)]
    fn arrow(&mut self, head: &ArrowHead, body: &Expr) -> Result<(), Memory>
        ensures { Writes self.old self.new result (arrow_kinds head.now body.now) }
    {
        self.head(head)?;
        self.fat_arrow()?;
        self.expr(body, true, ANY_EXPR)
    }

    /// Writes an arrow function whose body is a block.
    #[cycle(exprs)]
    fn block_arrow(&mut self, head: &ArrowHead, body: &[Stmt]) -> Result<(), Memory>
        ensures { Writes self.old self.new result (block_arrow_kinds head.now body.now) }
    {
        self.head(head)?;
        self.fat_arrow()?;
        self.block(body)
    }

    /// Writes a branch of a condition, after `?` or `:`.
    #[cycle(exprs)]
    fn cond_branch(&mut self, punctuator: &[u8], value: &Expr) -> Result<(), Memory>
        ensures { Writes self.old self.new result (branch_kinds punctuator.now value.now) }
    {
        self.spaced(punctuator)?;
        self.expr(value, false, ANY_EXPR)
    }

    /// Writes prefix operators and their operand.
    #[cycle(exprs)]
    fn unary(&mut self, operators: &[UnaryOp], value: &Expr) -> Result<(), Memory>
        ensures { Writes self.old self.new result (unary_kinds operators.now value.now) }
    {
        self.prefixes(operators)?;
        self.expr(value, false, precedence::POSTFIX)
    }

    /// Writes operands, each after its operator.
    #[tactic(auto, unfolding(crate::specs::ExprKinds::node_kinds))]
    #[cycle(exprs)]
    fn operands(&mut self, operands: &[Operand], tight: u32) -> Result<(), Memory>
        ensures { Writes self.old self.new result
            (concat_tokens (operands_kinds tight (to_operands (map operand_tree operands.now)))) }
    {
        for operand in operands {
            self.operand(operand, tight)?;
        }
        Ok(())
    }

    /// Writes an operand after its operator.
    #[tactic(auto, unfolding(crate::specs::ExprKinds::node_kinds))]
    #[cycle(exprs)]
    fn operand(&mut self, operand: &Operand, tight: u32) -> Result<(), Memory>
        ensures { Writes self.old self.new result (operand_kinds tight (operand_tree operand.now)) }
    {
        self.operator(operand.operator)?;
        self.expr(&operand.value, false, tight)
    }

    /// Writes an operator, with spaces around it.
    fn operator(&mut self, operator: BinaryOp) -> Result<(), Memory>
        ensures { Writes self.old self.new result (operator_kind operator ∷ []) }
    {
        self.spaced(operator.spelling())
    }

    /// Writes prefix operators.
    fn prefixes(&mut self, operators: &[UnaryOp]) -> Result<(), Memory>
        ensures { Writes self.old self.new result (map prefix_kind operators.now) }
    {
        for operator in operators {
            self.prefix(*operator)?;
        }
        Ok(())
    }

    /// Writes a prefix operator.
    fn prefix(&mut self, operator: UnaryOp) -> Result<(), Memory>
        ensures { Writes self.old self.new result (prefix_kind operator ∷ []) }
    {
        self.punctuator(operator.spelling())
    }

    /// Writes members, indices and calls.
    #[tactic(auto, unfolding(crate::specs::ExprKinds::node_kinds))]
    #[cycle(exprs)]
    fn parts(&mut self, parts: &[PostfixPart]) -> Result<(), Memory>
        ensures { Writes self.old self.new result
            (concat_tokens (parts_kinds (to_parts (map part_tree parts.now)))) }
    {
        for part in parts {
            self.part(part)?;
        }
        Ok(())
    }

    /// Writes a member, an index or a call.
    #[tactic(auto, unfolding(crate::specs::ExprKinds::node_kinds))]
    #[cycle(exprs)]
    fn part(&mut self, part: &PostfixPart) -> Result<(), Memory>
        ensures { Writes self.old self.new result (part_kinds (part_tree part.now)) }
    {
        match part {
            PostfixPart::Member(name) => {
                self.punctuator(b".")?;
                self.name(name)
            }
            PostfixPart::Index(index) => {
                self.punctuator(b"[")?;
                self.expr(index, false, ANY_EXPR)?;
                self.punctuator(b"]")
            }
            PostfixPart::Call(arguments) => {
                self.punctuator(b"(")?;
                self.exprs(arguments.as_slice())?;
                self.punctuator(b")")
            }
        }
    }

    /// Writes expressions with commas between them.
    #[tactic(auto, unfolding(crate::specs::ExprKinds::node_kinds))]
    #[cycle(exprs)]
    fn exprs(&mut self, exprs: &[Expr]) -> Result<(), Memory>
        ensures { Writes self.old self.new result
            (separate "," (exprs_kinds (to_exprs (map expr_tree exprs.now)))) }
    {
        let Some((first, others)) = exprs.split_first() else {
            return Ok(());
        };
        self.expr(first, false, ANY_EXPR)?;
        for one in others {
            self.comma()?;
            self.expr(one, false, ANY_EXPR)?;
        }
        Ok(())
    }

    /// Writes a list.
    #[cycle(exprs)]
    fn list(&mut self, elements: &[Element]) -> Result<(), Memory>
        ensures { Writes self.old self.new result
            (punct "[" ∷ (separate "," (elements_kinds (to_elements (map element_tree elements.now)))
            ++ (punct "]" ∷ []))) }
    {
        self.punctuator(b"[")?;
        self.elements(elements)?;
        self.punctuator(b"]")
    }

    /// Writes elements with commas between them.
    #[tactic(auto, unfolding(crate::specs::ExprKinds::node_kinds))]
    #[cycle(exprs)]
    fn elements(&mut self, elements: &[Element]) -> Result<(), Memory>
        ensures { Writes self.old self.new result
            (separate "," (elements_kinds (to_elements (map element_tree elements.now)))) }
    {
        let Some((first, others)) = elements.split_first() else {
            return Ok(());
        };
        self.element(first)?;
        for one in others {
            self.comma()?;
            self.element(one)?;
        }
        Ok(())
    }

    /// Writes an element.
    #[tactic(auto, unfolding(crate::specs::ExprKinds::node_kinds))]
    #[cycle(exprs)]
    fn element(&mut self, element: &Element) -> Result<(), Memory>
        ensures { Writes self.old self.new result (element_kinds (element_tree element.now)) }
    {
        self.dots_if(element.spread)?;
        self.expr(&element.value, false, ANY_EXPR)
    }

    /// Writes `...` if the flag is set.
    fn dots_if(&mut self, spread: bool) -> Result<(), Memory>
        ensures { Writes self.old self.new result (run_if spread (punct "..." ∷ [])) }
    {
        if spread {
            return self.punctuator(b"...");
        }
        Ok(())
    }

    /// Writes an object.
    #[cycle(exprs)]
    fn object(&mut self, props: &[Prop]) -> Result<(), Memory>
        ensures { Writes self.old self.new result
            (punct "{" ∷ (separate "," (props_kinds (to_props (map prop_tree props.now))) ++ (punct "}"
            ∷ []))) }
    {
        self.punctuator(b"{")?;
        self.props(props)?;
        self.punctuator(b"}")
    }

    /// Writes properties with commas between them.
    #[tactic(auto, unfolding(crate::specs::ExprKinds::node_kinds))]
    #[cycle(exprs)]
    fn props(&mut self, props: &[Prop]) -> Result<(), Memory>
        ensures { Writes self.old self.new result
            (separate "," (props_kinds (to_props (map prop_tree props.now)))) }
    {
        let Some((first, others)) = props.split_first() else {
            return Ok(());
        };
        self.prop(first)?;
        for one in others {
            self.comma()?;
            self.prop(one)?;
        }
        Ok(())
    }

    /// Writes a property.
    #[tactic(auto, unfolding(crate::specs::ExprKinds::node_kinds))]
    #[cycle(exprs)]
    fn prop(&mut self, prop: &Prop) -> Result<(), Memory>
        ensures { Writes self.old self.new result (prop_kinds (prop_tree prop.now)) }
    {
        match prop {
            Prop::Named(name, value) => {
                self.name(name)?;
                self.colon()?;
                self.expr(value, false, ANY_EXPR)
            }
            Prop::Quoted(text, value) => {
                self.string(text)?;
                self.colon()?;
                self.expr(value, false, ANY_EXPR)
            }
            Prop::Short(name) => self.name(name),
            Prop::Spread(value) => {
                self.punctuator(b"...")?;
                self.expr(value, false, ANY_EXPR)
            }
        }
    }

    /// Writes the letter of a literal of paths and names.
    fn letter(&mut self, kind: PathKind) -> Result<(), Memory>
        ensures { Writes self.old self.new result (letter_kind kind ∷ []) }
    {
        match kind {
            PathKind::Path => self.keyword(b"p"),
            PathKind::File => self.keyword(b"f"),
            PathKind::Directory => self.keyword(b"d"),
            PathKind::Relative => self.keyword(b"r"),
            PathKind::Atom => self.keyword(b"a"),
        }
    }

    /// Writes a literal of a path or a name.
    #[cycle(exprs)]
    fn path(&mut self, kind: PathKind, text: &Text, holes: &[Hole]) -> Result<(), Memory>
        ensures { Writes self.old self.new result (letter_kind kind ∷ template_kinds text.now holes.now) }
    {
        self.letter(kind)?;
        self.template(text, holes)
    }

    /// Writes a template.
    #[cycle(exprs)]
    fn template(&mut self, text: &Text, holes: &[Hole]) -> Result<(), Memory>
        ensures { Writes self.old self.new result (template_kinds text.now holes.now) }
    {
        match holes.split_last() {
            None => self.whole(text),
            Some((last, earlier)) => {
                self.first_part(text)?;
                for hole in earlier {
                    self.middle_hole(hole)?;
                }
                self.last_hole(last)
            }
        }
    }

    /// Writes a template without holes.
    fn whole(&mut self, text: &Text) -> Result<(), Memory>
        ensures { Writes self.old self.new result (kinds.Whole text.now ∷ []) }
    {
        self.token(TokenKind::Whole(text.share()?))
    }

    /// Writes the text of a template before its first hole.
    fn first_part(&mut self, text: &Text) -> Result<(), Memory>
        ensures { Writes self.old self.new result (kinds.Head text.now ∷ []) }
    {
        self.token(TokenKind::Head(text.share()?))
    }

    /// Writes a hole and the text between it and the next.
    #[tactic(auto, unfolding(crate::specs::ExprKinds::node_kinds))]
    #[cycle(exprs)]
    fn middle_hole(&mut self, hole: &Hole) -> Result<(), Memory>
        ensures { Writes self.old self.new result (middle_run hole.now) }
    {
        self.expr(&hole.value, false, ANY_EXPR)?;
        self.token(TokenKind::Middle(hole.text.share()?))
    }

    /// Writes the last hole and the text after it.
    #[tactic(auto, unfolding(crate::specs::ExprKinds::node_kinds))]
    #[cycle(exprs)]
    fn last_hole(&mut self, hole: &Hole) -> Result<(), Memory>
        ensures { Writes self.old self.new result (tail_run hole.now) }
    {
        self.expr(&hole.value, false, ANY_EXPR)?;
        self.token(TokenKind::Tail(hole.text.share()?))
    }
}
