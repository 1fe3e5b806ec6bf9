//! Templates and path literals.
ghost use Rattle.std.specs.Prelude.{◌≡◌, ◌++◌, map, Ok, IfOk, MatchResult};
ghost use Rattle.dscript_eval_operators.specs.PathLiterals as spec;
ghost use Rattle.dscript_eval_operators.specs.Texts.{appended_hole};
ghost use Rattle.dscript_program.specs.BoundTree.{to_holes};
ghost use Rattle.dscript_program.specs.Views.{hole_data};
ghost use Rattle.dscript_value.specs.Plain.{plain_of};
ghost use Rattle.dscript_sdk_values.specs.Outcomes.{Refuses};
ghost use Rattle.dscript_eval_meaning.specs.Expressions.{directory, path_holes};
ghost use Rattle.dscript_eval_frames.specs.Made.{Answers};
ghost use Rattle.dscript_eval_frames.specs.Forms.{acts_at, literal_form};
ghost use Rattle.dscript_eval_frames.specs.Keeps.{Comes, IsDone};
ghost use Rattle.dscript_eval_frames.specs.Views.{seen};
ghost use Rattle.dscript_eval_frames.specs.Works.{ended, reader};
ghost use Rattle.dscript_eval_frames.specs.declared.work.ExprWork.TheVariants as expr;
ghost use Rattle.dscript_eval_frames.specs.declared.work.Work.TheVariants as works;

use crate::given::at_once;
use bx_tree::{Memory, Path, Text};
use dscript_ast::PathKind;
use dscript_eval_frames::{
    ExprWork, Literal, Machine, Stop, Work, directory_of, hole_parts, path_of, stop_of,
};
use dscript_eval_operators::{
    add_first_hole, add_literal_hole, add_template_hole, atom_literal, path_literal,
    relative_literal,
};
use dscript_program::BoundHole;
use dscript_sdk_values::{SdkFault, text_value};
use dscript_value::Value;
use std::alloc::Global;

fn add_hole(
    alloc: Global,
    text: &mut Vec<u8>,
    literal: &Literal,
    hole: &Value,
) -> Result<(), SdkFault>
    ensures { MatchResult result
        (λ _. appended_hole text.old.items (reader literal.now (plain_of hole.now)) ≡ Ok text.new.items)
        (λ fault. Refuses fault (reader literal.now (plain_of hole.now))) }
{
    match literal {
        Literal::Template => add_template_hole(alloc, text, hole),
        _ => add_literal_hole(alloc, text, hole),
    }
}

// The bytes of a text, to which more can be added.
fn bytes_of(alloc: Global, text: &Text) -> Result<Vec<u8>, Memory>
    ensures { IfOk result (λ bytes. bytes.items ≡ text.now) }
{
    text.bytes().to_vec(alloc)
}

fn add_text(bytes: &mut Vec<u8>, text: &Text) -> Result<(), Memory>
    ensures { IfOk result (λ _. bytes.new.items ≡ bytes.old.items ++ text.now) }
{
    bytes.extend_from_slice(text.bytes())
}

/// A template or a path literal.
pub fn begin_literal<'a>(
    machine: &mut Machine<'a>,
    text: &'a Text,
    holes: &'a [BoundHole],
    literal: Literal,
) -> Result<(), Stop>
    ensures { Comes result machine.old machine.new (λ v. literal_form v.program (acts_at v) literal
        text.entry.now (to_holes (map hole_data holes.now))) }
{
    let bytes = bytes_of(machine.alloc, text)?;
    other_holes(machine, holes, bytes, literal)
}

/// A path, file or directory literal. A hole with which it begins may be the base.
pub fn begin_path<'a>(
    machine: &mut Machine<'a>,
    letter: PathKind,
    text: &'a Text,
    holes: &'a [BoundHole],
) -> Result<(), Stop>
    ensures { Comes result machine.old machine.new (λ v. path_holes v.program (acts_at v) letter text.now
        (to_holes (map hole_data holes.now))) }
{
    match holes.split_first() {
        Some((hole, others)) => {
            let (e, after) = hole_parts(hole);
            if at_once(machine, e) {
                return first_hole(machine, letter, text, after, others);
            }
            machine.push_two(
                Work::Expr(ExprWork::Value(e)),
                Work::Expr(ExprWork::FirstHole(letter, text, after, others)),
            )
        }
        None => begin_literal(machine, text, holes, Literal::Path(letter, None)),
    }
}

/// The first hole of a path literal, which is given, and then the others.
pub fn first_hole<'a>(
    machine: &mut Machine<'a>,
    letter: PathKind,
    text: &'a Text,
    after: &'a Text,
    others: &'a [BoundHole],
) -> Result<(), Stop>
    ensures { IsDone result machine.old machine.new (works.Expr (expr.FirstHole letter text.entry after.entry
        others.entry)) }
{
    let mut bytes = bytes_of(machine.alloc, text)?;
    match add_first_hole(machine.alloc, &mut bytes, &machine.given) {
        Ok(base) => {
            add_text(&mut bytes, after)?;
            other_holes(machine, others, bytes, Literal::Path(letter, base))
        }
        Err(fault) => Err(stop_of(fault, machine.frame.file)),
    }
}

/// The other holes of a literal, after this text.
pub fn other_holes<'a>(
    machine: &mut Machine<'a>,
    holes: &'a [BoundHole],
    text: Vec<u8>,
    literal: Literal,
) -> Result<(), Stop>
    ensures { IsDone result machine.old machine.new (works.Expr (expr.Holes holes.entry text literal)) }
{
    let mut made = text;
    let mut left = holes;
    'holes: while let Some((hole, others)) = left.split_first() {
        let (e, after) = hole_parts(hole);
        if !at_once(machine, e) {
            return holes_by_work(machine, left, made, literal);
        }
        match add_hole(machine.alloc, &mut made, &literal, &machine.given) {
            Ok(()) => add_text(&mut made, after)?,
            Err(fault) => return Err(stop_of(fault, machine.frame.file)),
        }
        left = others;
    }
    holes_by_work(machine, left, made, literal)
}

// The other holes of a literal, after this text. The first is the next work.
fn holes_by_work<'a>(
    machine: &mut Machine<'a>,
    holes: &'a [BoundHole],
    text: Vec<u8>,
    literal: Literal,
) -> Result<(), Stop>
    ensures { IsDone result machine.old machine.new (works.Expr (expr.Holes holes.entry text literal)) }
{
    match holes.split_first() {
        Some((hole, others)) => {
            let (e, after) = hole_parts(hole);
            machine.push_two(
                Work::Expr(ExprWork::Value(e)),
                Work::Expr(ExprWork::Hole(after, others, text, literal)),
            )
        }
        None => end_literal(machine, text, literal),
    }
}

/// The hole that is given, and then the text after it and the other holes.
pub fn hole<'a>(
    machine: &mut Machine<'a>,
    after: &'a Text,
    others: &'a [BoundHole],
    text: Vec<u8>,
    literal: Literal,
) -> Result<(), Stop>
    ensures { IsDone result machine.old machine.new (works.Expr (expr.Hole after.entry others.entry text
        literal)) }
{
    let mut text = text;
    match add_hole(machine.alloc, &mut text, &literal, &machine.given) {
        Ok(()) => {
            add_text(&mut text, after)?;
            other_holes(machine, others, text, literal)
        }
        Err(fault) => Err(stop_of(fault, machine.frame.file)),
    }
}

// What a literal gives at its whole text.
fn end_literal(machine: &mut Machine<'_>, text: Vec<u8>, literal: Literal) -> Result<(), Stop>
    ensures { Comes result machine.old machine.new (λ v. ended v.program literal text.items) }
{
    match literal {
        Literal::Template => {
            let outcome = text_value(machine.alloc, text);
            machine.finish(outcome)
        }
        Literal::Relative => {
            let outcome = relative_literal(machine.alloc, text.as_slice());
            machine.finish(outcome)
        }
        Literal::Atom => {
            let outcome = atom_literal(machine.alloc, text);
            machine.finish(outcome)
        }
        Literal::Path(letter, base) => {
            let outcome = path_value(machine, letter, base, text.as_slice());
            machine.finish(outcome)
        }
    }
}

// What a path, file or directory literal in the file of the running body gives.
fn path_value(
    machine: &Machine<'_>,
    letter: PathKind,
    base: Option<Path>,
    text: &[u8],
) -> Result<Value, SdkFault>
    ensures { Answers result (spec.path_literal letter
        (directory (seen machine.now).program (seen machine.now).state) base text.now) }
{
    let file = path_of(machine.alloc, machine.program, machine.frame.file)?;
    match directory_of(machine.alloc, &file) {
        Ok(dir) => path_literal(machine.alloc, letter, &dir, base, text),
        Err(_) => Err(SdkFault::Memory),
    }
}
