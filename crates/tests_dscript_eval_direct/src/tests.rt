use bx_tree::Text;
use dscript_ast::BinaryOp;
use dscript_eval_direct::{Known, MAX_NESTING, named_parts, value_now};
use dscript_program::{Ambient, BoundExpr, BoundOperand, BoundPart, BoundProp, Program, Target};
use dscript_value::Value;
use std::alloc::Global;
use std::test::Fail;

/// The local 4 less one.
fn difference(alloc: Global) -> Result<BoundExpr, Fail> {
    let mut more = Vec::new(alloc);
    more.push(BoundOperand {
        operator: BinaryOp::Subtract,
        value: BoundExpr::Number(1),
    })?;
    let local = BoundExpr::Name(Target::Local(4));
    Ok(BoundExpr::Chain(Box::new(alloc, local)?, more))
}

/// A program without files.
fn no_program(alloc: Global) -> Program {
    Program {
        files: Vec::new(alloc),
        functions: Vec::new(alloc),
    }
}

/// What is known where locals from this number on have these values.
fn known_in<'a>(program: &'a Program, first: u32, own: &'a [Value]) -> Known<'a> {
    Known {
        program,
        file: 0,
        first,
        own,
        constants: &[],
    }
}

/// Whether the number 6 was found, with 7 steps left.
fn is_six(found: Option<(Value, u64)>) -> bool {
    matches!(&found, Some((Value::Number(6), 7)))
}

#[test]
fn what_locals_and_numbers_come_to_is_found_at_once(rt: HostRuntime) -> Result<(), Fail> {
    let e = difference(rt.alloc())?;
    let own = [Value::Number(7)];
    let program = no_program(rt.alloc());
    let known = known_in(&program, 4, &own);
    let found = value_now(rt.alloc(), &known, &e, 10, MAX_NESTING);
    assert!(rt; is_six(found));
    Ok(())
}

/// `Cmd.argument("a")`
fn argument(alloc: Global) -> Result<BoundExpr, Fail> {
    let mut arguments = Vec::new(alloc);
    arguments.push(BoundExpr::Str(Text::new(alloc, b"a".to_vec(alloc)?)?))?;
    let mut parts = Vec::new(alloc);
    parts.push(BoundPart::Call(arguments))?;
    let call = BoundExpr::Name(Target::Ambient(Ambient::CmdArgument));
    Ok(BoundExpr::Postfix(Box::new(alloc, call)?, parts))
}

/// Whether an argument of the text `a` was found, with 7 steps left.
fn is_argument(found: Option<(Value, u64)>) -> bool {
    match &found {
        Some((Value::Argument(argument), 7)) => match argument.text() {
            Some(text) => text.bytes() == b"a".as_slice() && argument.artifact().is_none(),
            None => false,
        },
        _ => false,
    }
}

#[test]
fn what_a_call_gives_that_changes_nothing_is_found_at_once(rt: HostRuntime) -> Result<(), Fail> {
    let e = argument(rt.alloc())?;
    let program = no_program(rt.alloc());
    let known = known_in(&program, 0, &[]);
    let found = value_now(rt.alloc(), &known, &e, 10, MAX_NESTING);
    assert!(rt; is_argument(found));
    Ok(())
}

/// Whether a property has the name `a` and the number 1.
fn is_one(property: &BoundProp) -> bool {
    match named_parts(property) {
        Some((name, BoundExpr::Number(1))) => name.bytes() == b"a".as_slice(),
        _ => false,
    }
}

#[test]
fn a_property_has_its_name_and_its_expression(rt: HostRuntime) -> Result<(), Fail> {
    let name = Text::new(rt.alloc(), b"a".to_vec(rt.alloc())?)?;
    let property = BoundProp::Named(name, BoundExpr::Number(1));
    assert!(rt; is_one(&property));
    Ok(())
}
