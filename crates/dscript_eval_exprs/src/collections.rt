//! Lists and objects.
ghost use Rattle.std.specs.Prelude.{map};
ghost use Rattle.dscript_program.specs.BoundTree.{to_elements, to_props};
ghost use Rattle.dscript_program.specs.Views.{element_data, expr_data, prop_data};
ghost use Rattle.dscript_value.specs.Plain.{plain_field};
ghost use Rattle.dscript_eval_meaning.specs.Expressions.{named};
ghost use Rattle.dscript_eval_frames.specs.Forms.{acts_at, field_form, list_form, object_form, value_at};
ghost use Rattle.dscript_eval_frames.specs.Keeps.{Comes, IsDone};
ghost use Rattle.dscript_eval_frames.specs.declared.work.ExprWork.TheVariants as expr;
ghost use Rattle.dscript_eval_frames.specs.declared.work.Work.TheVariants as works;

use crate::given::at_once;
use crate::names::name_value;
use bx_tree::Text;
use dscript_eval_direct::named_parts;
use dscript_eval_frames::{
    ExprWork, Machine, Stop, Work, add_field, element_parts, object_value, push_item, stop_of,
};
use dscript_eval_operators::{add_fields, add_items};
use dscript_program::{BoundElement, BoundExpr, BoundProp, Target};
use dscript_sdk_values::grown_list;
use dscript_value::{Field, GrowingList};

/// The elements of a list.
pub fn begin_list<'a>(machine: &mut Machine<'a>, es: &'a [BoundElement]) -> Result<(), Stop>
    ensures { Comes result machine.old machine.new (λ v. list_form v.program (acts_at v) (to_elements (map
        element_data es.now))) }
{
    let none = GrowingList::new(machine.alloc);
    items(machine, es, none)
}

/// The properties of an object.
pub fn begin_object<'a>(machine: &mut Machine<'a>, ps: &'a [BoundProp]) -> Result<(), Stop>
    ensures { Comes result machine.old machine.new (λ v. object_form v.program (acts_at v) (to_props (map
        prop_data ps.now))) }
{
    let none = Vec::new(machine.alloc);
    fields(machine, ps, none)
}

/// The other elements of a list, after these items.
pub fn items<'a>(
    machine: &mut Machine<'a>,
    es: &'a [BoundElement],
    done: GrowingList,
) -> Result<(), Stop>
    ensures { IsDone result machine.old machine.new (works.Expr (expr.Items es.entry done)) }
{
    let mut made = done;
    let mut left = es;
    'elements: while let Some((element, others)) = left.split_first() {
        let (is_spread, e) = element_parts(element);
        if is_spread {
            return items_by_work(machine, left, made);
        }
        if !at_once(machine, e) {
            return items_by_work(machine, left, made);
        }
        let item = machine.take();
        push_item(&mut made, item)?;
        left = others;
    }
    items_by_work(machine, left, made)
}

// The other elements of a list, after these items. The first is the next work.
fn items_by_work<'a>(
    machine: &mut Machine<'a>,
    es: &'a [BoundElement],
    done: GrowingList,
) -> Result<(), Stop>
    ensures { IsDone result machine.old machine.new (works.Expr (expr.Items es.entry done)) }
{
    let Some((element, others)) = es.split_first() else {
        return machine.finish(grown_list(machine.alloc, done));
    };
    let (is_spread, e) = element_parts(element);
    if is_spread {
        return machine.push_two(
            Work::Expr(ExprWork::Value(e)),
            Work::Expr(ExprWork::SpreadItem(others, done)),
        );
    }
    machine.push_two(
        Work::Expr(ExprWork::Value(e)),
        Work::Expr(ExprWork::Item(others, done)),
    )
}

/// The item that is given, and then the other elements.
pub fn item<'a>(
    machine: &mut Machine<'a>,
    others: &'a [BoundElement],
    done: GrowingList,
) -> Result<(), Stop>
    ensures { IsDone result machine.old machine.new (works.Expr (expr.Item others.entry done)) }
{
    let mut done = done;
    let item = machine.take();
    push_item(&mut done, item)?;
    items(machine, others, done)
}

/// The list that is given, spread, and then the other elements.
pub fn spread_item<'a>(
    machine: &mut Machine<'a>,
    others: &'a [BoundElement],
    done: GrowingList,
) -> Result<(), Stop>
    ensures { IsDone result machine.old machine.new (works.Expr (expr.SpreadItem others.entry done)) }
{
    let mut done = done;
    match add_items(machine.alloc, &mut done, &machine.given) {
        Ok(()) => items(machine, others, done),
        Err(fault) => Err(stop_of(fault, machine.frame.file)),
    }
}

/// The other properties of an object, after these fields.
pub fn fields<'a>(
    machine: &mut Machine<'a>,
    ps: &'a [BoundProp],
    done: Vec<Field>,
) -> Result<(), Stop>
    ensures { IsDone result machine.old machine.new (works.Expr (expr.Fields ps.entry done)) }
{
    let mut made = done;
    let mut left = ps;
    'properties: while let Some((property, others)) = left.split_first() {
        let Some((name, e)) = named_parts(property) else {
            return fields_by_work(machine, left, made);
        };
        if !at_once(machine, e) {
            return fields_by_work(machine, left, made);
        }
        let name = name.share()?;
        let value = machine.take();
        add_field(&mut made, name, value)?;
        left = others;
    }
    fields_by_work(machine, left, made)
}

// The other properties of an object, after these fields. The first is the next work.
fn fields_by_work<'a>(
    machine: &mut Machine<'a>,
    ps: &'a [BoundProp],
    done: Vec<Field>,
) -> Result<(), Stop>
    ensures { IsDone result machine.old machine.new (works.Expr (expr.Fields ps.entry done)) }
{
    let Some((property, others)) = ps.split_first() else {
        return machine.finish(object_value(machine.alloc, done));
    };
    match property {
        BoundProp::Named(name, e) => value_field(machine, name, e, others, done),
        BoundProp::Quoted(name, e) => value_field(machine, name, e, others, done),
        BoundProp::Short(name, target) => match machine.spend(1) {
            Ok(()) => short_field(machine, name, *target, others, done),
            Err(stop) => Err(stop),
        },
        BoundProp::Spread(e) => machine.push_two(
            Work::Expr(ExprWork::Value(e)),
            Work::Expr(ExprWork::SpreadFields(others, done)),
        ),
    }
}

// A field with the value of an expression, and then the other properties.
fn value_field<'a>(
    machine: &mut Machine<'a>,
    name: &'a Text,
    e: &'a BoundExpr,
    others: &'a [BoundProp],
    done: Vec<Field>,
) -> Result<(), Stop>
    ensures { Comes result machine.old machine.new (λ v. field_form v.program (acts_at v) name.now
        (map plain_field done.items) (to_props (map prop_data others.now)) (value_at v (expr_data e.now))) }
{
    machine.push_two(
        Work::Expr(ExprWork::Value(e)),
        Work::Expr(ExprWork::Named(name, others, done)),
    )
}

// A field with the value of its own name, and then the other properties.
fn short_field<'a>(
    machine: &mut Machine<'a>,
    name: &'a Text,
    target: Target,
    others: &'a [BoundProp],
    done: Vec<Field>,
) -> Result<(), Stop>
    ensures { Comes result machine.old machine.new (λ v. field_form v.program (acts_at v) name.now
        (map plain_field done.items) (to_props (map prop_data others.now))
        (named v.program (acts_at v) target)) }
{
    match machine.push(Work::Expr(ExprWork::Named(name, others, done))) {
        Ok(()) => name_value(machine, target),
        Err(stop) => Err(stop),
    }
}

/// The field whose value is given, and then the other properties.
pub fn named_field<'a>(
    machine: &mut Machine<'a>,
    name: &'a Text,
    others: &'a [BoundProp],
    done: Vec<Field>,
) -> Result<(), Stop>
    ensures { IsDone result machine.old machine.new (works.Expr (expr.Named name.entry others.entry done)) }
{
    let mut done = done;
    let name = name.share()?;
    let value = machine.take();
    add_field(&mut done, name, value)?;
    fields(machine, others, done)
}

/// The object that is given, spread, and then the other properties.
pub fn spread_fields<'a>(
    machine: &mut Machine<'a>,
    others: &'a [BoundProp],
    done: Vec<Field>,
) -> Result<(), Stop>
    ensures { IsDone result machine.old machine.new (works.Expr (expr.SpreadFields others.entry done)) }
{
    let mut done = done;
    match add_fields(machine.alloc, &mut done, &machine.given) {
        Ok(()) => fields(machine, others, done),
        Err(fault) => Err(stop_of(fault, machine.frame.file)),
    }
}
