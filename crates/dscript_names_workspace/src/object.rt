//! Objects of which all fields are known.

ghost use Rattle.std.specs.Prelude.{◌≡◌, None, Some, MatchOption, map, nat_le, count_by};
ghost use Rattle.std.specs.List.{list_any};
ghost use Rattle.dscript_ast.specs.Views.{expr_tree, prop_tree};
ghost use Rattle.dscript_names_workspace.specs.Objects.{are_fields as fields_are, are_known as known_fields};
ghost use Rattle.dscript_names_workspace.specs.Objects.{are_once as given_once, field_named as named_field};
ghost use Rattle.dscript_names_workspace.specs.Objects.{has_name as name_is};
ghost use Rattle.dscript_names_workspace.specs.Objects.{object_with as object_of, value_named as named_value};
ghost use Rattle.bx_tree.specs.Lent.{texts_now};

use dscript_ast::{Expr, Prop};

/// The value of a property that is written with this name and a value.
fn value_named<'a>(prop: &'a Prop, name: &[u8]) -> Option<&'a Expr>
    ensures { MatchOption result
        (named_value name.now (prop_tree prop.entry.now) ≡ None)
        (λ value. named_value name.now (prop_tree prop.entry.now) ≡ Some (expr_tree value.now)) }
{
    match prop {
        Prop::Named(own, value) if own.bytes() == name => Some(value),
        Prop::Quoted(own, value) if own.bytes() == name => Some(value),
        _ => None,
    }
}

fn has_name(prop: &Prop, name: &[u8]) -> bool
    ensures { result ≡ name_is name.now (prop_tree prop.now) }
{
    value_named(prop, name).is_some()
}

/// The value of the first property with this name.
pub(crate) fn field_named<'a>(props: &'a [Prop], name: &[u8]) -> Option<&'a Expr>
    ensures { MatchOption result
        (named_field name.now (map prop_tree props.entry.now) ≡ None)
        (λ value. named_field name.now (map prop_tree props.entry.now) ≡ Some (expr_tree value.now)) }
{
    'props: for prop in props {
        if let Some(value) = value_named(prop, name) {
            return Some(value);
        }
    }
    None
}

/// Whether a property has one of these names.
fn is_known(prop: &Prop, names: &[&[u8]]) -> bool
    ensures { result ≡ list_any (λ name. name_is name (prop_tree prop.now)) (texts_now names.now) }
{
    'names: for name in names {
        if has_name(prop, name) {
            return true;
        }
    }
    false
}

fn are_known(props: &[Prop], names: &[&[u8]]) -> bool
    ensures { result ≡ known_fields (texts_now names.now) (map prop_tree props.now) }
{
    'props: for prop in props {
        if !is_known(prop, names) {
            return false;
        }
    }
    true
}

/// Whether at most one property has this name.
fn is_once(props: &[Prop], name: &[u8]) -> bool
    ensures { result ≡ nat_le (count_by (name_is name.now) (map prop_tree props.now)) 1 }
{
    props.iter().filter(|prop| has_name(prop, name)).count() <= 1
}

fn are_once(props: &[Prop], names: &[&[u8]]) -> bool
    ensures { result ≡ given_once (texts_now names.now) (map prop_tree props.now) }
{
    'names: for name in names {
        if !is_once(props, name) {
            return false;
        }
    }
    true
}

/// Whether each property has one of these names, and none of the names is given twice.
fn are_fields(props: &[Prop], names: &[&[u8]]) -> bool
    ensures { result ≡ fields_are (texts_now names.now) (map prop_tree props.now) }
{
    are_known(props, names) && are_once(props, names)
}

/// The properties of an object that has no other fields than these.
pub(crate) fn object_with<'a>(value: &'a Expr, names: &[&[u8]]) -> Option<&'a [Prop]>
    ensures { MatchOption result
        (object_of (texts_now names.now) (expr_tree value.entry.now) ≡ None)
        (λ props. object_of (texts_now names.now) (expr_tree value.entry.now)
        ≡ Some (map prop_tree props.now)) }
{
    let Expr::Object(props) = value else {
        return None;
    };
    if are_fields(props.as_slice(), names) {
        Some(props.as_slice())
    } else {
        None
    }
}
