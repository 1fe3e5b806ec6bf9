//! Values, their lists and their fields.
ghost use Rattle.std.specs.Prelude.{◌≡◌, ◌+◌, ◌<◌, ◌^◌, Some, None, length, map, slice_get};
ghost use Rattle.std.specs.Prelude.{IfOk, MatchOption};
ghost use Rattle.std.specs.Option.{option_map};
ghost use Rattle.std.specs.Rc.{rc_value};
ghost use Rattle.std.specs.Str.{bytes_eq};
ghost use Rattle.dscript_value.specs.Depths.{depth_of, field_at, greatest_depth, list_value, IsDeep};
ghost use Rattle.dscript_value.specs.Places.{MayKeepPlaces};
ghost use Rattle.dscript_value.specs.declared.makers.TheConstants.{MAX_DEPTH};
ghost use Rattle.dscript_value.specs.Plain.{item_list, member_list, plain_field, plain_fields};
ghost use Rattle.dscript_value.specs.Plain.{plain_function};
ghost use Rattle.dscript_value.specs.Plain.{plain_of, plain_values, to_items, to_members};

use crate::joining::add_shares;
use crate::objects::{Places, find_placed, share_places};
use crate::parts::{Argument, Artifact, Callee, RelativePath, StaticDir};
use bx_tree::{FileInput, Path, Text};
use std::alloc::{AllocError, Global};
use std::marker::Model;
use std::rc::Rc;

/// A value. Files are source files or files that a pip makes; a process is the number of its pip. The
/// depth of a list, an object or a function is one more than the greatest depth of what it holds, and at
/// most `MAX_DEPTH`; all other values have depth 0.
#[cycle(value)]
#[derive(Drop)]
pub enum Value {
    Undefined,
    Flag(bool),
    Number(i32),
    Text(Text),
    Path(Path),
    File(FileInput),
    Directory(Path),
    Relative(RelativePath),
    Atom(Text),
    List(Values),
    Object(Fields),
    Function(FunctionRef),
    Static(StaticDir),
    Process(u32),
    Artifact(Artifact),
    Argument(Argument),
}

/// Values in order, shared, with the depth of a value that holds them. They are in one piece, or two lists
/// one after another, so that a list which takes over a long one does not copy it.
#[cycle(value)]
#[derive(Drop)]
pub struct Values {
    pub(crate) parts: Parts,
}

// One piece, or two lists.
#[cycle(value)]
#[derive(Drop)]
pub(crate) enum Parts {
    Flat(FlatValues),
    Joined(Rc<Join>),
}

// Two lists one after another: how many items they have, how deep a value is that holds these, and how many joins
// lead to an item at most.
#[cycle(value)]
#[derive(Drop)]
pub(crate) struct Join {
    pub left: Values,
    pub right: Values,
    pub count: usize,
    pub depth: u32,
    pub height: u32,
}

/// Values in one piece, shared, with the depth of a value that holds them.
#[cycle(value)]
#[derive(Drop)]
pub struct FlatValues {
    depth: u32,
    items: Rc<Vec<Value>>,
}

/// The fields of an object in order, shared, with its depth. No two have one name.
#[cycle(value)]
#[derive(Drop)]
pub struct Fields {
    depth: u32,
    fields: Rc<Vec<Field>>,
    places: Option<Rc<Places>>,
}

/// A field of an object.
#[cycle(value)]
#[derive(Drop)]
pub struct Field {
    pub name: Text,
    pub value: Value,
}

/// A function: what it calls, with the values that it captured, or with the one value whose member it is.
#[cycle(value)]
#[derive(Drop)]
pub struct FunctionRef {
    callee: Callee,
    held: FlatValues,
}

impl Model for Values {
    ghost use Rattle.dscript_value.specs.Data.{PlainValues};
    ghost use Rattle.dscript_value.specs.Code.{values_code};

    ghost Value = { PlainValues };

    ghost coded = { values_code };

    ghost use Rattle.dscript_value.specs.Inner.{values_of_parts, IsWhole};
    ghost use Rattle.dscript_value.specs.Weight.{values_size};

    ghost view = { λ v. values_of_parts v.parts };

    ghost invariant = { λ v. IsWhole v.parts };

    ghost size = { values_size };

    ghost use Rattle.dscript_value.specs.Falls.{parts_fall};

    ghost size_decreases = { λ v h. parts_fall v.parts h };
}

impl Model for FlatValues {
    ghost use Rattle.dscript_value.specs.Data.{PlainValues};
    ghost use Rattle.dscript_value.specs.Code.{values_code};

    ghost Value = { PlainValues };

    ghost coded = { values_code };

    ghost use Rattle.std.specs.Prelude.{map};
    ghost use Rattle.std.specs.Rc.{rc_value};
    ghost use Rattle.dscript_value.specs.Data.{to_items};
    ghost use Rattle.dscript_value.specs.Depths.{IsDeep};
    ghost use Rattle.dscript_value.specs.Plain.{plain_of};
    ghost use Rattle.dscript_value.specs.Weight.{flat_size};

    ghost view = { λ f.
        record { depth = f.depth; items = to_items (map plain_of (rc_value f.items).items) } };

    ghost invariant = { λ f.
        IsDeep (record { depth = f.depth; items = to_items (map plain_of (rc_value f.items).items) }) };

    ghost size = { flat_size };

    ghost use Rattle.std.proofs.Common.{arith};
    ghost use Rattle.dscript_value.specs.Falls.{items_fall};

    ghost size_decreases = { λ f h. omega (arith, items_fall (rc_value f.items).items) };
}

impl Model for Fields {
    ghost use Rattle.dscript_value.specs.Data.{PlainFields};
    ghost use Rattle.dscript_value.specs.Code.{fields_code};

    ghost Value = { PlainFields };

    ghost coded = { fields_code };

    ghost use Rattle.std.specs.Prelude.{map};
    ghost use Rattle.std.specs.Option.{option_map};
    ghost use Rattle.std.specs.Rc.{rc_value};
    ghost use Rattle.dscript_value.specs.Data.{to_members};
    ghost use Rattle.dscript_value.specs.Places.{MayKeepPlaces};
    ghost use Rattle.dscript_value.specs.Plain.{plain_field};
    ghost use Rattle.dscript_value.specs.Weight.{fields_size};

    ghost view = { λ f.
        record { depth = f.depth; members = to_members (map plain_field (rc_value f.fields).items) } };

    ghost invariant = { λ f.
        MayKeepPlaces (option_map rc_value f.places) (map plain_field (rc_value f.fields).items) };

    ghost size = { fields_size };

    ghost use Rattle.std.proofs.Common.{arith};
    ghost use Rattle.dscript_value.specs.Falls.{fields_fall};

    ghost size_decreases = { λ f h. omega (arith, fields_fall (rc_value f.fields).items) };
}

impl Value {
    /// How deep the value is.
    pub fn depth(&self) -> u32
        ensures { result ≡ depth_of (plain_of self.now) }
    {
        match self {
            Value::List(values) => values.depth(),
            Value::Object(fields) => fields.depth,
            Value::Function(function) => function.held.depth,
            _ => 0,
        }
    }
}

impl FlatValues {
    // The values in one piece, of which the deepest has this depth.
    pub(crate) fn new(
        alloc: Global,
        deepest: u32,
        items: Vec<Value>,
    ) -> Result<FlatValues, AllocError>
        requires deepest { deepest ≡ greatest_depth (map plain_of items.items) }
        requires within { deepest < MAX_DEPTH }
        ensures { IfOk result (λ values. plain_values values
            ≡ record { depth = deepest + 1; items = to_items (map plain_of items.items) }) }
    {
        Ok(FlatValues {
            depth: deepest + 1,
            items: Rc::new(alloc, items)?,
        })
    }

    /// The values, in order.
    pub fn items(&self) -> &[Value]
        ensures { map plain_of result.now ≡ item_list (plain_values self.now).items }
    {
        self.items.as_slice()
    }

    // The value at a place, counted from 0.
    fn get(&self, at: usize) -> Option<&Value>
        ensures { MatchOption result
            (slice_get (item_list (plain_values self.now).items) at ≡ None)
            (λ value. slice_get (item_list (plain_values self.now).items) at ≡ Some (plain_of value.now)) }
    {
        item_at(self.items(), at)
    }

    /// The values, shared.
    pub fn share(&self) -> Result<FlatValues, AllocError>
        ensures { IfOk result (λ values. plain_values values ≡ plain_values self.now) }
    {
        Ok(FlatValues {
            depth: self.depth,
            items: self.items.clone()?,
        })
    }
}

impl Values {
    /// How many values there are.
    pub fn len(&self) -> usize
        ensures len { result ≡ length (item_list (plain_values self.now).items) }
        ensures countable { result < 2 ^ 63 }
    {
        match &self.parts {
            Parts::Flat(piece) => piece.items().len(),
            Parts::Joined(join) => join.count,
        }
    }

    // The depth of a value that holds these.
    pub(crate) fn depth(&self) -> u32
        ensures depth { result ≡ (plain_values self.now).depth }
        ensures deep { IsDeep (plain_values self.now) }
    {
        match &self.parts {
            Parts::Flat(piece) => piece.depth,
            Parts::Joined(join) => join.depth,
        }
    }

    // The values of one piece.
    pub(crate) fn of(piece: FlatValues) -> Values
        ensures { result ≡ piece }
    {
        // The type of the piece says that its depth is right.
        let _depth = piece.depth;
        Values {
            parts: Parts::Flat(piece),
        }
    }

    // The list of the values.
    pub(crate) fn list(self) -> Value
        ensures { list_value (item_list self.items) ≡ Some (plain_of result) }
    {
        // The type of the list says that its depth is right.
        let _parts = &self.parts;
        Value::List(self)
    }

    // How many joins lead to an item at most.
    pub(crate) fn height(&self) -> u32 {
        match &self.parts {
            Parts::Flat(_) => 0,
            Parts::Joined(join) => join.height,
        }
    }

    /// The value at a place, if there is one.
    pub fn get(&self, at: usize) -> Option<&Value>
        ensures { MatchOption result
            (slice_get (item_list (plain_values self.now).items) at ≡ None)
            (λ value. slice_get (item_list (plain_values self.now).items) at ≡ Some (plain_of value.now)) }
    {
        let mut here = self;
        let mut at = at;
        'down: loop {
            match &here.parts {
                Parts::Flat(piece) => return piece.get(at),
                Parts::Joined(join) => {
                    let join: &Join = join;
                    let first = join.left.len();
                    if at < first {
                        here = &join.left;
                    } else {
                        at -= first;
                        here = &join.right;
                    }
                }
            }
        }
    }

    /// The values, shared.
    pub fn share(&self) -> Result<Values, AllocError>
        ensures { IfOk result (λ values. plain_values values ≡ plain_values self.now) }
    {
        let parts = match &self.parts {
            Parts::Flat(piece) => Parts::Flat(piece.share()?),
            Parts::Joined(join) => Parts::Joined(join.clone()?),
        };
        Ok(Values { parts })
    }

    /// The values in one piece. Each is shared where they are in several.
    pub fn flat(&self, alloc: Global) -> Result<FlatValues, AllocError>
        ensures { IfOk result (λ flat. plain_values flat ≡ plain_values self.now) }
    {
        match &self.parts {
            Parts::Flat(piece) => piece.share(),
            Parts::Joined(_) => flattened(alloc, self),
        }
    }
}

// The item at a place, counted from 0.
fn item_at(items: &[Value], at: usize) -> Option<&Value>
    ensures { MatchOption result
        (slice_get (map plain_of items.now) at ≡ None)
        (λ value. slice_get (map plain_of items.now) at ≡ Some (plain_of value.now)) }
{
    items.get(at)
}

// A list in one piece, each item shared.
fn flattened(alloc: Global, values: &Values) -> Result<FlatValues, AllocError>
    ensures { IfOk result (λ flat. plain_values flat ≡ plain_values values.now) }
{
    let mut items = Vec::new(alloc);
    add_shares(values, &mut items)?;
    FlatValues::new(alloc, values.depth() - 1, items)
}

impl Fields {
    pub(crate) fn new(
        alloc: Global,
        depth: u32,
        fields: Vec<Field>,
        places: Option<Rc<Places>>,
    ) -> Result<Fields, AllocError>
        requires { MayKeepPlaces (option_map rc_value places) (map plain_field fields.items) }
        ensures { IfOk result (λ made. plain_fields made
            ≡ record { depth = depth; members = to_members (map plain_field fields.items) }) }
    {
        Ok(Fields {
            depth,
            fields: Rc::new(alloc, fields)?,
            places,
        })
    }

    /// The fields, in order.
    pub fn fields(&self) -> &[Field]
        ensures { map plain_field result.now ≡ member_list (plain_fields self.now).members }
    {
        self.fields.as_slice()
    }

    /// The value of the field with a name, if there is one.
    pub fn find(&self, name: &[u8]) -> Option<&Value>
        ensures { MatchOption result
            (field_at (member_list (plain_fields self.now).members) name.now ≡ None)
            (λ value. field_at (member_list (plain_fields self.now).members) name.now
            ≡ Some (plain_of value.now)) }
    {
        match &self.places {
            None => find_field(self.fields.as_slice(), name),
            Some(places) => find_placed(self.fields.as_slice(), places, name),
        }
    }

    /// The fields, shared.
    pub fn share(&self) -> Result<Fields, AllocError>
        ensures { IfOk result (λ fields. plain_fields fields ≡ plain_fields self.now) }
    {
        Ok(Fields {
            depth: self.depth,
            fields: self.fields.clone()?,
            places: share_places(&self.places)?,
        })
    }
}

/// The name of a field.
pub fn field_name(field: &Field) -> &[u8]
    ensures { result.now ≡ (plain_field field.now).0 }
{
    field.name.bytes()
}

// Whether a field has a name.
pub(crate) fn has_name(field: &Field, name: &[u8]) -> bool
    ensures { result ≡ bytes_eq (plain_field field.now).0 name.now }
{
    field_name(field) == name
}

// The value of a field.
pub(crate) fn value_of(field: &Field) -> &Value
    ensures { plain_of result.now ≡ (plain_field field.now).1 }
{
    &field.value
}

// The value of the first field with a name.
fn find_field<'a>(fields: &'a [Field], name: &[u8]) -> Option<&'a Value>
    ensures { MatchOption result
        (field_at (map plain_field fields.now) name.now ≡ None)
        (λ value. field_at (map plain_field fields.now) name.now ≡ Some (plain_of value.now)) }
{
    'fields: for field in fields {
        if has_name(field, name) {
            return Some(value_of(field));
        }
    }
    None
}

impl FunctionRef {
    pub(crate) fn new(callee: Callee, held: FlatValues) -> FunctionRef
        ensures { plain_function result ≡ record { callee = callee; held = plain_values held } }
    {
        FunctionRef { callee, held }
    }

    pub(crate) fn held_values(&self) -> &FlatValues
        ensures { plain_values result.now ≡ (plain_function self.now).held }
    {
        &self.held
    }

    /// What the function calls.
    pub fn callee(&self) -> &Callee
        ensures { result.now ≡ (plain_function self.now).callee }
    {
        &self.callee
    }

    /// The values that it captured, or the one whose member it is.
    pub fn held(&self) -> &[Value]
        ensures { map plain_of result.now ≡ item_list (plain_function self.now).held.items }
    {
        self.held.items()
    }
}
