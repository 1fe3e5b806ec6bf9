//! Types, members and fields.
ghost use Rattle.std.specs.Prelude.{◌≡◌, IfOk, map};
ghost use Rattle.dscript_types_data.specs.Views.{AreCounted, IsCounted, NodesOf, field_data, held, member_data, union_data};
ghost use Rattle.dscript_types_meaning.specs.Sizes as sizes;
ghost use Rattle.dscript_types_meaning.specs.Sizes.{within_limit};
ghost use Rattle.dscript_types_meaning.specs.Types.{kind_type, list_type, members_of, never, object_type, of_one};
ghost use Rattle.dscript_types_meaning.specs.Types.{Union, Values, to_members};

use bx_tree::{Memory, Text};
use dscript_types_meaning::{Kind, MAX_TYPE_NODES};
use std::alloc::Global;
use std::marker::Model;
use std::rc::Rc;
use std::slice;

/// A type: the union of its members. Contracts see it as plain data.
#[cycle(types)]
#[derive(Drop)]
pub struct Type {
    members: Rc<Group>,
    // how many nodes it has; the greatest number where there are more
    nodes: u32,
}

// The members of a type. Most types have one, which takes no memory of its own.
#[cycle(types)]
#[derive(Drop)]
enum Group {
    One(Member),
    Many(Vec<Member>),
}

/// The values of a kind, the lists of items of a type, or the objects with fields.
#[cycle(types)]
#[derive(Drop)]
pub enum Member {
    Values(Kind),
    Lists(Type),
    Objects(Fields),
}

/// The fields of an object type, by name.
#[cycle(types)]
#[derive(Drop)]
pub struct Fields {
    items: Rc<Vec<Field>>,
    // how many nodes their types have together; the greatest number where there are more
    nodes: u32,
}

/// A field: one that is optional is missing or holds a value of its type.
#[cycle(types)]
#[derive(Drop)]
pub struct Field {
    pub name: Text,
    pub optional: bool,
    pub type_data: Type,
}

impl Model for Type {
    ghost use Rattle.dscript_types_meaning.specs.Types.{TypeData};
    ghost use Rattle.dscript_types_data.specs.Coded.{types_coded};

    ghost Value = { TypeData };

    ghost coded = { types_coded };

    ghost use Rattle.std.specs.Rc.{rc_value};
    ghost use Rattle.dscript_types_data.specs.Views.{IsCounted, held, union_data};
    ghost use Rattle.dscript_types_data.specs.Weight.{type_size};

    ghost view = { λ t. union_data (held (rc_value t.members)) };

    ghost invariant = { λ t. IsCounted t.nodes (union_data (held (rc_value t.members))) };

    ghost size = { type_size };

    ghost use Rattle.std.proofs.Common.{arith};
    ghost use Rattle.dscript_types_data.specs.Falls.{held_falls};

    ghost size_decreases = { λ t h. omega (arith, held_falls (rc_value t.members)) };
}

impl Model for Fields {
    ghost use Rattle.std.specs.Prelude.{List};
    ghost use Rattle.dscript_types_meaning.specs.Types.{FieldData};
    ghost use Rattle.dscript_types_data.specs.Coded.{fields_coded};

    ghost Value = { List FieldData };

    ghost coded = { fields_coded };

    ghost use Rattle.std.specs.Prelude.{map};
    ghost use Rattle.std.specs.Rc.{rc_value};
    ghost use Rattle.dscript_types_data.specs.Views.{field_data, AreCounted};
    ghost use Rattle.dscript_types_data.specs.Weight.{fields_size};

    ghost view = { λ f. map field_data (rc_value f.items).items };

    ghost invariant = { λ f. AreCounted f.nodes (map field_data (rc_value f.items).items) };

    ghost size = { fields_size };

    ghost use Rattle.std.proofs.Common.{arith};
    ghost use Rattle.dscript_types_data.specs.Falls.{fields_fall};

    ghost size_decreases = { λ f h. omega (arith, fields_fall (rc_value f.items).items) };
}

impl Type {
    // The union of members that are in their order.
    pub(crate) fn of_members(alloc: Global, members: Vec<Member>) -> Result<Type, Memory>
        ensures { IfOk result (λ t. t ≡ union_data members.items) }
    {
        let nodes = nodes_of_union(members.as_slice());
        Ok(Type {
            members: Rc::new(alloc, Group::Many(members))?,
            nodes,
        })
    }

    // The type with this one member.
    pub(crate) fn of_one(alloc: Global, member: Member) -> Result<Type, Memory>
        ensures { IfOk result (λ t. t ≡ of_one (member_data member)) }
    {
        let nodes = member.nodes();
        Ok(Type {
            members: Rc::new(alloc, Group::One(member))?,
            nodes,
        })
    }

    /// The type that no value has.
    pub fn never(alloc: Global) -> Result<Type, Memory>
        ensures { IfOk result (λ t. t ≡ never) }
    {
        Type::of_members(alloc, Vec::new(alloc))
    }

    /// The values of a kind.
    pub fn of_kind(alloc: Global, kind: Kind) -> Result<Type, Memory>
        ensures { IfOk result (λ t. t ≡ kind_type kind) }
    {
        Type::of_one(alloc, Member::Values(kind))
    }

    /// The union of kinds that are in their order, each once.
    pub fn of_kinds(alloc: Global, kinds: &[Kind]) -> Result<Type, Memory>
        ensures { IfOk result (λ t. t ≡ Union (to_members (map Values kinds.now))) }
    {
        let mut members = Vec::new(alloc);
        'kinds: for kind in kinds {
            members.push(Member::Values(*kind))?;
        }
        Type::of_members(alloc, members)
    }

    /// The lists of items of a type, also above the limit.
    pub fn list_of(alloc: Global, item: Type) -> Result<Type, Memory>
        ensures { IfOk result (λ t. t ≡ list_type item) }
    {
        Type::of_one(alloc, Member::Lists(item))
    }

    /// The objects with these fields, also above the limit.
    pub fn object_of(alloc: Global, fields: Vec<Field>) -> Result<Type, Memory>
        ensures { IfOk result (λ t. t ≡ object_type (map field_data fields.items)) }
    {
        let fields = Fields::new(alloc, fields)?;
        Type::of_one(alloc, Member::Objects(fields))
    }

    /// The type, unless it is too large.
    pub fn within_limit(self) -> Option<Type>
        ensures { result ≡ within_limit self }
    {
        if self.nodes <= MAX_TYPE_NODES {
            Some(self)
        } else {
            None
        }
    }

    /// The members, in their order.
    pub fn members(&self) -> &[Member]
        ensures { map member_data result.now ≡ members_of self.now }
    {
        self.members.all()
    }

    /// The type, shared.
    pub fn share(&self) -> Result<Type, Memory>
        ensures { IfOk result (λ t. t ≡ self.now) }
    {
        Ok(Type {
            members: self.members.clone()?,
            nodes: self.nodes,
        })
    }
}

impl Group {
    // All of them, in their order.
    fn all(&self) -> &[Member]
        ensures { result.now ≡ held self.now }
    {
        match self {
            Group::One(member) => slice::from_ref(member),
            Group::Many(members) => members.as_slice(),
        }
    }
}

impl Fields {
    /// Fields that are in the order of their names.
    pub fn new(alloc: Global, fields: Vec<Field>) -> Result<Fields, Memory>
        ensures { IfOk result (λ f. f ≡ map field_data fields.items) }
    {
        let nodes = nodes_of_fields(fields.as_slice());
        Ok(Fields {
            items: Rc::new(alloc, fields)?,
            nodes,
        })
    }

    /// The fields, by name.
    pub fn items(&self) -> &[Field]
        ensures { map field_data result.now ≡ self.now }
    {
        self.items.as_slice()
    }

    /// The fields, shared.
    pub fn share(&self) -> Result<Fields, Memory>
        ensures { IfOk result (λ f. f ≡ self.now) }
    {
        Ok(Fields {
            items: self.items.clone()?,
            nodes: self.nodes,
        })
    }
}

impl Member {
    /// The member, shared.
    pub fn share(&self) -> Result<Member, Memory>
        ensures { IfOk result (λ m. member_data m ≡ member_data self.now) }
    {
        Ok(match self {
            Member::Values(kind) => Member::Values(*kind),
            Member::Lists(item) => Member::Lists(item.share()?),
            Member::Objects(fields) => Member::Objects(fields.share()?),
        })
    }

    // How many nodes the member has.
    #[tactic(auto, unfolding(dscript_types_meaning::specs::Sizes::type_nodes))]
    fn nodes(&self) -> u32
        ensures { NodesOf (member_data self.now) result }
    {
        match self {
            Member::Values(_) => 1,
            Member::Lists(item) => item.nodes.saturating_add(1),
            Member::Objects(fields) => fields.nodes.saturating_add(1),
        }
    }
}

impl Field {
    /// The field, shared.
    pub fn share(&self) -> Result<Field, Memory>
        ensures { IfOk result (λ f. field_data f ≡ field_data self.now) }
    {
        Ok(Field {
            name: self.name.share()?,
            optional: self.optional,
            type_data: self.type_data.share()?,
        })
    }
}

// A union of one member has no node of its own.
fn union_node(members: &[Member]) -> u32
    ensures { result ≡ sizes.union_node (to_members (map member_data members.now)) }
{
    if members.len() == 1 { 0 } else { 1 }
}

// How many nodes the union of these members has.
#[tactic(auto, unfolding(dscript_types_meaning::specs::Sizes::type_nodes))]
fn nodes_of_union(members: &[Member]) -> u32
    ensures { IsCounted result (union_data members.now) }
{
    let mut nodes: u32 = union_node(members);
    'members: for member in members {
        nodes = nodes.saturating_add(member.nodes());
    }
    nodes
}

// How many nodes these fields have together.
#[tactic(auto, unfolding(dscript_types_meaning::specs::Sizes::type_nodes))]
fn nodes_of_fields(fields: &[Field]) -> u32
    ensures { AreCounted result (map field_data fields.now) }
{
    let mut nodes: u32 = 0;
    'fields: for field in fields {
        nodes = nodes.saturating_add(field.type_data.nodes);
    }
    nodes
}
