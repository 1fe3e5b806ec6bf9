//! What annotations, interfaces and aliases mean.
ghost use Rattle.std.specs.Prelude.{◌≡◌, [], IfOk, Some, map, max};
ghost use Rattle.std.specs.Option.{option_and_then, option_map};
ghost use Rattle.dscript_ast.specs.TypeTree as trees;
ghost use Rattle.dscript_ast.specs.TypeTree.{to_members, to_types};
ghost use Rattle.dscript_ast.specs.Views.{member_tree, type_tree};
ghost use Rattle.dscript_program.specs.ProgramData as kinds;
ghost use Rattle.dscript_program.specs.Views.{kind_data};
ghost use Rattle.dscript_types_data.specs.Views.{field_data, fields_now};
ghost use Rattle.dscript_types_known.specs.Tables.{entry};
ghost use Rattle.dscript_types_known.specs.Views.{finding_data};
ghost use Rattle.dscript_types_meaning.specs.Annotations as rules;
ghost use Rattle.dscript_types_meaning.specs.Functions as functions;
ghost use Rattle.dscript_types_meaning.specs.Sizes.{within_limit};
ghost use Rattle.dscript_types_meaning.specs.Types.{kind_type};
ghost use Rattle.dscript_types_notes.specs.Found.{found_data};
ghost use Rattle.dscript_types_notes.specs.Means.{IsSound, Says, SaysFrom, finding_fields, finding_types, found_if};
ghost use Rattle.dscript_types_notes.specs.Means.{limited_data, meant_at, object_after, raised};

use crate::known_names::undeclared;
use crate::spaces::{FoundType, found_type};
use crate::world::{Place, World};
use bx_tree::{Memory, Text};
use dscript_ast::{Member as MemberNode, TypeNode};
use dscript_program::DeclKind;
use dscript_types_data::{Field, Member, Type, if_optional, join_all, put_field, put_fields};
use dscript_types_known::Finding;
use dscript_types_meaning::{Kind, MAX_TYPE_NODES};
use std::alloc::Global;

// A type, unless it is too large, from this rank on.
fn limited(t: Type, rank: u64) -> Finding<Type>
    ensures { finding_data result ≡ found_if (within_limit t) rank }
{
    match t.within_limit() {
        Some(t) => Finding::Found(t, rank),
        None => Finding::Nothing,
    }
}

// A type that there may not be, unless it is too large.
fn limited_if(t: Option<Type>, rank: u64) -> Finding<Type>
    ensures { finding_data result ≡ found_if (option_and_then within_limit t) rank }
{
    match t {
        Some(t) => limited(t, rank),
        None => Finding::Nothing,
    }
}

fn of_kind(world: &World<'_>, kind: Kind) -> Result<Finding<Type>, Memory>
    ensures { IfOk result (λ f. finding_data f ≡ found_if (Some (kind_type kind)) 0) }
{
    Ok(Finding::Found(world.names.kind(world.alloc, kind)?, 0))
}

/// What a written type means.
#[cycle(meaning)]
#[tactic(auto, using(dscript_ast::proofs::NodeViews::type_views), unfolding(dscript_types_meaning::specs::Annotations::meant))]
pub fn meaning(
    world: &World<'_>,
    place: &Place<'_>,
    node: &TypeNode,
) -> Result<Finding<Type>, Memory>
    requires { IsSound world.now }
    ensures { IfOk result (λ f. Says world.now place.now (finding_data f)
        (λ p known c. rules.meant p known c (type_tree node.now))) }
{
    match node {
        TypeNode::Union(nodes) => union_meaning(world, place, nodes.as_slice()),
        TypeNode::Array(node, count) => array_meaning(world, place, node, *count),
        TypeNode::Named(names, arguments) => named_meaning(
            world,
            place,
            names.as_slice(),
            arguments.as_slice(),
        ),
        TypeNode::Str(_) => of_kind(world, Kind::String),
        TypeNode::Number(_) => of_kind(world, Kind::Number),
        TypeNode::Undefined => of_kind(world, Kind::Undefined),
        TypeNode::True => of_kind(world, Kind::Boolean),
        TypeNode::False => of_kind(world, Kind::Boolean),
        TypeNode::Body(members) => object_meaning(
            world,
            place,
            members.as_slice(),
            Vec::new(world.alloc),
            0,
        ),
        TypeNode::Function(_, _) => Ok(Finding::Nothing),
    }
}

// A union of written types.
#[cycle(meaning)]
#[tactic(auto, unfolding(dscript_types_meaning::specs::Annotations::meant))]
fn union_meaning(
    world: &World<'_>,
    place: &Place<'_>,
    nodes: &[TypeNode],
) -> Result<Finding<Type>, Memory>
    requires { IsSound world.now }
    ensures { IfOk result (λ f. Says world.now place.now (finding_data f)
        (λ p known c. rules.meant p known c (trees.Union (to_types (map type_tree nodes.now))))) }
{
    match all_meanings(world, place, nodes)? {
        Finding::Found(types, rank) => Ok(limited(join_all(world.alloc, types.as_slice())?, rank)),
        Finding::Nothing => Ok(Finding::Nothing),
        Finding::Open(pending) => Ok(Finding::Open(pending)),
    }
}

// What each of these means, if each means something.
#[cycle(meaning)]
#[tactic(auto, unfolding(dscript_types_meaning::specs::Annotations::meant))]
fn all_meanings(
    world: &World<'_>,
    place: &Place<'_>,
    nodes: &[TypeNode],
) -> Result<Finding<Vec<Type>>, Memory>
    requires { IsSound world.now }
    ensures { IfOk result (λ f. Says world.now place.now (finding_types f)
        (λ p known c. rules.all_meant p known c (to_types (map type_tree nodes.now)))) }
{
    let mut types = Vec::new(world.alloc);
    let mut rank = 0;
    'nodes: for node in nodes {
        match meaning(world, place, node)? {
            Finding::Found(t, from) => {
                types.push(t)?;
                rank = larger(rank, from);
            }
            Finding::Nothing => return Ok(Finding::Nothing),
            Finding::Open(pending) => return Ok(Finding::Open(pending)),
        }
    }
    Ok(Finding::Found(types, rank))
}

// The greater of two ranks.
fn larger(a: u64, b: u64) -> u64
    ensures { result ≡ max a b }
{
    if a < b { b } else { a }
}

// The lists of lists of a type, one for each of this number.
fn lists_of(alloc: Global, count: usize, item: Type) -> Result<Type, Memory>
    ensures { IfOk result (λ t. t ≡ rules.lists_of count item) }
{
    let mut t = item;
    let mut left = count;
    'lists: while left > 0 {
        t = Type::list_of(alloc, t)?;
        left -= 1;
    }
    Ok(t)
}

// Lists of a written type. With more brackets than nodes are allowed the type is too large in any case.
#[cycle(meaning)]
#[tactic(auto, unfolding(dscript_types_meaning::specs::Annotations::meant))]
fn array_meaning(
    world: &World<'_>,
    place: &Place<'_>,
    node: &TypeNode,
    count: usize,
) -> Result<Finding<Type>, Memory>
    requires { IsSound world.now }
    ensures { IfOk result (λ f. Says world.now place.now (finding_data f)
        (λ p known c. rules.meant p known c (trees.Array (type_tree node.now) count))) }
{
    if count > MAX_TYPE_NODES as usize {
        return Ok(Finding::Nothing);
    }
    match meaning(world, place, node)? {
        Finding::Found(t, rank) => Ok(limited(lists_of(world.alloc, count, t)?, rank)),
        Finding::Nothing => Ok(Finding::Nothing),
        Finding::Open(pending) => Ok(Finding::Open(pending)),
    }
}

// A dotted name with type arguments.
#[cycle(meaning)]
#[tactic(auto, unfolding(dscript_types_meaning::specs::Annotations::meant))]
fn named_meaning(
    world: &World<'_>,
    place: &Place<'_>,
    names: &[Text],
    arguments: &[TypeNode],
) -> Result<Finding<Type>, Memory>
    requires { IsSound world.now }
    ensures { IfOk result (λ f. Says world.now place.now (finding_data f)
        (λ p known c. rules.meant p known c (trees.Named names.now (to_types (map type_tree arguments.now))))) }
{
    match all_meanings(world, place, arguments)? {
        Finding::Found(types, rank) => named_type(world, place, names, types.as_slice(), rank),
        Finding::Nothing => Ok(Finding::Nothing),
        Finding::Open(pending) => Ok(Finding::Open(pending)),
    }
}

// Whether a dotted name begins with a type parameter.
fn is_parameter(parameters: &[Text], names: &[Text]) -> bool
    ensures { result ≡ rules.is_parameter parameters.now names.now }
{
    let Some(first) = names.first() else {
        return false;
    };
    'parameters: for parameter in parameters {
        if first.bytes() == parameter.bytes() {
            return true;
        }
    }
    false
}

// The type of a dotted name with arguments of these types, which are known from a rank on.
fn named_type(
    world: &World<'_>,
    place: &Place<'_>,
    names: &[Text],
    arguments: &[Type],
    rank: u64,
) -> Result<Finding<Type>, Memory>
    requires { IsSound world.now }
    ensures { IfOk result (λ f. SaysFrom world.now place.now rank (finding_data f)
        (λ p known c. option_and_then within_limit (rules.named_type p known c names.now arguments.now))) }
{
    if is_parameter(place.parameters, names) {
        return Ok(Finding::Nothing);
    }
    match found_type(world, place.file, place.around, names)? {
        Some(found) => found_meaning(world, &found, arguments, rank),
        None => Ok(limited_if(
            undeclared(world.names, world.alloc, names, arguments)?,
            rank,
        )),
    }
}

// What a declared type means that is found by a name. Nothing may be left over of the name, and it takes no arguments.
fn found_meaning(
    world: &World<'_>,
    found: &FoundType<'_>,
    arguments: &[Type],
    rank: u64,
) -> Result<Finding<Type>, Memory>
    ensures { IfOk result (λ f. finding_data f
        ≡ meant_at world.now.table.now (found_data found.now).0 (found_data found.now).1 arguments.now rank) }
{
    if !found.rest.is_empty() {
        return Ok(Finding::Nothing);
    }
    if !arguments.is_empty() {
        return Ok(Finding::Nothing);
    }
    declared(world, found.file, found.decl, rank)
}

// What a declared type means.
fn declared(world: &World<'_>, file: u32, decl: u32, rank: u64) -> Result<Finding<Type>, Memory>
    ensures { IfOk result (λ f. finding_data f ≡ raised rank (limited_data (entry world.now.table.now file decl))) }
{
    match world.table.get(file, decl)? {
        Finding::Found(t, from) => Ok(limited(t, larger(rank, from))),
        Finding::Nothing => Ok(Finding::Nothing),
        Finding::Open(pending) => Ok(Finding::Open(pending)),
    }
}

// The objects with these fields, which are known from a rank on, and then those of members. Too many fields make it too
// large, whatever comes after them.
#[cycle(meaning)]
#[tactic(auto, unfolding(dscript_types_meaning::specs::Annotations::meant))]
fn object_meaning(
    world: &World<'_>,
    place: &Place<'_>,
    members: &[MemberNode],
    done: Vec<Field>,
    rank: u64,
) -> Result<Finding<Type>, Memory>
    requires { IsSound world.now }
    ensures { IfOk result (λ f. SaysFrom world.now place.now rank (finding_data f)
        (λ p known c. object_after p known c (to_members (map member_tree members.now)) (fields_now done))) }
{
    let mut done = done;
    let mut rank = rank;
    'members: for member in members {
        let (name, optional, node) = match member {
            MemberNode::Property(name, optional, node) => (name, *optional, node),
            MemberNode::Method(_, _, _, _) => return Ok(Finding::Nothing),
        };
        if done.len() > MAX_TYPE_NODES as usize {
            return Ok(Finding::Nothing);
        }
        match meaning(world, place, node)? {
            Finding::Found(t, from) => {
                put_field(&mut done, new_field(name, optional, t)?)?;
                rank = larger(rank, from);
            }
            Finding::Nothing => return Ok(Finding::Nothing),
            Finding::Open(pending) => return Ok(Finding::Open(pending)),
        }
    }
    Ok(limited(Type::object_of(world.alloc, done)?, rank))
}

fn new_field(name: &Text, optional: bool, t: Type) -> Result<Field, Memory>
    ensures { IfOk result (λ f. field_data f
        ≡ record { name = name.now; optional = optional; type_data = t }) }
{
    Ok(Field {
        name: name.share()?,
        optional,
        type_data: t,
    })
}

/// What an annotation means; one with `?` may be undefined too.
pub fn noted(
    world: &World<'_>,
    place: &Place<'_>,
    optional: bool,
    node: &TypeNode,
) -> Result<Finding<Type>, Memory>
    requires { IsSound world.now }
    ensures { IfOk result (λ f. Says world.now place.now (finding_data f)
        (λ p known c. functions.noted p known c optional (type_tree node.now))) }
{
    match meaning(world, place, node)? {
        Finding::Found(t, rank) => Ok(limited(if_optional(world.alloc, optional, &t)?, rank)),
        Finding::Nothing => Ok(Finding::Nothing),
        Finding::Open(pending) => Ok(Finding::Open(pending)),
    }
}

// The fields of a type that is one object type.
fn one_object(alloc: Global, t: &Type) -> Result<Option<Vec<Field>>, Memory>
    ensures { IfOk result (λ fields. option_map fields_now fields ≡ rules.one_object t.now) }
{
    match t.members().split_first() {
        None => Ok(None),
        Some((member, others)) => {
            if !others.is_empty() {
                return Ok(None);
            }
            match member {
                Member::Values(_) => Ok(None),
                Member::Lists(_) => Ok(None),
                Member::Objects(fields) => Ok(Some(shared_fields(alloc, fields.items())?)),
            }
        }
    }
}

fn shared_fields(alloc: Global, fields: &[Field]) -> Result<Vec<Field>, Memory>
    ensures { IfOk result (λ copy. fields_now copy ≡ map field_data fields.now) }
{
    let mut copy = Vec::with_capacity(alloc, fields.len())?;
    'fields: for field in fields {
        copy.push(field.share()?)?;
    }
    Ok(copy)
}

// The fields that an interface gets from what it extends, of which the later count.
fn extended(
    world: &World<'_>,
    place: &Place<'_>,
    nodes: &[TypeNode],
) -> Result<Finding<Vec<Field>>, Memory>
    requires { IsSound world.now }
    ensures { IfOk result (λ f. Says world.now place.now (finding_fields f)
        (λ p known c. rules.extended p known c (map type_tree nodes.now) [])) }
{
    let mut done = Vec::new(world.alloc);
    let mut rank = 0;
    'nodes: for node in nodes {
        let (t, from) = match meaning(world, place, node)? {
            Finding::Found(t, from) => (t, from),
            Finding::Nothing => return Ok(Finding::Nothing),
            Finding::Open(pending) => return Ok(Finding::Open(pending)),
        };
        match one_object(world.alloc, &t)? {
            Some(fields) => put_fields(&mut done, fields)?,
            None => return Ok(Finding::Nothing),
        }
        rank = larger(rank, from);
    }
    Ok(Finding::Found(done, rank))
}

// An interface without type parameters: the fields of what it extends, and its own.
fn interface_type(
    world: &World<'_>,
    place: &Place<'_>,
    nodes: &[TypeNode],
    members: &[MemberNode],
) -> Result<Finding<Type>, Memory>
    requires { IsSound world.now }
    ensures { IfOk result (λ f. Says world.now place.now (finding_data f)
        (λ p known c. rules.declared_type p known c
        (kinds.Interface [] (map type_tree nodes.now) (map member_tree members.now)))) }
{
    match extended(world, place, nodes)? {
        Finding::Found(fields, rank) => object_meaning(world, place, members, fields, rank),
        Finding::Nothing => Ok(Finding::Nothing),
        Finding::Open(pending) => Ok(Finding::Open(pending)),
    }
}

/// What an interface or an alias means, which has no type parameters.
pub fn declared_type(
    world: &World<'_>,
    place: &Place<'_>,
    kind: &DeclKind,
) -> Result<Finding<Type>, Memory>
    requires { IsSound world.now }
    ensures { IfOk result (λ f. Says world.now place.now (finding_data f)
        (λ p known c. rules.declared_type p known c (kind_data kind.now))) }
{
    match kind {
        DeclKind::Interface(parameters, nodes, members) => {
            if !parameters.is_empty() {
                return Ok(Finding::Nothing);
            }
            interface_type(world, place, nodes.as_slice(), members.as_slice())
        }
        DeclKind::TypeAlias(parameters, node) => {
            if !parameters.is_empty() {
                return Ok(Finding::Nothing);
            }
            meaning(world, place, node)
        }
        DeclKind::Const(_, _) => Ok(Finding::Nothing),
        DeclKind::Function(_, _, _) => Ok(Finding::Nothing),
    }
}
