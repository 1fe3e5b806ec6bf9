//! What functions answer, and what the members of lists give that call them.
ghost use Rattle.std.specs.Option.{option_map};
ghost use Rattle.std.specs.Prelude.{◌++◌, ◌+◌, ◌≡◌, IfOk, Some, if◌then◌else◌, max};
ghost use Rattle.dscript_program.specs.Views.{body_data};
ghost use Rattle.dscript_sdk_members.specs.ListMembers.{is_callback};
ghost use Rattle.dscript_sdk_members.specs.Names.{member_named};
ghost use Rattle.dscript_types_known.specs.Views.{finding_data};
ghost use Rattle.dscript_types_known.specs.declared.finding.Finding.TheVariants as findings;
ghost use Rattle.dscript_types_meaning.specs.Bodies.{annotated, if_ends};
ghost use Rattle.dscript_types_meaning.specs.Expressions.{if_callback};
ghost use Rattle.dscript_types_meaning.specs.Functions as rules;
ghost use Rattle.dscript_types_meaning.specs.Types.{never};
ghost use Rattle.dscript_types_meaning.specs.Unions.{is_never};
ghost use Rattle.dscript_types_notes.specs.Means.{IsSound, found_if, raised};
ghost use Rattle.dscript_types_scenes.specs.Functions.{body_typing, inferred_from, reduced, target_answer};
ghost use Rattle.dscript_types_scenes.specs.Scenes.{FindsAnywhere, TypesAs};
ghost use Rattle.dscript_types_scenes.specs.Walks.{finding_types};
ghost use Rattle.dscript_types_scenes.specs.declared.scene.Scene.{Scene as AnyScene};

use crate::ends::may_end;
use crate::found::{Seen, Typing, larger};
use crate::given::{parameter_types, parameters_fit};
use bx_tree::Memory;
use dscript_program::{Body, DeclKind, Target};
use dscript_sdk_members::Member;
use dscript_types_data::{Type, fits, is_list_type, items_of, join_all, undefined_type};
use dscript_types_known::{Finding, one_more};
use dscript_types_notes::{Place, World, names_around};
use std::alloc::Global;

/// The member of this name, if it calls functions.
pub fn callback_member(name: &[u8]) -> Option<Member>
    ensures { result ≡ if_callback (member_named name.now) }
{
    let Some(member) = Member::named(name) else {
        return None;
    };
    if calls_back(member) {
        Some(member)
    } else {
        None
    }
}

// Whether a member of lists calls functions.
#[tactic(auto, unfolding(dscript_sdk_members::specs::ListMembers::is_callback))]
fn calls_back(member: Member) -> bool
    ensures { result ≡ is_callback member }
{
    matches!(
        member,
        Member::Map | Member::Filter | Member::MapMany | Member::Reduce
    )
}

/// What the member gives where its callback answers this. Members of `never` are never.
pub fn member_answer(
    alloc: Global,
    member: Member,
    t: Type,
    item: Type,
    further: Vec<Type>,
    answer: Type,
) -> Result<Option<Type>, Memory>
    ensures { IfOk result (λ found. found
        ≡ (if is_never t then Some never else rules.by_answer member item further.items answer)) }
{
    if t.members().is_empty() {
        Ok(Some(Type::never(alloc)?))
    } else {
        by_answer(alloc, member, item, further, answer)
    }
}

// What the member gives where its callback answers this. What each step of a reduction answers must fit the start.
fn by_answer(
    alloc: Global,
    member: Member,
    item: Type,
    further: Vec<Type>,
    answer: Type,
) -> Result<Option<Type>, Memory>
    ensures { IfOk result (λ found. found ≡ rules.by_answer member item further.items answer) }
{
    match member {
        Member::Map => Ok(Type::list_of(alloc, answer)?.within_limit()),
        Member::Filter => Ok(Type::list_of(alloc, item)?.within_limit()),
        Member::MapMany => {
            if !is_list_type(&answer) {
                return Ok(None);
            }
            Ok(Type::list_of(alloc, items_of(alloc, &answer)?)?.within_limit())
        }
        Member::Reduce => reduced(further.as_slice(), &answer),
        _ => Ok(None),
    }
}

// What a reduction gives: its start, which each step must fit.
fn reduced(further: &[Type], answer: &Type) -> Result<Option<Type>, Memory>
    ensures { IfOk result (λ found. found ≡ reduced further.now answer.now) }
{
    let Some((start, _)) = further.split_first() else {
        return Ok(None);
    };
    if fits(answer, start) {
        Ok(Some(start.share()?))
    } else {
        Ok(None)
    }
}

/// What a declared function answers where this is given.
pub fn function_type(
    world: &World<'_>,
    file: u32,
    decl: u32,
    given: &[Type],
) -> Result<Finding<Type>, Memory>
    requires { IsSound world.now }
    ensures { IfOk result (λ f. FindsAnywhere world.now (finding_data f)
        (λ p known. rules.function_type p known file decl given.now)) }
{
    let Some(declaration) = world.decl(file, decl) else {
        return Ok(Finding::Nothing);
    };
    let (parameters, number) = match &declaration.kind {
        DeclKind::Function(parameters, _, number) => (parameters, number),
        DeclKind::Const(_, _) => return Ok(Finding::Nothing),
        DeclKind::Interface(_, _, _) => return Ok(Finding::Nothing),
        DeclKind::TypeAlias(_, _) => return Ok(Finding::Nothing),
    };
    let Some(function) = world.program.functions().get(*number as usize) else {
        return Ok(Finding::Nothing);
    };
    let around = names_around(world.alloc, declaration)?;
    let place = Place {
        file,
        around: around.as_slice(),
        parameters: parameters.as_slice(),
    };
    let (types, rank) = match parameter_types(world, &place, function.params.as_slice())? {
        Finding::Found(types, rank) => (types, rank),
        Finding::Nothing => return Ok(Finding::Nothing),
        Finding::Open(pending) => return Ok(Finding::Open(pending)),
    };
    let fit = parameters_fit(world.alloc, types.as_slice(), given)?;
    if !fit {
        return Ok(Finding::Nothing);
    }
    raised(rank, world.table.get(file, decl)?)
}

// What is found from a rank on at the earliest.
fn raised(rank: u64, finding: Finding<Type>) -> Result<Finding<Type>, Memory>
    ensures { IfOk result (λ f. finding_data f ≡ raised rank (finding_data finding)) }
{
    match finding {
        Finding::Found(t, from) => Ok(Finding::Found(t, larger(rank, from))),
        Finding::Nothing => Ok(Finding::Nothing),
        Finding::Open(pending) => Ok(Finding::Open(pending)),
    }
}

/// What a declared function answers that stands as a callback.
pub fn declared_answer(
    world: &World<'_>,
    target: Target,
    given: &[Type],
) -> Result<Typing<Type>, Memory>
    requires { IsSound world.now }
    ensures { IfOk result (λ found. (scene : AnyScene) → TypesAs (λ t. t) world.now scene found
        (λ p known c. target_answer p known given.now target)) }
{
    match target {
        Target::Declared { file, decl } => match function_type(world, file, decl, given)? {
            Finding::Found(t, rank) => Ok(Typing::Found(t, Seen::from_rank(rank))),
            Finding::Nothing => Ok(Typing::Nothing),
            Finding::Open(pending) => Ok(Typing::Open(pending)),
        },
        Target::Local(_) => Ok(Typing::Nothing),
        Target::Ambient(_) => Ok(Typing::Nothing),
    }
}

/// With an annotation a function answers that type, unless it may give an undefined that does not fit it.
pub fn annotated(alloc: Global, body: &Body, t: Type, rank: u64) -> Result<Finding<Type>, Memory>
    ensures { IfOk result (λ f. finding_data f ≡ found_if (annotated (body_data body.now) t) rank) }
{
    if !may_end(body) {
        return Ok(Finding::Found(t, rank));
    }
    let undefined = undefined_type(alloc)?;
    if fits(&undefined, &t) {
        Ok(Finding::Found(t, rank))
    } else {
        Ok(Finding::Nothing)
    }
}

/// What a body answers without an annotation, and from which number on each expression in it has a type where so many
/// declarations may be looked into, if it has one at all.
#[derive(Drop)]
pub struct Inside {
    pub answer: Finding<Type>,
    pub right: Option<u64>,
}

/// The union of what is returned, with undefined where the end may be reached.
pub fn inferred(
    alloc: Global,
    ends: bool,
    returns: Finding<Vec<Type>>,
) -> Result<Finding<Type>, Memory>
    ensures { IfOk result (λ f. finding_data f ≡ inferred_from ends (finding_types returns)) }
{
    match returns {
        Finding::Found(types, rank) => {
            let all = with_end(alloc, ends, types)?;
            match join_all(alloc, all.as_slice())?.within_limit() {
                Some(t) => Ok(Finding::Found(t, rank)),
                None => Ok(Finding::Nothing),
            }
        }
        Finding::Nothing => Ok(Finding::Nothing),
        Finding::Open(pending) => Ok(Finding::Open(pending)),
    }
}

// The types of what is returned, after undefined where the end may be reached.
fn with_end(alloc: Global, ends: bool, types: Vec<Type>) -> Result<Vec<Type>, Memory>
    ensures { IfOk result (λ all. all.items ≡ if_ends ends ++ types.items) }
{
    if !ends {
        return Ok(types);
    }
    let mut types = types;
    types.insert(0, undefined_type(alloc)?)?;
    Ok(types)
}

/// What a body comes to, as it is around it, where its scene is found from a rank on.
pub fn above_body(first: u64, inside: Inside) -> Result<Typing<Type>, Memory>
    ensures { IfOk result (λ typing. typing ≡ body_typing first inside.answer inside.right) }
{
    let Inside { answer, right } = inside;
    match answer {
        Finding::Found(t, rank) => found_above(first, t, rank, right),
        Finding::Nothing => Ok(Typing::Nothing),
        Finding::Open(pending) => Ok(Typing::Open(pending)),
    }
}

// A type that is found in a body, as it is around it.
fn found_above(first: u64, t: Type, rank: u64, right: Option<u64>) -> Result<Typing<Type>, Memory>
    ensures { IfOk result (λ typing. typing ≡ body_typing first (findings.Found t rank) right) }
{
    let further = further_by(first, right)?;
    let next = one_more(rank)?;
    Ok(Typing::Found(
        t,
        Seen {
            rank: larger(first, next),
            right: further,
        },
    ))
}

// From where on what holds in a body holds around it.
fn further_by(first: u64, right: Option<u64>) -> Result<Option<u64>, Memory>
    ensures { IfOk result (λ r. r ≡ option_map (λ from. max first (from + 1)) right) }
{
    match right {
        Some(from) => Ok(Some(larger(first, one_more(from)?))),
        None => Ok(None),
    }
}
