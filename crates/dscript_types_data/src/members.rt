//! What the members of a type are.
ghost use Rattle.std.specs.Prelude.{◌≡◌, ◌&&◌, ◌||◌};
ghost use Rattle.dscript_types_data.specs.Views.{member_data};
ghost use Rattle.dscript_types_meaning.specs.Operators as operators;
ghost use Rattle.dscript_types_meaning.specs.Unions as unions;

use crate::types::{Member, Type};
use dscript_types_meaning::Kind;

/// Whether a member is of lists.
pub fn is_list(member: &Member) -> bool
    ensures { result ≡ unions.is_list (member_data member.now) }
{
    matches!(member, Member::Lists(_))
}

/// Whether a member is of objects.
pub fn is_object(member: &Member) -> bool
    ensures { result ≡ unions.is_object (member_data member.now) }
{
    matches!(member, Member::Objects(_))
}

/// Whether a member is undefined.
pub(crate) fn is_undefined(member: &Member) -> bool
    ensures { result ≡ unions.is_undefined (member_data member.now) }
{
    matches!(member, Member::Values(Kind::Undefined))
}

/// Whether each value of the type is a list.
pub fn is_list_type(t: &Type) -> bool
    ensures { result ≡ unions.is_list_type t.now }
{
    'members: for member in t.members() {
        if !is_list(member) {
            return false;
        }
    }
    true
}

/// Whether some value of the type may be a list.
pub fn can_be_list(t: &Type) -> bool
    ensures { result ≡ unions.can_be_list t.now }
{
    'members: for member in t.members() {
        if is_list(member) {
            return true;
        }
    }
    false
}

// Whether some value of the type may be an object.
fn can_be_object(t: &Type) -> bool
    ensures { result ≡ unions.can_be_object t.now }
{
    'members: for member in t.members() {
        if is_object(member) {
            return true;
        }
    }
    false
}

/// Whether two values of these types can be two lists, or two objects.
pub fn may_be_alike(a: &Type, b: &Type) -> bool
    ensures { result ≡ operators.may_be_alike a.now b.now }
{
    can_be_list(a) && can_be_list(b) || can_be_object(a) && can_be_object(b)
}
