//! The members by name.
ghost use Rattle.std.specs.Prelude.{◌≡◌, ◌≢◌, find, MatchOption};
ghost use Rattle.std.specs.Str.{bytes_eq};
ghost use Rattle.dscript_sdk_members.specs.Names.{member_named, written_name};
ghost use Rattle.dscript_sdk_members.specs.declared.member.Member.{Member as AnyMember};

/// A member of some kind of value.
#[derive(Clone, Copy, Debug, PartialEq, Eq)]
pub enum Member {
    Length,
    Contains,
    StartsWith,
    EndsWith,
    Split,
    Concat,
    Join,
    Map,
    Filter,
    MapMany,
    Reduce,
    Name,
    Parent,
    Path,
    Combine,
    ChangeExtension,
    Root,
    GetFile,
    GetContent,
    GetOutputFile,
    GetOutputDirectory,
}

/// All members.
pub const MEMBERS: [Member; 21] = [
    Member::Length,
    Member::Contains,
    Member::StartsWith,
    Member::EndsWith,
    Member::Split,
    Member::Concat,
    Member::Join,
    Member::Map,
    Member::Filter,
    Member::MapMany,
    Member::Reduce,
    Member::Name,
    Member::Parent,
    Member::Path,
    Member::Combine,
    Member::ChangeExtension,
    Member::Root,
    Member::GetFile,
    Member::GetContent,
    Member::GetOutputFile,
    Member::GetOutputDirectory,
];

// The first of the members with this written name.
fn find_named(members: &[Member], name: &[u8]) -> Option<Member>
    ensures { result ≡ find (λ member. bytes_eq (written_name member) name.now) members.now }
{
    'members: for member in members {
        if member.name().as_bytes() == name {
            return Some(*member);
        }
    }
    None
}

impl Member {
    /// The name as it is written in a specification.
    #[tactic(auto, unfolding(crate::specs::Names::written_name))]
    pub fn name(self) -> &'static str
        ensures { result.now ≡ written_name self }
    {
        match self {
            Member::Length => "length",
            Member::Contains => "contains",
            Member::StartsWith => "startsWith",
            Member::EndsWith => "endsWith",
            Member::Split => "split",
            Member::Concat => "concat",
            Member::Join => "join",
            Member::Map => "map",
            Member::Filter => "filter",
            Member::MapMany => "mapMany",
            Member::Reduce => "reduce",
            Member::Name => "name",
            Member::Parent => "parent",
            Member::Path => "path",
            Member::Combine => "combine",
            Member::ChangeExtension => "changeExtension",
            Member::Root => "root",
            Member::GetFile => "getFile",
            Member::GetContent => "getContent",
            Member::GetOutputFile => "getOutputFile",
            Member::GetOutputDirectory => "getOutputDirectory",
        }
    }

    /// The member with this written name.
    pub fn named(name: &[u8]) -> Option<Member>
        ensures value { result ≡ member_named name.now }
        ensures only { MatchOption result
            ((member : AnyMember) → written_name member ≢ name.now)
            (λ member. written_name member ≡ name.now) }
    {
        find_named(&MEMBERS, name)
    }
}
