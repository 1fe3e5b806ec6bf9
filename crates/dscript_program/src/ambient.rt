//! The calls, each with its written name.
ghost use Rattle.std.specs.Prelude.{◌≡◌, ◌≢◌, ℕ, List, MatchOption, All};
ghost use Rattle.dscript_program.specs.Ambient.{written_name};
ghost use Rattle.dscript_program.specs.declared.ambient.Ambient.{Ambient as AnyCall};

/// An ambient call of DScript.
#[derive(Clone, Copy, Debug, PartialEq, Eq)]
pub enum Ambient {
    WriteAllText,
    WriteAllLines,
    CopyFile,
    SealDirectory,
    SealPartialDirectory,
    SealSourceDirectory,
    Execute,
    CmdArgument,
    CmdOption,
    CmdFlag,
    ArtifactInput,
    ArtifactOutput,
    ArtifactNone,
    NewOutputDirectory,
    Fail,
    Assert,
    Requires,
    Glob,
    GlobRecursive,
}

/// All ambient calls.
pub const AMBIENT_CALLS: [Ambient; 19] = [
    Ambient::WriteAllText,
    Ambient::WriteAllLines,
    Ambient::CopyFile,
    Ambient::SealDirectory,
    Ambient::SealPartialDirectory,
    Ambient::SealSourceDirectory,
    Ambient::Execute,
    Ambient::CmdArgument,
    Ambient::CmdOption,
    Ambient::CmdFlag,
    Ambient::ArtifactInput,
    Ambient::ArtifactOutput,
    Ambient::ArtifactNone,
    Ambient::NewOutputDirectory,
    Ambient::Fail,
    Ambient::Assert,
    Ambient::Requires,
    Ambient::Glob,
    Ambient::GlobRecursive,
];

// The first of the calls with this written name.
fn find_named(calls: &[Ambient], name: &[u8]) -> Option<Ambient>
    ensures { MatchOption result
        (All (λ call. written_name call ≢ name.now) calls.now)
        (λ call. written_name call ≡ name.now) }
{
    'calls: for call in calls {
        if call.name().as_bytes() == name {
            return Some(*call);
        }
    }
    None
}

impl Ambient {
    /// The name as it is written in a specification, with its namespace where it has one.
    #[tactic(auto, unfolding(crate::specs::Ambient::written_name))]
    pub fn name(self) -> &'static str
        ensures { result.now ≡ written_name self }
    {
        match self {
            Ambient::WriteAllText => "Transformer.writeAllText",
            Ambient::WriteAllLines => "Transformer.writeAllLines",
            Ambient::CopyFile => "Transformer.copyFile",
            Ambient::SealDirectory => "Transformer.sealDirectory",
            Ambient::SealPartialDirectory => "Transformer.sealPartialDirectory",
            Ambient::SealSourceDirectory => "Transformer.sealSourceDirectory",
            Ambient::Execute => "Transformer.execute",
            Ambient::CmdArgument => "Cmd.argument",
            Ambient::CmdOption => "Cmd.option",
            Ambient::CmdFlag => "Cmd.flag",
            Ambient::ArtifactInput => "Artifact.input",
            Ambient::ArtifactOutput => "Artifact.output",
            Ambient::ArtifactNone => "Artifact.none",
            Ambient::NewOutputDirectory => "Context.getNewOutputDirectory",
            Ambient::Fail => "Contract.fail",
            Ambient::Assert => "Contract.assert",
            Ambient::Requires => "Contract.requires",
            Ambient::Glob => "glob",
            Ambient::GlobRecursive => "globR",
        }
    }

    /// The call with this written name.
    pub fn named(name: &[u8]) -> Option<Ambient>
        ensures { MatchOption result
            ((call : AnyCall) → written_name call ≢ name.now)
            (λ call. written_name call ≡ name.now) }
    {
        find_named(&AMBIENT_CALLS, name)
    }
}
