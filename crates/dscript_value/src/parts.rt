//! The parts of values that hold no values.
ghost use Rattle.std.specs.Prelude.{◌≡◌, IfOk};

use bx_tree::{FileInput, Path, Text};
use dscript_program::Ambient;
use std::alloc::{AllocError, Global};
use std::marker::Model;
use std::rc::Rc;

/// A static directory: that of the seal with this number, or an output directory of the process with this
/// number.
#[derive(Drop)]
pub enum StaticDir {
    Seal(u32, Path),
    Opaque(u32, Path),
}

/// What a path in an argument means for its process: a file or directory that it takes, a file or
/// directory that it makes, or neither.
#[derive(Drop)]
pub enum Artifact {
    Input(FileInput),
    InputDir(StaticDir),
    Output(Path),
    OutputDir(Path),
    Plain(Path),
}

/// What an argument of a process says: a text, an artifact, or a text that an artifact's path follows.
#[derive(Drop)]
pub struct ArgumentParts {
    pub text: Option<Text>,
    pub artifact: Option<Artifact>,
}

/// An argument of a process, shared. Contracts see it as its parts.
#[derive(Drop)]
pub struct Argument {
    parts: Rc<ArgumentParts>,
}

impl Model for Argument {
    ghost use Rattle.dscript_value.specs.declared.parts.ArgumentParts.{ArgumentParts as Parts};
    ghost use Rattle.std.specs.Rc.{rc_value};

    ghost Value = { Parts };

    ghost view = { λ a. rc_value a.parts };
}

impl Argument {
    /// The argument that says this.
    pub fn of(
        alloc: Global,
        text: Option<Text>,
        artifact: Option<Artifact>,
    ) -> Result<Argument, AllocError>
        ensures { IfOk result (λ argument. argument ≡ record { text = text; artifact = artifact }) }
    {
        let parts = ArgumentParts { text, artifact };
        Ok(Argument {
            parts: Rc::new(alloc, parts)?,
        })
    }

    /// The text, if there is one.
    pub fn text(&self) -> &Option<Text>
        ensures { result.now ≡ self.now.text }
    {
        &self.parts.text
    }

    /// The artifact, if there is one.
    pub fn artifact(&self) -> &Option<Artifact>
        ensures { result.now ≡ self.now.artifact }
    {
        &self.parts.artifact
    }

    /// The argument, shared.
    pub fn share(&self) -> Result<Argument, AllocError>
        ensures { IfOk result (λ copy. copy ≡ self.now) }
    {
        Ok(Argument {
            parts: self.parts.clone()?,
        })
    }
}

/// What a function value calls: the function with this number, an ambient call, or the member with this
/// name.
#[derive(Drop)]
pub enum Callee {
    Place(u32),
    Ambient(Ambient),
    Member(Text),
}

/// A relative path, shared. Contracts see it as the list of its atoms, of which it may have none.
#[derive(Drop)]
pub struct RelativePath {
    atoms: Rc<Vec<Text>>,
}

impl Model for RelativePath {
    ghost use Rattle.std.specs.Prelude.{List, ℕ};
    ghost use Rattle.std.specs.Rc.{rc_value};

    ghost Value = { List (List ℕ) };

    ghost view = { λ r. (rc_value r.atoms).items };
}

impl RelativePath {
    /// The relative path of these atoms.
    pub fn of(alloc: Global, atoms: Vec<Text>) -> Result<RelativePath, AllocError>
        ensures { IfOk result (λ path. path ≡ atoms.items) }
    {
        Ok(RelativePath {
            atoms: Rc::new(alloc, atoms)?,
        })
    }

    /// The atoms, in order.
    pub fn atoms(&self) -> &[Text]
        ensures { result.now ≡ self.now }
    {
        self.atoms.as_slice()
    }

    /// The relative path, shared.
    pub fn share(&self) -> Result<RelativePath, AllocError>
        ensures { IfOk result (λ path. path ≡ self.now) }
    {
        Ok(RelativePath {
            atoms: self.atoms.clone()?,
        })
    }
}
