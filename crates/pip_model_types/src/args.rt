//! The arguments and the environment variables of a process.
ghost use Rattle.std.specs.Prelude.{◌≡◌};
ghost use Rattle.std.specs.List.Sorted.{IsPermutation};
ghost use Rattle.pip_model_types.specs.Args.{IsSortedByName};

use bx_tree::Text;
use std::marker::Model;

/// The arguments of a process, in order. Contracts see them as a list of texts.
#[derive(Drop)]
pub struct Arguments {
    texts: Vec<Text>,
}

impl Model for Arguments {
    ghost use Rattle.std.specs.Prelude.{List, ℕ};

    ghost Value = { List (List ℕ) };

    ghost view = { λ a. a.texts.items };
}

impl Arguments {
    /// These arguments.
    pub fn of(texts: Vec<Text>) -> Arguments
        ensures { result ≡ texts.items }
    {
        Arguments { texts }
    }

    /// The arguments, in order.
    pub fn texts(&self) -> &[Text]
        ensures { result.now ≡ self.now }
    {
        self.texts.as_slice()
    }

    /// The arguments, in order, as a vector.
    pub fn into_texts(self) -> Vec<Text>
        ensures { result.items ≡ self }
    {
        self.texts
    }
}

/// An environment variable.
#[derive(Drop)]
pub struct EnvPair {
    pub name: Text,
    pub value: Text,
}

/// The environment of a process, sorted by the bytes of the names. Contracts see it as a list of variables.
#[derive(Drop)]
pub struct Variables {
    pairs: Vec<EnvPair>,
}

impl Model for Variables {
    ghost use Rattle.std.specs.Prelude.{List};
    ghost use Rattle.pip_model_types.specs.declared.args.EnvPair.{EnvPair};

    ghost Value = { List EnvPair };

    ghost use Rattle.pip_model_types.specs.Args.{IsSortedByName};

    ghost view = { λ v. v.pairs.items };

    ghost invariant = { λ v. IsSortedByName v.pairs.items };
}

// The variables in the order of their names.
fn by_name(pairs: Vec<EnvPair>) -> Vec<EnvPair>
    ensures kept { IsPermutation pairs.items result.items }
    ensures sorted { IsSortedByName result.items }
{
    let mut pairs = pairs;
    pairs.sort_unstable_by(|a, b| a.name.bytes().cmp(b.name.bytes()));
    pairs
}

impl Variables {
    /// The environment of these variables.
    pub fn of(pairs: Vec<EnvPair>) -> Variables
        ensures kept { IsPermutation pairs.items result }
        ensures sorted { IsSortedByName result }
    {
        Variables {
            pairs: by_name(pairs),
        }
    }

    /// The environment of these variables, which are in the order of their names already.
    pub fn in_order(pairs: Vec<EnvPair>) -> Variables
        requires { IsSortedByName pairs.items }
        ensures { result ≡ pairs.items }
    {
        Variables { pairs }
    }

    /// The variables, in order.
    pub fn pairs(&self) -> &[EnvPair]
        ensures pairs { result.now ≡ self.now }
        ensures sorted { IsSortedByName self.now }
    {
        self.pairs.as_slice()
    }
}
