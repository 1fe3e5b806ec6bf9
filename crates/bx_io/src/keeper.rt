//! Keepers of results and their readers: what they hold, and when they may fail.

ghost use Rattle.std.specs.Prelude.{◌≡◌, ◌≢◌, ℕ, ◌-◌, ◌^◌, ◌<◌, ◌≤◌, [], ◌∷◌, Option, IfOk, IfSome, OnOk};
ghost use Rattle.std.specs.Prelude.{OnErr, Err, IsSome};
ghost use Rattle.bx_io.specs.Causes.{CanRise, HasCause, IsWithin};
ghost use Rattle.bx_io.specs.Names.{IsName};
ghost use Rattle.bx_io.specs.Holdings.{AreNames, Holdings, IsAlone, Keeps, Makes, StoreTold, Put, Drop, held_in};
ghost use Rattle.bx_io.specs.Answers.{Finds, Lists, ListsNames};
ghost use Rattle.bx_io.specs.Told.{Stays};

use std::alloc::{AllocError, AllocFailed, Global};

/// The answer to a look under a name.
#[derive(Debug, Drop)]
pub enum Got {
    /// The bytes that are held under it.
    Found(Vec<u8>),
    /// Nothing is held under it.
    None,
    /// The store or reader failed.
    Failed,
    /// Out of memory for the bytes.
    Memory,
}

/// Why a change was not made.
#[derive(Debug, Drop)]
pub enum PutFault {
    /// The store failed.
    Failed,
    /// Out of memory for the change.
    Memory,
}

/// The answer to a question for all names.
#[derive(Debug, Drop)]
pub enum Listed {
    /// The held names, each once, rising by bytes.
    Names(Vec<String>),
    /// The store failed.
    Failed,
    /// Out of memory for the names.
    Memory,
}

/// Reads what a store held when the reader was made. It may go to another thread. It tells what that is until
/// an answer disagrees; then it tells no more.
pub trait KeepReader: Send + Drop {
    // The held bytes by name, as long as no answer disagreed with them.
    ghost held: { Self → Option Holdings };

    // How often the reader has failed.
    ghost faults: { Self → ℕ };

    // How often it may fail, where that is bounded.
    ghost bound: { Self → Option ℕ };

    /// The bytes that are held under the name, or that none are.
    fn get(&mut self, alloc: Global, name: &str) -> Got
        requires { IsName name.now }
        ensures found { Finds (held self.new) name.now result }
        ensures held { Stays (held self.old) (held self.new) }
        ensures bound { bound self.new ≡ bound self.old }
        ensures within { IsWithin (bound self.new) (faults self.new) }
        ensures can_rise { CanRise (bound self.new) (faults self.new) }
        ensures cause { HasCause (faults self.old) (faults self.new) (result ≡ Got.Failed) }
        ensures no_fault { result ≢ Got.Failed → faults self.new ≡ faults self.old };
}

/// Holds bytes under names, from one build to the next. The changes that a store made are always known. What it
/// holds it tells until an answer disagrees with its first contents followed by the changes; then it tells no
/// more.
pub trait Keeper {
    /// Reads what the store held at one moment.
    type Reader: KeepReader;

    // The held bytes by name, as long as no answer disagreed with them, all changes so far, and whether it works alone.
    ghost known: { Self → StoreTold };

    // How often the store has failed.
    ghost faults: { Self → ℕ };

    // How often each of its readers may fail, where that is bounded.
    ghost bound: { Self → Option ℕ };

    /// A reader of what the store holds now. Only running out of memory is an error.
    fn reader(&self, alloc: Global) -> Result<Self::Reader, AllocError>
        ensures held { IfOk result (λ reader. Self.Reader.held reader ≡ held_in (known self.now)) }
        ensures names { IfSome (held_in (known self.now)) AreNames }
        ensures bound { IfOk result (λ reader. Self.Reader.bound reader ≡ bound self.now) }
        ensures faults { IfOk result (λ reader. Self.Reader.faults reader ≡ 0) };

    /// Takes a reader back. Where the reader tells no more, the store tells no more. This is no numbered call,
    /// and cannot fail.
    fn close(&mut self, reader: Self::Reader)
        ensures known { Keeps (known self.old) (known self.new) }
        ensures reader { IsSome (held_in (known self.new)) → IsSome (Self.Reader.held reader) }
        ensures bound { bound self.new ≡ bound self.old }
        ensures faults { faults self.new ≡ faults self.old };

    /// Asks to work alone, before anything else is asked. Where it is granted, no call of the store or of its readers
    /// does anything while another one uses what the store holds. It does not wait: where another one uses that now it
    /// is refused, and each later call of the store, and of a reader that is made later, fails. What stopped puts left
    /// behind may be taken away. This is no numbered call.
    fn alone(&mut self, alloc: Global) -> Result<(), PutFault>
        ensures granted { OnOk result (IsAlone (known self.new)) }
        ensures known { Keeps (known self.old) (known self.new) }
        ensures bound { bound self.new ≡ bound self.old }
        ensures can_rise { CanRise (bound self.new) (faults self.new) }
        ensures cause { HasCause (faults self.old) (faults self.new) (result ≡ Err PutFault.Failed) }
        ensures no_fault { result ≢ Err PutFault.Failed → faults self.new ≡ faults self.old };

    /// The bytes that are held under the name, or that none are.
    fn get(&mut self, alloc: Global, name: &str) -> Got
        requires { IsName name.now }
        ensures found { Finds (held_in (known self.new)) name.now result }
        ensures known { Keeps (known self.old) (known self.new) }
        ensures bound { bound self.new ≡ bound self.old }
        ensures can_rise { CanRise (bound self.new) (faults self.new) }
        ensures cause { HasCause (faults self.old) (faults self.new) (result ≡ Got.Failed) }
        ensures no_fault { result ≢ Got.Failed → faults self.new ≡ faults self.old };

    /// Holds the bytes under the name, in place of what was held there. A stop at any moment leaves the new
    /// bytes or what was there before.
    fn put(&mut self, alloc: Global, name: &str, bytes: &[u8]) -> Result<(), PutFault>
        requires { IsName name.now }
        ensures made { OnOk result
            (Makes (known self.old) (Put name.now bytes.now ∷ []) (known self.new)) }
        ensures refused { OnErr result (Keeps (known self.old) (known self.new)) }
        ensures bound { bound self.new ≡ bound self.old }
        ensures can_rise { CanRise (bound self.new) (faults self.new) }
        ensures cause { HasCause (faults self.old) (faults self.new) (result ≡ Err PutFault.Failed) }
        ensures no_fault { result ≢ Err PutFault.Failed → faults self.new ≡ faults self.old };

    /// Holds nothing under the name. A stop at any moment leaves nothing there or what was there before.
    fn drop_name(&mut self, alloc: Global, name: &str) -> Result<(), PutFault>
        requires { IsName name.now }
        ensures made { OnOk result (Makes (known self.old) (Drop name.now ∷ []) (known self.new)) }
        ensures refused { OnErr result (Keeps (known self.old) (known self.new)) }
        ensures bound { bound self.new ≡ bound self.old }
        ensures can_rise { CanRise (bound self.new) (faults self.new) }
        ensures cause { HasCause (faults self.old) (faults self.new) (result ≡ Err PutFault.Failed) }
        ensures no_fault { result ≢ Err PutFault.Failed → faults self.new ≡ faults self.old };

    /// The held names, each once, rising by bytes.
    fn names(&mut self, alloc: Global) -> Listed
        ensures listed { Lists (held_in (known self.new)) result }
        ensures names { ListsNames result }
        ensures known { Keeps (known self.old) (known self.new) }
        ensures bound { bound self.new ≡ bound self.old }
        ensures can_rise { CanRise (bound self.new) (faults self.new) }
        ensures cause { HasCause (faults self.old) (faults self.new) (result ≡ Listed.Failed) }
        ensures no_fault { result ≢ Listed.Failed → faults self.new ≡ faults self.old };
}

impl From<AllocError> for PutFault {
    ghost use Rattle.bx_io.specs.declared.keeper.PutFault.TheVariants as faults;

    ghost from_gives = { λ _ e. e ≡ faults.Memory };

    fn from(_: AllocError) -> PutFault {
        PutFault::Memory
    }
}

impl<T: Drop> From<AllocFailed<T>> for PutFault {
    ghost use Rattle.bx_io.specs.declared.keeper.PutFault.TheVariants as faults;

    ghost from_gives = { λ _ e. e ≡ faults.Memory };

    fn from(_: AllocFailed<T>) -> PutFault {
        PutFault::Memory
    }
}
