//! Bytes under names, in memory.

ghost use Rattle.std.specs.Prelude.{◌≡◌, ◌≢◌, All, IfOk, OnOk, OnErr, map, string_bytes, option_map, IsSome};
ghost use Rattle.std.specs.Ordering.{nat_cmp};
ghost use Rattle.std.specs.Cmp.Lexicographic.{slice_cmp};
ghost use Rattle.std.specs.List.Sorted.{IsStrictlySortedBy};
ghost use Rattle.std.specs.FinMap.{empty, get, insert, remove, keys};
ghost use Rattle.bx_io.specs.Answers.{IsAnswer, IsListing, ListsNames};
ghost use Rattle.bx_io.specs.Holdings.{AreNames};
ghost use Rattle.bx_io.specs.Names.{IsName};

use crate::keeper::{Got, Listed};
use std::alloc::{AllocError, Global};
use std::collections::BTreeMap;
use std::marker::Model;

/// Bytes under names. All reasoning about maps is that of this type.
#[derive(Drop)]
pub struct Holdings {
    map: BTreeMap<String, Vec<u8>>,
}

impl Model for Holdings {
    ghost use Rattle.bx_io.specs.Holdings as specs;
    ghost use Rattle.bx_io.specs.StoreCodes.{holdings_code};

    ghost Value = { specs.Holdings };

    ghost coded = { holdings_code };

    ghost use Rattle.bx_io.specs.Stored.{holdings_of, HoldsNames};

    ghost view = { λ h. holdings_of h.map };

    ghost invariant = { λ h. HoldsNames h.map };
}

impl Holdings {
    /// Nothing is held.
    pub fn new(alloc: Global) -> Holdings
        ensures { result ≡ empty }
    {
        Holdings {
            map: BTreeMap::new(alloc),
        }
    }

    /// The bytes under the name.
    pub fn get(&self, name: &str) -> Option<&Vec<u8>>
        ensures { option_map (λ bytes. bytes.now.items) result ≡ get self.now name.now }
    {
        self.map.get(name)
    }

    /// Holds the bytes under the name, in place of what was held there.
    pub fn put(&mut self, name: String, bytes: Vec<u8>) -> Result<(), AllocError>
        requires { IsName (string_bytes name) }
        ensures held { OnOk result (self.new ≡ insert self.old (string_bytes name) bytes.items) }
        ensures refused { OnErr result (self.new ≡ self.old) }
    {
        self.map.insert(name, bytes)?;
        Ok(())
    }

    /// Holds nothing under the name.
    pub fn drop_name(&mut self, name: &str)
        ensures { self.new ≡ remove self.old name.now }
    {
        self.map.remove(name);
    }

    /// The held names, rising by bytes.
    pub fn names(&self, alloc: Global) -> Result<Vec<String>, AllocError>
        ensures held { IfOk result (λ names. map string_bytes names.items ≡ keys self.now) }
        ensures names { IfOk result (λ names. All (λ name. IsName (string_bytes name)) names.items) }
        ensures rising { IfOk result
            (λ names. IsStrictlySortedBy (slice_cmp nat_cmp) (map string_bytes names.items)) }
    {
        let mut names = Vec::new(alloc);
        for name in self.map.keys() {
            names.push(name.clone()?)?;
        }
        Ok(names)
    }

    /// The answer to a look under the name.
    pub fn look(&self, alloc: Global, name: &str) -> Got
        ensures found { IsAnswer self.now name.now result }
        ensures memory { result ≡ Got.Memory → IsSome (get self.now name.now) }
        ensures no_fault { result ≢ Got.Failed }
    {
        match self.get(name) {
            None => Got::None,
            Some(bytes) => match bytes.to_vec(alloc) {
                Ok(copy) => Got::Found(copy),
                Err(_) => Got::Memory,
            },
        }
    }

    /// The answer to a question for all names.
    pub fn list(&self, alloc: Global) -> Listed
        ensures listed { IsListing self.now result }
        ensures names { ListsNames result }
        ensures no_fault { result ≢ Listed.Failed }
    {
        match self.names(alloc) {
            Ok(names) => Listed::Names(names),
            Err(_) => Listed::Memory,
        }
    }

    /// A copy of the holdings.
    pub fn copy(&self) -> Result<Holdings, AllocError>
        ensures same { IfOk result (λ copy. copy ≡ self.now) }
        ensures names { AreNames self.now }
    {
        Ok(Holdings {
            map: self.map.clone()?,
        })
    }
}
