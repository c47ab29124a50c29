//! The names in one directory.

ghost use Rattle.std.specs.Prelude.{◌≡◌, ℕ, List, [], length, map, IsSome, IsTrue, IfOk, OnOk, OnErr, take, ◌≢◌, Some, IfSome, IfNone};
ghost use Rattle.std.specs.FinMap.Entries.{put, is_sorted};
ghost use Rattle.std.specs.FinMap.Entries.{find as lookup};
ghost use Rattle.std.specs.List.Sorted.{IsStrictlySortedBy};
ghost use Rattle.std.specs.Map.{keys_of};
ghost use Rattle.dc_plain.specs.BytesShown.{names_shown};
ghost use Rattle.dc_store.specs.Names.{name_cmp, without_name};
ghost use Rattle.dc_store.specs.Pages.{behind, leads_shown, name_shown};

use crate::name_bytes::{NameBytes, SoughtBytes};
use crate::pages::{Led, first_of};
use dc_names::{Name, NoMemory};
use std::alloc::Global;
use std::collections::BTreeMap;
use std::marker::Model;
use std::ops::Bound;

/// The names in a directory, each with the number that it leads to, in the order of their bytes. Whoever
/// chooses the names, a search compares as many as the logarithm of their number.
#[derive(Drop)]
pub struct Names {
    by_name: BTreeMap<NameBytes, u64>,
}

impl Model for Names {
    ghost Value = { List (List ℕ × ℕ) };

    ghost view = { λ names. names.by_name.entries };

    ghost invariant = { λ names. IsStrictlySortedBy name_cmp (keys_of names.by_name.entries) };
}

impl Names {
    /// No names yet.
    pub fn new(alloc: Global) -> Names
        ensures { result ≡ [] }
    {
        Names {
            by_name: BTreeMap::new(alloc),
        }
    }

    /// Where a name leads.
    pub fn get(&self, name: Name<'_>) -> Option<u64>
        ensures { result ≡ lookup name_cmp name.entry.bytes.now self.now }
    {
        self.by_name.get(SoughtBytes::new(name)).copied()
    }

    /// Puts a name in, and answers where it led before.
    pub fn insert(
        &mut self,
        alloc: Global,
        name: Name<'_>,
        number: u64,
    ) -> Result<Option<u64>, NoMemory>
        ensures ok { OnOk result (self.new ≡ put name_cmp name.entry.bytes.now number self.old) }
        ensures before { IfOk result (λ before. before ≡ lookup name_cmp name.entry.bytes.now self.old) }
        ensures err { OnErr result (self.new ≡ self.old) }
    {
        let key = NameBytes::new(alloc, name)?;
        Ok(self.by_name.insert(key, number)?)
    }

    /// Lets a name that is there lead elsewhere. It takes no memory.
    pub fn redirect(&mut self, name: Name<'_>, number: u64)
        requires { IsSome (lookup name_cmp name.bytes.now self.old) }
        ensures { self.new ≡ put name_cmp name.entry.bytes.now number self.old }
    {
        let sought = SoughtBytes::new(name);
        // The caller knows that the name is there.
        let Some(target) = self.by_name.get_mut(sought) else {
            unreachable!();
        };
        *target = number;
    }

    /// Takes a name out, and answers where it led.
    pub fn remove(&mut self, name: Name<'_>) -> Option<u64>
        ensures rest { self.new ≡ without_name name.entry.bytes.now self.old }
        ensures before { result ≡ lookup name_cmp name.entry.bytes.now self.old }
    {
        self.by_name.remove(SoughtBytes::new(name))
    }

    /// How many names there are.
    pub fn len(&self) -> u64
        ensures len { result ≡ length self.now }
        ensures sorted { IsTrue (is_sorted name_cmp self.now) }
    {
        self.by_name.len() as u64
    }

    /// A name that leads to a number. It looks at one name after another, as no order of them tells which
    /// number they lead to.
    pub fn leading_to(&self, number: u64) -> Option<&[u8]>
        ensures found { IfSome result (λ name. lookup name_cmp name.now self.now ≡ Some number) }
        ensures none { IfNone result ((name : List ℕ) → lookup name_cmp name self.now ≢ Some number) }
    {
        for (key, target) in &self.by_name {
            if *target == number {
                return Some(key.as_slice());
            }
        }
        None
    }

    /// The names in the order of their bytes.
    pub fn list(&self, alloc: Global) -> Result<Vec<Vec<u8>>, NoMemory>
        ensures names { IfOk result (λ names. names_shown names ≡ map (λ e. e.0) self.now) }
        ensures sorted { IsTrue (is_sorted name_cmp self.now) }
    {
        let mut names = Vec::new(alloc);
        for name in self.by_name.keys() {
            names.push(name.as_slice().to_vec(alloc)?)?;
        }
        Ok(names)
    }

    /// The names behind one, or all, in the order of their bytes, at most this many, each with the number
    /// that it leads to. It costs one search and a step for each name that it tells.
    pub fn page(
        &self,
        alloc: Global,
        after: Option<Name<'_>>,
        most: usize,
    ) -> Result<Vec<Led>, NoMemory>
        ensures told { IfOk result (λ page.
            leads_shown page ≡ take most (behind (name_shown after.entry) self.now)) }
        ensures sorted { IsTrue (is_sorted name_cmp self.now) }
    {
        match after {
            Some(name) => {
                let start = Bound::Excluded(NameBytes::new(alloc, name)?);
                first_of(alloc, self.by_name.range((start, Bound::Unbounded)), most)
            }
            None => first_of(alloc, self.by_name.range(..), most),
        }
    }
}
