//! Names and the scopes in which they are declared (C99 6.2.1). A name is the list of its bytes.

ghost use Rattle.std.specs.Prelude.{◌≡◌, ◌<◌, suc, [], length, map, take, IfOk, OnOk, option_copied, slice_get};
ghost use Rattle.c_scope.specs.Names.{bound, closed, declared, entered, found, is_file_scope, left, meaning};
ghost use Rattle.c_scope.specs.Names.{names_of, number_named, opened, scopes_of};

use indexmap::IndexMap;
use std::alloc::{AllocError, Global};
use std::mem;

/// What can be copied, where there is memory.
pub trait Duplicate: Drop {
    /// A copy.
    fn duplicate(&self, alloc: Global) -> Result<Self, AllocError>
        ensures { IfOk result (λ same. same ≡ self.now) };
}

impl Duplicate for usize {
    fn duplicate(&self, _: Global) -> Result<usize, AllocError> {
        Ok(*self)
    }
}

impl Duplicate for bool {
    fn duplicate(&self, _: Global) -> Result<bool, AllocError> {
        Ok(*self)
    }
}

/// The names that a scope declares, in the order of their declarations, and what stands for each.
#[derive(Drop)]
pub struct Names<'a, T> {
    entries: IndexMap<&'a [u8], T>,
}

impl<'a, T: Drop> Names<'a, T> {
    /// No names.
    pub fn new(alloc: Global) -> Self
        ensures { names_of result ≡ [] }
    {
        Names {
            entries: IndexMap::new(alloc),
        }
    }

    /// What stands for a name, where the scope declares it.
    pub fn get(&self, name: &[u8]) -> Option<&T>
        ensures { option_copied result ≡ declared name.now (names_of self.now) }
    {
        self.entries.get(name)
    }

    /// How many names there are.
    pub fn len(&self) -> usize
        ensures { result ≡ length (names_of self.now) }
    {
        self.entries.len()
    }

    /// What stands for the name with a number in their order, from 0 on.
    pub fn at(&self, number: usize) -> Option<&T>
        ensures { option_copied result ≡ slice_get (map (λ e. e.1) (names_of self.now)) number }
    {
        let (_, what) = self.entries.get_index(number)?;
        Some(what)
    }

    /// The number of a name in their order, from 0 on.
    pub fn number(&self, name: &[u8]) -> Option<usize>
        ensures { result ≡ number_named name.now (names_of self.now) }
    {
        self.entries.get_index_of(name)
    }

    /// A name stands for something from now on. One that is declared again keeps its place.
    pub fn bind(&mut self, name: &'a [u8], what: T) -> Result<(), AllocError>
        ensures { OnOk result (names_of self.new ≡ bound name.now what (names_of self.old)) }
    {
        self.entries.insert(name, what)?;
        Ok(())
    }
}

impl<'a, T: Duplicate> Names<'a, T> {
    /// A copy.
    pub fn copy(&self, alloc: Global) -> Result<Self, AllocError>
        ensures { IfOk result (λ same. names_of same ≡ names_of self.now) }
    {
        let mut same = Names::new(alloc);
        for at in 0..self.entries.len() {
            self.copy_name(alloc, at, &mut same)?;
        }
        Ok(same)
    }

    // The name with a number, behind those before it. All names of a scope differ, so the last test always holds.
    fn copy_name(&self, alloc: Global, at: usize, same: &mut Self) -> Result<(), AllocError>
        requires inside { at < length (names_of self.now) }
        requires before { names_of same.old ≡ take at (names_of self.now) }
        ensures { OnOk result (names_of same.new ≡ take (suc at) (names_of self.now)) }
    {
        let Some((name, what)) = self.entries.get_index(at) else {
            return Err(AllocError);
        };
        same.bind(name, what.duplicate(alloc)?)?;
        if at < same.len() {
            Ok(())
        } else {
            Err(AllocError)
        }
    }
}

/// The scopes that are open: the innermost one, and those around it, of which that of the file is the first.
#[derive(Drop)]
pub struct Scopes<'a, T> {
    outer: Vec<Names<'a, T>>,
    current: Names<'a, T>,
}

impl<'a, T: Drop> Scopes<'a, T> {
    /// The scope of a file, which declares no name yet.
    pub fn new(alloc: Global) -> Self
        ensures { scopes_of result ≡ record { outer = []; current = [] } }
    {
        Scopes {
            outer: Vec::new(alloc),
            current: Names::new(alloc),
        }
    }

    /// Whether no block is open.
    pub fn is_file_scope(&self) -> bool
        ensures { result ≡ is_file_scope (scopes_of self.now) }
    {
        self.outer.is_empty()
    }

    /// Opens the scope of a block.
    pub fn open(&mut self, alloc: Global) -> Result<(), AllocError>
        ensures { OnOk result (scopes_of self.new ≡ opened (scopes_of self.old)) }
    {
        let before = mem::replace(&mut self.current, Names::new(alloc));
        self.outer.push(before)?;
        Ok(())
    }

    /// Closes the innermost scope; that of the file stays.
    pub fn close(&mut self)
        ensures { scopes_of self.new ≡ closed (scopes_of self.old) }
    {
        if let Some(before) = self.outer.pop() {
            self.current = before;
        }
    }

    /// Leaves the innermost scope, and gives what it declares.
    pub fn leave(&mut self, alloc: Global) -> Names<'a, T>
        ensures given { names_of result ≡ (scopes_of self.old).current }
        ensures left { scopes_of self.new ≡ left (scopes_of self.old) }
    {
        let names = mem::replace(&mut self.current, Names::new(alloc));
        self.close();
        names
    }

    /// Enters a scope that declares these names already.
    pub fn enter(&mut self, names: Names<'a, T>) -> Result<(), AllocError>
        ensures { OnOk result (scopes_of self.new ≡ entered (names_of names.entry) (scopes_of self.old)) }
    {
        let around = mem::replace(&mut self.current, names);
        self.outer.push(around)?;
        Ok(())
    }

    /// What stands for a name in the innermost scope, where that declares it.
    pub fn here(&self, name: &[u8]) -> Option<&T>
        ensures { option_copied result ≡ declared name.now (scopes_of self.now).current }
    {
        self.current.get(name)
    }

    /// What stands for a name in the innermost scope that declares it.
    pub fn get(&self, name: &[u8]) -> Option<&T>
        ensures { option_copied result ≡ meaning name.now (scopes_of self.now) }
    {
        match self.current.get(name) {
            Some(what) => Some(what),
            None => found(&self.outer, name),
        }
    }

    /// A name of the innermost scope stands for something from now on.
    pub fn bind(&mut self, name: &'a [u8], what: T) -> Result<(), AllocError>
        ensures { OnOk result (scopes_of self.new
            ≡ record (scopes_of self.old) { current = bound name.now what (scopes_of self.old).current }) }
    {
        self.current.bind(name, what)
    }
}

impl<'a, T: Duplicate> Scopes<'a, T> {
    /// A copy.
    pub fn copy(&self, alloc: Global) -> Result<Self, AllocError>
        ensures { IfOk result (λ same. scopes_of same ≡ scopes_of self.now) }
    {
        let mut outer = Vec::new(alloc);
        for names in &self.outer {
            outer.push(names.copy(alloc)?)?;
        }
        let current = self.current.copy(alloc)?;
        Ok(Scopes { outer, current })
    }
}

// What stands for a name in the last of these scopes that declares it.
fn found<'b, T: Drop>(scopes: &'b [Names<T>], name: &[u8]) -> Option<&'b T>
    ensures { option_copied result ≡ found name.now (map names_of scopes.now) }
{
    let mut count = scopes.len();
    while count > 0 {
        count -= 1;
        if let Some(what) = scopes[count].get(name) {
            return Some(what);
        }
    }
    None
}
