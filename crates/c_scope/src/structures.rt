//! The structures and unions of a source (C99 6.7.2.1), by number in the order of their declarations.

use crate::names::Names;
use c_tree::{Extent, Member};
use std::alloc::{AllocError, Global};

/// What is said of a structure or union beside its size and alignment.
#[derive(Drop)]
pub struct Body<'a> {
    /// The tag by which it was declared at file scope.
    pub file_tag: Option<&'a [u8]>,
    /// Whether the list of its members has begun, so that another one would define it twice.
    pub is_begun: bool,
    /// Its members by name.
    pub members: Names<'a, Member>,
}

impl<'a> Body<'a> {
    ghost use Rattle.std.specs.Prelude.{◌≡◌, IfOk};
    ghost use Rattle.c_scope.specs.Structures.{body_of};

    /// A copy.
    pub fn copy(&self, alloc: Global) -> Result<Self, AllocError>
        ensures { IfOk result (λ same. body_of same ≡ body_of self.now) }
    {
        let members = self.members.copy(alloc)?;
        Ok(Body {
            file_tag: self.file_tag,
            is_begun: self.is_begun,
            members,
        })
    }
}

/// The structures and unions.
#[derive(Drop)]
pub struct Structures<'a> {
    extents: Vec<Option<Extent>>,
    with_const: Vec<bool>,
    bodies: Vec<Body<'a>>,
}

impl<'a> Structures<'a> {
    ghost use Rattle.std.specs.Prelude.{◌≡◌, ◌++◌, ◌∷◌, [], IfOk, OnOk, option_copied, option_map, length, slice_get};
    ghost use Rattle.c_scope.specs.Structures.{begun, completed, declared_structure, file_tag_of, is_begun, is_known};
    ghost use Rattle.c_scope.specs.Structures.{member_of, members_in, members_of, none, structures_of};
    ghost use Rattle.c_scope.specs.Structures.{with_constness, with_extent, with_members};
    ghost use Rattle.c_scope.specs.Names.{names_of};

    /// None yet.
    pub fn new(alloc: Global) -> Self
        ensures { structures_of result ≡ none }
    {
        Structures {
            extents: Vec::new(alloc),
            with_const: Vec::new(alloc),
            bodies: Vec::new(alloc),
        }
    }

    /// A copy.
    pub fn copy(&self, alloc: Global) -> Result<Self, AllocError>
        ensures { IfOk result (λ same. structures_of same ≡ structures_of self.now) }
    {
        let mut bodies = Vec::new(alloc);
        for body in &self.bodies {
            bodies.push(body.copy(alloc)?)?;
        }
        let extents = self.extents.to_vec(alloc)?;
        let with_const = self.with_const.to_vec(alloc)?;
        Ok(Structures {
            extents,
            with_const,
            bodies,
        })
    }

    /// The sizes and alignments, of those that are complete.
    pub fn extents(&self) -> &[Option<Extent>]
        ensures { result.now ≡ (structures_of self.now).extents }
    {
        &self.extents
    }

    /// Whether they have a const member, also within members, of those that are complete.
    pub fn with_const(&self) -> &[bool]
        ensures { result.now ≡ (structures_of self.now).with_const }
    {
        &self.with_const
    }

    /// Declares one that is incomplete, and gives its number.
    pub fn declare(
        &mut self,
        alloc: Global,
        file_tag: Option<&'a [u8]>,
    ) -> Result<usize, AllocError>
        ensures number { IfOk result (λ number. number ≡ length (structures_of self.old).extents) }
        ensures declared { OnOk result (structures_of self.new
            ≡ declared_structure (option_copied file_tag.entry) (structures_of self.old)) }
    {
        let number = self.extents.len();
        self.extents.push(None)?;
        self.with_const.push(false)?;
        self.bodies.push(Body {
            file_tag,
            is_begun: false,
            members: Names::new(alloc),
        })?;
        Ok(number)
    }

    /// Whether the list of members of this one has begun.
    pub fn is_begun(&self, number: usize) -> bool
        ensures { result ≡ is_begun number (structures_of self.now).bodies }
    {
        match self.bodies.get(number) {
            Some(body) => body.is_begun,
            None => false,
        }
    }

    /// Whether this one is complete.
    pub fn is_complete(&self, number: usize) -> bool
        ensures { result ≡ is_known (slice_get (structures_of self.now).extents number) }
    {
        matches!(self.extents.get(number), Some(Some(_)))
    }

    /// The tag by which this one was declared at file scope.
    pub fn file_tag(&self, number: usize) -> Option<&'a [u8]>
        ensures { option_copied result ≡ file_tag_of (slice_get (structures_of self.now).bodies number) }
    {
        match self.bodies.get(number) {
            Some(body) => body.file_tag,
            None => None,
        }
    }

    /// The list of members of this one begins.
    pub fn begin(&mut self, number: usize)
        ensures { structures_of self.new ≡ begun number (structures_of self.old) }
    {
        if number < self.bodies.len() {
            self.bodies[number].is_begun = true;
        }
    }

    /// This one is complete: its size and alignment, whether it has a const member, also within members, and its
    /// members by name.
    pub fn complete(
        &mut self,
        number: usize,
        extent: Extent,
        has_const: bool,
        members: Names<'a, Member>,
    )
        ensures { structures_of self.new
            ≡ completed number extent has_const (names_of members.entry) (structures_of self.old) }
    {
        self.set_extent(number, extent);
        self.set_constness(number, has_const);
        self.set_members(number, members);
    }

    fn set_extent(&mut self, number: usize, extent: Extent)
        ensures { structures_of self.new ≡ with_extent number extent (structures_of self.old) }
    {
        if number < self.extents.len() {
            self.extents[number] = Some(extent);
        }
    }

    fn set_constness(&mut self, number: usize, has_const: bool)
        ensures { structures_of self.new ≡ with_constness number has_const (structures_of self.old) }
    {
        if number < self.with_const.len() {
            self.with_const[number] = has_const;
        }
    }

    fn set_members(&mut self, number: usize, members: Names<'a, Member>)
        ensures { structures_of self.new ≡ with_members number (names_of members.entry) (structures_of self.old) }
    {
        if number < self.bodies.len() {
            self.bodies[number].members = members;
        }
    }

    /// The members of this one, in the order of their declarations, where it is complete.
    pub fn members(&self, number: usize) -> Option<&Names<'a, Member>>
        ensures { option_map names_of (option_copied result) ≡ members_of number (structures_of self.now) }
    {
        if self.is_complete(number) {
            self.members_listed(number)
        } else {
            None
        }
    }

    // The members that are listed of this one.
    fn members_listed(&self, number: usize) -> Option<&Names<'a, Member>>
        ensures { option_map names_of (option_copied result)
            ≡ members_in (slice_get (structures_of self.now).bodies number) }
    {
        match self.bodies.get(number) {
            Some(body) => Some(&body.members),
            None => None,
        }
    }

    /// The member of this name of a structure or union, where it is complete and has one.
    pub fn member(&self, number: usize, name: &[u8]) -> Option<&Member>
        ensures { option_copied result ≡ member_of number name.now (structures_of self.now).bodies }
    {
        match self.bodies.get(number) {
            Some(body) => body.members.get(name),
            None => None,
        }
    }
}
