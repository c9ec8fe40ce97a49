//! Structures and unions with their members (C99 6.7.2.1).

ghost use Rattle.std.specs.Prelude.{◌≡◌, [], map, IfOk};
ghost use Rattle.c_scope.specs.Names.{names_of};
ghost use Rattle.c_declarator_typing.specs.Members.{any_const, entry_of, extent_in, extent_with, members_at, no_offset};
ghost use Rattle.c_declarator_typing.specs.Members.{offsets_in, entries_of, member_added, structure_completed};
ghost use Rattle.c_declarator_typing.specs.Members.{tag_completed};
ghost use Rattle.c_faults.specs.Answer.{Gives};
ghost use Rattle.c_declarator_typing.specs.Declarators.{shape_of};
ghost use Rattle.c_declarator_typing.specs.Specifications.{specification_of};
ghost use Rattle.c_typing_state.specs.State.{Becomes, Types, state_of};

use crate::shape::{LocatedName, Shape, built_in, refusal};
use crate::specification::Specification;
use c_assignment_rules::has_const;
use c_declarators::BuiltType;
use c_declarators::derivation::element_faults;
use c_faults::{Fault, Refusal, Rule};
use c_rules::holding::beside;
use c_scope::meaning::Tag;
use c_scope::names::Names;
use c_tree::layout::{member_offsets, structure_of, union_of};
use c_tree::{CType, Extent, MAX_SIZE, Member};
use c_typing_state::Typer;
use sb_base::Line;
use std::alloc::{AllocError, Global};

/// A member.
#[derive(Drop)]
pub struct Entry<'a> {
    /// Its name.
    pub name: &'a [u8],
    /// Its type.
    pub c_type: CType,
    /// Its size and alignment.
    pub extent: Extent,
}

/// The members so far.
#[derive(Drop)]
pub struct Entries<'a> {
    /// In their order.
    pub entries: Vec<Entry<'a>>,
    /// Their names.
    pub names: Names<'a, bool>,
}

impl<'a> Entries<'a> {
    ghost use Rattle.std.specs.Prelude.{◌≡◌, option_map, IfOk};
    ghost use Rattle.c_faults.specs.Answer.{Gives};
    ghost use Rattle.c_tree.specs.Extents.{extent_of};
    ghost use Rattle.c_declarators.specs.Derivations.{built_of};
    ghost use Rattle.c_declarator_typing.specs.Declarators.{located};
    ghost use Rattle.c_declarator_typing.specs.Members.{entries_of, entry_of, member_built, member_named, member_rule};
    ghost use Rattle.c_declarator_typing.specs.Members.{no_entries};
    ghost use Rattle.c_declarator_typing.specs.Members.{sized_entry, with_entry};

    /// No members.
    pub fn new(alloc: Global) -> Self
        ensures { entries_of result ≡ no_entries }
    {
        Entries {
            entries: Vec::new(alloc),
            names: Names::new(alloc),
        }
    }

    fn with_entry(self, entry: Entry<'a>) -> Result<Self, AllocError>
        ensures { IfOk result (λ es. entries_of es ≡ with_entry (entry_of entry.entry) (entries_of self.entry)) }
    {
        let Entries {
            mut entries,
            mut names,
        } = self;
        names.bind(entry.name, true)?;
        entries.push(entry)?;
        Ok(Entries { entries, names })
    }

    /// These members and what a declarator adds, among structures and unions with these extents. The rules of its own
    /// type are violated at its name, also by a member of incomplete or function type, then that on names of members.
    pub fn with(
        self,
        extents: &[Option<Extent>],
        built: BuiltType,
        name: Option<&LocatedName<'a>>,
    ) -> Result<Self, Refusal>
        ensures { Gives entries_of result (member_named extents.now (built_of built)
            (option_map (λ n. located n.now) name.entry) (entries_of self.entry)) }
    {
        match name {
            None => Ok(self),
            Some(name) => self.with_named(extents, built, name),
        }
    }

    fn with_named(
        self,
        extents: &[Option<Extent>],
        built: BuiltType,
        name: &LocatedName<'a>,
    ) -> Result<Self, Refusal>
        ensures { Gives entries_of result (member_built extents.now (built_of built)
            (located name.now).0 (located name.now).1 (entries_of self.entry)) }
    {
        let rule = self.rule(extents, &built, name.name.bytes());
        let judged = refusal(rule, name.line);
        let (this, _) = beside(self, judged)?;
        this.with_sized(extents, name.name.bytes(), name.line, built.c_type)
    }

    fn rule(&self, extents: &[Option<Extent>], built: &BuiltType, name: &[u8]) -> Option<Rule>
        ensures { result ≡ member_rule extents.now (built_of built.now) name.now (entries_of self.now) }
    {
        let faults = built
            .faults
            .and(element_faults(extents, built.c_type.words()));
        match faults.rule() {
            Some(rule) => Some(rule),
            None if self.names.get(name).is_some() => Some(Rule::RepeatedMember),
            None => None,
        }
    }

    fn with_sized(
        self,
        extents: &[Option<Extent>],
        name: &'a [u8],
        line: Line,
        c_type: CType,
    ) -> Result<Self, Refusal>
        ensures { Gives entries_of result (sized_entry name.now line c_type
            (extent_of extents.now c_type) (entries_of self.entry)) }
    {
        let Some(extent) = Extent::of_type(extents, c_type.words()) else {
            let rule = Rule::Incomplete;
            return Err(Refusal::Fault(Fault { rule, line }));
        };
        let entries = self.with_entry(Entry {
            name,
            c_type,
            extent,
        })?;
        Ok(entries)
    }
}

// Where the members lie.
fn offsets_in(alloc: Global, is_union: bool, entries: &[Entry]) -> Result<Vec<u64>, AllocError>
    ensures { IfOk result (λ offsets. offsets.items ≡ offsets_in is_union (map entry_of entries.now)) }
{
    if is_union {
        return no_offsets(alloc, entries);
    }
    let extents = extents_of(alloc, entries)?;
    member_offsets(alloc, &extents)
}

fn no_offsets(alloc: Global, entries: &[Entry]) -> Result<Vec<u64>, AllocError>
    ensures { IfOk result (λ offsets. offsets.items ≡ map no_offset (map entry_of entries.now)) }
{
    let mut offsets = Vec::new(alloc);
    for _ in entries {
        offsets.push(0)?;
    }
    Ok(offsets)
}

fn extents_of(alloc: Global, entries: &[Entry]) -> Result<Vec<Extent>, AllocError>
    ensures { IfOk result (λ extents. extents.items ≡ map extent_in (map entry_of entries.now)) }
{
    let mut extents = Vec::new(alloc);
    for entry in entries {
        extents.push(entry.extent)?;
    }
    Ok(extents)
}

// The size and alignment of a structure or union with these members.
fn extent_with(alloc: Global, is_union: bool, entries: &[Entry]) -> Result<Extent, AllocError>
    ensures { IfOk result (λ extent. extent ≡ extent_with is_union (map entry_of entries.now)) }
{
    let extents = extents_of(alloc, entries)?;
    if is_union {
        Ok(union_of(&extents))
    } else {
        Ok(structure_of(&extents))
    }
}

// Whether a member is const, or has a const part.
fn any_const(with_const: &[bool], entries: &[Entry]) -> bool
    ensures { result ≡ any_const with_const.now (map entry_of entries.now) }
{
    for entry in entries {
        if has_const(with_const, entry.c_type.words()) {
            return true;
        }
    }
    false
}

// The members by name, with their offsets.
fn members_at<'a>(
    alloc: Global,
    offsets: &[u64],
    entries: &[Entry<'a>],
) -> Result<Names<'a, Member>, AllocError>
    ensures { IfOk result (λ members. names_of members ≡ members_at (map entry_of entries.now) offsets.now []) }
{
    let mut members = Names::new(alloc);
    let mut offsets = offsets;
    for entry in entries {
        let [offset, behind @ ..] = offsets else {
            return Ok(members);
        };
        offsets = behind;
        let c_type = CType::new(entry.c_type.words().to_vec(alloc)?);
        let member = Member {
            c_type,
            offset: *offset,
            size: entry.extent.size(),
        };
        members.bind(entry.name, member)?;
    }
    Ok(members)
}

impl Specification {
    ghost use Rattle.std.specs.Prelude.{◌≡◌};
    ghost use Rattle.c_faults.specs.Answer.{Gives};
    ghost use Rattle.c_declarator_typing.specs.Members.{member_specified};
    ghost use Rattle.c_declarator_typing.specs.Specifications.{specification_of};

    /// The specifiers of members. The rule on storage-class specifiers is violated by one of them, at the first token.
    pub fn for_members(self) -> Result<Specification, Refusal>
        ensures { Gives specification_of result (member_specified (specification_of self)) }
    {
        if self.has_two_storages || self.has_storage() {
            let (rule, line) = (Rule::MisplacedStorage, self.line);
            return Err(Refusal::Fault(Fault { rule, line }));
        }
        Ok(self)
    }
}

/// The members so far and what a declarator adds, by `Entries::with`.
pub fn member_added<'a>(
    typer: &Typer<'a>,
    specification: &Specification,
    shape: &Shape<'a>,
    entries: Entries<'a>,
) -> Result<Entries<'a>, Refusal>
    ensures { Gives entries_of result (member_added (specification_of specification.now)
        (shape_of shape.now) (entries_of entries.entry) (state_of typer.now)) }
{
    let built = built_in(typer, specification, shape);
    let (entries, built) = beside(entries, built)?;
    entries.with(typer.extents(), built, shape.name.as_ref())
}

/// The structure or union of a tag is complete with its members. The rule on large types is violated on a line by
/// one of more than 2^32 bytes.
pub fn tag_completed<'a>(
    typer: &mut Typer<'a>,
    line: Line,
    tag: Tag,
    entries: Entries<'a>,
) -> Result<Tag, Refusal>
    ensures { Types (λ t. t) (state_of typer.new) result
        (tag_completed line tag (entries_of entries.entry) (state_of typer.old)) }
{
    match tag {
        Tag::Structure(number) => completed(typer, false, line, number, &entries.entries)?,
        Tag::Union(number) => completed(typer, true, line, number, &entries.entries)?,
        Tag::Enumeration(_) => (),
    }
    Ok(tag)
}

fn completed<'a>(
    typer: &mut Typer<'a>,
    is_union: bool,
    line: Line,
    number: usize,
    entries: &[Entry<'a>],
) -> Result<(), Refusal>
    ensures { Becomes (state_of typer.new) result
        (structure_completed is_union line number (map entry_of entries.now) (state_of typer.old)) }
{
    let extent = extent_with(typer.alloc, is_union, entries)?;
    if extent.size() > MAX_SIZE {
        let rule = Rule::LargeType;
        return Err(Refusal::Fault(Fault { rule, line }));
    }
    let offsets = offsets_in(typer.alloc, is_union, entries)?;
    let members = members_at(typer.alloc, &offsets, entries)?;
    let has_const = any_const(typer.with_const(), entries);
    typer
        .environment
        .structures
        .complete(number, extent, has_const, members);
    Ok(())
}
