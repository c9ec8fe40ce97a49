//! Blocks, which are entered and left (C99 6.2.4 paragraph 5).

ghost use Rattle.std.specs.Prelude.{◌≡◌, ◌∷◌, [], IfSome, true, false, if◌then◌else◌, ◌+◌};
ghost use Rattle.obj_memory.specs.Heap.{is_live_block, rounded_up};
ghost use Rattle.obj_memory.specs.Objects.{object_at, with_dead};
ghost use Rattle.c_tree.specs.Kinds.{size_of_kind};
ghost use Rattle.source_meaning.specs.State.{Setting, change, read_state};
ghost use Rattle.source_meaning.specs.Blocks.{enter_block, has_objects, leave_block, objects_end, place_block};
ghost use Rattle.source_meaning.specs.Blocks.{place_variables, test_keys, test_space, without_homes};
ghost use Rattle.interpreter_objects.specs.Blocks.{block_of};
ghost use Rattle.source_interp.specs.Homes.{home_of, homes_of};
ghost use Rattle.source_interp.specs.Limits.{AreLimits};
ghost use Rattle.source_interp.specs.Outside.{Outside};
ghost use Rattle.source_interp.specs.Standing.{Acts, ActsAlone};

use crate::automatic::{rounded, size_of};
use crate::homes::Homes;
use crate::items::nth;
use crate::limits::Limits;
use crate::machine::Machine;
use crate::stop::{Cause, Fault, Stop};
use c_tree::Variable;
use interpreter_objects::{Block, Object};
use obj_memory::Storage;
use std::alloc::Global;
use std::marker::Model;

/// What a block is left with: the homes of its objects, and the homes and the top of the object stack from before it.
#[derive(Drop)]
pub struct EnteredBlock {
    homes: Homes,
    frame: Homes,
    stacked: u64,
}

impl Model for EnteredBlock {
    ghost use Rattle.source_meaning.specs.Blocks.{Block as OfBlock};

    ghost Value = { OfBlock };

    ghost view = { λ b. record { homes = b.homes; frame = b.frame; stacked = b.stacked } };
}

/// Whether any of some variables is an object.
pub fn has_objects(variables: &[Variable]) -> bool
    ensures { result ≡ has_objects variables.now }
{
    for i in 0..variables.len() {
        if variables[i].is_object {
            return true;
        }
    }
    false
}

// Where a variable ends that stands behind others.
fn behind(variable: Variable, top: u64) -> Option<u64>
    ensures { IfSome result
        (λ end. end ≡ (if variable.is_object then rounded_up 16 top + size_of_kind variable.kind else top)) }
{
    if variable.is_object {
        rounded(top)?.checked_add(size_of(variable.kind))
    } else {
        Some(top)
    }
}

// Where the objects of some variables end that are placed from an address on.
fn objects_end(variables: &[Variable], top: u64) -> Option<u64>
    ensures { IfSome result (λ end. end ≡ objects_end variables.now top) }
{
    let mut end = top;
    for i in 0..variables.len() {
        end = behind(variables[i], end)?;
    }
    Some(end)
}

// Whether an object is a live block of the heap.
fn is_live_block(object: &Object) -> bool
    ensures { result ≡ is_live_block object.now }
{
    match object.storage() {
        Storage::Static | Storage::Automatic => false,
        Storage::Allocated => object.is_live(),
    }
}

// The block of the heap that an object is, where its end is below 2^64.
fn block_of(object: &Object) -> Option<Block>
    ensures { IfSome result (λ b. b ≡ block_of object.now) }
{
    let room = rounded(object.size())?.max(16);
    let start = object.address();
    let end = start.checked_add(room)?;
    Some(Block { start, end })
}

impl Machine {
    fn is_live_block(&self, number: usize) -> bool
        ensures { result ≡ is_live_block (object_at self.now.store number) }
    {
        match self.store.object(number) {
            Some(object) => is_live_block(object),
            None => false,
        }
    }

    fn block_of(&self, number: usize) -> Option<Block>
        ensures { IfSome result (λ b. b ≡ block_of (object_at self.now.store number)) }
    {
        block_of(self.store.object(number)?)
    }

    #[tactic(auto, using(crate::proofs::Burying::burying_one))]
    fn bury_other(&mut self, number: usize) -> Result<(), Stop>
        ensures { is_live_block (object_at self.old.store number) ≡ false
            → ActsAlone self.old self.new result (change (λ s. record s { objects = with_dead number s.objects })) }
    {
        self.store.bury(number);
        Ok(())
    }

    #[tactic(auto, using(crate::proofs::Burying::burying_block))]
    fn bury_block(&mut self, number: usize) -> Result<(), Stop>
        ensures { is_live_block (object_at self.old.store number) ≡ true
            → ActsAlone self.old self.new result (change (λ s. record s { objects = with_dead number s.objects })) }
    {
        match self.block_of(number) {
            Some(block) => {
                self.blocks.remove(block);
                self.store.bury(number);
                Ok(())
            }
            None => Err(Stop::Failed(Fault::Memory)),
        }
    }

    /// An object dies.
    pub fn bury(&mut self, number: usize) -> Result<(), Stop>
        ensures { ActsAlone self.old self.new result (change (λ s. record s { objects = with_dead number s.objects })) }
    {
        if self.is_live_block(number) {
            self.bury_block(number)
        } else {
            self.bury_other(number)
        }
    }

    fn bury_home(&mut self, home: Option<usize>) -> Result<(), Stop>
        ensures { ActsAlone self.old self.new result
            (change (λ s. record s { objects = without_homes (home_of home ∷ []) s.objects })) }
    {
        match home {
            Some(number) => self.bury(number),
            None => Ok(()),
        }
    }

    /// The objects of some homes die.
    pub fn bury_all(&mut self, homes: &[Option<usize>]) -> Result<(), Stop>
        ensures { ActsAlone self.old self.new result
            (change (λ s. record s { objects = without_homes (homes_of homes.now) s.objects })) }
    {
        for i in 0..homes.len() {
            let home = nth(homes, i);
            self.bury_home(home)?;
        }
        Ok(())
    }

    /// The objects of some variables are within the object stack.
    #[tactic(auto, using(crate::proofs::Entering::spaces))]
    pub fn test_space(&self, limits: &Limits, variables: &[Variable], line: u32) -> Result<(), Stop>
        ensures { (g : Setting) (o : Outside) → AreLimits limits.now g
            → Acts g self.now self.now o o result (test_space g variables.now line) }
    {
        match objects_end(variables, self.stacked) {
            Some(end) => {
                if end > limits.stack_end {
                    return Err(Stop::Ended(Cause::Stack, line));
                }
                Ok(())
            }
            None => Err(Stop::Failed(Fault::Memory)),
        }
    }

    /// One key is made for all objects of a block, where it has any.
    #[tactic(auto, using(crate::proofs::Entering::keys))]
    pub fn test_keys(
        &mut self,
        limits: &Limits,
        variables: &[Variable],
        line: u32,
    ) -> Result<(), Stop>
        ensures { (g : Setting) (o : Outside) → AreLimits limits.now g
            → Acts g self.old self.new o o result (test_keys g variables.now line) }
    {
        if has_objects(variables) {
            self.take_key(limits.keys, line)
        } else {
            Ok(())
        }
    }

    /// The objects of some variables are placed on top of the object stack, and these are the homes of all.
    pub fn place_variables(&mut self, alloc: Global, variables: &[Variable]) -> Result<Homes, Stop>
        ensures { ActsAlone self.old self.new result (place_variables variables.now) }
    {
        let mut homes = Homes::new(alloc);
        for i in 0..variables.len() {
            let variable = nth(variables, i);
            let home = self.place_variable(variable)?;
            homes.push(home)?;
        }
        Ok(homes)
    }

    #[tactic(auto, using(crate::proofs::Acting::failing, crate::proofs::Entering::reads_frame))]
    fn copy_frame(&self, alloc: Global) -> Result<Homes, Stop>
        ensures { ActsAlone self.now self.now result (read_state (λ s. s.frame)) }
    {
        let frame = self.frame.copy(alloc)?;
        Ok(frame)
    }

    /// The variables have other homes.
    #[tactic(auto, using(crate::proofs::Entering::sets_frame))]
    pub fn set_frame(&mut self, frame: Homes)
        ensures { ActsAlone self.old self.new (Ok tt) (change (λ s. record s { frame = frame })) }
    {
        self.frame = frame;
    }

    #[tactic(auto, using(crate::proofs::Entering::goes_back))]
    fn go_back(&mut self, frame: Homes, stacked: u64)
        ensures { ActsAlone self.old self.new (Ok tt)
            (change (λ s. record s { frame = frame; stacked = stacked })) }
    {
        self.frame = frame;
        self.stacked = stacked;
    }

    // The objects of a block are placed.
    #[tactic(auto, using(crate::proofs::Acting::failing))]
    fn place_block(&mut self, alloc: Global, variables: &[Variable]) -> Result<EnteredBlock, Stop>
        ensures { ActsAlone self.old self.new result (place_block variables.now) }
    {
        let frame = self.copy_frame(alloc)?;
        let stacked = self.stacked;
        let homes = self.place_variables(alloc, variables)?;
        let inside = frame.over(alloc, &homes)?;
        self.set_frame(inside);
        Ok(EnteredBlock {
            homes,
            frame,
            stacked,
        })
    }

    /// A block that has objects is entered: all variables, of which those are objects that it declares.
    pub fn enter_block(
        &mut self,
        alloc: Global,
        limits: &Limits,
        variables: &[Variable],
        line: u32,
    ) -> Result<EnteredBlock, Stop>
        ensures { (g : Setting) (o : Outside) → AreLimits limits.now g
            → Acts g self.old self.new o o result (enter_block g variables.now line) }
    {
        self.test_space(limits, variables, line)?;
        self.test_keys(limits, variables, line)?;
        self.place_block(alloc, variables)
    }

    /// It is left: its objects die, and the top goes back.
    pub fn leave_block(&mut self, block: EnteredBlock) -> Result<(), Stop>
        ensures { ActsAlone self.old self.new result (change (leave_block block)) }
    {
        let EnteredBlock {
            homes,
            frame,
            stacked,
        } = block;
        self.bury_all(homes.as_slice())?;
        self.go_back(frame, stacked);
        Ok(())
    }
}
