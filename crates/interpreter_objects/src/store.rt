//! All objects of a run, by their numbers.

ghost use Rattle.std.specs.Prelude.{true, false};
ghost use Rattle.std.specs.Prelude.{◌≡◌, ◌/◌, if◌then◌else◌, length, [], Some, None, IfSome, IfNone, IfOk, OnOk, OnErr};
ghost use Rattle.obj_memory.specs.Access.{bytes_at, scalar_size};
ghost use Rattle.obj_memory.specs.Judgement.{are_within, judge, named};
ghost use Rattle.obj_memory.specs.Objects.{no_object, object_at, pointer_to, with_new};
ghost use Rattle.source_meaning.specs.Structures.{contents_of};
ghost use Rattle.interpreter_objects.specs.Kept.{found, has_range, is_movable, is_puttable, is_there, part_of};
ghost use Rattle.interpreter_objects.specs.Kept.{with_buried, with_bytes_put, with_cleared, with_moved, with_put};
ghost use Rattle.interpreter_objects.specs.Kept.{with_written};

use crate::object::Object;
use obj_memory::{Bounds, Place, Scalar, Storage, Tag, Value, Verdict};
use std::alloc::{AllocError, Global};
use std::marker::Model;

/// The objects that were made, in that order.
#[derive(Drop)]
pub struct Store {
    objects: Vec<Object>,
    alloc: Global,
}

impl Model for Store {
    ghost use Rattle.obj_memory.specs.Objects.{Objects};

    ghost Value = { Objects };

    ghost view = { λ s. s.objects.items };
}

// Whether so many bytes from an address on are within the bounds.
fn are_within(bounds: Bounds, address: u64, size: u64) -> bool
    ensures { result ≡ are_within bounds address size }
{
    bounds.base <= address && address <= bounds.bound && size <= bounds.bound - address
}

impl Store {
    /// No objects.
    pub fn new(alloc: Global) -> Store
        ensures { result ≡ [] }
    {
        Store {
            objects: Vec::new(alloc),
            alloc,
        }
    }

    /// A new object of so many bytes, and its number.
    #[tactic(auto, unfolding(obj_memory::specs::Objects::with_new))]
    pub fn add(&mut self, storage: Storage, address: u64, size: u64) -> Result<usize, AllocError>
        ensures number { IfOk result (λ n. n ≡ length self.old) }
        ensures added { OnOk result (self.new ≡ with_new storage address size self.old) }
        ensures same { OnErr result (self.new ≡ self.old) }
    {
        let number = self.objects.len();
        let object = Object::new(self.alloc, storage, address, size)?;
        self.objects.push(object)?;
        Ok(number)
    }

    /// An object dies.
    #[tactic(auto, unfolding(crate::specs::Kept::with_buried))]
    pub fn bury(&mut self, number: usize)
        ensures { self.new ≡ with_buried number self.old }
    {
        let alloc = self.alloc;
        if let Some(object) = self.objects.get_mut(number) {
            object.bury(alloc);
        }
    }

    /// The object with a number.
    pub fn object(&self, number: usize) -> Option<&Object>
        ensures found { IfSome result (λ o. o.now ≡ object_at self.now number) }
        ensures none { IfNone result (object_at self.now number ≡ no_object) }
    {
        self.objects.get(number)
    }

    /// Whether an object that is live has so many bytes from a place on.
    #[tactic(auto, using(crate::proofs::Placed::absent), unfolding(crate::specs::Kept::is_there))]
    pub fn is_there(&self, size: u64, place: Place) -> bool
        ensures { result ≡ is_there size place self.now }
    {
        match self.object(place.object) {
            Some(object) => object.has_bytes(place.offset, size),
            None => false,
        }
    }

    /// The number of objects, which is that of the next one.
    pub fn count(&self) -> usize
        ensures { result ≡ length self.now }
    {
        self.objects.len()
    }

    /// The pointer to a whole object, where its bound fits.
    #[tactic(auto, unfolding(obj_memory::specs::Objects::pointer_to))]
    pub fn pointer_to(&self, number: usize) -> Option<Value>
        ensures { IfSome result (λ v. v ≡ pointer_to number self.now) }
    {
        let address = self.address(number);
        let bound = address.checked_add(self.size(number))?;
        Some(Value {
            word: address,
            tag: Tag::OfObject(
                number,
                Bounds {
                    base: address,
                    bound,
                },
            ),
        })
    }

    /// The scalar at a place, where it is there.
    #[tactic(auto, using(crate::proofs::Placed::found_is, crate::proofs::Placed::not_found))]
    pub fn read(&self, scalar: Scalar, place: Place) -> Option<Value>
        ensures { result ≡ found scalar place self.now }
    {
        match self.object(place.object) {
            Some(object) => object.read(scalar, place.offset),
            None => None,
        }
    }

    /// A scalar is written at a place, where it is there.
    #[tactic(auto, using(crate::proofs::Placed::writing), unfolding(crate::specs::Kept::is_there))]
    pub fn write(&mut self, scalar: Scalar, place: Place, value: Value) -> bool
        ensures there { result ≡ is_there (scalar_size scalar) place self.old }
        ensures value { self.new ≡ with_written scalar value place self.old }
    {
        let number = place.object;
        if number >= self.objects.len() {
            return false;
        }
        self.objects[number].write(scalar, place.offset, value)
    }

    // The address of the object with a number, 0 where there is none.
    fn address(&self, number: usize) -> u64
        ensures { result ≡ (object_at self.now number).address }
    {
        match self.object(number) {
            Some(object) => object.address(),
            None => 0,
        }
    }

    /// The size of the object with a number, 0 where there is none.
    pub fn size(&self, number: usize) -> u64
        ensures { result ≡ (object_at self.now number).size }
    {
        match self.object(number) {
            Some(object) => object.size(),
            None => 0,
        }
    }

    fn is_live(&self, number: usize) -> bool
        ensures { result ≡ (object_at self.now number).is_live }
    {
        match self.object(number) {
            Some(object) => object.is_live(),
            None => false,
        }
    }

    /// Judges an access of so many bytes, at least one, through a pointer.
    #[tactic(auto, unfolding(obj_memory::specs::Judgement::judge))]
    pub fn judge(&self, size: u64, pointer: Value) -> Verdict
        ensures { result ≡ judge size pointer self.now }
    {
        match pointer.tag {
            Tag::OfObject(number, bounds) => {
                if !are_within(bounds, pointer.word, size) {
                    return Verdict::Outside;
                }
                if !self.is_live(number) {
                    return Verdict::Dead;
                }
                Verdict::Inside(Place {
                    object: number,
                    offset: pointer.word.saturating_sub(self.address(number)),
                })
            }
            Tag::Untagged | Tag::OfFunction(_) => Verdict::Outside,
        }
    }

    /// The place of an access that names its object; `Outside` where the pointer is not of an object.
    #[tactic(auto, unfolding(obj_memory::specs::Judgement::named))]
    pub fn named(&self, pointer: Value) -> Verdict
        ensures { result ≡ named pointer self.now }
    {
        match pointer.tag {
            Tag::OfObject(number, _) => Verdict::Inside(Place {
                object: number,
                offset: pointer.word.saturating_sub(self.address(number)),
            }),
            Tag::Untagged | Tag::OfFunction(_) => Verdict::Outside,
        }
    }

    /// So many bytes from a place on, where a live object has them.
    #[tactic(auto, using(crate::proofs::Placed::absent), unfolding(crate::specs::Kept::is_there))]
    pub fn bytes_at(&self, size: u64, place: Place) -> Option<&[u8]>
        ensures some { IfSome result (λ f. f.now ≡ bytes_at size place self.now) }
        ensures there { IfSome result (λ f. is_there size place self.now ≡ true) }
        ensures none { IfNone result (is_there size place self.now ≡ false) }
    {
        match self.object(place.object) {
            Some(object) => object.bytes_from(place.offset, size),
            None => None,
        }
    }

    /// Bytes are written at a place, where a live object has so many; the tags of their words stay.
    #[tactic(auto, using(crate::proofs::Placed::putting_bytes), unfolding(crate::specs::Kept::is_there))]
    pub fn write_bytes(&mut self, place: Place, bytes: &[u8]) -> bool
        ensures there { result ≡ is_there (length bytes.now) place self.old }
        ensures value { self.new ≡ with_bytes_put bytes.now place self.old }
    {
        let number = place.object;
        if number >= self.objects.len() {
            return false;
        }
        self.objects[number].put_bytes(place.offset, bytes)
    }

    /// Some bytes move from one place to another, also where they overlap, with the tags of their whole words.
    #[tactic(auto, using(crate::proofs::Ranges::moving))]
    pub fn move_range(&mut self, size: u64, to: Place, from: Place) -> Result<bool, AllocError>
        ensures there { IfOk result (λ moved. moved ≡ is_movable size to from self.old) }
        ensures value { OnOk result (self.new ≡ with_moved size to from self.old) }
        ensures same { OnErr result (self.new ≡ self.old) }
    {
        let Some(part) = self.part(size, from)? else {
            return Ok(false);
        };
        let number = to.object;
        if number >= self.objects.len() {
            return Ok(false);
        }
        Ok(self.objects[number].move_in(size, to.offset, from.offset % 8, &part))
    }

    // The words with a range of bytes, where a live object has it.
    #[tactic(auto, using(crate::proofs::Ranges::taking))]
    fn part(&self, size: u64, from: Place) -> Result<Option<Object>, AllocError>
        ensures { IfOk result (λ found. found ≡ (if has_range from.offset size (object_at self.now from.object)
            then Some (part_of from.offset size (object_at self.now from.object)) else None)) }
    {
        let Some(object) = self.object(from.object) else {
            return Ok(None);
        };
        if !object.has_range(from.offset, size) {
            return Ok(None);
        }
        let part = object.part(self.alloc, from.offset, size)?;
        Ok(Some(part))
    }

    /// So many bytes from a place on, as contents of their own, where a live object has them.
    #[tactic(auto, using(crate::proofs::Ranges::none_at))]
    pub fn take(&self, size: u64, from: Place) -> Result<Option<Object>, AllocError>
        ensures { IfOk result (λ found. found ≡ (if has_range from.offset size (object_at self.now from.object)
            then Some (contents_of size from.offset (object_at self.now from.object)) else None)) }
    {
        match self.object(from.object) {
            Some(object) => object.contents(self.alloc, size, from.offset),
            None => Ok(None),
        }
    }

    /// Some bytes of contents are put at a place, with the tags of their whole words.
    #[tactic(auto, using(crate::proofs::Ranges::putting))]
    pub fn put(&mut self, size: u64, to: Place, source: u64, contents: &Object) -> bool
        ensures there { result ≡ is_puttable size to source contents.now self.old }
        ensures value { self.new ≡ with_put size to source contents.now self.old }
    {
        let number = to.object;
        if number >= self.objects.len() || !contents.has_range(source, size) {
            return false;
        }
        self.objects[number].move_in(size, to.offset, source, contents)
    }

    /// All bytes of an object that is live become zero, and its words lose their tags.
    #[tactic(auto, using(crate::proofs::Ranges::clearing))]
    pub fn clear(&mut self, number: usize) -> Result<bool, AllocError>
        ensures there { IfOk result (λ cleared. cleared ≡ (object_at self.old number).is_live) }
        ensures value { OnOk result (self.new ≡ with_cleared number self.old) }
        ensures same { OnErr result (self.new ≡ self.old) }
    {
        if number >= self.objects.len() || !self.is_live(number) {
            return Ok(false);
        }
        let alloc = self.alloc;
        self.objects[number].clear(alloc)?;
        Ok(true)
    }
}
