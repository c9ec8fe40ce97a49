//! Values that were found, with the contents of structures.

ghost use Rattle.std.specs.Prelude.{◌≡◌, List, [], ◌∷◌, Option, Some, None, IfNone, IfSome, OnOk, OnErr, drop};
ghost use Rattle.obj_memory.specs.Objects.{ObjectState};
ghost use Rattle.source_meaning.specs.State.{Rvalue};
ghost use Rattle.source_meaning.specs.Actions.{integer};
ghost use Rattle.source_meaning.specs.Calls.{first_of};
ghost use Rattle.source_meaning.specs.Structures.{member_of, rvalue};
ghost use Rattle.interpreter_objects.specs.Kept.{found_in};
ghost use Rattle.interpreter_tasks.specs.Actions.{arguments};
ghost use Rattle.source_interp.specs.Answers.{PopsTo, is_there};

use crate::value::integer;
use interpreter_objects::Object;
use obj_memory::{Scalar, Value};
use std::alloc::{AllocError, Global};
use std::marker::Model;

/// What an expression gives: its value, and the contents of a structure that stands for no place.
#[derive(Drop)]
pub struct Found {
    value: Value,
    contents: Option<Object>,
}

impl Model for Found {
    ghost use Rattle.source_meaning.specs.State.{Rvalue};

    ghost Value = { Rvalue };

    ghost view = { λ f. record { value = f.value; contents = f.contents } };
}

impl Found {
    /// A value that has no contents.
    pub fn plain(value: Value) -> Found
        ensures { result ≡ rvalue value }
    {
        Found {
            value,
            contents: None,
        }
    }

    /// A structure that stands for no place: all of some contents.
    pub fn with_contents(contents: Object) -> Found
        ensures { result ≡ record { value = integer 0; contents = Some contents } }
    {
        Found {
            value: integer(0),
            contents: Some(contents),
        }
    }

    /// The contents, where it has any.
    pub fn contents(&self) -> Option<&Object>
        ensures some { IfSome result (λ contents. self.now.contents ≡ Some contents.now) }
        ensures none { IfNone result (self.now.contents ≡ None) }
    {
        self.contents.as_ref()
    }

    /// Whether it has contents.
    pub fn has_contents(&self) -> bool
        ensures { result ≡ is_there self.now.contents }
    {
        match &self.contents {
            Some(_) => true,
            None => false,
        }
    }

    /// The scalar that is at the value's offset of the contents, where it is there.
    pub fn scalar(&self, scalar: Scalar) -> Option<Value>
        ensures { (c : ObjectState) → self.now.contents ≡ Some c → result ≡ found_in scalar self.now.value.word c }
    {
        match &self.contents {
            Some(contents) => contents.read(scalar, self.value.word),
            None => None,
        }
    }

    /// The value, with its contents as they are.
    pub fn value(&self) -> Value
        ensures { result ≡ self.now.value }
    {
        self.value
    }

    /// A member of what the value points to, or of the contents.
    pub fn member(self, offset: u64, size: u64) -> Found
        ensures { result ≡ member_of offset size self }
    {
        Found {
            value: self.value.narrowed(offset, size),
            contents: self.contents,
        }
    }
}

/// The values found so far. Contracts see them with the last one first.
#[derive(Drop)]
pub struct Values {
    items: Vec<Found>,
}

impl Model for Values {
    ghost use Rattle.std.specs.Prelude.{List, reverse};
    ghost use Rattle.source_meaning.specs.State.{Rvalue as OfValue};

    ghost Value = { List OfValue };

    ghost view = { λ v. reverse v.items.items };
}

impl Values {
    /// No values.
    pub fn new(alloc: Global) -> Values
        ensures { result ≡ [] }
    {
        Values {
            items: Vec::new(alloc),
        }
    }

    /// One more value.
    pub fn push(&mut self, value: Found) -> Result<(), AllocError>
        ensures more { OnOk result (self.new ≡ value ∷ self.old) }
        ensures same { OnErr result (self.new ≡ self.old) }
    {
        self.items.push(value)?;
        Ok(())
    }

    /// The value found last without its contents, 0 where there is none.
    pub fn last(&self) -> Value
        ensures { result ≡ (first_of self.now).value }
    {
        match self.items.last() {
            Some(found) => found.value,
            None => integer(0),
        }
    }

    /// The value found last, which is taken away, where there is one.
    pub fn pop(&mut self) -> Option<Found>
        ensures { PopsTo self.old self.new result }
    {
        self.items.pop()
    }

    /// So many values found last as arguments, the first one first; all where there are fewer.
    pub fn arguments(&self, count: usize) -> &[Found]
        ensures { result.now ≡ arguments count self.now }
    {
        let left = self.items.len().saturating_sub(count);
        let all = self.items.as_slice();
        &all[left..]
    }

    /// So many values found last are let go.
    #[tactic(auto, using(crate::proofs::Arguments::others_are))]
    pub fn let_go(&mut self, count: usize)
        ensures { self.new ≡ drop count self.old }
    {
        let left = self.items.len().saturating_sub(count);
        self.items.truncate(left);
    }
}
