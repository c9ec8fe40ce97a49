//! Keys of checks: what they give over the plain variables and the homes of a state.

use crate::state::{State, Stop};
use obj_memory::{Tag, Value};
use tac_ir::{Base, Key, Scaled};

impl State {
    fn base_value(&self, base: Base) -> Value {
        match base {
            Base::Plain(variable) => self.plain_value(variable),
            Base::Automatic(variable) => self.home_pointer(variable),
            Base::Static(number) => self.pointer_to(number),
        }
    }

    fn scaled_value(&self, scaled: Option<Scaled>) -> u64 {
        match scaled {
            Some(part) => self.plain_value(part.variable).word.wrapping_mul(part.size),
            None => 0,
        }
    }

    // A base narrowed to the members of a path, of which the last comes first.
    fn key_tag(&self, key: &Key, base: Value) -> Tag {
        let mut tag = base.tag;
        for member in key.path.as_slice().iter().rev() {
            let moved = member
                .constant
                .wrapping_add(self.scaled_value(member.scaled));
            let whole = Value {
                word: base.word,
                tag,
            };
            tag = whole.narrowed(moved, member.size).tag;
        }
        tag
    }

    fn key_value(&self, key: &Key) -> Value {
        let base = self.base_value(key.base);
        let moved = key.constant.wrapping_add(self.scaled_value(key.scaled));
        Value {
            word: base.word.wrapping_add(moved),
            tag: self.key_tag(key, base),
        }
    }

    /// A step with a key is wrong where the key does not give its pointer.
    pub(crate) fn admit_key(
        &self,
        keys: &[Key],
        number: Option<usize>,
        pointer: Value,
    ) -> Result<(), Stop> {
        let Some(number) = number else {
            return Ok(());
        };
        match keys.get(number) {
            Some(key) if self.key_value(key) == pointer => Ok(()),
            _ => Err(Stop::Stuck),
        }
    }
}
