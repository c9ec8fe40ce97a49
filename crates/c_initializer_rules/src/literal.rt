//! String literals that initialize arrays of character type (C99 6.7.8 paragraph 14).

ghost use Rattle.std.specs.Prelude.{◌≡◌, IfOk};
ghost use Rattle.c_initializer_rules.specs.Literals.{filling, is_too_long};

use c_rules::value::unqualified;
use c_tree::TypeWord;
use std::alloc::AllocError;

/// The bytes that fill an array: those of a literal and its final 0, that where it fits or the array has no size yet.
pub fn filling(words: &[TypeWord], spelled: Vec<u8>) -> Result<Vec<u8>, AllocError>
    ensures { IfOk result (λ bytes. bytes.items ≡ filling words.now spelled.items) }
{
    let mut bytes = spelled;
    bytes.push(0)?;
    if let [TypeWord::Array { count, .. }, ..] = unqualified(words) {
        bytes.truncate(*count as usize);
    }
    Ok(bytes)
}

/// Whether a literal has more bytes than an array, its final 0 aside.
pub fn is_too_long(words: &[TypeWord], spelled: &[u8]) -> bool
    ensures { result ≡ is_too_long words.now spelled.now }
{
    match unqualified(words) {
        [TypeWord::Array { count, .. }, ..] => *count < spelled.len() as u64,
        _ => false,
    }
}
