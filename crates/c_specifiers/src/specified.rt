//! What keywords have said so far.

ghost use Rattle.std.specs.Prelude.{◌≡◌};
ghost use Rattle.c_specifiers.specs.Specified.{basic_type, integer_type, longer, nothing, with, with_storage};

use c_lexer::Keyword;
use c_scope::meaning::Storage;
use c_tree::TypeWord;
use obj_memory::IntType;

/// Which of the words `signed` and `unsigned` came.
#[derive(Clone, Copy)]
pub enum Sign {
    /// Neither.
    Absent,
    /// `signed`
    Signed,
    /// `unsigned`
    Unsigned,
}

/// The word that gives a basic type its size.
#[derive(Clone, Copy)]
pub enum Size {
    /// None, or `int` alone.
    Absent,
    /// `char`
    Char,
    /// `short`
    Short,
    /// `long`
    Long,
    /// `long` twice
    LongLong,
    /// `void`
    Void,
}

/// What the keywords among specifiers have said so far. `int` says nothing that the others do not: 6.7.2 paragraph 2
/// lists each type with it and without, and that alone of no words at all.
#[derive(Clone, Copy)]
pub struct Specified {
    /// The first storage-class specifier.
    pub storage: Storage,
    /// Whether there is more than one, which 6.7.1 paragraph 2 forbids.
    pub has_two_storages: bool,
    /// Whether `const` is among them.
    pub is_const: bool,
    /// Whether `inline` is among them.
    pub is_inline: bool,
    /// `signed` or `unsigned`.
    pub sign: Sign,
    /// The size.
    pub size: Size,
}

impl Specified {
    ghost use Rattle.std.specs.Prelude.{◌≡◌};
    ghost use Rattle.c_specifiers.specs.Specified.{with_const, with_inline, with_sign, with_size, with_type_word};

    /// No keywords.
    pub fn nothing() -> Self
        ensures { result ≡ nothing }
    {
        Specified {
            storage: Storage::Absent,
            has_two_storages: false,
            is_const: false,
            is_inline: false,
            sign: Sign::Absent,
            size: Size::Absent,
        }
    }

    /// These and one more keyword. One that is no specifier says nothing.
    pub fn with(self, keyword: Keyword) -> Self
        ensures { result ≡ with keyword self }
    {
        match keyword {
            Keyword::Typedef => self.with_storage(Storage::Typedef),
            Keyword::Extern => self.with_storage(Storage::Extern),
            Keyword::Static => self.with_storage(Storage::Static),
            Keyword::Auto => self.with_storage(Storage::Auto),
            Keyword::Register => self.with_storage(Storage::Register),
            Keyword::Const => self.with_const(),
            Keyword::Inline => self.with_inline(),
            _ => self.with_type_word(keyword),
        }
    }

    fn with_type_word(self, keyword: Keyword) -> Self
        ensures { result ≡ with_type_word keyword self }
    {
        match keyword {
            Keyword::Signed => self.with_sign(Sign::Signed),
            Keyword::Unsigned => self.with_sign(Sign::Unsigned),
            Keyword::Void => self.with_size(Size::Void),
            Keyword::Char => self.with_size(Size::Char),
            Keyword::Short => self.with_size(Size::Short),
            Keyword::Long => self.with_size(longer(self.size)),
            _ => self,
        }
    }

    fn with_storage(self, storage: Storage) -> Self
        ensures { result ≡ with_storage storage self }
    {
        match self.storage {
            Storage::Absent => Specified { storage, ..self },
            _ => Specified {
                has_two_storages: true,
                ..self
            },
        }
    }

    fn with_const(self) -> Self
        ensures { result ≡ with_const self }
    {
        Specified {
            is_const: true,
            ..self
        }
    }

    fn with_inline(self) -> Self
        ensures { result ≡ with_inline self }
    {
        Specified {
            is_inline: true,
            ..self
        }
    }

    fn with_sign(self, sign: Sign) -> Self
        ensures { result ≡ with_sign sign self }
    {
        Specified { sign, ..self }
    }

    fn with_size(self, size: Size) -> Self
        ensures { result ≡ with_size size self }
    {
        Specified { size, ..self }
    }

    /// The basic type that they name, `int` where they name none (6.7.2 paragraph 2).
    pub fn basic_type(self) -> TypeWord
        ensures { result ≡ basic_type self }
    {
        match self.size {
            Size::Void => TypeWord::Void,
            size => TypeWord::Integer(integer_type(self.sign, size)),
        }
    }
}

fn longer(size: Size) -> Size
    ensures { result ≡ longer size }
{
    match size {
        Size::Long => Size::LongLong,
        _ => Size::Long,
    }
}

fn integer_type(sign: Sign, size: Size) -> IntType
    ensures { result ≡ integer_type sign size }
{
    match (sign, size) {
        (Sign::Absent, Size::Char) => IntType::Char,
        (Sign::Signed, Size::Char) => IntType::SignedChar,
        (Sign::Unsigned, Size::Char) => IntType::UnsignedChar,
        (Sign::Unsigned, Size::Short) => IntType::UnsignedShort,
        (_, Size::Short) => IntType::Short,
        (Sign::Unsigned, Size::Long) => IntType::UnsignedLong,
        (_, Size::Long) => IntType::Long,
        (Sign::Unsigned, Size::LongLong) => IntType::UnsignedLongLong,
        (_, Size::LongLong) => IntType::LongLong,
        (Sign::Unsigned, _) => IntType::UnsignedInt,
        _ => IntType::Int,
    }
}
