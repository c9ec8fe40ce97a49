//! The routines by name, and what a row asks of one.

use c_tree::Directive;
use obj_memory::IntType;

/// Routines that move and fill ranges.
#[derive(Clone, Copy)]
pub enum Moving {
    Memmove,
    Memcpy,
    Memset,
    CopyStructure,
    MoveBytes,
    MoveTagged,
    Fill,
}

/// Routines on one string or two.
#[derive(Clone, Copy)]
pub enum Strings {
    Strlen,
    Strcpy,
    Strcat,
    Strncpy,
    Strcmp,
    Strchr,
    Memcmp,
    Scan,
    ScanAtMost,
}

/// Routines that put bytes out.
#[derive(Clone, Copy)]
pub enum Putting {
    Puts,
    PutBytes,
    Printf,
    Number,
    Digits,
}

/// Accesses in functions of the program.
#[derive(Clone, Copy)]
pub enum Accessing {
    CheckedLoad,
    CheckedStore,
    Load,
    Store,
}

/// The tests of an access, of a size in a register or of a number.
#[derive(Clone, Copy)]
pub enum Testing {
    SpatialCheck,
    SpatialCheckOfNumber,
    TemporalCheck,
}

/// Pointers that are narrowed to a member, that move by elements, and their difference in elements.
#[derive(Clone, Copy)]
pub enum Pointing {
    Narrow,
    Forward,
    Back,
    Difference,
}

/// Contents of structures in areas: made, put to objects, moved, read, and narrowed to a member.
#[derive(Clone, Copy)]
pub enum Contents {
    MakeZero,
    TakeStructure,
    PutStructure,
    TakePart,
    ReadPart,
    NarrowPart,
}

/// Births and deaths of objects, and zeroing.
#[derive(Clone, Copy)]
pub enum Allocating {
    Malloc,
    Calloc,
    Realloc,
    Free,
    Enter,
    Leave,
    Zero,
}

/// A routine.
#[derive(Clone, Copy)]
pub enum Routine {
    Moving(Moving),
    Strings(Strings),
    Putting(Putting),
    Accessing(Accessing),
    Testing(Testing),
    Pointing(Pointing),
    Contents(Contents),
    Allocating(Allocating),
}

const ROUTINES: [(&str, Routine); 45] = [
    ("memmove", Routine::Moving(Moving::Memmove)),
    ("memcpy", Routine::Moving(Moving::Memcpy)),
    ("memset", Routine::Moving(Moving::Memset)),
    ("copy_structure", Routine::Moving(Moving::CopyStructure)),
    ("move_bytes", Routine::Moving(Moving::MoveBytes)),
    ("move_tagged", Routine::Moving(Moving::MoveTagged)),
    ("fill", Routine::Moving(Moving::Fill)),
    ("strlen", Routine::Strings(Strings::Strlen)),
    ("strcpy", Routine::Strings(Strings::Strcpy)),
    ("strcat", Routine::Strings(Strings::Strcat)),
    ("strncpy", Routine::Strings(Strings::Strncpy)),
    ("strcmp", Routine::Strings(Strings::Strcmp)),
    ("strchr", Routine::Strings(Strings::Strchr)),
    ("memcmp", Routine::Strings(Strings::Memcmp)),
    ("scan", Routine::Strings(Strings::Scan)),
    ("scan_at_most", Routine::Strings(Strings::ScanAtMost)),
    ("puts", Routine::Putting(Putting::Puts)),
    ("put_bytes", Routine::Putting(Putting::PutBytes)),
    ("printf", Routine::Putting(Putting::Printf)),
    ("number", Routine::Putting(Putting::Number)),
    ("digits", Routine::Putting(Putting::Digits)),
    ("checked_load", Routine::Accessing(Accessing::CheckedLoad)),
    ("checked_store", Routine::Accessing(Accessing::CheckedStore)),
    ("load", Routine::Accessing(Accessing::Load)),
    ("store", Routine::Accessing(Accessing::Store)),
    ("spatial_check", Routine::Testing(Testing::SpatialCheck)),
    (
        "spatial_check_of_number",
        Routine::Testing(Testing::SpatialCheckOfNumber),
    ),
    ("temporal_check", Routine::Testing(Testing::TemporalCheck)),
    ("narrow", Routine::Pointing(Pointing::Narrow)),
    ("forward", Routine::Pointing(Pointing::Forward)),
    ("back", Routine::Pointing(Pointing::Back)),
    ("difference", Routine::Pointing(Pointing::Difference)),
    ("make_zero", Routine::Contents(Contents::MakeZero)),
    ("take_structure", Routine::Contents(Contents::TakeStructure)),
    ("put_structure", Routine::Contents(Contents::PutStructure)),
    ("take_part", Routine::Contents(Contents::TakePart)),
    ("read_part", Routine::Contents(Contents::ReadPart)),
    ("narrow_part", Routine::Contents(Contents::NarrowPart)),
    ("malloc", Routine::Allocating(Allocating::Malloc)),
    ("calloc", Routine::Allocating(Allocating::Calloc)),
    ("realloc", Routine::Allocating(Allocating::Realloc)),
    ("free", Routine::Allocating(Allocating::Free)),
    ("enter", Routine::Allocating(Allocating::Enter)),
    ("leave", Routine::Allocating(Allocating::Leave)),
    ("zero", Routine::Allocating(Allocating::Zero)),
];

/// The routine with a name.
pub fn routine_named(name: &str) -> Option<Routine> {
    for (other, routine) in ROUTINES.iter() {
        if *other == name {
            return Some(*routine);
        }
    }
    None
}

const TYPES: [(&str, IntType); 11] = [
    ("char", IntType::Char),
    ("signed_char", IntType::SignedChar),
    ("unsigned_char", IntType::UnsignedChar),
    ("short", IntType::Short),
    ("unsigned_short", IntType::UnsignedShort),
    ("int", IntType::Int),
    ("unsigned_int", IntType::UnsignedInt),
    ("long", IntType::Long),
    ("unsigned_long", IntType::UnsignedLong),
    ("long_long", IntType::LongLong),
    ("unsigned_long_long", IntType::UnsignedLongLong),
];

/// The integer type with a name; none is a pointer's.
pub fn type_named(name: &str) -> Option<IntType> {
    for (other, of) in TYPES.iter() {
        if *other == name {
            return Some(*of);
        }
    }
    None
}

const DIRECTIVES: [(&str, Directive); 7] = [
    ("d", Directive::Int),
    ("u", Directive::UnsignedInt),
    ("x", Directive::Hexadecimal),
    ("c", Directive::Character),
    ("ld", Directive::Long),
    ("lu", Directive::UnsignedLong),
    ("s", Directive::String),
];

/// The directive with these letters behind its percent sign.
pub fn directive_named(name: &str) -> Option<Directive> {
    for (other, directive) in DIRECTIVES.iter() {
        if *other == name {
            return Some(*directive);
        }
    }
    None
}

/// A piece of a format.
#[derive(Clone, Copy)]
pub enum Piece {
    Byte(u8),
    Argument(Directive),
}

/// What a row asks for: operands stand in registers, these beside them are parts of the code.
#[derive(Drop)]
pub struct RoutineCall {
    pub routine: Routine,
    pub line: u32,
    /// How many steps are promised at most.
    pub limit: u64,
    /// The type of an access, where it is an integer.
    pub of: Option<IntType>,
    /// The pieces of a format, or the directive of a number.
    pub pieces: Vec<Piece>,
    /// A number that the code has: a size or a base, the last of the operands.
    pub number: u64,
}

/// What a routine gives.
#[derive(Clone, Copy, PartialEq, Eq)]
pub enum Given {
    Nothing,
    Word,
    Pointer,
    /// A pointer to a new object.
    Birth,
    /// Where the objects of a block begin and end, their key and their lock word.
    Block,
    /// Contents in the area of the first operand, as many bytes as this register holds.
    Contents(u32),
    /// A part of contents.
    Part,
}

impl RoutineCall {
    /// What it gives.
    pub fn given(&self) -> Given {
        match self.routine {
            Routine::Moving(moving) => given_by_moving(moving),
            Routine::Strings(strings) => given_by_strings(strings),
            Routine::Putting(putting) => given_by_putting(putting),
            Routine::Accessing(accessing) => self.given_by_accessing(accessing),
            Routine::Testing(_) => Given::Nothing,
            Routine::Pointing(Pointing::Narrow) => Given::Pointer,
            Routine::Pointing(_) => Given::Word,
            Routine::Contents(contents) => self.given_by_contents(contents),
            Routine::Allocating(allocating) => given_by_allocating(allocating),
        }
    }

    /// Whether its code stands in functions of the program, whose accesses are shown.
    pub fn is_of_program(&self) -> bool {
        match self.routine {
            Routine::Accessing(_) | Routine::Testing(_) | Routine::Pointing(_) => true,
            Routine::Contents(Contents::ReadPart) | Routine::Contents(Contents::NarrowPart) => true,
            _ => false,
        }
    }

    /// Whether it may be a function of the runtime: what stands in the functions of a program, and a `printf`, whose
    /// operands take the register of the status, are none.
    pub fn may_be_function(&self) -> bool {
        match self.routine {
            Routine::Accessing(_)
            | Routine::Testing(_)
            | Routine::Pointing(_)
            | Routine::Contents(Contents::ReadPart)
            | Routine::Contents(Contents::NarrowPart)
            | Routine::Putting(Putting::Printf)
            | Routine::Allocating(Allocating::Leave) => false,
            _ => true,
        }
    }

    fn given_by_accessing(&self, accessing: Accessing) -> Given {
        match accessing {
            Accessing::CheckedLoad | Accessing::Load => self.scalar(),
            _ => Given::Nothing,
        }
    }

    fn given_by_contents(&self, contents: Contents) -> Given {
        match contents {
            Contents::MakeZero => Given::Contents(5),
            Contents::TakeStructure | Contents::TakePart => Given::Contents(10),
            Contents::PutStructure => Given::Nothing,
            Contents::ReadPart => self.scalar(),
            Contents::NarrowPart => Given::Part,
        }
    }

    // An integer, or a pointer where no type is told.
    fn scalar(&self) -> Given {
        if self.of.is_some() {
            Given::Word
        } else {
            Given::Pointer
        }
    }
}

fn given_by_moving(moving: Moving) -> Given {
    match moving {
        Moving::Memmove | Moving::Memcpy | Moving::Memset => Given::Pointer,
        _ => Given::Nothing,
    }
}

fn given_by_strings(strings: Strings) -> Given {
    match strings {
        Strings::Strcpy | Strings::Strcat | Strings::Strncpy | Strings::Strchr => Given::Pointer,
        _ => Given::Word,
    }
}

fn given_by_putting(putting: Putting) -> Given {
    match putting {
        Putting::PutBytes => Given::Nothing,
        _ => Given::Word,
    }
}

fn given_by_allocating(allocating: Allocating) -> Given {
    match allocating {
        Allocating::Malloc | Allocating::Calloc | Allocating::Realloc => Given::Birth,
        Allocating::Enter => Given::Block,
        _ => Given::Nothing,
    }
}
