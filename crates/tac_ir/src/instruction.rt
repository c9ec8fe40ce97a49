//! Instructions: a graph of them for each function. Temporaries and nodes go by number; `next` is the node that comes
//! next.

use c_tree::{Fixity, Kind, OffsetForm, Routine, Update};
use obj_memory::{BinaryOperator, IntType, Scalar, UnaryOperator};
use sb_base::Line;
use std::alloc::Global;

/// How an access finds its place.
#[derive(Clone, Copy, Debug, PartialEq, Eq)]
pub enum Mode {
    /// By the name of an object, or in a structure value: it gets no check.
    Named,
    /// Through a pointer that is not checked yet: a wrong access ends the run.
    Unchecked,
    /// Through a pointer that checks have judged.
    Judged,
}

/// What a check tests.
#[derive(Clone, Copy, Debug, PartialEq, Eq)]
pub enum Test {
    /// That the bytes are within the bounds of the pointer (SoftBound's check).
    Spatial,
    /// That its object lives (CETS's check).
    Temporal,
}

/// The right operand of an update.
#[derive(Clone, Copy, Debug, PartialEq, Eq)]
pub enum RightOperand {
    /// The value of a temporary.
    Temporary(usize),
    /// The 1 of `++` and `--`.
    One,
}

/// An instruction.
#[derive(Clone, Copy)]
pub enum Instruction {
    /// Nothing stands here yet.
    Reserved,
    /// Nothing is done, as where a check was dropped.
    Skip {
        next: usize,
    },
    /// An integer.
    Constant {
        to: usize,
        word: u64,
        next: usize,
    },
    /// A pointer to a function, by its number.
    FunctionPointer {
        to: usize,
        function: usize,
        next: usize,
    },
    /// The value of a plain variable.
    GetPlain {
        to: usize,
        variable: usize,
        next: usize,
    },
    /// A plain variable gets a value.
    SetPlain {
        variable: usize,
        from: usize,
        next: usize,
    },
    /// A plain variable is updated, at the line of the operator; the result is the old value or the new one.
    UpdatePlain {
        update: Update,
        scalar: Scalar,
        fixity: Fixity,
        line: Line,
        to: usize,
        variable: usize,
        right: RightOperand,
        next: usize,
    },
    /// The pointer to the object of a variable.
    HomePointer {
        to: usize,
        variable: usize,
        next: usize,
    },
    /// The pointer to a static object, by its number.
    StaticPointer {
        to: usize,
        number: usize,
        next: usize,
    },
    /// 0 of a kind.
    ZeroOf {
        kind: Kind,
        to: usize,
        next: usize,
    },
    /// A conversion to a kind.
    Convert {
        kind: Kind,
        to: usize,
        from: usize,
        next: usize,
    },
    Unary {
        operator: UnaryOperator,
        int_type: IntType,
        to: usize,
        from: usize,
        next: usize,
    },
    Binary {
        operator: BinaryOperator,
        int_type: IntType,
        line: Line,
        to: usize,
        left: usize,
        right: usize,
        next: usize,
    },
    /// A pointer and an index of elements of so many bytes.
    Offset {
        form: OffsetForm,
        size: u64,
        to: usize,
        left: usize,
        right: usize,
        next: usize,
    },
    /// The difference of two pointers in elements of so many bytes.
    Difference {
        size: u64,
        to: usize,
        left: usize,
        right: usize,
        next: usize,
    },
    /// The pointer to a member of what a pointer points to.
    Narrow {
        offset: u64,
        size: u64,
        to: usize,
        from: usize,
        next: usize,
    },
    /// The same of what an lvalue or a structure value stands for, contents too.
    Member {
        offset: u64,
        size: u64,
        to: usize,
        from: usize,
        next: usize,
    },
    /// The contents of a structure value, as an argument or a result has them.
    Take {
        kind: Kind,
        line: Line,
        to: usize,
        from: usize,
        next: usize,
    },
    /// What a pointer points to, or a part of contents; `key` is the number of the pointer's key.
    Read {
        kind: Kind,
        mode: Mode,
        line: Line,
        key: Option<usize>,
        to: usize,
        from: usize,
        next: usize,
    },
    /// What a pointer points to gets a value.
    Write {
        kind: Kind,
        mode: Mode,
        line: Line,
        key: Option<usize>,
        to: usize,
        pointer: usize,
        value: usize,
        next: usize,
    },
    /// A scalar that a pointer points to is read, updated and written: the line of the access, then that of the
    /// operator. The result is the old value or the new one.
    Update {
        update: Update,
        scalar: Scalar,
        fixity: Fixity,
        mode: Mode,
        line: Line,
        operator_line: Line,
        key: Option<usize>,
        to: usize,
        pointer: usize,
        right: RightOperand,
        next: usize,
    },
    /// A check of an access of so many bytes.
    Judge {
        test: Test,
        size: u64,
        line: Line,
        key: Option<usize>,
        pointer: usize,
        next: usize,
    },
    /// All bytes of the object of a variable become zero.
    Zero {
        variable: usize,
        next: usize,
    },
    /// A part of the object of a variable gets a value.
    StorePart {
        kind: Kind,
        line: Line,
        variable: usize,
        offset: u64,
        from: usize,
        next: usize,
    },
    /// A part of the object of a variable gets the bytes of a text, by its number.
    StoreText {
        text: usize,
        variable: usize,
        offset: u64,
        next: usize,
    },
    /// Two ways, by whether a temporary is 0.
    Branch {
        from: usize,
        not_zero: usize,
        zero: usize,
    },
    /// Two ways, by whether a temporary is equal to a word.
    Case {
        from: usize,
        word: u64,
        equal: usize,
        other: usize,
    },
    /// A turn of a loop begins; `counted` is its number among the counted loops, if it is one.
    Turn {
        counted: Option<usize>,
        next: usize,
    },
    /// A call of a library routine with so many arguments from a temporary on, which gets the result.
    Library {
        routine: Routine,
        line: Line,
        first: usize,
        count: usize,
        next: usize,
    },
    /// A call of `printf` with a format, by the number of its text, and arguments as above.
    Print {
        text: usize,
        line: Line,
        first: usize,
        count: usize,
        next: usize,
    },
    /// A call of a function of the program, by its number, with arguments as above.
    Call {
        function: usize,
        line: Line,
        first: usize,
        count: usize,
        next: usize,
    },
    /// A call through a pointer in a temporary, which gets the result; the arguments stand behind it. The function has
    /// the type with this number.
    CallThrough {
        type_number: usize,
        line: Line,
        first: usize,
        count: usize,
        next: usize,
    },
    /// A block with objects is entered, by its number.
    EnterBlock {
        block: usize,
        line: Line,
        next: usize,
    },
    /// The block that was entered last is left, by its number.
    LeaveBlock {
        block: usize,
        next: usize,
    },
    /// The function returns a value.
    Return {
        from: usize,
    },
}
