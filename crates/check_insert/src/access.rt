//! Accesses that get checks.

ghost use Rattle.std.specs.Prelude.{◌≡◌, ◌+◌, ◌<◌, ◌^◌, ◌++◌, ◌∷◌, [], IfOk, OnOk, length};
ghost use Rattle.c_tree.specs.Kinds.{size_of_kind};
ghost use Rattle.check_insert.specs.Building.{access_of, unless_bare, if_unchecked, front, back, places, with_checks};

use c_tree::Kind;
use sb_base::Line;
use std::alloc::{AllocError, Global};
use tac_ir::{Instruction, Mode, Test};

/// An access through a pointer that is not checked yet, with what its checks need.
#[derive(Clone, Copy)]
pub struct Access {
    /// The number of its bytes.
    pub size: u64,
    pub line: Line,
    /// The number of the pointer's key.
    pub key: Option<usize>,
    /// The temporary that has the pointer.
    pub pointer: usize,
    /// The access behind its checks.
    pub judged: Instruction,
}

impl Access {
    ghost use Rattle.std.specs.Prelude.{◌≡◌};
    ghost use Rattle.tac_ir.specs.declared.instruction.Instruction.TheVariants.{Judge};

    // A check of it, which leads to a node.
    fn check(&self, test: Test, next: usize) -> Instruction
        ensures { result ≡ Judge test self.now.size self.now.line self.now.key self.now.pointer next }
    {
        Instruction::Judge {
            test,
            size: self.size,
            line: self.line,
            key: self.key,
            pointer: self.pointer,
            next,
        }
    }
}

fn kind_size(kind: Kind) -> u64
    ensures { result ≡ size_of_kind kind }
{
    match kind {
        Kind::Void => 0,
        Kind::Scalar(scalar) => scalar.size(),
        Kind::Structure(size) | Kind::Array(size) => size,
    }
}

fn unless_bare(kind: Kind, access: Access) -> Option<Access>
    ensures { result ≡ unless_bare kind access }
{
    match kind {
        Kind::Scalar(_) | Kind::Structure(_) => Some(access),
        Kind::Void | Kind::Array(_) => None,
    }
}

fn if_unchecked(mode: Mode, access: Option<Access>) -> Option<Access>
    ensures { result ≡ if_unchecked mode access }
{
    match mode {
        Mode::Unchecked => access,
        Mode::Named | Mode::Judged => None,
    }
}

// An instruction that gets checks. An access of what has no bytes of its own gets none.
fn access_of(instruction: &Instruction) -> Option<Access>
    ensures { result ≡ access_of instruction.now }
{
    match *instruction {
        Instruction::Read {
            kind,
            mode,
            line,
            key,
            to,
            from,
            next,
        } => {
            let judged = Instruction::Read {
                kind,
                mode: Mode::Judged,
                line,
                key,
                to,
                from,
                next,
            };
            let size = kind_size(kind);
            if_unchecked(
                mode,
                unless_bare(
                    kind,
                    Access {
                        size,
                        line,
                        key,
                        pointer: from,
                        judged,
                    },
                ),
            )
        }
        Instruction::Write {
            kind,
            mode,
            line,
            key,
            to,
            pointer,
            value,
            next,
        } => {
            let judged = Instruction::Write {
                kind,
                mode: Mode::Judged,
                line,
                key,
                to,
                pointer,
                value,
                next,
            };
            let size = kind_size(kind);
            if_unchecked(
                mode,
                unless_bare(
                    kind,
                    Access {
                        size,
                        line,
                        key,
                        pointer,
                        judged,
                    },
                ),
            )
        }
        Instruction::Update {
            update,
            scalar,
            fixity,
            mode,
            line,
            operator_line,
            key,
            to,
            pointer,
            right,
            next,
        } => {
            let judged = Instruction::Update {
                update,
                scalar,
                fixity,
                mode: Mode::Judged,
                line,
                operator_line,
                key,
                to,
                pointer,
                right,
                next,
            };
            let size = scalar.size();
            if_unchecked(
                mode,
                Some(Access {
                    size,
                    line,
                    key,
                    pointer,
                    judged,
                }),
            )
        }
        _ => None,
    }
}

// Puts an instruction at its node, with its checks: what stands behind all nodes stands there from a node on.
fn put(
    nodes: &mut Vec<Instruction>,
    behind: &mut Vec<Instruction>,
    instruction: &Instruction,
    next: usize,
) -> Result<(), AllocError>
    requires { next + 1 < 2 ^ 64 }
    ensures nodes { OnOk result
        (nodes.new.items ≡ nodes.old.items ++ front next (access_of instruction.now) instruction.now ∷ []) }
    ensures behind { OnOk result (behind.new.items ≡ behind.old.items ++ back next (access_of instruction.now)) }
{
    match access_of(instruction) {
        None => nodes.push(*instruction)?,
        Some(access) => {
            nodes.push(access.check(Test::Spatial, next))?;
            behind.push(access.check(Test::Temporal, next + 1))?;
            behind.push(access.judged)?;
        }
    }
    Ok(())
}

/// The code of a function with its checks put in.
#[derive(Drop)]
pub struct CheckedCode {
    pub nodes: Vec<Instruction>,
    /// For each node of the code without them, where its own checks begin behind all those nodes.
    pub places: Vec<usize>,
}

/// The code of a function with its checks put in.
pub fn with_checks(alloc: Global, code: &[Instruction]) -> Result<CheckedCode, AllocError>
    ensures nodes { IfOk result (λ r. r.nodes.items ≡ with_checks code.now) }
    ensures places { IfOk result (λ r. r.places.items ≡ places (length code.now) code.now) }
{
    let mut nodes = Vec::new(alloc);
    let mut behind = Vec::new(alloc);
    let mut places = Vec::new(alloc);
    for instruction in code {
        let next = code.len() + behind.len();
        places.push(next)?;
        put(&mut nodes, &mut behind, instruction, next)?;
    }
    nodes.extend_from_slice(&behind)?;
    Ok(CheckedCode { nodes, places })
}
