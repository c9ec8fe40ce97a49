//! What instructions do.

use crate::access::{Finding, are_within, operate};
use crate::call::Arguments;
use crate::state::{Cause, State, Stop, Temporary, ended, plain};
use crate::value::{converted, difference_value, function_pointer, integer, offset_value};
use c_tree::Kind;
use obj_memory::{Tag, Value};
use sb_base::Line;
use static_data::pointers::size_of;
use tac_ir::{CodeFunction, Instruction, Mode, RightOperand, Tac, Test};

fn finding_of(mode: Mode) -> Finding {
    match mode {
        Mode::Named => Finding::Named,
        Mode::Unchecked | Mode::Judged => Finding::Judged,
    }
}

impl State {
    fn right_value(&self, right: RightOperand) -> Value {
        match right {
            RightOperand::Temporary(number) => self.get(number).value,
            RightOperand::One => integer(1),
        }
    }

    // The temporary that gets what an instruction names, what it gets, and the next node.
    fn named(&self, instruction: &Instruction) -> Option<(usize, Value, usize)> {
        let (to, value, next) = match *instruction {
            Instruction::Constant { to, word, next } => (to, integer(word), next),
            Instruction::FunctionPointer { to, function, next } => (
                to,
                function_pointer(function),
                next,
            ),
            Instruction::GetPlain { to, variable, next } => (to, self.plain_value(variable), next),
            Instruction::HomePointer { to, variable, next } => (
                to,
                self.home_pointer(variable),
                next,
            ),
            Instruction::StaticPointer { to, number, next } => (to, self.pointer_to(number), next),
            _ => return None,
        };
        Some((to, value, next))
    }

    // The same of what is made of one operand.
    fn derived(&self, instruction: &Instruction) -> Option<(usize, Value, usize)> {
        let (to, value, next) = match *instruction {
            Instruction::Convert {
                kind,
                to,
                from,
                next,
            } => (to, converted(kind, self.get(from).value), next),
            Instruction::Unary {
                operator,
                int_type,
                to,
                from,
                next,
            } => {
                let word = operator.apply(int_type, self.get(from).value.word);
                (to, integer(word), next)
            }
            Instruction::Narrow {
                offset,
                size,
                to,
                from,
                next,
            } => { (to, self.get(from).value.narrowed(offset, size), next) }
            _ => return None,
        };
        Some((to, value, next))
    }

    // The same of what is made of a pointer and an index, or of two pointers.
    fn moved(&self, instruction: &Instruction) -> Option<(usize, Value, usize)> {
        let (to, value, next) = match *instruction {
            Instruction::Offset {
                form,
                size,
                to,
                left,
                right,
                next,
            } => {
                let value = offset_value(form, size, self.get(left).value, self.get(right).value);
                (to, value, next)
            }
            Instruction::Difference {
                size,
                to,
                left,
                right,
                next,
            } => {
                let value = difference_value(size, self.get(left).value, self.get(right).value);
                (to, value, next)
            }
            _ => return None,
        };
        Some((to, value, next))
    }

    // The same of what takes no more than its operands.
    fn found(&self, instruction: &Instruction) -> Option<(usize, Value, usize)> {
        match instruction {
            Instruction::Convert { .. } | Instruction::Unary { .. } | Instruction::Narrow { .. } =>
                self.derived(instruction),
            Instruction::Offset { .. } | Instruction::Difference { .. } => self.moved(instruction),
            _ => self.named(instruction),
        }
    }

    // An access is allowed at this step, and its key gives its pointer.
    fn admit(
        &self,
        function: &CodeFunction,
        kind: Kind,
        mode: Mode,
        key: Option<usize>,
        pointer: Temporary,
    ) -> Result<(), Stop> {
        self.admit_key(function.keys.as_slice(), key, pointer.value)?;
        match mode {
            Mode::Named => self.admit_named(kind, pointer),
            Mode::Unchecked => self.admit_pointer(pointer),
            Mode::Judged => self.admit_judged(kind, pointer),
        }
    }

    fn check(&self, test: Test, size: u64, pointer: Value, line: Line) -> Result<(), Stop> {
        let is_passed = match (test, pointer.tag) {
            (Test::Spatial, Tag::OfObject(_, bounds)) => are_within(bounds, pointer.word, size),
            (Test::Temporal, Tag::OfObject(number, _)) => self.is_live(number),
            _ => false,
        };
        match test {
            _ if is_passed => Ok(()),
            Test::Spatial => Err(ended(Cause::Spatial, line)),
            Test::Temporal => Err(ended(Cause::Temporal, line)),
        }
    }

    fn perform_read(
        &mut self,
        function: &CodeFunction,
        instruction: &Instruction,
    ) -> Result<usize, Stop> {
        let Instruction::Read {
            kind,
            mode,
            line,
            key,
            to,
            from,
            next,
        } = *instruction
        else {
            return Err(Stop::Stuck);
        };
        let pointer = self.get(from);
        self.admit(function, kind, mode, key, pointer)?;
        let value = self.read(kind, finding_of(mode), pointer, line)?;
        self.give(to, value)?;
        Ok(next)
    }

    fn perform_write(
        &mut self,
        function: &CodeFunction,
        instruction: &Instruction,
    ) -> Result<usize, Stop> {
        let Instruction::Write {
            kind,
            mode,
            line,
            key,
            to,
            pointer,
            value,
            next,
        } = *instruction
        else {
            return Err(Stop::Stuck);
        };
        let place = self.get(pointer);
        let value = self.get(value);
        self.admit(function, kind, mode, key, place)?;
        self.admit_moved(kind, value)?;
        let result = self.write(kind, finding_of(mode), place.value, line, value)?;
        self.give(to, result)?;
        Ok(next)
    }

    fn perform_update(
        &mut self,
        function: &CodeFunction,
        instruction: &Instruction,
    ) -> Result<usize, Stop> {
        let Instruction::Update {
            update,
            scalar,
            fixity,
            mode,
            line,
            operator_line,
            key,
            to,
            pointer,
            right,
            next,
        } = *instruction
        else {
            return Err(Stop::Stuck);
        };
        let place = self.get(pointer);
        let right = self.right_value(right);
        self.admit(function, Kind::Scalar(scalar), mode, key, place)?;
        let form = (update, scalar, fixity);
        let lines = (line, operator_line);
        let value = self.update(form, finding_of(mode), place.value, right, lines)?;
        self.give(to, plain(value))?;
        Ok(next)
    }

    fn perform_check(
        &self,
        function: &CodeFunction,
        instruction: &Instruction,
    ) -> Result<usize, Stop> {
        let Instruction::Judge {
            test,
            size,
            line,
            key,
            pointer,
            next,
        } = *instruction
        else {
            return Err(Stop::Stuck);
        };
        let place = self.get(pointer).value;
        self.admit_key(function.keys.as_slice(), key, place)?;
        self.check(test, size, place, line)?;
        Ok(next)
    }

    // All bytes of the object of a variable become zero.
    fn zero(&mut self, variable: usize) -> Result<(), Stop> {
        let Some(number) = self.home(variable) else {
            return Err(Stop::Stuck);
        };
        match self.objects.get_mut(number) {
            Some(object) if object.is_live => {
                let size = object.size;
                object.clear();
                self.tally(size);
                Ok(())
            }
            _ => Err(Stop::Stuck),
        }
    }

    // A part of the object of a variable gets the bytes of a text.
    fn store_text(&mut self, text: &[u8], variable: usize, offset: u64) -> Result<(), Stop> {
        let size = offset.saturating_add(text.len() as u64);
        let whole = Kind::Array(size);
        self.admit_named(whole, plain(self.home_pointer(variable)))?;
        let Some(number) = self.home(variable) else {
            return Err(Stop::Stuck);
        };
        self.tally(text.len() as u64);
        let mut place = offset;
        for byte in text {
            self.store_byte(number, place, *byte)?;
            place = place.saturating_add(1);
        }
        Ok(())
    }

    fn store_part(
        &mut self,
        kind: Kind,
        line: Line,
        variable: usize,
        offset: u64,
        from: usize,
    ) -> Result<(), Stop> {
        let size = size_of(kind);
        let pointer = self.home_pointer(variable).narrowed(offset, size);
        let value = self.get(from);
        self.admit_named(kind, plain(pointer))?;
        self.admit_moved(kind, value)?;
        self.write(kind, Finding::Named, pointer, line, value)?;
        Ok(())
    }

    // Plain variables, and parts of objects of variables.
    fn perform_store(&mut self, code: &Tac, instruction: &Instruction) -> Result<usize, Stop> {
        match *instruction {
            Instruction::SetPlain {
                variable,
                from,
                next,
            } => {
                self.set_plain(variable, self.get(from).value);
                Ok(next)
            }
            Instruction::Zero { variable, next } => {
                self.zero(variable)?;
                Ok(next)
            }
            Instruction::StorePart {
                kind,
                line,
                variable,
                offset,
                from,
                next,
            } => {
                self.store_part(kind, line, variable, offset, from)?;
                Ok(next)
            }
            Instruction::StoreText {
                text,
                variable,
                offset,
                next,
            } => {
                match code.texts.as_slice().get(text) {
                    Some(bytes) => self.store_text(bytes.as_slice(), variable, offset)?,
                    None => return Err(Stop::Stuck),
                }
                Ok(next)
            }
            _ => Err(Stop::Stuck),
        }
    }

    // Updates of plain variables, and operators on two integers.
    fn perform_operator(&mut self, instruction: &Instruction) -> Result<usize, Stop> {
        let (to, value, next) = match *instruction {
            Instruction::UpdatePlain {
                update,
                scalar,
                fixity,
                line,
                to,
                variable,
                right,
                next,
            } => {
                let right = self.right_value(right);
                let value = self.update_plain((update, scalar, fixity), variable, right, line)?;
                (to, value, next)
            }
            Instruction::Binary {
                operator,
                int_type,
                line,
                to,
                left,
                right,
                next,
            } => {
                let left = self.get(left).value.word;
                let right = self.get(right).value.word;
                (to, operate(operator, int_type, left, right, line)?, next)
            }
            _ => return Err(Stop::Stuck),
        };
        self.give(to, plain(value))?;
        Ok(next)
    }

    // Structures by value.
    fn perform_structure(&mut self, instruction: &Instruction) -> Result<usize, Stop> {
        let (to, value, next) = match *instruction {
            Instruction::ZeroOf { kind, to, next } => (to, self.zero_of(kind)?, next),
            Instruction::Take {
                kind,
                line,
                to,
                from,
                next,
            } => {
                let value = self.get(from);
                self.admit_moved(kind, value)?;
                (to, self.take(kind, line, value)?, next)
            }
            Instruction::Member {
                offset,
                size,
                to,
                from,
                next,
            } => {
                let whole = self.get(from);
                let member = Temporary {
                    value: whole.value.narrowed(offset, size),
                    contents: whole.contents,
                };
                (to, member, next)
            }
            _ => return Err(Stop::Stuck),
        };
        self.give(to, value)?;
        Ok(next)
    }

    fn perform_library(&mut self, code: &Tac, instruction: &Instruction) -> Result<usize, Stop> {
        let (to, value, next) = match *instruction {
            Instruction::Library {
                routine,
                line,
                first,
                count,
                next,
            } => { (first, self.call_library(routine, line, first, count)?, next) }
            Instruction::Print {
                text,
                line,
                first,
                count,
                next,
            } => {
                let Some(format) = code.texts.as_slice().get(text) else {
                    return Err(Stop::Stuck);
                };
                (
                    first,
                    self.print(format.as_slice(), line, first, count)?,
                    next,
                )
            }
            _ => return Err(Stop::Stuck),
        };
        self.give(to, plain(value))?;
        Ok(next)
    }

    fn arguments(&self, first: usize, count: usize) -> Arguments {
        Arguments {
            first: self.window.temporaries.saturating_add(first),
            count,
        }
    }

    fn perform_call(&mut self, code: &Tac, instruction: &Instruction) -> Result<usize, Stop> {
        match *instruction {
            Instruction::Call {
                function: number,
                line,
                first,
                count,
                next,
            } => {
                let waiting = self.waiting(next, first);
                let arguments = self.arguments(first, count);
                self.call(code, number, arguments, line, Some(waiting))
            }
            Instruction::CallThrough {
                type_number,
                line,
                first,
                count,
                next,
            } => {
                let number = self.callee(code, type_number, self.get(first).value, line)?;
                let waiting = self.waiting(next, first);
                let arguments = self.arguments(first.saturating_add(1), count);
                self.call(code, number, arguments, line, Some(waiting))
            }
            _ => Err(Stop::Stuck),
        }
    }

    // What goes to other nodes, and the ends of blocks.
    fn go(&mut self, function: &CodeFunction, instruction: &Instruction) -> Result<usize, Stop> {
        match *instruction {
            Instruction::Branch {
                from,
                not_zero,
                zero,
            } => {
                Ok(if self.get(from).value.word == 0 {
                    zero
                } else {
                    not_zero
                })
            }
            Instruction::Case {
                from,
                word,
                equal,
                other,
            } => {
                Ok(if self.get(from).value.word == word {
                    equal
                } else {
                    other
                })
            }
            Instruction::Turn { next, .. } => {
                self.begin_turn()?;
                Ok(next)
            }
            Instruction::EnterBlock { block, line, next } => {
                self.enter_block(function, block, line)?;
                Ok(next)
            }
            Instruction::Skip { next } => Ok(next),
            Instruction::LeaveBlock { block, next } => {
                self.leave_block(block)?;
                Ok(next)
            }
            Instruction::Return { from } => self.give_back(self.get(from)),
            _ => Err(Stop::Stuck),
        }
    }

    /// What an instruction of the function that runs does, once its cost is paid; the next node.
    pub(crate) fn act(
        &mut self,
        code: &Tac,
        function: &CodeFunction,
        instruction: &Instruction,
    ) -> Result<usize, Stop> {
        if let Some((to, value, next)) = self.found(instruction) {
            self.give(to, plain(value))?;
            return Ok(next);
        }
        match *instruction {
            Instruction::UpdatePlain { .. } | Instruction::Binary { .. } => self.perform_operator(
                instruction,
            ),
            Instruction::ZeroOf { .. } | Instruction::Take { .. } | Instruction::Member { .. } => {
                self.perform_structure(instruction)
            }
            Instruction::Read { .. } => self.perform_read(function, instruction),
            Instruction::Write { .. } => self.perform_write(function, instruction),
            Instruction::Update { .. } => self.perform_update(function, instruction),
            Instruction::Judge { .. } => self.perform_check(function, instruction),
            Instruction::SetPlain { .. }
            | Instruction::Zero { .. }
            | Instruction::StorePart { .. }
            | Instruction::StoreText { .. } => { self.perform_store(code, instruction) }
            Instruction::Library { .. } | Instruction::Print { .. } => self.perform_library(
                code,
                instruction,
            ),
            Instruction::Call { .. } | Instruction::CallThrough { .. } => self.perform_call(
                code,
                instruction,
            ),
            _ => self.go(function, instruction),
        }
    }
}
