//! Calls, and blocks that have objects.

use crate::access::Finding;
use crate::state::{
    Cause, Entered, Frame, State, Stop, Temporary, Waiting, Window, ended, rounded,
};
use crate::value::{function_address, int_of, integer};
use c_tree::Variable;
use obj_memory::{Storage, Tag, Value};
use sb_base::Line;
use static_data::pointers::size_of;
use std::alloc::{AllocError, Global};
use tac_ir::{CodeFunction, Tac};

/// Arguments, so many from a place among the temporaries of all calls.
#[derive(Clone, Copy)]
pub(crate) struct Arguments {
    pub first: usize,
    pub count: usize,
}

// The bytes of the object that a variable is.
fn object_size(variable: &Variable) -> Option<u64> {
    if variable.is_object {
        Some(size_of(variable.kind))
    } else {
        None
    }
}

// For each variable of a function the bytes of the object that a call of it places.
fn opened_by_call(alloc: Global, function: &CodeFunction) -> Result<Vec<Option<u64>>, AllocError> {
    let mut opened = Vec::new(alloc);
    for variable in function.parameters.as_slice() {
        opened.push(object_size(variable))?;
    }
    for variable in function.entered.as_slice() {
        opened.push(object_size(variable))?;
    }
    Ok(opened)
}

fn variable_in(function: &CodeFunction, number: usize) -> Option<&Variable> {
    let parameters = function.parameters.as_slice();
    match parameters.get(number) {
        Some(variable) => Some(variable),
        None => function
            .variables
            .as_slice()
            .get(number.saturating_sub(parameters.len())),
    }
}

// The same of the entry of a block that declares these variables.
fn opened_by_block(
    alloc: Global,
    function: &CodeFunction,
    numbers: &[usize],
) -> Result<Vec<Option<u64>>, AllocError> {
    let count = function.parameters.as_slice().len();
    let all = count.saturating_add(function.variables.as_slice().len());
    let mut opened = vec![in alloc; None; all]?;
    for number in numbers {
        if let (Some(place), Some(variable)) = (
            opened.get_mut(*number),
            variable_in(function, *number),
        ) {
            *place = object_size(variable);
        }
    }
    Ok(opened)
}

// Where these objects end on the stack.
fn objects_end(opened: &[Option<u64>], top: u64) -> u64 {
    let mut end = top;
    for size in opened {
        if let Some(size) = size {
            end = rounded(end).saturating_add(*size);
        }
    }
    end
}

fn count_objects(opened: &[Option<u64>]) -> usize {
    opened.iter().filter(|size| size.is_some()).count()
}

fn plain_count(variables: &[Variable]) -> usize {
    variables
        .iter()
        .filter(|variable| !variable.is_object)
        .count()
}

impl State {
    // The objects of a block are within the stack, and there is a key for them.
    fn test_entry(&mut self, opened: &[Option<u64>], line: Line) -> Result<(), Stop> {
        if objects_end(opened, self.stacked) > self.places.heap {
            return Err(ended(Cause::Stack, line));
        }
        if count_objects(opened) > 0 {
            self.take_key(line)?;
        }
        Ok(())
    }

    fn test_call(&mut self, room: u64, opened: &[Option<u64>], line: Line) -> Result<(), Stop> {
        if self.charged.saturating_add(room) > self.budgets.calls {
            return Err(ended(Cause::Stack, line));
        }
        self.test_entry(opened, line)
    }

    fn place_object(&mut self, size: Option<u64>) -> Result<Option<usize>, Stop> {
        let Some(size) = size else {
            return Ok(None);
        };
        let address = rounded(self.stacked);
        self.stacked = address.saturating_add(size);
        let number = self.make_object(Storage::Automatic, address, size)?;
        Ok(Some(number))
    }

    fn argument_at(&self, arguments: Arguments, number: usize) -> Temporary {
        self.temporary_at(arguments.first.saturating_add(number))
    }

    // The plain values of the variables of a call.
    fn push_plain(&mut self, function: &CodeFunction, arguments: Arguments) -> Result<(), Stop> {
        for (number, parameter) in function.parameters.as_slice().iter().enumerate() {
            let value = if parameter.is_object || number >= arguments.count {
                integer(0)
            } else {
                self.argument_at(arguments, number).value
            };
            self.plain.push(value)?;
        }
        for _ in function.variables.as_slice() {
            self.plain.push(integer(0))?;
        }
        Ok(())
    }

    fn push_homes(&mut self, opened: &[Option<u64>]) -> Result<(), Stop> {
        for size in opened {
            let home = self.place_object(*size)?;
            self.homes.push(home)?;
        }
        Ok(())
    }

    // Parameters that are objects are written.
    fn write_parameters(
        &mut self,
        function: &CodeFunction,
        arguments: Arguments,
        line: Line,
    ) -> Result<(), Stop> {
        for (number, parameter) in function.parameters.as_slice().iter().enumerate() {
            if parameter.is_object {
                let value = self.argument_at(arguments, number);
                let pointer = self.home_pointer(number);
                self.write(parameter.kind, Finding::Named, pointer, line, value)?;
            }
        }
        Ok(())
    }

    fn lay_out(
        &mut self,
        function: &CodeFunction,
        arguments: Arguments,
        opened: &[Option<u64>],
        line: Line,
    ) -> Result<(), Stop> {
        self.charged = self.charged.saturating_add(function.room);
        let parameters = function.parameters.as_slice().len();
        let plain = plain_count(function.variables.as_slice());
        self.tally(parameters.saturating_add(plain) as u64);
        let window = Window {
            homes: self.homes.len(),
            plain: self.plain.len(),
            temporaries: self.temporaries.len(),
        };
        self.push_plain(function, arguments)?;
        self.push_homes(opened)?;
        self.window = window;
        self.write_parameters(function, arguments, line)
    }

    /// A call of a function by its number, with what waits for its result; the node where it begins.
    pub(crate) fn call(
        &mut self,
        code: &Tac,
        number: usize,
        arguments: Arguments,
        line: Line,
        waiting: Option<Waiting>,
    ) -> Result<usize, Stop> {
        let Some(function) = code.functions.as_slice().get(number) else {
            return Err(ended(Cause::BadCall, line));
        };
        self.begin_turn()?;
        self.tally(1);
        let opened = opened_by_call(self.alloc, function)?;
        self.test_call(function.room, &opened, line)?;
        self.lay_out(function, arguments, &opened, line)?;
        if let Some(caller) = waiting {
            self.frames.push(Frame::Waits(caller))?;
        }
        self.function = number;
        Ok(function.entry)
    }

    /// The function that runs, which goes on at a node once a temporary has the result of a call.
    pub(crate) fn waiting(&self, node: usize, place: usize) -> Waiting {
        Waiting {
            function: self.function,
            node,
            place,
            window: self.window,
            charged: self.charged,
            stacked: self.stacked,
        }
    }

    /// The number of the function of a type that a pointer is called as.
    pub(crate) fn callee(
        &self,
        code: &Tac,
        type_number: usize,
        pointer: Value,
        line: Line,
    ) -> Result<usize, Stop> {
        if let Tag::OfFunction(number) = pointer.tag
            && let Some(function) = code.functions.as_slice().get(number)
            && function.type_number == type_number
            && function_address(number) == pointer.word
        {
            Ok(number)
        } else {
            Err(ended(Cause::BadCall, line))
        }
    }

    // The objects of the function that runs die.
    fn kill_homes(&mut self) {
        for place in self.window.homes..self.homes.len() {
            if let Some(Some(number)) = self.homes.get(place).copied() {
                self.kill(number);
            }
        }
    }

    fn back_to(&mut self, caller: Waiting) {
        self.kill_homes();
        self.homes.truncate(self.window.homes);
        self.plain.truncate(self.window.plain);
        self.temporaries.truncate(self.window.temporaries);
        self.window = caller.window;
        self.charged = caller.charged;
        self.stacked = caller.stacked;
        self.function = caller.function;
    }

    // What handing the contents of a value on counts.
    fn handing(&self, value: Temporary) -> u64 {
        match value.contents.and_then(|number| self.contents.get(number)) {
            Some(contents) => contents.size.saturating_mul(4).saturating_add(1),
            None => 0,
        }
    }

    /// A return of a value; the node where the caller goes on.
    pub(crate) fn give_back(&mut self, value: Temporary) -> Result<usize, Stop> {
        self.spend(self.handing(value));
        match self.frames.pop() {
            None => Err(Stop::Exited(int_of(value.value.word))),
            Some(Frame::Entered(_)) => Err(Stop::Stuck),
            Some(Frame::Waits(caller)) => {
                self.back_to(caller);
                self.give(caller.place, value)?;
                Ok(caller.node)
            }
        }
    }

    // The homes of the function that runs are kept.
    fn keep_homes(&mut self) -> Result<usize, Stop> {
        let kept = self.kept.len();
        for place in self.window.homes..self.homes.len() {
            let home = self.homes.get(place).copied().flatten();
            self.kept.push(home)?;
        }
        Ok(kept)
    }

    // And come back.
    fn restore_homes(&mut self, kept: usize) {
        let mut place = self.window.homes;
        for home in self.kept.iter().skip(kept) {
            if let Some(old) = self.homes.get_mut(place) {
                *old = *home;
            }
            place = place.saturating_add(1);
        }
        self.kept.truncate(kept);
    }

    fn place_homes(&mut self, opened: &[Option<u64>]) -> Result<(), Stop> {
        for (number, size) in opened.iter().enumerate() {
            let home = self.place_object(*size)?;
            let place = self.window.homes.saturating_add(number);
            if home.is_some()
                && let Some(old) = self.homes.get_mut(place)
            {
                *old = home;
            }
        }
        Ok(())
    }

    /// A block of a function is entered, which has objects.
    pub(crate) fn enter_block(
        &mut self,
        function: &CodeFunction,
        block: usize,
        line: Line,
    ) -> Result<(), Stop> {
        let Some(numbers) = function.blocks.as_slice().get(block) else {
            return Err(Stop::Stuck);
        };
        let opened = opened_by_block(self.alloc, function, numbers.as_slice())?;
        if count_objects(&opened) == 0 {
            return Err(Stop::Stuck);
        }
        self.test_entry(&opened, line)?;
        let stacked = self.stacked;
        let first = self.objects.len();
        let kept = self.keep_homes()?;
        self.place_homes(&opened)?;
        self.frames.push(Frame::Entered(Entered {
            block,
            first,
            count: count_objects(&opened),
            kept,
            stacked,
        }))?;
        Ok(())
    }

    /// The block that was entered last is left, if it has that number.
    pub(crate) fn leave_block(&mut self, block: usize) -> Result<(), Stop> {
        let Some(Frame::Entered(entered)) = self.frames.pop() else {
            return Err(Stop::Stuck);
        };
        if entered.block != block {
            return Err(Stop::Stuck);
        }
        for number in entered.first..entered.first.saturating_add(entered.count) {
            self.kill(number);
        }
        self.restore_homes(entered.kept);
        self.stacked = entered.stacked;
        Ok(())
    }
}
