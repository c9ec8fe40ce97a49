//! Calls (C99 6.5.2.2, 6.9.1).

ghost use Rattle.std.specs.Prelude.{◌≡◌, ◌+◌, ◌≤◌, ℕ, List, Option, Ok, get_or, if◌then◌else◌, IfOk, IfSome};
ghost use Rattle.behaviours.specs.Shown.{Access};
ghost use Rattle.c_tree.specs.View.{function_of};
ghost use Rattle.source_meaning.specs.State.{Setting, change};
ghost use Rattle.source_meaning.specs.Actions.{integer};
ghost use Rattle.source_meaning.specs.Structures.{rvalue};
ghost use Rattle.source_meaning.specs.Calls.{body_objects, call_tests, header_of, lay_out, parameter_count};
ghost use Rattle.source_meaning.specs.Calls.{parameter_values, plain_count, plain_values, set_plain_values, set_up};
ghost use Rattle.source_meaning.specs.Calls.{test_charge, write_parameter, write_parameters};
ghost use Rattle.source_interp.specs.Homes.{home_of};
ghost use Rattle.source_interp.specs.Limits.{AreLimits};
ghost use Rattle.source_interp.specs.Outside.{Outside, outside};
ghost use Rattle.source_interp.specs.Standing.{Acts, ActsAlone, ActsTraced};

use crate::found::Found;
use crate::homes::Homes;
use crate::items::nth;
use crate::limits::Limits;
use crate::machine::Machine;
use crate::stop::{Cause, Fault, Stop};
use crate::trace::Trace;
use crate::value::integer;
use crate::variables::entered_variables;
use c_tree::{Function, Kind, Variable};
use obj_memory::Value;
use std::alloc::{AllocError, Global};

/// All variables of a function, of which those alone are objects that belong to the block of its body.
pub fn body_objects(alloc: Global, function: &Function) -> Result<Vec<Variable>, AllocError>
    ensures { IfOk result (λ vs. vs.items ≡ body_objects (header_of (function_of function.now))) }
{
    let mut all = Vec::from_slice(alloc, function.parameters.as_slice())?;
    let entered = entered_variables(alloc, function)?;
    all.extend_from_slice(&entered)?;
    Ok(all)
}

// An argument, where it is there.
fn argument_at(arguments: &[Found], number: usize) -> Option<&Found>
    ensures { IfSome result (λ a. a.now ≡ get_or arguments.now number (rvalue (integer 0))) }
{
    arguments.get(number)
}

// The value of an argument, 0 where there is none.
fn argument(arguments: &[Found], number: usize) -> Value
    ensures { result ≡ (get_or arguments.now number (rvalue (integer 0))).value }
{
    match arguments.get(number) {
        Some(found) => found.value(),
        None => integer(0),
    }
}

// The plain value of a parameter with an argument; one that is an object has none.
fn parameter_value(parameter: Variable, argument: Value) -> Value
    ensures { result ≡ (if parameter.is_object then integer 0 else argument) }
{
    if parameter.is_object {
        integer(0)
    } else {
        argument
    }
}

// The plain values of parameters.
fn parameter_values(
    alloc: Global,
    parameters: &[Variable],
    arguments: &[Found],
) -> Result<Vec<Value>, AllocError>
    ensures { IfOk result (λ vs. vs.items ≡ parameter_values parameters.now arguments.now) }
{
    let mut values = Vec::new(alloc);
    for i in 0..parameters.len() {
        let parameter = nth(parameters, i);
        values.push(parameter_value(parameter, argument(arguments, i)))?;
    }
    Ok(values)
}

// The plain values of a function's variables as a call of it begins.
#[tactic(auto, using(crate::proofs::Calling::zeros))]
fn plain_values(
    alloc: Global,
    function: &Function,
    arguments: &[Found],
) -> Result<Vec<Value>, AllocError>
    ensures { IfOk result
        (λ vs. vs.items ≡ plain_values (header_of (function_of function.now)) arguments.now) }
{
    let mut values = parameter_values(alloc, function.parameters.as_slice(), arguments)?;
    let zeros = vec![in alloc; integer(0); function.variables.as_slice().len()]?;
    values.extend_from_slice(&zeros)?;
    Ok(values)
}

// 1 for a plain variable.
fn plain_one(variable: Variable) -> usize
    ensures value { result ≡ (if variable.is_object then 0 else 1) }
    ensures small { result ≤ 1 }
{
    if variable.is_object { 0 } else { 1 }
}

// How many of some variables are plain.
fn plain_count(variables: &[Variable]) -> usize
    ensures { result ≡ plain_count variables.now }
{
    let mut count = 0;
    for i in 0..variables.len() {
        let variable = nth(variables, i);
        count += plain_one(variable);
    }
    count
}

#[tactic(auto, using(crate::proofs::Calling::counted))]
fn parameter_count(parameters: &[Variable]) -> usize
    ensures { result ≡ parameter_count parameters.now }
{
    parameters.len()
}

// The sum of two numbers, where it fits.
fn sum(left: u64, right: u64) -> Option<u64>
    ensures { IfSome result (λ n. n ≡ left + right) }
{
    left.checked_add(right)
}

// The work of setting the plain values of a call.
fn plain_work(function: &Function) -> Option<u64>
    ensures { IfSome result (λ n. n ≡ parameter_count (function_of function.now).parameters
        + plain_count (function_of function.now).variables) }
{
    let parameters = parameter_count(function.parameters.as_slice()) as u64;
    let others = plain_count(function.variables.as_slice()) as u64;
    sum(parameters, others)
}

impl Machine {
    #[tactic(auto, using(crate::proofs::Calling::charges))]
    fn test_charge(&self, limits: &Limits, function: &Function, line: u32) -> Result<(), Stop>
        ensures { (g : Setting) (o : Outside) → AreLimits limits.now g
            → Acts g self.now self.now o o result (test_charge g (header_of (function_of function.now)) line) }
    {
        match sum(self.charged, function.room) {
            Some(charged) => {
                if charged > limits.calls {
                    return Err(Stop::Ended(Cause::Stack, line));
                }
                Ok(())
            }
            None => Err(Stop::Failed(Fault::Memory)),
        }
    }

    fn call_tests(
        &mut self,
        limits: &Limits,
        function: &Function,
        objects: &[Variable],
        line: u32,
    ) -> Result<(), Stop>
        requires { objects.now ≡ body_objects (header_of (function_of function.now)) }
        ensures { (g : Setting) (o : Outside) → AreLimits limits.now g
            → Acts g self.old self.new o o result (call_tests g (header_of (function_of function.now)) line) }
    {
        self.test_charge(limits, function, line)?;
        self.test_space(limits, objects, line)?;
        self.test_keys(limits, objects, line)
    }

    #[tactic(auto, using(crate::proofs::Calling::charging))]
    fn charge(&mut self, room: u64) -> Result<(), Stop>
        ensures { ActsAlone self.old self.new result (change (λ s. record s { charged = s.charged + room })) }
    {
        match sum(self.charged, room) {
            Some(charged) => {
                self.charged = charged;
                Ok(())
            }
            None => Err(Stop::Failed(Fault::Memory)),
        }
    }

    #[tactic(auto, using(crate::proofs::Calling::sets_plain))]
    fn put_plain(&mut self, plain: Vec<Value>)
        ensures { ActsAlone self.old self.new (Ok tt) (change (λ s. record s { plain = plain.items })) }
    {
        self.plain = plain;
    }

    #[tactic(auto, using(crate::proofs::Acting::failing))]
    fn set_plain_values(
        &mut self,
        alloc: Global,
        function: &Function,
        arguments: &[Found],
    ) -> Result<(), Stop>
        ensures { ActsAlone self.old self.new result
            (set_plain_values (header_of (function_of function.now)) arguments.now) }
    {
        let plain = plain_values(alloc, function, arguments)?;
        match plain_work(function) {
            Some(work) => {
                self.tally(work);
                self.put_plain(plain);
                Ok(())
            }
            None => Err(Stop::Failed(Fault::Memory)),
        }
    }

    // A parameter that is an object is written.
    fn write_parameter<T: Trace>(
        &mut self,
        trace: &mut T,
        kind: Kind,
        home: Option<usize>,
        line: u32,
        argument: &Found,
    ) -> Result<(), Stop>
        ensures { ActsTraced self.old self.new (T.noted trace.old) (T.noted trace.new) result
            (write_parameter kind (home_of home) line argument.now) }
    {
        match home {
            Some(number) => {
                let pointer = self.pointer_to(number)?;
                self.store_rvalue(trace, kind, false, pointer, line, argument)
            }
            None => Ok(()),
        }
    }

    // The one with a number gets its argument.
    #[tactic(auto, using(crate::proofs::Acting::failing))]
    fn write_nth<T: Trace>(
        &mut self,
        trace: &mut T,
        kind: Kind,
        home: Option<usize>,
        line: u32,
        arguments: &[Found],
        number: usize,
    ) -> Result<(), Stop>
        ensures { ActsTraced self.old self.new (T.noted trace.old) (T.noted trace.new) result
            (write_parameter kind (home_of home) line (get_or arguments.now number (rvalue (integer 0)))) }
    {
        match argument_at(arguments, number) {
            Some(argument) => self.write_parameter(trace, kind, home, line, argument),
            None => Err(Stop::Failed(Fault::Memory)),
        }
    }

    fn write_parameters<T: Trace>(
        &mut self,
        trace: &mut T,
        parameters: &[Variable],
        homes: &Homes,
        line: u32,
        arguments: &[Found],
    ) -> Result<(), Stop>
        ensures { ActsTraced self.old self.new (T.noted trace.old) (T.noted trace.new) result
            (write_parameters parameters.now homes.now line arguments.now) }
    {
        for i in 0..parameters.len() {
            let parameter = nth(parameters, i);
            self.write_nth(trace, parameter.kind, homes.home(i), line, arguments, i)?;
        }
        Ok(())
    }

    // What a call lays out.
    fn lay_out<T: Trace>(
        &mut self,
        trace: &mut T,
        alloc: Global,
        function: &Function,
        objects: &[Variable],
        arguments: &[Found],
        line: u32,
    ) -> Result<(), Stop>
        requires { objects.now ≡ body_objects (header_of (function_of function.now)) }
        ensures { ActsTraced self.old self.new (T.noted trace.old) (T.noted trace.new) result
            (lay_out (header_of (function_of function.now)) arguments.now line) }
    {
        self.charge(function.room)?;
        self.set_plain_values(alloc, function, arguments)?;
        let homes = self.place_variables(alloc, objects)?;
        let frame = homes.copy(alloc)?;
        self.set_frame(frame);
        self.write_parameters(
            trace,
            function.parameters.as_slice(),
            &homes,
            line,
            arguments,
        )
    }

    /// What a call does once its turn has begun: its tests, and what it lays out (6.5.2.2 paragraph 4).
    pub fn set_up<T: Trace>(
        &mut self,
        trace: &mut T,
        alloc: Global,
        limits: &Limits,
        function: &Function,
        arguments: &[Found],
        line: u32,
    ) -> Result<(), Stop>
        ensures { (g : Setting) (output : Option (List ℕ)) (input : List ℕ) → AreLimits limits.now g
            → Acts g self.old self.new (outside output (T.noted trace.old) input) (outside output (T.noted trace.new)
            input) result (set_up g (header_of (function_of function.now)) arguments.now line) }
    {
        let objects = body_objects(alloc, function)?;
        self.tally(1);
        self.call_tests(limits, function, &objects, line)?;
        self.lay_out(trace, alloc, function, &objects, arguments, line)
    }
}
