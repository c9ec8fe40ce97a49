//! Labelled lists.

ghost use Rattle.std.specs.Prelude.{◌≡◌, ◌+◌, ◌-◌, ◌<◌, ◌^◌, ◌++◌, ◌∷◌, [], length, OnOk, IfOk, true};
ghost use Rattle.rv_asm.specs.declared.item.Item.TheVariants as item;
ghost use Rattle.flat_code.specs.Calls.{function_in};
ghost use Rattle.flat_code.specs.Meaning.{body_of};
ghost use Rattle.reg_plan.specs.Order.{IsLookupAt};
ghost use Rattle.reg_plan.specs.Saves.Saves.{is_call, saved_at};
ghost use Rattle.machine_laws.specs.Calls.Table.{source_count};
ghost use Rattle.flat_code.specs.declared.instruction.FlatInstruction.TheVariants as flat;
ghost use Rattle.machine_laws.specs.Following.Code.{keeping};
ghost use Rattle.machine_laws.specs.Layout.Lists.{plain, label_for, tail_of, items_at, items_of};

use crate::emission::{
    PlacedInstruction, PlannedFunction, left_register, put_block, put_entry, right_register,
};
use addr_map::AddrMap;
use flat_code::{FlatInstruction, FlatProgram};
use reg_plan::call_saves::call_saves;
use reg_plan::{FunctionPlan, LiveLookup};
use rv_asm::{Item, Label};
use rv_isa::Instr;
use std::alloc::{AllocError, Global};
use std::marker::Model;

/// A labelled list that grows.
#[derive(Drop)]
pub struct Listing {
    items: Vec<Item>,
    last: Instr,
}

impl Model for Listing {
    ghost use Rattle.std.specs.Prelude.{List};
    ghost use Rattle.rv_asm.specs.declared.item.Item.{Item};

    ghost Value = { List Item };

    ghost view = { λ list. list.items.items };
}

impl Listing {
    /// An empty list.
    pub(crate) fn new(alloc: Global) -> Listing
        ensures { result ≡ [] }
    {
        Listing {
            items: Vec::new(alloc),
            last: Instr::Ebreak,
        }
    }

    /// The items.
    pub(crate) fn as_slice(&self) -> &[Item]
        ensures { result.now ≡ self.now }
    {
        self.items.as_slice()
    }

    // Puts an item.
    fn put(&mut self, item: Item) -> Result<(), AllocError>
        ensures { OnOk result (self.new ≡ self.old ++ item ∷ []) }
    {
        self.items.push(item)?;
        Ok(())
    }

    // Puts an instruction.
    fn put_instr(&mut self, instr: Instr) -> Result<(), AllocError>
        ensures { OnOk result (self.new ≡ self.old ++ item.Instr instr ∷ []) }
    {
        self.put(Item::Instr(instr))
    }

    /// Puts instructions.
    pub(crate) fn put_plain(&mut self, instrs: &[Instr]) -> Result<(), AllocError>
        ensures { OnOk result (self.new ≡ self.old ++ plain instrs.now) }
    {
        for instr in instrs {
            self.put_instr(*instr)?;
        }
        Ok(())
    }

    /// Puts a label.
    pub(crate) fn put_label(&mut self, number: u32) -> Result<(), AllocError>
        ensures { OnOk result (self.new ≡ self.old ++ item.Label number ∷ []) }
    {
        self.put(Item::Label(Label::new(number)))
    }

    // Puts a jump to a label.
    fn put_jump(&mut self, number: u32) -> Result<(), AllocError>
        ensures { OnOk result (self.new ≡ self.old ++ item.Jump number ∷ []) }
    {
        self.put(Item::Jump {
            to: Label::new(number),
        })
    }
}

/// The number of the label for a place of a function of so many instructions.
pub(crate) fn label_for(count: u32, place: u64) -> u32
    ensures { result ≡ label_for count place }
{
    if place < u64::from(count) {
        place as u32
    } else {
        count
    }
}

// Puts the jump over so many instructions of a function, unless it leads to the next one.
fn put_forward(
    list: &mut Listing,
    planned: &PlannedFunction,
    count: u32,
    place: u32,
    past: u32,
) -> Result<(), AllocError>
    ensures { OnOk result (list.new ≡ list.old
        ++ tail_of (keeping planned.now.program.now planned.now.plans.now planned.now.number) count place
        (flat.JumpForward past)) }
{
    if past == 0 {
        return Ok(());
    }
    list.put_jump(label_for(count, u64::from(place) + 1 + u64::from(past)))?;
    Ok(())
}

// Puts the jump or the branch behind the block of an instruction of a function with so many.
fn put_tail(
    list: &mut Listing,
    planned: &PlannedFunction,
    count: u32,
    placed: &PlacedInstruction,
) -> Result<(), AllocError>
    requires function { planned.now.number < length planned.now.program.now.functions }
    requires plan { planned.now.number < length planned.now.plans.now }
    ensures { OnOk result (list.new ≡ list.old
        ++ tail_of (keeping planned.now.program.now planned.now.plans.now planned.now.number) count placed.now.place
        placed.now.instruction.now) }
{
    let place = placed.place;
    match *placed.instruction {
        FlatInstruction::Branch {
            op,
            left,
            right,
            past,
        } => list.put(Item::Branch {
            op,
            rs1: left_register(planned.program, planned.plans, planned.number, left),
            rs2: right_register(planned.program, planned.plans, planned.number, right),
            to: Label::new(label_for(count, u64::from(place) + 1 + u64::from(past))),
        }),
        FlatInstruction::JumpForward { past } => put_forward(list, planned, count, place, past),
        FlatInstruction::JumpBack { back } => {
            list.put_jump(label_for(count, u64::from(place.saturating_sub(back))))
        }
        _ => Ok(()),
    }
}

// Puts the items of an instruction of a function with so many.
fn put_items(
    list: &mut Listing,
    alloc: Global,
    map: &AddrMap,
    planned: &PlannedFunction,
    count: u32,
    placed: &PlacedInstruction,
) -> Result<(), AllocError>
    requires function { planned.now.number < length planned.now.program.now.functions }
    requires plan { planned.now.number < length planned.now.plans.now }
    requires sources { planned.now.sources ≡ source_count planned.now.program.now }
    requires saved { is_call placed.now.instruction.now ≡ true → placed.now.saved.now
        ≡ saved_at planned.now.program.now planned.now.plans.now planned.now.number placed.now.place }
    requires live { IsLookupAt placed.now.live planned.now.plans.now planned.now.number }
    ensures { OnOk result (list.new ≡ list.old
        ++ items_at map.now planned.now.program.now planned.now.plans.now planned.now.number count placed.now.place
        placed.now.instruction.now) }
{
    let mut block = Vec::new(alloc);
    put_block(&mut block, map, planned, placed)?;
    list.put_label(placed.place)?;
    list.put_plain(&block)?;
    put_tail(list, planned, count, placed)
}

// How the plan of a function is looked up.
#[tactic(auto, using(crate::proofs::EmittedCode::Lookups::lookup_from))]
fn lookup_of(plans: &[FunctionPlan], number: u32) -> LiveLookup
    requires { number < length plans.now }
    ensures { IsLookupAt result plans.now number }
{
    LiveLookup::new(&plans[number as usize])
}

/// The labelled list of a function.
pub(crate) fn function_items(
    alloc: Global,
    map: &AddrMap,
    program: &FlatProgram,
    plans: &[FunctionPlan],
    sources: u32,
    number: u32,
) -> Result<Listing, AllocError>
    requires sources { sources ≡ source_count program.now }
    requires function { number < length program.now.functions }
    requires plan { number < length plans.now }
    requires small { length (body_of (function_in program.now number)) < 2 ^ 32 }
    ensures { IfOk result (λ list. list ≡ items_of map.now program.now plans.now number) }
{
    let planned = PlannedFunction {
        program,
        plans,
        sources,
        number,
    };
    let body = program.functions.as_slice()[number as usize]
        .body
        .as_slice();
    let count = body.len() as u32;
    let live = lookup_of(plans, number);
    let saves = call_saves(alloc, program, plans, number)?;
    let mut entry = Vec::new(alloc);
    put_entry(&mut entry, program, plans, number)?;
    let mut list = Listing::new(alloc);
    list.put_plain(&entry)?;
    for place in 0..count {
        let placed = PlacedInstruction {
            place,
            instruction: &body[place as usize],
            saved: saves.at(u64::from(place)),
            live,
        };
        put_items(&mut list, alloc, map, &planned, count, &placed)?;
    }
    list.put_label(count)?;
    list.put_instr(Instr::Ebreak)?;
    Ok(list)
}
