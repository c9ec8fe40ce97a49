//! Where the static objects stand, and pointers to them (C99 6.2.4, 6.3.2.1).

ghost use Rattle.std.specs.Prelude.{◌≡◌, ◌+◌, ◌<◌, ◌≤◌, ◌^◌, ◌++◌, OnOk, IfOk};
ghost use Rattle.addr_map.specs.declared.region.Region.TheVariants.{Globals, Locks};
ghost use Rattle.addr_map.specs.Places.{region_start};
ghost use Rattle.metadata_plan.specs.OperatorLists.Operators.{operators};
ghost use Rattle.metadata_relation.specs.StartData.{statics_end};
ghost use Rattle.metadata_relation.specs.Blocks.{static_code, static_object};
ghost use Rattle.instruction_selection.specs.Contexts.{HasStatics};
ghost use Rattle.instruction_selection.specs.Statics.{AreStaticPlaces, no_place, place_of, places_from};

use crate::context::FunctionContext;
use crate::entries::held_from;
use crate::named::{EntryNumbers, put_numbers_if};
use addr_map::{AddrMap, Region};
use flat_code::FlatInstruction;
use flat_operators::constant::put_constant;
use static_data::pointers::rounded;
use std::alloc::{AllocError, Global};
use tac_ir::{StaticData, Tac};

/// Where a static object stands.
#[derive(Clone, Copy)]
pub struct StaticPlace {
    /// Its first address.
    pub address: u64,
    /// Its bytes.
    pub size: u64,
}

// Puts the places of static objects, from an address on, behind a list.
fn put_places(
    list: &mut Vec<StaticPlace>,
    first: u64,
    statics: &[StaticData],
) -> Result<(), AllocError>
    requires small { statics_end statics.now 0 ≤ 0x400000 }
    requires first { first ≤ 2 ^ 30 }
    ensures { OnOk result (list.new.items ≡ list.old.items ++ places_from first statics.now 0) }
{
    let mut offset = 0;
    for i in 0..statics.len() {
        let start = rounded(offset);
        let size = statics[i].size;
        list.push(StaticPlace {
            address: first + start,
            size,
        })?;
        offset = start + size;
    }
    Ok(())
}

/// Where the static objects of a program stand. It fails only for want of memory.
#[tactic(auto, using(crate::proofs::StaticPlaces::are_places, crate::proofs::Regions::globals_begin))]
pub fn static_places(
    alloc: Global,
    map: &AddrMap,
    program: &Tac,
) -> Result<Vec<StaticPlace>, AllocError>
    requires { statics_end program.now.statics 0 ≤ 0x400000 }
    ensures { IfOk result (λ list. AreStaticPlaces map.now program.now list.items) }
{
    let (first, _) = map.region(Region::Globals);
    let mut places = Vec::new(alloc);
    put_places(&mut places, first, program.statics.as_slice())?;
    Ok(places)
}

/// Where a static object stands.
pub fn static_place(context: &FunctionContext, number: usize) -> StaticPlace
    requires { HasStatics context.now }
    ensures { result ≡ place_of (static_object context.now.map.now context.now.program.now number) }
{
    match context.statics.get(number) {
        Some(place) => *place,
        None => StaticPlace {
            address: 0,
            size: 0,
        },
    }
}

/// Puts the pointer to a static object behind a list. It fails only for want of memory.
pub fn put_static(
    code: &mut Vec<FlatInstruction>,
    context: &FunctionContext,
    number: usize,
    with_entry: bool,
    into: u32,
    scratch: u32,
) -> Result<(), AllocError>
    requires statics { HasStatics context.now }
    requires into { into ≤ 2 ^ 31 }
    ensures { OnOk result (code.new.items ≡ code.old.items
        ++ static_code operators (static_object context.now.map.now context.now.program.now number)
        (region_start context.now.map.now Locks) with_entry into scratch) }
{
    let place = static_place(context, number);
    let (lock, _) = context.map.region(Region::Locks);
    put_constant(code, into, place.address)?;
    let numbers = EntryNumbers {
        base: place.address,
        bound: place.address + place.size,
        key: 1,
        lock,
    };
    put_numbers_if(code, with_entry, held_from(into).tag, numbers, scratch)
}
