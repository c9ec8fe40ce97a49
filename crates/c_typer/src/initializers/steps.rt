//! The steps of an initializer among the structures and unions so far.

ghost use Rattle.std.specs.Prelude.{◌≡◌, OnOk};
ghost use Rattle.c_rules.specs.Values.{value_of};
ghost use Rattle.c_initializer_rules.specs.Initializing.{Leaves, LeavesAnd, closed, initializing_of, opened};
ghost use Rattle.c_initializer_rules.specs.Initializing.{with_index, with_literal, with_name, with_value};
ghost use Rattle.c_typing_state.specs.State.{extents, state_of};
ghost use Rattle.c_unit_typing.specs.Initializers.{member_lists};

use c_faults::Refusal;
use c_initializer_rules::Initializing;
use c_rules::TypedValue;
use c_typing_state::Typer;
use sb_base::Line;
use std::alloc::AllocError;

/// A designator `[n]`, by `Initializing::designate_index`.
pub(crate) fn with_index(
    typer: &Typer,
    begun: &mut Initializing,
    line: Line,
    index: Option<u64>,
) -> Result<(), Refusal>
    ensures { Leaves (initializing_of begun.new) result (with_index (extents (state_of typer.now))
        (member_lists (state_of typer.now)) line index (initializing_of begun.old)) }
{
    let structures = &typer.environment.structures;
    begun.designate_index(typer.alloc, structures.extents(), structures, line, index)
}

/// A designator `.name`, by `Initializing::designate_member`.
pub(crate) fn with_name(
    typer: &Typer,
    begun: &mut Initializing,
    line: Line,
    name: &[u8],
) -> Result<(), Refusal>
    ensures { Leaves (initializing_of begun.new) result (with_name (extents (state_of typer.now))
        (member_lists (state_of typer.now)) line name.now (initializing_of begun.old)) }
{
    let structures = &typer.environment.structures;
    begun.designate_member(typer.alloc, structures.extents(), structures, line, name)
}

/// A value, by `Initializing::store`.
pub(crate) fn with_value(
    typer: &Typer,
    begun: &mut Initializing,
    line: Line,
    value: TypedValue,
) -> Result<(), Refusal>
    ensures { Leaves (initializing_of begun.new) result (with_value (extents (state_of typer.now))
        (member_lists (state_of typer.now)) line (value_of value) (initializing_of begun.old)) }
{
    let structures = &typer.environment.structures;
    begun.store(typer.alloc, structures.extents(), structures, line, value)
}

/// A string literal, by `Initializing::store_literal`.
pub(crate) fn with_literal(
    typer: &Typer,
    begun: &mut Initializing,
    line: Line,
    spelled: Vec<u8>,
) -> Result<bool, Refusal>
    ensures { LeavesAnd (initializing_of begun.new) result (with_literal (extents (state_of typer.now))
        (member_lists (state_of typer.now)) line spelled.items (initializing_of begun.old)) }
{
    let structures = &typer.environment.structures;
    begun.store_literal(typer.alloc, structures.extents(), structures, line, spelled)
}

/// `{`, by `Initializing::open_brace`.
pub(crate) fn opened(typer: &Typer, begun: &mut Initializing) -> Result<(), AllocError>
    ensures { OnOk result (initializing_of begun.new ≡ opened (extents (state_of typer.now))
        (member_lists (state_of typer.now)) (initializing_of begun.old)) }
{
    let structures = &typer.environment.structures;
    begun.open_brace(typer.alloc, structures.extents(), structures)
}

/// `}`, by `Initializing::close_brace`.
pub(crate) fn closed(typer: &Typer, begun: &mut Initializing, line: Line) -> Result<(), Refusal>
    ensures { Leaves (initializing_of begun.new) result (closed (extents (state_of typer.now))
        (member_lists (state_of typer.now)) line (initializing_of begun.old)) }
{
    let structures = &typer.environment.structures;
    begun.close_brace(typer.alloc, structures.extents(), structures, line)
}
