//! The law of the places of functions of the runtime, as the contract of a function that does nothing.

ghost use Rattle.std.specs.Prelude.{◌≡◌, Some, slice_get};
ghost use Rattle.c_tree.specs.declared.format.Directive.{Directive};
ghost use Rattle.c_tree.specs.declared.format.Directive.TheVariants as directive;
ghost use Rattle.runtime_functions.specs.declared.library.LibraryFunction.{LibraryFunction};
ghost use Rattle.runtime_functions.specs.declared.runtime.RuntimeFunction.TheVariants.{Library, Zero, Enter};
ghost use Rattle.runtime_functions.specs.declared.runtime.RuntimeFunction.TheVariants.{Scan, PutBytes, PutNumber};
ghost use Rattle.runtime_functions.specs.Runtime.{runtime_list};
ghost use Rattle.metadata_relation.specs.Blocks.{library_place, zero_place, enter_place};
ghost use Rattle.metadata_relation.specs.Printing.{scan_place, range_place, directive_place};

/// The places by which compiled code calls functions of the runtime are those of their list: of each routine of the
/// library, of the function that makes a range zero, of the one that makes the objects of a block, and of those that a
/// print is put together of: one scans a string, one puts out a range, and each directive but that of strings has one.
pub fn functions_of_the_runtime_have_their_places()
    ensures library { (f : LibraryFunction) → slice_get runtime_list (library_place f) ≡ Some (Library f) }
    ensures zero { slice_get runtime_list zero_place ≡ Some Zero }
    ensures enter { slice_get runtime_list enter_place ≡ Some Enter }
    ensures scan { slice_get runtime_list scan_place ≡ Some Scan }
    ensures range { slice_get runtime_list range_place ≡ Some PutBytes }
    ensures directive { (d : Directive) → (d ≡ directive.String → ⊥)
        → slice_get runtime_list (directive_place d) ≡ Some (PutNumber d) }
{}
