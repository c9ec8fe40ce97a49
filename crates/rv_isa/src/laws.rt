//! Laws of the table of instructions, each as the contract of a function that does nothing: layers above rest on them.
ghost use Rattle.std.specs.Prelude.{◌≡◌, ◌<◌, ◌^◌, ℕ};
ghost use Rattle.rv_isa.specs.Table.{word_of, IsOfTable};
ghost use Rattle.rv_isa.specs.Decoding.{decoded};
ghost use Rattle.rv_isa.specs.Results.{load_bytes, extended, reg_result, reg32_result};
ghost use Rattle.rv_isa.specs.declared.instruction.Instr.{Instr};
ghost use Rattle.rv_isa.specs.declared.instruction.LoadOp.{LoadOp};
ghost use Rattle.rv_isa.specs.declared.instruction.RegOp.{RegOp};
ghost use Rattle.rv_isa.specs.declared.instruction.RegOp32.{RegOp32};

/// An instruction whose operands fit their fields is what its word decodes to. So no two instructions
/// share a word, and `decoded`, the table read backwards, misses none.
pub fn decode_of_encode()
    ensures { (i : Instr) → IsOfTable i → decoded (word_of i) ≡ Some i }
{}

/// What operators and loads give of words, of the low 32 bits of words and of bytes, fits a register.
pub fn results_fit_a_register()
    ensures operators { (op : RegOp) (a b : ℕ) → a < 2 ^ 64 → b < 2 ^ 64 → reg_result op a b < 2 ^ 64 }
    ensures low { (op : RegOp32) (a b : ℕ) → a < 2 ^ 32 → b < 2 ^ 32 → reg32_result op a b < 2 ^ 64 }
    ensures loads { (op : LoadOp) (n : ℕ) → n < 256 ^ load_bytes op → extended op n < 2 ^ 64 }
{}
