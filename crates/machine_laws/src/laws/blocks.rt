//! Laws of the blocks, each as the contract of a function that does nothing: the back end rests on them.

ghost use Rattle.std.specs.Prelude.{◌≡◌, ◌≢◌, ℕ, ◌+◌, ◌^◌, ◌<◌, ◌≤◌, [], ◌∷◌, Some, length};
ghost use Rattle.rv_isa.specs.declared.instruction.RegOp.{RegOp};
ghost use Rattle.rv_isa.specs.declared.instruction.Instr.{Instr};
ghost use Rattle.rv_isa.specs.Results.{reg_result};
ghost use Rattle.words.specs.TwosComplement.{low_bits};
ghost use Rattle.flat_code.specs.declared.instruction.RightOperand.{RightOperand};
ghost use Rattle.flat_code.specs.declared.instruction.RightOperand.TheVariants as right;
ghost use Rattle.flat_code.specs.Memory.{load, store};
ghost use Rattle.flat_code.specs.State.{Values};
ghost use Rattle.flat_code.specs.Meaning.{right_value};
ghost use Rattle.machine_laws.specs.View.Views.{View};
ghost use Rattle.machine_laws.specs.declared.location.Location.{Location};
ghost use Rattle.machine_laws.specs.Blocks.Blocks.{IsShort, constant, load_at, store_at, operate_block};
ghost use Rattle.machine_laws.specs.Blocks.Immediates.{immediate};
ghost use Rattle.machine_laws.specs.declared.location.Location.TheVariants.{Register};
ghost use Rattle.machine_laws.specs.Blocks.Effects.{IsIn, IsOfSpaces, kept, Gives, Stores, Puts, HasFrame, RightIsIn};
ghost use Rattle.machine_laws.specs.Blocks.Effects.{RightIsKept};

/// A constant comes to its register, and nothing else changes. It takes at most eleven instructions, and at most two
/// where it has 32 bits with its sign.
pub fn constants_come_to_registers()
    ensures gives { (o s rd n : ℕ) (v : View) → rd ≢ 0 → v.registers 0 ≡ 0 → n < 2 ^ 64
        → Gives o s (constant rd n) v rd n }
    ensures few { (rd n : ℕ) → length (constant rd n) ≤ 11 }
    ensures fewer { (rd n : ℕ) → IsShort n → length (constant rd n) ≤ 2 }
{}

/// A word of the runtime's spaces is loaded and stored at any offset, by at most three instructions.
pub fn words_are_loaded_and_stored()
    ensures loaded { (o s rd base b k : ℕ) (v : View) → rd ≢ 0 → base ≢ rd → v.registers base ≡ b
        → IsOfSpaces s (b + k) 8 → Gives o s (load_at rd base k) v rd (load 8 v.memory (b + k)) }
    ensures stored { (o s from base b k n : ℕ) (v : View) → base ≢ 7 → from ≢ 7 → v.registers base ≡ b
        → v.registers from ≡ n → IsOfSpaces s (b + k) 8
        → Stores o s (store_at from base k) v (store 8 v.memory (b + k) n) }
    ensures few { (rd base k : ℕ) → length (load_at rd base k) ≤ 3 }
    ensures fewer { (from base k : ℕ) → length (store_at from base k) ≤ 3 }
{}

/// An operator's block puts what it gives into the place of its result, wherever its operands are kept. In registers it
/// is one instruction where the number is in the instruction itself.
pub fn operators_put_their_results()
    ensures puts { (o s base fp room : ℕ) (place : ℕ → Location) (op : RegOp) (x : Location) (y : ℕ) (z : RightOperand)
        (v : View) (values : Values) → v.registers 0 ≡ 0 → HasFrame s base fp room v → IsIn room x
        → IsIn room (place y) → RightIsIn room place z → kept fp v (place y) ≡ values y
        → RightIsKept fp place v z values → reg_result op (values y) (right_value z values) < 2 ^ 64
        → Puts o s fp room (operate_block place base op x y z) v x (reg_result op (values y) (right_value z values))
        v.accesses }
    ensures single { (op : RegOp) (place : ℕ → Location) (base y n l r : ℕ) (i : Instr) → place y ≡ Register l
        → immediate op r l (low_bits 64 n) ≡ Some i
        → operate_block place base op (Register r) y (right.Number n) ≡ i ∷ [] }
{}
