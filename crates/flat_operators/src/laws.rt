//! Laws of the lists, each as the contract of a function that does nothing.

ghost use Rattle.std.specs.Prelude.{ℕ, ◌+◌, ◌^◌, ◌<◌, ◌≤◌, Some};
ghost use Rattle.rv_isa.specs.declared.instruction.RegOp.{RegOp};
ghost use Rattle.rv_isa.specs.declared.instruction.RegOp.TheVariants as op;
ghost use Rattle.obj_memory.specs.declared.int_type.IntType.{IntType};
ghost use Rattle.obj_memory.specs.declared.operator.UnaryOperator.{UnaryOperator};
ghost use Rattle.obj_memory.specs.declared.operator.BinaryOperator.{BinaryOperator};
ghost use Rattle.obj_memory.specs.Integers.{fit};
ghost use Rattle.obj_memory.specs.Operators.{unary_value, binary_value};
ghost use Rattle.flat_code.specs.Meaning.{Context};
ghost use Rattle.flat_code.specs.Routines.Routine.{Does};
ghost use Rattle.flat_code.specs.Routines.InputOutput.{IsWithoutInputOutput};
ghost use Rattle.flat_code.specs.Routines.Shape.{HasShape};
ghost use Rattle.flat_operators.specs.Operators.{constant_code, conversion_code, unary_code, binary_code};
ghost use Rattle.flat_operators.specs.Pointers.{address_back, address_forward, difference_code, elements_between};
ghost use Rattle.flat_operators.specs.Pointers.{offset_code};
ghost use Rattle.flat_operators.specs.Results.{AreOperands, Anywhere, IsResult};

/// A word gets into a register within five steps, and one of 33 bits within three.
pub fn constants_get_there()
    ensures any { (c : Context) (line d n w : ℕ) → d < n → w < 2 ^ 64
        → Does c (constant_code d w) Anywhere (λ s. 5) (λ s. IsResult (Some w) line d n s) }
    ensures few { (c : Context) (line d n w : ℕ) → d < n → w < 2 ^ 33
        → Does c (constant_code d w) Anywhere (λ s. 3) (λ s. IsResult (Some w) line d n s) }
{}

/// A conversion gives the value that fits the type (C99 6.3.1.3), within two steps.
pub fn conversions_fit()
    ensures { (c : Context) (t : IntType) (line d x n : ℕ) → AreOperands d x x n
        → Does c (conversion_code t d x) Anywhere (λ s. 2) (λ s. IsResult (Some (fit t (s.values x))) line d n s) }
{}

/// A unary operator gives its value (6.5.3.3), within four steps.
pub fn unary_operators_give_their_values()
    ensures { (c : Context) (op : UnaryOperator) (t : IntType) (line d x n : ℕ) → AreOperands d x x n
        → Does c (unary_code op t d x n) Anywhere (λ s. 4)
        (λ s. IsResult (Some (unary_value op t (s.values x))) line d n s) }
{}

/// A binary operator gives its value (6.5.5 to 6.5.12), or the run ends where it has none, within four steps.
pub fn binary_operators_give_their_values()
    ensures { (c : Context) (op : BinaryOperator) (t : IntType) (line d a b n : ℕ) → AreOperands d a b n
        → Does c (binary_code op t line d a b n) Anywhere (λ s. 4)
        (λ s. IsResult (binary_value op t (s.values a) (s.values b)) line d n s) }
{}

/// A pointer moves on, or back, by elements of any size (6.5.6 paragraph 8), within seven steps.
pub fn pointers_move_by_elements()
    ensures forward { (c : Context) (line d a i n size : ℕ) → size < 2 ^ 64 → AreOperands d a i n
        → Does c (offset_code op.Add size d a i n) Anywhere (λ s. 7)
        (λ s. IsResult (Some (address_forward size (s.values a) (s.values i))) line d n s) }
    ensures back { (c : Context) (line d a i n size : ℕ) → size < 2 ^ 64 → AreOperands d a i n
        → Does c (offset_code op.Sub size d a i n) Anywhere (λ s. 7)
        (λ s. IsResult (Some (address_back size (s.values a) (s.values i))) line d n s) }
{}

/// The difference of two pointers is that of their elements (6.5.6 paragraph 9), within seven steps.
pub fn differences_are_in_elements()
    ensures { (c : Context) (line d a b n size : ℕ) → size < 2 ^ 64 → 1 ≤ size → AreOperands d a b n
        → Does c (difference_code size d a b n) Anywhere (λ s. 7)
        (λ s. IsResult (Some (elements_between size (s.values a) (s.values b))) line d n s) }
{}

/// So it is within five steps, where a size has at most 33 bits.
pub fn differences_by_few_bits_are_in_elements()
    ensures { (c : Context) (line d a b n size : ℕ) → size < 2 ^ 33 → 1 ≤ size → AreOperands d a b n
        → Does c (difference_code size d a b n) Anywhere (λ s. 5)
        (λ s. IsResult (Some (elements_between size (s.values a) (s.values b))) line d n s) }
{}

/// A word gets into a register by at most five instructions, and one of 33 bits by at most three. A pointer moves by
/// elements by at most seven, and a difference of pointers is made by at most seven. They name no register behind
/// `scratch`, hold their numbers, take no input and put no output.
pub fn lists_for_pointers_have_shapes()
    ensures constant { (d n w : ℕ) → d < n → w < 2 ^ 64 → HasShape (constant_code d w) 5 n }
    ensures few { (d n w : ℕ) → d < n → w < 2 ^ 33 → HasShape (constant_code d w) 3 n }
    ensures moved { (o : RegOp) (size d a i n : ℕ) → size < 2 ^ 64 → AreOperands d a i n
        → HasShape (offset_code o size d a i n) 7 (n + 1) }
    ensures difference { (size d a b n : ℕ) → size < 2 ^ 64 → AreOperands d a b n
        → HasShape (difference_code size d a b n) 7 (n + 1) }
    ensures constant_computes { (d w : ℕ) → IsWithoutInputOutput (constant_code d w) }
    ensures moved_computes { (o : RegOp) (size d a i n : ℕ) → IsWithoutInputOutput (offset_code o size d a i n) }
    ensures difference_computes { (size d a b n : ℕ) → IsWithoutInputOutput (difference_code size d a b n) }
{}
