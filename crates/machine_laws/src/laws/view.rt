//! Laws of the view, each as the contract of a function that does nothing: the back end rests on them.

ghost use Rattle.std.specs.Prelude.{◌≡◌, ℕ, ◌+◌, ◌%◌, ◌<◌, ◌≤◌, List, [], ◌∷◌, Some, None};
ghost use Rattle.std.specs.Prelude.{true, length, drop};
ghost use Rattle.byteorder.specs.Endian.{little_number};
ghost use Rattle.addr_map.specs.Places.{functions_begin, code_begin};
ghost use Rattle.flat_code.specs.Memory.{Bytes, load as load_of, store as store_of};
ghost use Rattle.rv_sim.specs.Memory.{load, store, fetch, bytes_at, may_write};
ghost use Rattle.rv_isa.specs.declared.instruction.BranchOp.{BranchOp};
ghost use Rattle.rv_isa.specs.declared.instruction.Instr.{Instr};
ghost use Rattle.rv_isa.specs.declared.instruction.Instr.TheVariants.{Jal, Jalr, Branch, Ecall};
ghost use Rattle.rv_isa.specs.Word.{sext};
ghost use Rattle.rv_isa.specs.Results.{wrap, branch_taken};
ghost use Rattle.rv_sim.specs.declared.stop.Stop.TheVariants.{Exited};
ghost use Rattle.rv_sim.specs.Run.{Configuration, runs};
ghost use Rattle.machine_laws.specs.View.Views.{View, Layout, Fits, StandsAt, AllStand, AllGoOn, Shows, StaysOutside};
ghost use Rattle.machine_laws.specs.View.Views.{Sends, SendsErrors, Takes, bytes_from, gets, links, branches, performs};
ghost use Rattle.machine_laws.specs.View.Segments.{segments, AreApart, Hold, IsOfData};

/// A load from the data segments gives the number that stands in the memory.
pub fn loads_are_of_memory()
    ensures { (table code objects spaces : List ℕ) (o s : ℕ) (m : Bytes) (a n : ℕ) → AreApart table code objects spaces
        → Hold o s m objects spaces → 0 < n → IsOfData o s a n
        → load (segments table code objects spaces) a n ≡ Some (load_of n m a) }
{}

/// A store to the data segments puts the number into the memory, and leaves the code as it was.
pub fn stores_are_of_memory()
    ensures { (table code objects spaces : List ℕ) (o s : ℕ) (m : Bytes) (a n v : ℕ)
        → AreApart table code objects spaces → Hold o s m objects spaces → 0 < n → IsOfData o s a n
        → (objects' : List ℕ) × (spaces' : List ℕ)
        × (store (segments table code objects spaces) a n v ≡ Some (segments table code objects' spaces'))
        × Hold o s (store_of n m a v) objects' spaces' }
{}

/// What the environment takes from a buffer is the bytes of the memory, and it may put one into a buffer of one byte.
pub fn buffers_are_of_memory()
    ensures sent { (table code objects spaces : List ℕ) (o s : ℕ) (m : Bytes) (a n : ℕ)
        → AreApart table code objects spaces → Hold o s m objects spaces → 0 < n → IsOfData o s a n
        → bytes_at (segments table code objects spaces) a n ≡ Some (bytes_from m a n) }
    ensures received { (table code objects spaces : List ℕ) (o s : ℕ) (m : Bytes) (a : ℕ)
        → AreApart table code objects spaces → Hold o s m objects spaces → IsOfData o s a 1
        → may_write (segments table code objects spaces) a 1 ≡ true }
{}

/// A word is fetched as it stands in the code, that of the jump table's segment too.
pub fn words_are_fetched()
    ensures table { (table code objects spaces : List ℕ) (place : ℕ) → AreApart table code objects spaces
        → place + 4 ≤ length table
        → fetch (segments table code objects spaces) (functions_begin + place)
        ≡ Some (little_number 4 (drop place table)) }
    ensures code { (table code objects spaces : List ℕ) (place : ℕ) → AreApart table code objects spaces
        → place + 4 ≤ length code
        → fetch (segments table code objects spaces) (code_begin + place) ≡ Some (little_number 4 (drop place code)) }
{}

/// Instructions that go on, one after another, do to the machine what they do to the view, in one step each.
pub fn straight_code_performs()
    ensures { (l : Layout) (is : List Instr) (c : Configuration) (v : View) → Fits l → AllStand l v.pc is
        → AllGoOn l.object_bytes l.space_bytes is v → Shows l c v
        → (after : Configuration) × (runs (length is) c ≡ (after, None)) × Shows l after (performs is v)
        × StaysOutside c after }
{}

/// Jumps and branches lead to their targets, which are multiples of 4, and link.
pub fn jumps_lead_to_their_targets()
    ensures jal { (l : Layout) (rd imm target : ℕ) (c : Configuration) (v : View) → Fits l
        → StandsAt l v.pc (Jal rd imm)
        → wrap (v.pc + sext 21 imm) ≡ target → target % 4 ≡ 0 → Shows l c v
        → (after : Configuration) × (runs 1 c ≡ (after, None))
        × Shows l after (links v rd target) × StaysOutside c after }
    ensures jalr { (l : Layout) (rd rs1 imm target : ℕ) (c : Configuration) (v : View) → Fits l
        → StandsAt l v.pc (Jalr rd rs1 imm) → wrap (v.registers rs1 + sext 12 imm) ≡ target → target % 4 ≡ 0
        → Shows l c v
        → (after : Configuration) × (runs 1 c ≡ (after, None))
        × Shows l after (links v rd target) × StaysOutside c after }
    ensures branch { (l : Layout) (op : BranchOp) (rs1 rs2 imm target : ℕ) (c : Configuration) (v : View) → Fits l
        → StandsAt l v.pc (Branch op rs1 rs2 imm) → wrap (v.pc + sext 13 imm) ≡ target → target % 4 ≡ 0 → Shows l c v
        → (after : Configuration) × (runs 1 c ≡ (after, None))
        × Shows l after (branches v (branch_taken op (v.registers rs1) (v.registers rs2)) target)
        × StaysOutside c after }
{}

/// The environment call exit ends the run with the low byte of a0.
pub fn exit_ends_the_run()
    ensures { (l : Layout) (c : Configuration) (v : View) → Fits l → StandsAt l v.pc Ecall → v.registers 17 ≡ 93
        → Shows l c v → runs 1 c ≡ (c, Some (Exited (v.registers 10 % 256))) }
{}

/// The environment call write sends the bytes of the memory, to the output or to the error output.
pub fn write_sends_bytes()
    ensures output { (l : Layout) (n : ℕ) (c : Configuration) (v : View) → Fits l → StandsAt l v.pc Ecall
        → v.registers 17 ≡ 64 → v.registers 10 ≡ 1 → v.registers 12 ≡ n → 0 < n
        → IsOfData l.object_bytes l.space_bytes (v.registers 11) n → Shows l c v
        → (after : Configuration) × (runs 1 c ≡ (after, None))
        × Shows l after (gets v 10 n)
        × Sends c after (bytes_from v.memory (v.registers 11) n) }
    ensures errors { (l : Layout) (n : ℕ) (c : Configuration) (v : View) → Fits l → StandsAt l v.pc Ecall
        → v.registers 17 ≡ 64 → v.registers 10 ≡ 2 → v.registers 12 ≡ n → 0 < n
        → IsOfData l.object_bytes l.space_bytes (v.registers 11) n → Shows l c v
        → (after : Configuration) × (runs 1 c ≡ (after, None))
        × Shows l after (gets v 10 n)
        × SendsErrors c after (bytes_from v.memory (v.registers 11) n) }
{}

/// The environment call read of one byte gives 0 at the end of the input.
pub fn read_gives_nothing_at_the_end()
    ensures { (l : Layout) (c : Configuration) (v : View) → Fits l → StandsAt l v.pc Ecall → v.registers 17 ≡ 63
        → v.registers 10 ≡ 0 → v.registers 12 ≡ 1 → IsOfData l.object_bytes l.space_bytes (v.registers 11) 1
        → c.input ≡ [] → Shows l c v
        → (after : Configuration) × (runs 1 c ≡ (after, None))
        × Shows l after (gets v 10 0) × StaysOutside c after }
{}

/// The environment call read of one byte takes the next byte of the input and puts it into the memory.
pub fn read_takes_a_byte()
    ensures { (l : Layout) (c : Configuration) (v : View) (byte : ℕ) (rest : List ℕ) → Fits l → StandsAt l v.pc Ecall
        → v.registers 17 ≡ 63 → v.registers 10 ≡ 0 → v.registers 12 ≡ 1
        → IsOfData l.object_bytes l.space_bytes (v.registers 11) 1 → c.input ≡ byte ∷ rest → Shows l c v
        → (after : Configuration) × (runs 1 c ≡ (after, None))
        × Shows l after (record (gets v 10 1) { memory = store_of 1 v.memory (v.registers 11) byte })
        × Takes c after rest }
{}
