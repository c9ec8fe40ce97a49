//! The state of the machine, and one step of it.

use crate::arithmetic::{
    extend32, is_taken, low32, of_registers, of_registers32, shifted, shifted32, with_immediate,
};
use crate::memory::{Segment, buffer_at, fetch_word, has_room, load_number, store_number};
use crate::trap::{Action, TrapKind};
use crate::width::Width;
use rv_isa::{
    BranchOffset, BranchOp, Imm12, Imm20, ImmOp, Instr, JumpOffset, LoadOp, Reg, RegOp, RegOp32,
    ShiftAmount, ShiftAmount32, ShiftOp, ShiftOp32, StoreOp, decode,
};
use std::marker::Model;
use words::sign_extend;

/// The address of the next instruction, the registers x0 to x31, and memory.
#[derive(Drop)]
pub struct State {
    pc: u64,
    registers: [u64; 32],
    memory: Vec<Segment>,
}

impl Model for State {
    ghost use Rattle.std.specs.Prelude.{◌≡◌, slice_index};
    ghost use Rattle.rv_sim.specs.State.{MachineState};

    ghost Value = { MachineState };

    ghost view = { λ s. record { pc = s.pc; registers = s.registers; memory = s.memory.items } };

    // x0 is never written, so it is read as any other register.
    ghost invariant = { λ s. slice_index s.registers 0 ≡ 0 };
}

impl State {
    ghost use Rattle.std.specs.Prelude.{◌≡◌, ℕ, ◌+◌, ◌-◌, ◌*◌, ◌/◌, ◌%◌, ◌^◌, ◌<◌};
    ghost use Rattle.std.specs.Prelude.{◌≤◌, Bool, replicate, Some, None};
    ghost use Rattle.std.specs.Prelude.{MatchOption};
    ghost use Rattle.rv_isa.specs.Word.{sext};
    ghost use Rattle.rv_isa.specs.declared.instruction.Instr.TheVariants as instr;
    ghost use Rattle.rv_sim.specs.Memory.{bytes_at, may_write};
    ghost use Rattle.rv_sim.specs.State.{MachineState, register, with_register};
    ghost use Rattle.rv_sim.specs.Run.{with_byte};
    ghost use Rattle.rv_sim.specs.Step.{KeepsUnlessDone, step, executes, gives, passes, jumps, branches, loads};
    ghost use Rattle.rv_sim.specs.Step.{stores, address_of, from_pc};

    /// A state that begins at an address, with every register zero.
    pub fn new(pc: u64, memory: Vec<Segment>) -> Self
        ensures { result ≡ record { pc = pc; registers = replicate 32 0; memory = memory.items } }
    {
        Self {
            pc,
            registers: [0; 32],
            memory,
        }
    }

    /// The address of the next instruction.
    pub fn pc(&self) -> u64
        ensures { result ≡ self.now.pc }
    {
        self.pc
    }

    /// The value of a register. x0 is zero.
    pub fn register(&self, number: Reg) -> u64
        ensures { result ≡ register self.now number }
    {
        self.registers[number.number() as usize]
    }

    /// One step: the instruction at `pc`. An environment call is only told, and a step that is not
    /// done changes nothing.
    #[tactic(auto, unfolding(crate::specs::Step::step))]
    pub fn step(&mut self) -> Action
        ensures step { (self.new, result) ≡ step self.old }
        ensures kept { KeepsUnlessDone result self.old self.new }
    {
        let Some(word) = fetch_word(&self.memory, self.pc) else {
            return Action::Refuse(TrapKind::Access);
        };
        match decode(word) {
            Some(instr) => self.execute(instr),
            None => Action::Refuse(TrapKind::Illegal),
        }
    }

    /// Goes on behind an environment call, whose result is put into a register.
    pub fn answer(&mut self, rd: Reg, value: u64)
        ensures { self.new ≡ (gives self.old rd value).0 }
    {
        self.give(rd, value);
    }

    /// The buffer of so many bytes from an address on. `None` where the machine may not read it.
    pub fn buffer(&self, address: u64, count: u64) -> Option<&[u8]>
        ensures { MatchOption result (bytes_at self.now.memory address count ≡ None)
            (λ bytes. bytes_at self.now.memory address count ≡ Some bytes.now) }
    {
        buffer_at(&self.memory, address, count)
    }

    /// Whether the machine may write all of the buffer of so many bytes from an address on.
    pub fn has_room(&self, address: u64, count: u64) -> bool
        ensures { result ≡ may_write self.now.memory address count }
    {
        has_room(&self.memory, address, count)
    }

    /// Puts a byte into memory. Nothing changes where the machine may not write it.
    pub fn put_byte(&mut self, address: u64, byte: u8)
        ensures { self.new ≡ with_byte self.old address byte }
    {
        store_number(&mut self.memory, address, Width::Byte, u64::from(byte));
    }

    #[tactic(auto, unfolding(crate::specs::Step::executes))]
    fn execute(&mut self, instr: Instr) -> Action
        ensures step { (self.new, result) ≡ executes instr self.old }
        ensures kept { KeepsUnlessDone result self.old self.new }
    {
        match instr {
            Instr::Lui { rd, imm } => self.give(rd, imm.sign_extended()),
            Instr::Auipc { rd, imm } => self.auipc(rd, imm),
            Instr::Jal { rd, imm } => self.jal(rd, imm),
            Instr::Jalr { rd, rs1, imm } => self.jalr(rd, rs1, imm),
            Instr::Branch { op, rs1, rs2, imm } => self.branch(op, rs1, rs2, imm),
            Instr::Load { op, rd, rs1, imm } => self.load(op, rd, rs1, imm),
            Instr::Store { op, rs1, rs2, imm } => self.store(op, rs1, rs2, imm),
            Instr::OpImm { op, rd, rs1, imm } => self.op_imm(op, rd, rs1, imm),
            Instr::ShiftImm { op, rd, rs1, shamt } => self.shift_imm(op, rd, rs1, shamt),
            Instr::Addiw { rd, rs1, imm } => self.addiw(rd, rs1, imm),
            Instr::ShiftImm32 { op, rd, rs1, shamt } => self.shift_imm32(op, rd, rs1, shamt),
            Instr::Op { op, rd, rs1, rs2 } => self.op(op, rd, rs1, rs2),
            Instr::Op32 { op, rd, rs1, rs2 } => self.op32(op, rd, rs1, rs2),
            Instr::Fence { .. } => self.pass(),
            Instr::Ecall => Action::Ask,
            Instr::Ebreak => Action::Refuse(TrapKind::Break),
        }
    }

    #[tactic(auto, unfolding(crate::specs::Step::executes))]
    fn auipc(&mut self, rd: Reg, imm: Imm20) -> Action
        ensures step { (self.new, result) ≡ executes (instr.Auipc rd imm) self.old }
        ensures done { result ≡ Action.Done }
    {
        let value = self.from_pc(imm.sign_extended());
        self.give(rd, value)
    }

    #[tactic(auto, unfolding(crate::specs::Step::executes))]
    fn jal(&mut self, rd: Reg, imm: JumpOffset) -> Action
        ensures step { (self.new, result) ≡ executes (instr.Jal rd imm) self.old }
        ensures kept { KeepsUnlessDone result self.old self.new }
    {
        let target = self.from_pc(imm.sign_extended());
        self.jump(rd, target)
    }

    #[tactic(auto, unfolding(crate::specs::Step::executes))]
    fn jalr(&mut self, rd: Reg, rs1: Reg, imm: Imm12) -> Action
        ensures step { (self.new, result) ≡ executes (instr.Jalr rd rs1 imm) self.old }
        ensures kept { KeepsUnlessDone result self.old self.new }
    {
        let target = self.address(rs1, imm) / 2 * 2;
        self.jump(rd, target)
    }

    #[tactic(auto, unfolding(crate::specs::Step::executes))]
    fn branch(&mut self, op: BranchOp, rs1: Reg, rs2: Reg, imm: BranchOffset) -> Action
        ensures step { (self.new, result) ≡ executes (instr.Branch op rs1 rs2 imm) self.old }
        ensures kept { KeepsUnlessDone result self.old self.new }
    {
        let taken = is_taken(op, self.register(rs1), self.register(rs2));
        let target = self.from_pc(imm.sign_extended());
        self.go(taken, target)
    }

    #[tactic(auto, unfolding(crate::specs::Step::executes))]
    fn load(&mut self, op: LoadOp, rd: Reg, rs1: Reg, imm: Imm12) -> Action
        ensures step { (self.new, result) ≡ executes (instr.Load op rd rs1 imm) self.old }
        ensures kept { KeepsUnlessDone result self.old self.new }
    {
        let address = self.address(rs1, imm);
        self.load_from(op, rd, address)
    }

    #[tactic(auto, unfolding(crate::specs::Step::executes))]
    fn store(&mut self, op: StoreOp, rs1: Reg, rs2: Reg, imm: Imm12) -> Action
        ensures step { (self.new, result) ≡ executes (instr.Store op rs1 rs2 imm) self.old }
        ensures kept { KeepsUnlessDone result self.old self.new }
    {
        let address = self.address(rs1, imm);
        let value = self.register(rs2);
        self.store_to(op, address, value)
    }

    #[tactic(auto, unfolding(crate::specs::Step::executes))]
    fn op_imm(&mut self, op: ImmOp, rd: Reg, rs1: Reg, imm: Imm12) -> Action
        ensures step { (self.new, result) ≡ executes (instr.OpImm op rd rs1 imm) self.old }
        ensures done { result ≡ Action.Done }
    {
        let value = with_immediate(op, self.register(rs1), imm.sign_extended());
        self.give(rd, value)
    }

    #[tactic(auto, unfolding(crate::specs::Step::executes))]
    fn shift_imm(&mut self, op: ShiftOp, rd: Reg, rs1: Reg, shamt: ShiftAmount) -> Action
        ensures step { (self.new, result) ≡ executes (instr.ShiftImm op rd rs1 shamt) self.old }
        ensures done { result ≡ Action.Done }
    {
        let value = shifted(op, self.register(rs1), u32::from(shamt.bits()));
        self.give(rd, value)
    }

    #[tactic(auto, unfolding(crate::specs::Step::executes))]
    fn addiw(&mut self, rd: Reg, rs1: Reg, imm: Imm12) -> Action
        ensures step { (self.new, result) ≡ executes (instr.Addiw rd rs1 imm) self.old }
        ensures done { result ≡ Action.Done }
    {
        let sum = self.register(rs1).wrapping_add(imm.sign_extended());
        self.give(rd, extend32(low32(sum)))
    }

    #[tactic(auto, unfolding(crate::specs::Step::executes))]
    fn shift_imm32(&mut self, op: ShiftOp32, rd: Reg, rs1: Reg, shamt: ShiftAmount32) -> Action
        ensures step { (self.new, result) ≡ executes (instr.ShiftImm32 op rd rs1 shamt) self.old }
        ensures done { result ≡ Action.Done }
    {
        let value = shifted32(op, low32(self.register(rs1)), u32::from(shamt.bits()));
        self.give(rd, value)
    }

    #[tactic(auto, unfolding(crate::specs::Step::executes))]
    fn op(&mut self, op: RegOp, rd: Reg, rs1: Reg, rs2: Reg) -> Action
        ensures step { (self.new, result) ≡ executes (instr.Op op rd rs1 rs2) self.old }
        ensures done { result ≡ Action.Done }
    {
        let value = of_registers(op, self.register(rs1), self.register(rs2));
        self.give(rd, value)
    }

    #[tactic(auto, unfolding(crate::specs::Step::executes))]
    fn op32(&mut self, op: RegOp32, rd: Reg, rs1: Reg, rs2: Reg) -> Action
        ensures step { (self.new, result) ≡ executes (instr.Op32 op rd rs1 rs2) self.old }
        ensures done { result ≡ Action.Done }
    {
        let value = of_registers32(op, low32(self.register(rs1)), low32(self.register(rs2)));
        self.give(rd, value)
    }

    // The address so far from this instruction.
    fn from_pc(&self, distance: u64) -> u64
        ensures { result ≡ from_pc self.now distance }
    {
        self.pc.wrapping_add(distance)
    }

    // The address of a load, of a store or of a jump by a register.
    fn address(&self, rs1: Reg, imm: Imm12) -> u64
        ensures { result ≡ address_of self.now rs1 imm }
    {
        self.register(rs1).wrapping_add(imm.sign_extended())
    }

    fn set_register(&mut self, rd: Reg, value: u64)
        ensures { self.new ≡ record self.old { registers = with_register self.old.registers rd value } }
    {
        if rd.number() != 0 {
            self.registers[rd.number() as usize] = value;
        }
    }

    #[tactic(auto, unfolding(crate::specs::Step::gives))]
    fn give(&mut self, rd: Reg, value: u64) -> Action
        ensures step { (self.new, result) ≡ gives self.old rd value }
        ensures done { result ≡ Action.Done }
    {
        self.set_register(rd, value);
        self.pc = self.pc.wrapping_add(4);
        Action::Done
    }

    #[tactic(auto, unfolding(crate::specs::Step::passes))]
    fn pass(&mut self) -> Action
        ensures step { (self.new, result) ≡ passes self.old }
        ensures done { result ≡ Action.Done }
    {
        self.pc = self.pc.wrapping_add(4);
        Action::Done
    }

    #[tactic(auto, unfolding(crate::specs::Step::jumps))]
    fn jump(&mut self, rd: Reg, target: u64) -> Action
        ensures step { (self.new, result) ≡ jumps self.old rd target }
        ensures kept { KeepsUnlessDone result self.old self.new }
    {
        if target % 4 != 0 {
            return Action::Refuse(TrapKind::Jump);
        }
        let link = self.pc.wrapping_add(4);
        self.set_register(rd, link);
        self.pc = target;
        Action::Done
    }

    #[tactic(auto, unfolding(crate::specs::Step::branches))]
    fn go(&mut self, taken: bool, target: u64) -> Action
        ensures step { (self.new, result) ≡ branches self.old taken target }
        ensures kept { KeepsUnlessDone result self.old self.new }
    {
        if !taken {
            return self.pass();
        }
        if target % 4 != 0 {
            return Action::Refuse(TrapKind::Jump);
        }
        self.pc = target;
        Action::Done
    }

    #[tactic(auto, unfolding(crate::specs::Step::loads))]
    fn load_from(&mut self, op: LoadOp, rd: Reg, address: u64) -> Action
        ensures step { (self.new, result) ≡ loads self.old op rd address }
        ensures kept { KeepsUnlessDone result self.old self.new }
    {
        let Some(number) = load_number(&self.memory, address, load_width(op)) else {
            return Action::Refuse(TrapKind::Access);
        };
        self.give(rd, extend_loaded(op, number))
    }

    #[tactic(auto, unfolding(crate::specs::Step::stores))]
    fn store_to(&mut self, op: StoreOp, address: u64, value: u64) -> Action
        ensures step { (self.new, result) ≡ stores self.old op address value }
        ensures kept { KeepsUnlessDone result self.old self.new }
    {
        if !store_number(&mut self.memory, address, store_width(op), value) {
            return Action::Refuse(TrapKind::Access);
        }
        self.pc = self.pc.wrapping_add(4);
        Action::Done
    }
}

ghost use Rattle.std.specs.Prelude.{◌≡◌, ◌^◌, ◌<◌};
ghost use Rattle.rv_sim.specs.Width.{byte_count};
ghost use Rattle.rv_isa.specs.Results.{load_bytes, store_bytes, extended};

fn load_width(op: LoadOp) -> Width
    ensures { byte_count result ≡ load_bytes op }
{
    match op {
        LoadOp::Lb | LoadOp::Lbu => Width::Byte,
        LoadOp::Lh | LoadOp::Lhu => Width::Half,
        LoadOp::Lw | LoadOp::Lwu => Width::Word,
        LoadOp::Ld => Width::Double,
    }
}

fn store_width(op: StoreOp) -> Width
    ensures { byte_count result ≡ store_bytes op }
{
    match op {
        StoreOp::Sb => Width::Byte,
        StoreOp::Sh => Width::Half,
        StoreOp::Sw => Width::Word,
        StoreOp::Sd => Width::Double,
    }
}

// What a register gets of a number that was loaded.
#[tactic(auto, unfolding(rv_isa::specs::Results::extended))]
fn extend_loaded(op: LoadOp, number: u64) -> u64
    requires { number < 256 ^ load_bytes op }
    ensures { result ≡ extended op number }
{
    match op {
        LoadOp::Lb => sign_extend(8, number),
        LoadOp::Lh => sign_extend(16, number),
        LoadOp::Lw => sign_extend(32, number),
        LoadOp::Ld | LoadOp::Lbu | LoadOp::Lhu | LoadOp::Lwu => number,
    }
}
