//! The names of instructions.

ghost use Rattle.std.specs.Prelude.{◌≡◌};
ghost use Rattle.rv_listing.specs.Names.{name_of, branch_name, load_name, store_name, imm_name, shift_name};
ghost use Rattle.rv_listing.specs.Names.{shift32_name, reg_name, reg32_name, named};
ghost use Rattle.std.specs.List.{find};
ghost use Rattle.std.specs.Str.{bytes_eq};

use rv_isa::{BranchOp, ImmOp, LoadOp, RegOp, RegOp32, ShiftOp, ShiftOp32, StoreOp};

/// What the first word of a line names, in the order of the variants of `Instr`.
#[derive(Clone, Copy, PartialEq, Eq)]
pub enum Mnemonic {
    Lui,
    Auipc,
    Jal,
    Jalr,
    Branch(BranchOp),
    Load(LoadOp),
    Store(StoreOp),
    OpImm(ImmOp),
    ShiftImm(ShiftOp),
    Addiw,
    ShiftImm32(ShiftOp32),
    Op(RegOp),
    Op32(RegOp32),
    Fence,
    Ecall,
    Ebreak,
}

/// All of them, each once. Those that are used most stand in front, since a name is looked for from there.
pub static MNEMONICS: [Mnemonic; 65] = [
    Mnemonic::OpImm(ImmOp::Addi),
    Mnemonic::Load(LoadOp::Ld),
    Mnemonic::Store(StoreOp::Sd),
    Mnemonic::Lui,
    Mnemonic::Op(RegOp::Add),
    Mnemonic::Branch(BranchOp::Beq),
    Mnemonic::Branch(BranchOp::Bne),
    Mnemonic::Jal,
    Mnemonic::Jalr,
    Mnemonic::ShiftImm(ShiftOp::Slli),
    Mnemonic::Load(LoadOp::Lw),
    Mnemonic::Store(StoreOp::Sw),
    Mnemonic::Op(RegOp::Sub),
    Mnemonic::Branch(BranchOp::Bltu),
    Mnemonic::Branch(BranchOp::Bgeu),
    Mnemonic::ShiftImm(ShiftOp::Srli),
    Mnemonic::Auipc,
    Mnemonic::Addiw,
    Mnemonic::OpImm(ImmOp::Andi),
    Mnemonic::Op(RegOp::Or),
    Mnemonic::Op(RegOp::And),
    Mnemonic::Op(RegOp::Sltu),
    Mnemonic::Load(LoadOp::Lbu),
    Mnemonic::Store(StoreOp::Sb),
    Mnemonic::Op(RegOp::Mul),
    Mnemonic::OpImm(ImmOp::Ori),
    Mnemonic::OpImm(ImmOp::Xori),
    Mnemonic::OpImm(ImmOp::Sltiu),
    Mnemonic::Op(RegOp::Slt),
    Mnemonic::Op(RegOp::Xor),
    Mnemonic::ShiftImm(ShiftOp::Srai),
    Mnemonic::Op(RegOp::Sll),
    Mnemonic::Op(RegOp::Srl),
    Mnemonic::Op(RegOp::Sra),
    Mnemonic::Branch(BranchOp::Blt),
    Mnemonic::Branch(BranchOp::Bge),
    Mnemonic::OpImm(ImmOp::Slti),
    Mnemonic::Load(LoadOp::Lb),
    Mnemonic::Load(LoadOp::Lh),
    Mnemonic::Load(LoadOp::Lhu),
    Mnemonic::Load(LoadOp::Lwu),
    Mnemonic::Store(StoreOp::Sh),
    Mnemonic::ShiftImm32(ShiftOp32::Slliw),
    Mnemonic::ShiftImm32(ShiftOp32::Srliw),
    Mnemonic::ShiftImm32(ShiftOp32::Sraiw),
    Mnemonic::Op32(RegOp32::Addw),
    Mnemonic::Op32(RegOp32::Subw),
    Mnemonic::Op32(RegOp32::Sllw),
    Mnemonic::Op32(RegOp32::Srlw),
    Mnemonic::Op32(RegOp32::Sraw),
    Mnemonic::Op32(RegOp32::Mulw),
    Mnemonic::Op32(RegOp32::Divw),
    Mnemonic::Op32(RegOp32::Divuw),
    Mnemonic::Op32(RegOp32::Remw),
    Mnemonic::Op32(RegOp32::Remuw),
    Mnemonic::Op(RegOp::Mulh),
    Mnemonic::Op(RegOp::Mulhsu),
    Mnemonic::Op(RegOp::Mulhu),
    Mnemonic::Op(RegOp::Div),
    Mnemonic::Op(RegOp::Divu),
    Mnemonic::Op(RegOp::Rem),
    Mnemonic::Op(RegOp::Remu),
    Mnemonic::Fence,
    Mnemonic::Ecall,
    Mnemonic::Ebreak,
];

impl Mnemonic {
    /// The name, in lower case.
    #[tactic(auto, unfolding(crate::specs::Names::name_of))]
    pub fn name(self) -> &'static [u8]
        ensures { result.now ≡ name_of self }
    {
        match self {
            Mnemonic::Lui => b"lui",
            Mnemonic::Auipc => b"auipc",
            Mnemonic::Jal => b"jal",
            Mnemonic::Jalr => b"jalr",
            Mnemonic::Branch(op) => branch_name(op),
            Mnemonic::Load(op) => load_name(op),
            Mnemonic::Store(op) => store_name(op),
            Mnemonic::OpImm(op) => imm_name(op),
            Mnemonic::ShiftImm(op) => shift_name(op),
            Mnemonic::Addiw => b"addiw",
            Mnemonic::ShiftImm32(op) => shift32_name(op),
            Mnemonic::Op(op) => reg_name(op),
            Mnemonic::Op32(op) => reg32_name(op),
            Mnemonic::Fence => b"fence",
            Mnemonic::Ecall => b"ecall",
            Mnemonic::Ebreak => b"ebreak",
        }
    }

    /// The one that a text names.
    #[tactic(auto, unfolding(crate::specs::Names::named))]
    pub fn named(text: &[u8]) -> Option<Mnemonic>
        ensures { result ≡ named text.now }
    {
        named_among(&MNEMONICS, text)
    }
}

fn named_among(table: &[Mnemonic], text: &[u8]) -> Option<Mnemonic>
    ensures { result ≡ find (λ m. bytes_eq (name_of m) text.now) table.now }
{
    for mnemonic in table {
        if mnemonic.name() == text {
            return Some(*mnemonic);
        }
    }
    None
}

#[tactic(auto, unfolding(crate::specs::Names::branch_name))]
fn branch_name(op: BranchOp) -> &'static [u8]
    ensures { result.now ≡ branch_name op }
{
    match op {
        BranchOp::Beq => b"beq",
        BranchOp::Bne => b"bne",
        BranchOp::Blt => b"blt",
        BranchOp::Bge => b"bge",
        BranchOp::Bltu => b"bltu",
        BranchOp::Bgeu => b"bgeu",
    }
}

#[tactic(auto, unfolding(crate::specs::Names::load_name))]
fn load_name(op: LoadOp) -> &'static [u8]
    ensures { result.now ≡ load_name op }
{
    match op {
        LoadOp::Lb => b"lb",
        LoadOp::Lh => b"lh",
        LoadOp::Lw => b"lw",
        LoadOp::Ld => b"ld",
        LoadOp::Lbu => b"lbu",
        LoadOp::Lhu => b"lhu",
        LoadOp::Lwu => b"lwu",
    }
}

#[tactic(auto, unfolding(crate::specs::Names::store_name))]
fn store_name(op: StoreOp) -> &'static [u8]
    ensures { result.now ≡ store_name op }
{
    match op {
        StoreOp::Sb => b"sb",
        StoreOp::Sh => b"sh",
        StoreOp::Sw => b"sw",
        StoreOp::Sd => b"sd",
    }
}

#[tactic(auto, unfolding(crate::specs::Names::imm_name))]
fn imm_name(op: ImmOp) -> &'static [u8]
    ensures { result.now ≡ imm_name op }
{
    match op {
        ImmOp::Addi => b"addi",
        ImmOp::Slti => b"slti",
        ImmOp::Sltiu => b"sltiu",
        ImmOp::Xori => b"xori",
        ImmOp::Ori => b"ori",
        ImmOp::Andi => b"andi",
    }
}

#[tactic(auto, unfolding(crate::specs::Names::shift_name))]
fn shift_name(op: ShiftOp) -> &'static [u8]
    ensures { result.now ≡ shift_name op }
{
    match op {
        ShiftOp::Slli => b"slli",
        ShiftOp::Srli => b"srli",
        ShiftOp::Srai => b"srai",
    }
}

#[tactic(auto, unfolding(crate::specs::Names::shift32_name))]
fn shift32_name(op: ShiftOp32) -> &'static [u8]
    ensures { result.now ≡ shift32_name op }
{
    match op {
        ShiftOp32::Slliw => b"slliw",
        ShiftOp32::Srliw => b"srliw",
        ShiftOp32::Sraiw => b"sraiw",
    }
}

#[tactic(auto, unfolding(crate::specs::Names::reg_name))]
fn reg_name(op: RegOp) -> &'static [u8]
    ensures { result.now ≡ reg_name op }
{
    match op {
        RegOp::Add => b"add",
        RegOp::Sub => b"sub",
        RegOp::Sll => b"sll",
        RegOp::Slt => b"slt",
        RegOp::Sltu => b"sltu",
        RegOp::Xor => b"xor",
        RegOp::Srl => b"srl",
        RegOp::Sra => b"sra",
        RegOp::Or => b"or",
        RegOp::And => b"and",
        RegOp::Mul => b"mul",
        RegOp::Mulh => b"mulh",
        RegOp::Mulhsu => b"mulhsu",
        RegOp::Mulhu => b"mulhu",
        RegOp::Div => b"div",
        RegOp::Divu => b"divu",
        RegOp::Rem => b"rem",
        RegOp::Remu => b"remu",
    }
}

#[tactic(auto, unfolding(crate::specs::Names::reg32_name))]
fn reg32_name(op: RegOp32) -> &'static [u8]
    ensures { result.now ≡ reg32_name op }
{
    match op {
        RegOp32::Addw => b"addw",
        RegOp32::Subw => b"subw",
        RegOp32::Sllw => b"sllw",
        RegOp32::Srlw => b"srlw",
        RegOp32::Sraw => b"sraw",
        RegOp32::Mulw => b"mulw",
        RegOp32::Divw => b"divw",
        RegOp32::Divuw => b"divuw",
        RegOp32::Remw => b"remw",
        RegOp32::Remuw => b"remuw",
    }
}
