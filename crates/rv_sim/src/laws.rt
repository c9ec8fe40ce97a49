//! Laws of the machine's definitions, each as the contract of a function that does nothing: layers
//! above rest on them.
ghost use Rattle.std.specs.Prelude.{◌≡◌, ℕ, suc, List, None, Some};
ghost use Rattle.behaviours.specs.Behaviour.{IsMachine};
ghost use Rattle.rv_sim.specs.State.{MachineState};
ghost use Rattle.rv_isa.specs.declared.instruction.Instr.{Instr};
ghost use Rattle.rv_isa.specs.Table.{word_of, IsOfTable};
ghost use Rattle.rv_sim.specs.Behaviour.{behaviour};
ghost use Rattle.rv_sim.specs.Memory.{fetch};
ghost use Rattle.rv_sim.specs.Step.{step, executes};
ghost use Rattle.rv_sim.specs.Run.{Configuration, onwards, runs};

/// The machine is a machine in the sense of faithfulness: what it shows grows with the number of
/// instructions, and each of them is one turn and one unit of work.
pub fn machine_is_machine()
    ensures { (s : MachineState) (input : List ℕ) → IsMachine (behaviour s input) }
{}

/// Where the word of an instruction stands at the program counter, the step is what the instruction
/// does.
pub fn step_executes_the_word_at_pc()
    ensures { (s : MachineState) (i : Instr) → IsOfTable i → fetch s.memory s.pc ≡ Some (word_of i)
        → step s ≡ executes i s }
{}

/// A run of no instructions has shown nothing more, and a run of one more makes one more turn at its
/// end, unless it has ended.
pub fn runs_make_one_more_turn()
    ensures none { (c : Configuration) → runs 0 c ≡ (c, None) }
    ensures more { (n : ℕ) (c : Configuration) → runs (suc n) c ≡ onwards (runs n c) }
{}
