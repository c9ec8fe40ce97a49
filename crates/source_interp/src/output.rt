//! What a run puts out.

ghost use Rattle.std.specs.Prelude.{◌≡◌, ◌++◌, ◌%◌, [], ◌∷◌};
ghost use Rattle.source_meaning.specs.State.{change};
ghost use Rattle.source_meaning.specs.Actions.{put_bytes};
ghost use Rattle.source_meaning.specs.Library.{putchar};
ghost use Rattle.source_interp.specs.declared.machine.Machine.{Machine as OfMachine};
ghost use Rattle.source_interp.specs.Putting.{ActsPutting};

use crate::machine::Machine;
use crate::stop::{Fault, Stop};
use crate::value::integer;
use obj_memory::Value;
use sb_outside::Sink;

#[tactic(auto, using(crate::proofs::Putting::sends))]
fn send<O: Sink>(output: &mut O, bytes: &[u8]) -> Result<(), Stop>
    ensures { (m : OfMachine) → ActsPutting m m (O.taken output.old) (O.taken output.new) result
        (change (λ s. record s { output = s.output ++ bytes.now })) }
{
    if output.put(bytes).is_err() {
        return Err(Stop::Failed(Fault::Output));
    }
    Ok(())
}

impl Machine {
    /// Bytes are put out, each of which is work.
    pub fn put_bytes<O: Sink>(&mut self, output: &mut O, bytes: &[u8]) -> Result<(), Stop>
        ensures { ActsPutting self.old self.new (O.taken output.old) (O.taken output.new) result (put_bytes bytes.now) }
    {
        self.tally(bytes.len() as u64);
        send(output, bytes)
    }

    /// One byte is put out, the value converted to unsigned char, and given (7.19.7.9).
    pub fn putchar<O: Sink>(&mut self, output: &mut O, character: Value) -> Result<Value, Stop>
        ensures { ActsPutting self.old self.new (O.taken output.old) (O.taken output.new) result (putchar character) }
    {
        let byte = character.word % 256;
        self.put_bytes(output, &[byte as u8])?;
        Ok(integer(byte))
    }
}
