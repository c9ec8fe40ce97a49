//! Strings that are put out (C99 7.19.7.10).

ghost use Rattle.source_meaning.specs.Printing.{puts};
ghost use Rattle.source_interp.specs.Putting.{ActsPutting};

use crate::items::append;
use crate::machine::Machine;
use crate::stop::Stop;
use crate::value::integer;
use obj_memory::Value;
use sb_outside::Sink;
use std::alloc::Global;

impl Machine {
    /// A string and a newline are put out, the string scanned before.
    #[tactic(auto, using(crate::proofs::Acting::failing))]
    pub fn puts<O: Sink>(
        &mut self,
        output: &mut O,
        alloc: Global,
        string: Value,
        line: u32,
    ) -> Result<Value, Stop>
        ensures { ActsPutting self.old self.new (O.taken output.old) (O.taken output.new) result (puts string line) }
    {
        let bytes = self.scan(alloc, string, line)?;
        let mut all = bytes.into_vec();
        append(&mut all, 10)?;
        let whole = all.as_slice();
        self.put_bytes(output, whole)?;
        Ok(integer(0))
    }
}
