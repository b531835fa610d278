//! The services of the system: reading the input, writing the outputs, and exiting.

ghost use Rattle.std.specs.Prelude.{◌≡◌, ◌≢◌, ℕ, ◌-◌, ◌^◌, ◌≤◌, ◌⊎◌, List, Option, Bool, Some, OnErr};
ghost use Rattle.odc_io.specs.Counts.{Rose};
ghost use Rattle.rv_table.specs.Run.{answer, reading, read_called, write_called, system_called};
ghost use Rattle.rv_machine.specs.Outside.{told};
ghost use Rattle.rv_machine.specs.Turns.{IsEnded, Wrote, after_write, Turned};

use crate::hart::Hart;
use crate::stop::Stop;
use odc_io::{Failed, Sink, Source, write_all};
use rv_table::effect::Access;

impl Hart {
    // Puts the answer into its register, and goes on.
    fn answer(&mut self, value: u64)
        ensures { self.new ≡ answer self.old value }
    {
        self.registers.write(10, value);
        self.pc = self.pc.wrapping_add(4);
    }

    // Answers that there is no such descriptor.
    fn refuse(&mut self)
        ensures { self.new ≡ answer self.old (2 ^ 64 - 9) }
    {
        self.answer(0u64.wrapping_sub(9));
    }

    pub fn trap(&self) -> Stop
        ensures { result ≡ Stop.Trapped self.now.pc }
    {
        Stop::Trapped { pc: self.pc }
    }

    // Reads into the buffer that the registers name.
    fn read_input<S: Source>(&mut self, input: &mut S, ended: &mut bool) -> Option<Stop>
        requires over { IsEnded ended.old (S.rest input.old) }
        ensures is { (o e : Option (List ℕ)) → Turned reading result self.old self.new ended.old ended.new (told (S.rest input.old) o e) (told (S.rest input.new) o e) }
        ensures over { IsEnded ended.new (S.rest input.new) }
        ensures counted { S.faults input.old ≤ S.faults input.new }
        ensures read_fault { result ≡ Some Stop.ReadFault → Rose (S.faults input.old) (S.faults input.new) }
        ensures no_write_fault { result ≢ Some Stop.WriteFault }
    {
        let address = self.read(11);
        let size = self.read(12) as usize;
        if size == 0 {
            self.answer(0);
            return None;
        }
        match self.memory.read_from(address, size, input, ended) {
            Ok(Some(count)) => {
                self.answer(count as u64);
                None
            }
            Ok(None) => Some(self.trap()),
            Err(Failed) => Some(Stop::ReadFault),
        }
    }

    // Writes the buffer that the registers name; false where there is no such buffer.
    fn write_output<K: Sink>(&mut self, sink: &mut K) -> Result<bool, Failed>
        ensures is { Wrote self.old self.new (K.written sink.old) (K.written sink.new) result }
        ensures counted { K.faults sink.old ≤ K.faults sink.new }
        ensures cause { OnErr result (Rose (K.faults sink.old) (K.faults sink.new)) }
    {
        let address = self.read(11);
        let size = self.read(12) as usize;
        if size == 0 {
            self.answer(0);
            return Ok(true);
        }
        let Some(bytes) = self.memory.bytes(Access::Read, address, size) else {
            return Ok(false);
        };
        let count = bytes.len() as u64;
        match write_all(sink, bytes) {
            Ok(()) => {
                self.answer(count);
                Ok(true)
            }
            Err(Failed) => Err(Failed),
        }
    }

    fn read_call<S: Source>(&mut self, input: &mut S, ended: &mut bool) -> Option<Stop>
        requires over { IsEnded ended.old (S.rest input.old) }
        ensures is { (o e : Option (List ℕ)) → Turned read_called result self.old self.new ended.old ended.new (told (S.rest input.old) o e) (told (S.rest input.new) o e) }
        ensures over { IsEnded ended.new (S.rest input.new) }
        ensures counted { S.faults input.old ≤ S.faults input.new }
        ensures read_fault { result ≡ Some Stop.ReadFault → Rose (S.faults input.old) (S.faults input.new) }
        ensures no_write_fault { result ≢ Some Stop.WriteFault }
    {
        if self.read(10) == 0 {
            return self.read_input(input, ended);
        }
        self.refuse();
        None
    }

    // How the run goes on after a write.
    fn after_write(&self, done: Result<bool, Failed>) -> Option<Stop>
        ensures { result ≡ after_write self.now.pc done }
    {
        match done {
            Ok(true) => None,
            Ok(false) => Some(self.trap()),
            Err(Failed) => Some(Stop::WriteFault),
        }
    }

    fn write_call<O: Sink, E: Sink>(&mut self, out: &mut O, err: &mut E) -> Option<Stop>
        ensures is { (s : Option (List ℕ)) (ended : Bool) → Turned write_called result self.old self.new ended ended (told s (O.written out.old) (E.written err.old)) (told s (O.written out.new) (E.written err.new)) }
        ensures counted_out { O.faults out.old ≤ O.faults out.new }
        ensures counted_err { E.faults err.old ≤ E.faults err.new }
        ensures write_fault { result ≡ Some Stop.WriteFault → Rose (O.faults out.old) (O.faults out.new) ⊎ Rose (E.faults err.old) (E.faults err.new) }
        ensures no_read_fault { result ≢ Some Stop.ReadFault }
    {
        match self.read(10) {
            1 => {
                let done = self.write_output(out);
                self.after_write(done)
            }
            2 => {
                let done = self.write_output(err);
                self.after_write(done)
            }
            _ => {
                self.refuse();
                None
            }
        }
    }

    /// Carries out the service that the registers ask for.
    pub fn system<S: Source, O: Sink, E: Sink>(
        &mut self,
        input: &mut S,
        ended: &mut bool,
        out: &mut O,
        err: &mut E,
    ) -> Option<Stop>
        requires over { IsEnded ended.old (S.rest input.old) }
        ensures is { Turned system_called result self.old self.new ended.old ended.new (told (S.rest input.old) (O.written out.old) (E.written err.old)) (told (S.rest input.new) (O.written out.new) (E.written err.new)) }
        ensures over { IsEnded ended.new (S.rest input.new) }
        ensures counted_input { S.faults input.old ≤ S.faults input.new }
        ensures counted_out { O.faults out.old ≤ O.faults out.new }
        ensures counted_err { E.faults err.old ≤ E.faults err.new }
        ensures read_fault { result ≡ Some Stop.ReadFault → Rose (S.faults input.old) (S.faults input.new) }
        ensures write_fault { result ≡ Some Stop.WriteFault → Rose (O.faults out.old) (O.faults out.new) ⊎ Rose (E.faults err.old) (E.faults err.new) }
    {
        match self.read(17) {
            63 => self.read_call(input, ended),
            64 => self.write_call(out, err),
            93 => Some(Stop::Exited {
                code: (self.read(10) % 256) as u8,
            }),
            _ => Some(self.trap()),
        }
    }
}
