//! Runs: instructions one after another, with the services of the system.

ghost use Rattle.std.specs.Prelude.{◌≡◌, ◌≤◌, ◌⊎◌, Some, slice_get};
ghost use Rattle.odc_io.specs.Counts.{Rose};
ghost use Rattle.rv_table.specs.Run.{act};
ghost use Rattle.rv_machine.specs.Checks.{check_stop};
ghost use Rattle.rv_machine.specs.Hart.{Advances};
ghost use Rattle.rv_machine.specs.Outside.{told};
ghost use Rattle.rv_machine.specs.Runs.{RunsAs};
ghost use Rattle.rv_machine.specs.Turns.{IsEnded, Turned};

use crate::image::Site;
use crate::machine::Machine;
use crate::stop::Stop;
use odc_io::{Sink, Source};
use rv_table::effect::Event;

impl Machine {
    // The site of this number.
    fn site(&self, number: u64) -> Option<Site>
        ensures { result ≡ slice_get self.now.sites number }
    {
        self.sites.get(number as usize).copied()
    }

    // How the run ends at EBREAK.
    fn check(&self) -> Stop
        ensures { result ≡ check_stop self.now.sites self.now.state }
    {
        let number = self.hart.read(10);
        let site = self.hart.read(11);
        let Some((check, at)) = self.site(site) else {
            return self.hart.trap();
        };
        if u64::from(check.number()) == number {
            Stop::Checked { check, at }
        } else {
            self.hart.trap()
        }
    }

    // Carries out instructions that are no events, but at most so many. Answers how many.
    fn advance(&mut self, limit: u64) -> u64
        ensures is { Advances result self.old.state self.new.state }
        ensures most { result ≤ limit }
        ensures lists { self.new ≡ record self.old { state = self.new.state } }
    {
        self.hart.advance(limit)
    }

    // Carries out one instruction of a run; an answer says that the run is over.
    #[inline(never)]
    fn turn<S: Source, O: Sink, E: Sink>(
        &mut self,
        input: &mut S,
        ended: &mut bool,
        out: &mut O,
        err: &mut E,
    ) -> Option<Stop>
        requires over { IsEnded ended.old (S.rest input.old) }
        ensures is { Turned (act self.old.sites self.old.calls) result self.old.state self.new.state ended.old ended.new (told (S.rest input.old) (O.written out.old) (E.written err.old)) (told (S.rest input.new) (O.written out.new) (E.written err.new)) }
        ensures lists { self.new ≡ record self.old { state = self.new.state } }
        ensures over { IsEnded ended.new (S.rest input.new) }
        ensures counted_input { S.faults input.old ≤ S.faults input.new }
        ensures counted_out { O.faults out.old ≤ O.faults out.new }
        ensures counted_err { E.faults err.old ≤ E.faults err.new }
        ensures read_fault { result ≡ Some Stop.ReadFault → Rose (S.faults input.old) (S.faults input.new) }
        ensures write_fault { result ≡ Some Stop.WriteFault → Rose (O.faults out.old) (O.faults out.new) ⊎ Rose (E.faults err.old) (E.faults err.new) }
    {
        match self.step() {
            Event::Next | Event::AllocCall => None,
            Event::System => self.hart.system(input, ended, out, err),
            Event::Break => Some(self.check()),
            Event::Trap => Some(self.hart.trap()),
        }
    }

    /// Carries out instructions until the program ends, but at most `steps` of them. ECALL reads from
    /// `input` and writes to `out` (descriptor 1) and `err` (descriptor 2).
    ///
    /// The answer is that of the definition's run on the bytes of the input. Where a source does not
    /// tell its bytes, it is that of the run on some input: a source that came to its end is not read
    /// again. A fault of the outside ends the run where it stands.
    pub fn run<S: Source, O: Sink, E: Sink>(
        &mut self,
        steps: u64,
        input: &mut S,
        out: &mut O,
        err: &mut E,
    ) -> Stop
        ensures is { RunsAs self.old steps (told (S.rest input.old) (O.written out.old) (E.written err.old)) (told (S.rest input.new) (O.written out.new) (E.written err.new)) self.new.state result }
        ensures lists { self.new ≡ record self.old { state = self.new.state } }

        // Each count rises or stands, and a fault comes only where one rose.
        ensures counted_input { S.faults input.old ≤ S.faults input.new }
        ensures counted_out { O.faults out.old ≤ O.faults out.new }
        ensures counted_err { E.faults err.old ≤ E.faults err.new }
        ensures read_fault { result ≡ Stop.ReadFault → Rose (S.faults input.old) (S.faults input.new) }
        ensures write_fault { result ≡ Stop.WriteFault → Rose (O.faults out.old) (O.faults out.new) ⊎ Rose (E.faults err.old) (E.faults err.new) }
    {
        let mut ended = false;
        let mut left = steps;
        loop {
            left -= self.advance(left);
            if left == 0 {
                return Stop::StepsOut;
            }
            if let Some(stop) = self.turn(input, &mut ended, out, err) {
                return stop;
            }
            left -= 1;
        }
    }
}
