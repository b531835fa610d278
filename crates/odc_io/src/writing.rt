// Whole texts to any sink.
ghost use Rattle.std.specs.Prelude.{◌≡◌, ◌≤◌, OnOk, OnErr};
ghost use Rattle.odc_io.specs.Counts.{Rose};
ghost use Rattle.odc_io.specs.Streams.{grown, GrewByFront, concatenated};

use crate::traits::{Failed, Sink};

/// Writes all of `bytes`. Where that fails, a front of them was written.
pub fn write_all<K: Sink>(sink: &mut K, bytes: &[u8]) -> Result<(), Failed>
    ensures ok { OnOk result (K.written sink.new ≡ grown (K.written sink.old) bytes.now) }
    ensures err { OnErr result (GrewByFront (K.written sink.old) (K.written sink.new) bytes.now) }
    ensures counted { K.faults sink.old ≤ K.faults sink.new }
    ensures cause { OnErr result (Rose (K.faults sink.old) (K.faults sink.new)) }
{
    let mut at = 0;
    while at < bytes.len() {
        let count = sink.write(&bytes[at..])?;
        if count == 0 {
            return Err(Failed);
        }
        at += count;
    }
    Ok(())
}

/// Writes the pieces one after another. Where that fails, a front of all their bytes was written.
pub fn write_pieces<K: Sink>(sink: &mut K, pieces: &[Vec<u8>]) -> Result<(), Failed>
    ensures ok { OnOk result (K.written sink.new ≡ grown (K.written sink.old) (concatenated pieces.now)) }
    ensures err { OnErr result (GrewByFront (K.written sink.old) (K.written sink.new) (concatenated pieces.now)) }
    ensures counted { K.faults sink.old ≤ K.faults sink.new }
    ensures cause { OnErr result (Rose (K.faults sink.old) (K.faults sink.new)) }
{
    for piece in pieces {
        write_all(sink, piece)?;
    }
    Ok(())
}
