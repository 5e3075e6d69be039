//! A sink of bytes, and the loop that writes a whole text to one.
ghost use Rattle.std.specs.Prelude.{◌≡◌, ℕ, ◌<◌, ◌≤◌, Option, List, length, take, IfOk, OnOk, OnErr};
ghost use Rattle.std.specs.Io.KnownBytes.{Appends, Keeps};
ghost use Rattle.cat_text.specs.Outside.{AppendsPart};

use super::fault::OutsideFault;

/// Why a sink took nothing.
pub type WriteFault = OutsideFault;

/// Bytes that are written in order.
///
/// `written` is the bytes that the sink has taken, where it tells them; such a sink tells them
/// after each call too. `faults` counts the calls that failed, and `steady` says that none of those
/// to come is to fail.
pub trait Sink {
    ghost written: { Self → Option (List ℕ) };

    ghost faults: { Self → ℕ };

    ghost steady: { Self → Type 0 };

    /// Takes bytes from the front of the piece, and answers how many: at least one, where the
    /// piece has one.
    fn write(&mut self, piece: &[u8]) -> Result<usize, WriteFault>
        ensures within { IfOk result (λ taken. taken ≤ length piece.now) }
        ensures takes { IfOk result (λ taken. 0 < length piece.now → 0 < taken) }
        ensures appends { IfOk result (λ taken. Appends (written self.old) (written self.new) (take taken piece.now)) }

        ensures keeps { OnErr result (Keeps (written self.old) (written self.new)) }
        ensures counted { result ≡ Err OutsideFault.Failed → faults self.old < faults self.new }
        ensures never_falls { faults self.old ≤ faults self.new }
        ensures stays_steady { steady self.old → steady self.new × (faults self.new ≡ faults self.old) };
}

/// Writes a whole text, in as many writes as the sink needs. After an error the sink has a front
/// of the text that lacks at least its last byte.
pub fn write_whole<K: Sink>(sink: &mut K, text: &[u8]) -> Result<(), WriteFault>
    ensures whole { OnOk result (Appends (K.written sink.old) (K.written sink.new) text.now) }
    ensures part { OnErr result (AppendsPart (K.written sink.old) (K.written sink.new) text.now) }
    ensures failed { result ≡ Err OutsideFault.Failed → K.faults sink.old < K.faults sink.new }
    ensures never_falls { K.faults sink.old ≤ K.faults sink.new }
    ensures stays_steady { K.steady sink.old → K.steady sink.new × (K.faults sink.new ≡ K.faults sink.old) }
{
    let mut rest = text;
    while !rest.is_empty() {
        let taken = sink.write(rest)?;
        rest = &rest[taken..];
    }
    Ok(())
}
