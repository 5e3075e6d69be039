//! A source of bytes, and the loop that reads one to its end.
ghost use Rattle.std.specs.Prelude.{◌≡◌, ◌≢◌, ℕ, ◌+◌, ◌<◌, ◌≤◌, Option, List, [], length, take, vec_len, IfOk, OnOk};
ghost use Rattle.std.specs.Prelude.{OnErr, IfSome};
ghost use Rattle.std.specs.Io.KnownBytes.{Consumes, Keeps, IsAtEnd};
ghost use Rattle.cat_text.specs.Outside.{ConsumesAtMost, Moves};

use std::alloc::Global;

/// How many bytes `read_whole` asks for at a time.
const PIECE_BYTES: usize = 65_536;

/// A source that could not be read.
#[derive(Clone, Copy, Debug, PartialEq, Eq)]
pub struct Failed;

/// Bytes that are read in order, once.
///
/// `left` is the bytes that reads have yet to give, for a source that tells them; such a source
/// tells them after each call too. `faults` counts the calls that failed, and `steady` says that
/// none of those to come is to fail.
pub trait Source {
    ghost left: { Self → Option (List ℕ) };

    ghost faults: { Self → ℕ };

    ghost steady: { Self → Type 0 };

    /// Takes bytes from the front of those that are left into the front of the piece, and answers
    /// how many. It takes none only at the end, or where the piece has no room.
    fn read(&mut self, into: &mut [u8]) -> Result<usize, Failed>
        ensures within { IfOk result (λ taken. taken ≤ length into.new) }
        ensures takes { IfOk result (λ taken. Consumes (left self.old) (left self.new) (take taken into.new)) }
        ensures ends { IfOk result (λ taken. taken ≡ 0 → 0 < length into.new → IsAtEnd (left self.new)) }

        ensures keeps { OnErr result (Keeps (left self.old) (left self.new)) }
        ensures counted { OnErr result (faults self.old < faults self.new) }
        ensures never_falls { faults self.old ≤ faults self.new }
        ensures stays_steady { steady self.old → steady self.new × (faults self.new ≡ faults self.old) };
}

/// Why a source was not read whole.
#[derive(Clone, Copy, Debug, PartialEq, Eq)]
pub enum ReadFault {
    /// A read failed.
    Failed,
    /// The source has more bytes than were allowed.
    TooLong,
    /// There was no memory for the bytes.
    NoMemory,
}

/// Reads a source to its end, which has to come within `most` bytes: past them it is too long. It
/// takes at most `most + 1` bytes in all, and room for them and for one piece.
pub fn read_whole<S: Source>(
    alloc: Global,
    source: &mut S,
    most: usize,
) -> Result<Vec<u8>, ReadFault>
    ensures whole { IfOk result (λ text. IfSome (S.left source.old) (λ bytes. text.items ≡ bytes)) }
    ensures nothing_left { OnOk result (IfSome (S.left source.old) (λ _. S.left source.new ≡ Some [])) }
    ensures short_enough { IfOk result (λ text. vec_len text ≤ most) }

    ensures too_long { result ≡ Err ReadFault.TooLong → IfSome (S.left source.old) (λ bytes. most < length bytes) }
    ensures failed { result ≡ Err ReadFault.Failed → S.faults source.old < S.faults source.new }

    // Whatever the answer.
    ensures takes { ConsumesAtMost (most + 1) (S.left source.old) (S.left source.new) }
    ensures never_falls { S.faults source.old ≤ S.faults source.new }
    ensures stays_steady { S.steady source.old → S.steady source.new × (S.faults source.new ≡ S.faults source.old) }
{
    let Ok(mut piece) = vec![in alloc; 0u8; PIECE_BYTES] else {
        return Err(ReadFault::NoMemory);
    };
    let mut text = Vec::new(alloc);
    while text.len() <= most {
        let room = (most - text.len()).saturating_add(1);
        let taken = read_piece(source, &mut piece, room, &mut text)?;
        if taken == 0 {
            return Ok(text);
        }
    }
    Err(ReadFault::TooLong)
}

/// Makes one read of at most `room` bytes, over the piece, and appends what it gave to the text.
fn read_piece<S: Source>(
    source: &mut S,
    piece: &mut [u8],
    room: usize,
    text: &mut Vec<u8>,
) -> Result<usize, ReadFault>
    ensures within { IfOk result (λ taken. taken ≤ room) }
    ensures moves { IfOk result (Moves (S.left source.old) (S.left source.new) text.old.items text.new.items) }
    ensures ends { IfOk result (λ taken. taken ≡ 0 → 0 < room → 0 < length piece.new → IsAtEnd (S.left source.new)) }

    ensures err { OnErr result (ConsumesAtMost room (S.left source.old) (S.left source.new)) }
    ensures failed { result ≡ Err ReadFault.Failed → S.faults source.old < S.faults source.new }
    ensures unbounded { result ≢ Err ReadFault.TooLong }
    ensures never_falls { S.faults source.old ≤ S.faults source.new }
    ensures stays_steady { S.steady source.old → S.steady source.new × (S.faults source.new ≡ S.faults source.old) }
{
    let asked = piece.len().min(room);
    let Ok(taken) = source.read(&mut piece[..asked]) else {
        return Err(ReadFault::Failed);
    };
    match text.extend_from_slice(&piece[..taken]) {
        Ok(()) => Ok(taken),
        Err(_) => Err(ReadFault::NoMemory),
    }
}
