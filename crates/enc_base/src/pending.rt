//! Text that is sent to a sink in pieces.

ghost use Rattle.std.specs.Prelude.{◌≡◌, ◌<◌, ◌≤◌, ◌+◌, [], ◌++◌, length, Some, None, OnOk, OnErr};
ghost use Rattle.enc_base.specs.Pending.{AreFew, Breaks, Finishes, Puts, left, piece_size};

use crate::{Failed, Sink};
use arrayvec::ArrayVec;
use std::marker::Model;

/// How many bytes go to a sink at once, at least, but for the last ones.
const PIECE: usize = 4_096;

/// Bytes that wait to be sent, and whether a write failed.
///
/// A writer puts its text here piece by piece, always for the same sink, and finishes it: then the
/// sink holds the whole text, or a prefix of it after a write that failed. Nothing is sent after
/// such a write. It is no sink itself, since what waits is lost then. Takes no memory.
#[derive(Drop)]
pub struct Pending {
    bytes: ArrayVec<u8, 4_096>,
    failed: bool,
}

impl Model for Pending {
    ghost use Rattle.std.specs.Prelude.{if◌then◌else◌, ◌<◌, length, Some, None};
    ghost use Rattle.enc_base.specs.Pending.{Waiting, piece_size};

    ghost Value = { Waiting };

    ghost view = { λ pending. if pending.failed then None else Some pending.bytes.items };

    ghost invariant = { λ pending. length pending.bytes.items < piece_size };
}

impl Pending {
    /// Nothing waits.
    pub fn new() -> Pending
        ensures { result ≡ Some [] }
    {
        Pending {
            bytes: ArrayVec::new(),
            failed: false,
        }
    }

    /// Puts a piece of text, unless a write failed before. The sink is written to once there are
    /// 4,096 bytes for it.
    pub fn put<O: Sink>(&mut self, piece: &[u8], out: &mut O)
        ensures puts { Puts O.bytes O.faults self.old self.new out.old out.new piece.now }
        ensures few { AreFew self.old piece.now → out.new ≡ out.old }
        ensures stopped { self.old ≡ None → self.new ≡ None }
    {
        if self.failed {
            return;
        }
        let room = PIECE - self.bytes.len();
        if piece.len() < room {
            store(&mut self.bytes, piece);
        } else {
            self.failed = !put_long(&mut self.bytes, piece, out);
        }
    }

    /// Sends what waits. It is answered that all was sent, or that a write failed.
    ///
    /// # Errors
    /// `Failed` where this write or an earlier one failed.
    pub fn finish<O: Sink>(self, out: &mut O) -> Result<(), Failed>
        ensures exact { OnOk result (Finishes O.bytes O.faults self out.old out.new) }
        ensures cause { OnErr result (Breaks O.bytes O.faults self out.old out.new) }
    {
        if self.failed {
            return Err(Failed);
        }
        out.write(self.bytes.as_slice())
    }
}

// Appends a piece for which there is room.
fn store(bytes: &mut ArrayVec<u8, 4_096>, piece: &[u8])
    requires { length bytes.old.items + length piece.now ≤ piece_size }
    ensures { bytes.new.items ≡ bytes.old.items ++ piece.now }
{
    let _fits = bytes.try_extend_from_slice(piece);
}

// Sends the bytes, and tells whether that went well. None are left.
fn flush<O: Sink>(bytes: &mut ArrayVec<u8, 4_096>, out: &mut O) -> bool
    ensures puts { Puts O.bytes O.faults (Some bytes.old.items) (left result []) out.old out.new [] }
    ensures empty { bytes.new.items ≡ [] }
{
    let sent = out.write(bytes.as_slice()).is_ok();
    bytes.clear();
    sent
}

// Sends a piece before which nothing waits, or keeps it where it is short.
fn put_rest<O: Sink>(bytes: &mut ArrayVec<u8, 4_096>, piece: &[u8], out: &mut O) -> bool
    requires { bytes.old.items ≡ [] }
    ensures puts { Puts O.bytes O.faults (Some []) (left result bytes.new.items) out.old out.new
        piece.now }
    ensures few { length bytes.new.items < piece_size }
{
    if piece.len() < PIECE {
        store(bytes, piece);
        return true;
    }
    out.write(piece).is_ok()
}

// Fills the bytes up with the piece and sends them, and then puts the rest of the piece.
fn put_long<O: Sink>(bytes: &mut ArrayVec<u8, 4_096>, piece: &[u8], out: &mut O) -> bool
    requires few { length bytes.old.items < piece_size }
    requires enough { piece_size ≤ length bytes.old.items + length piece.now }
    ensures puts { Puts O.bytes O.faults (Some bytes.old.items) (left result bytes.new.items)
        out.old out.new piece.now }
    ensures few { length bytes.new.items < piece_size }
{
    let (first, rest) = piece.split_at(PIECE - bytes.len());
    store(bytes, first);
    flush(bytes, out) && put_rest(bytes, rest, out)
}
