ghost use Rattle.std.specs.Prelude.{◌≡◌, ◌+◌, ◌≤◌, ◌<◌, ◌++◌, [], false, length, take, decimal, is_err, IfOk};
ghost use Rattle.outside_io.specs.Outgoing.{Pushed, stream, nothing_waiting, waiting, last_two_numbers};

use crate::piece_buffer::{PieceBuffer, ROOM};
use crate::pieces::put_all;
use crate::sink::{Failed, MAX_PIECE, Sink};
use itoa::Buffer;
use std::alloc::{AllocError, Global};
use std::marker::Model;

/// A buffer of one piece before a sink, for a text that is written part by part. Bytes wait in it
/// until a piece is full. Once the sink has failed all that follows is dropped, and `finish` says
/// so.
#[derive(Drop)]
pub struct Outgoing {
    buffer: PieceBuffer,
    failed: bool,
}

impl Model for Outgoing {
    ghost use Rattle.std.specs.Prelude.{◌<◌, length};
    ghost use Rattle.outside_io.specs.Outgoing.{Pending};
    ghost use Rattle.outside_io.specs.declared.sink.TheConstants.{MAX_PIECE};

    ghost Value = { Pending };

    ghost view = { λ out. record { bytes = out.buffer; failed = out.failed } };

    ghost invariant = { λ out. length out.buffer < MAX_PIECE };
}

/// Sends a piece that is full, unless the sink has failed, and answers whether it has failed now.
fn send_full<K: Sink>(buffer: &mut PieceBuffer, failed: bool, sink: &mut K) -> bool
    ensures pushed { Pushed (stream (K.shown sink.old) (waiting buffer.old failed))
        (stream (K.shown sink.new) (waiting buffer.new result)) [] }
    ensures not_full { length buffer.new < MAX_PIECE }
{
    if buffer.len() < MAX_PIECE {
        return failed;
    }
    let failed = failed || sink.put(buffer.piece()).is_err();
    buffer.remove_piece();
    failed
}

/// Sends a whole piece, unless the sink has failed, and answers whether it has failed now.
fn send_piece<K: Sink>(piece: &[u8], failed: bool, sink: &mut K) -> bool
    requires { length piece.now ≡ MAX_PIECE }
    ensures { Pushed (stream (K.shown sink.old) (waiting piece.now failed))
        (stream (K.shown sink.new) (nothing_waiting result)) [] }
{
    failed || sink.put(piece).is_err()
}

impl Outgoing {
    /// An empty buffer, with the room of a piece. The other calls take no memory.
    pub fn new(alloc: Global) -> Result<Outgoing, AllocError>
        ensures { IfOk result (λ out. out ≡ nothing_waiting false) }
    {
        Ok(Outgoing {
            buffer: PieceBuffer::new(alloc)?,
            failed: false,
        })
    }

    /// Gives a part to the sink that there is room for.
    fn push_part<K: Sink>(&mut self, sink: &mut K, part: &[u8])
        requires { length self.old.bytes + length part.now ≤ ROOM }
        ensures { Pushed (stream (K.shown sink.old) self.old)
            (stream (K.shown sink.new) self.new) part.now }
    {
        self.buffer.add(part);
        self.failed = send_full(&mut self.buffer, self.failed, sink);
    }

    /// Gives a whole piece to the sink from where it stands, as nothing waits before it.
    fn push_piece<K: Sink>(&mut self, sink: &mut K, piece: &[u8])
        requires none_waits { self.old.bytes ≡ [] }
        requires whole { length piece.now ≡ MAX_PIECE }
        ensures { Pushed (stream (K.shown sink.old) self.old)
            (stream (K.shown sink.new) self.new) piece.now }
    {
        self.failed = send_piece(piece, self.failed, sink);
    }

    /// Gives a prefix of bytes to the sink, and answers how many these are: a whole piece where nothing waits, else
    /// what the piece lacks that waits.
    fn push_prefix<K: Sink>(&mut self, sink: &mut K, bytes: &[u8]) -> usize
        requires { 0 < length bytes.now }
        ensures some { 0 < result }
        ensures few { result ≤ length bytes.now }
        ensures pushed { Pushed (stream (K.shown sink.old) self.old)
            (stream (K.shown sink.new) self.new) (take result bytes.now) }
    {
        let waits = self.buffer.len();
        if waits == 0 && bytes.len() >= MAX_PIECE {
            self.push_piece(sink, &bytes[..MAX_PIECE]);
            return MAX_PIECE;
        }
        let count = bytes.len().min(MAX_PIECE - waits);
        self.push_part(sink, &bytes[..count]);
        count
    }

    /// Gives bytes to the sink, piece by piece.
    fn push_long<K: Sink>(&mut self, sink: &mut K, bytes: &[u8])
        ensures { Pushed (stream (K.shown sink.old) self.old)
            (stream (K.shown sink.new) self.new) bytes.now }
    {
        let mut rest = bytes;
        while !rest.is_empty() {
            let count = self.push_prefix(sink, rest);
            let (_, later) = rest.split_at(count);
            rest = later;
        }
    }

    /// Gives bytes to the sink, by pieces of 4,096 bytes.
    pub fn push<K: Sink>(&mut self, sink: &mut K, bytes: &[u8])
        ensures { Pushed (stream (K.shown sink.old) self.old)
            (stream (K.shown sink.new) self.new) bytes.now }
    {
        if bytes.len() <= ROOM - self.buffer.len() {
            self.push_part(sink, bytes);
        } else {
            self.push_long(sink, bytes);
        }
    }

    /// Gives a number in decimal to the sink. Its digits are written where they go out from.
    pub fn push_number<K: Sink>(&mut self, sink: &mut K, n: u64)
        ensures { Pushed (stream (K.shown sink.old) self.old)
            (stream (K.shown sink.new) self.new) (decimal n) }
    {
        self.buffer.add_number(n);
        self.failed = send_full(&mut self.buffer, self.failed, sink);
    }

    /// Gives the end of a line to the sink: two numbers in decimal, each after a space, and a line feed. It looks once
    /// whether a piece is full.
    pub fn push_last_two_numbers<K: Sink>(&mut self, sink: &mut K, first: u64, second: u64)
        ensures { Pushed (stream (K.shown sink.old) self.old)
            (stream (K.shown sink.new) self.new) (last_two_numbers first second) }
    {
        self.buffer.add_last_two_numbers(first, second);
        self.failed = send_full(&mut self.buffer, self.failed, sink);
    }

    /// Gives a number of up to 128 bits in decimal to the sink.
    pub fn push_wide_number<K: Sink>(&mut self, sink: &mut K, n: u128)
        ensures { Pushed (stream (K.shown sink.old) self.old)
            (stream (K.shown sink.new) self.new) (decimal n) }
    {
        let mut text = Buffer::new();
        self.push(sink, text.format(n).as_bytes());
    }

    /// Sends what is left, and says whether all went out. The buffer is then as new.
    pub fn finish<K: Sink>(&mut self, sink: &mut K) -> Result<(), Failed>
        ensures flushed { Pushed (stream (K.shown sink.old) self.old)
            (stream (K.shown sink.new) (nothing_waiting (is_err result))) [] }
        ensures as_new { self.new ≡ nothing_waiting false }
    {
        let failed = self.failed || put_all(sink, self.buffer.bytes()).is_err();
        self.buffer.clear();
        self.failed = false;
        if failed { Err(Failed) } else { Ok(()) }
    }
}
