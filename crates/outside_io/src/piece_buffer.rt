//! The bytes that wait until a piece is full.
ghost use Rattle.std.specs.Prelude.{◌≡◌, ◌+◌, ◌-◌, ◌*◌, ◌<◌, ◌≤◌, [], ◌++◌, ◌∷◌, length, take, drop, decimal, IfOk};
ghost use Rattle.outside_io.specs.Outgoing.{last_two_numbers};

use crate::sink::MAX_PIECE;
use line_base::{MAX_DIGITS, write_decimal};
use std::alloc::{AllocError, Global};
use std::marker::Model;

/// How far a part may go over the end of a piece.
const MAX_OVER: usize = 64;

/// The bytes that a buffer has room for: a piece, and what a part may have over its end.
pub const ROOM: usize = MAX_PIECE + MAX_OVER;

/// A buffer of one piece and of what a part may have over its end. Contracts see the bytes that wait in it.
#[derive(Drop)]
pub struct PieceBuffer {
    room: Vec<u8>,
    filled: usize,
}

impl Model for PieceBuffer {
    ghost use Rattle.std.specs.Prelude.{◌≡◌, ◌≤◌, List, ℕ, take, length};
    ghost use Rattle.outside_io.specs.declared.piece_buffer.TheConstants.{ROOM};

    ghost Value = { List ℕ };

    ghost view = { λ b. take b.filled b.room.items };

    ghost invariant = { λ b. (b.filled ≤ ROOM) × (length b.room.items ≡ ROOM) };
}

/// Writes bytes over those from `at` on.
fn write_at(room: &mut [u8], at: usize, part: &[u8])
    requires { at + length part.now ≤ length room.old }
    ensures { take (at + length part.now) room.new ≡ take at room.old ++ part.now }
{
    room[at..at + part.len()].copy_from_slice(part);
}

/// Writes a byte over the one at `at`.
fn write_byte(room: &mut [u8], at: usize, byte: u8)
    requires { at < length room.old }
    ensures { take (at + 1) room.new ≡ take at room.old ++ byte ∷ [] }
{
    room[at] = byte;
}

/// Writes a number in decimal over the bytes from `at` on, and answers where it ends.
fn write_number(room: &mut [u8], at: usize, n: u64) -> usize
    requires { at + MAX_DIGITS ≤ length room.old }
    ensures written { take result room.new ≡ take at room.old ++ decimal n }
    ensures end { result ≡ at + length (decimal n) }
    ensures short { result ≤ at + MAX_DIGITS }
{
    write_decimal(room, at, n)
}

/// Moves what waits over the end of a piece to the beginning, and answers how much that is.
fn move_over(room: &mut [u8], filled: usize) -> usize
    requires some { MAX_PIECE ≤ filled }
    requires filled { filled ≤ ROOM }
    requires room { length room.old ≡ ROOM }
    ensures moved { take result room.new ≡ drop MAX_PIECE (take filled room.old) }
    ensures over { result ≡ filled - MAX_PIECE }
{
    let over = filled - MAX_PIECE;
    room.copy_within(MAX_PIECE..filled, 0);
    over
}

impl PieceBuffer {
    /// An empty buffer. The other calls take no memory.
    pub fn new(alloc: Global) -> Result<PieceBuffer, AllocError>
        ensures { IfOk result (λ buffer. buffer ≡ []) }
    {
        Ok(PieceBuffer {
            room: vec![in alloc; 0; ROOM]?,
            filled: 0,
        })
    }

    /// How many bytes wait.
    pub fn len(&self) -> usize
        ensures count { result ≡ length self.now }
        ensures fits { result ≤ ROOM }
    {
        self.filled
    }

    /// Adds bytes at the end.
    pub fn add(&mut self, part: &[u8])
        requires { length self.old + length part.now ≤ ROOM }
        ensures { self.new ≡ self.old ++ part.now }
    {
        write_at(&mut self.room, self.filled, part);
        self.filled += part.len();
    }

    /// Adds a byte at the end.
    fn add_byte(&mut self, byte: u8)
        requires { length self.old < ROOM }
        ensures { self.new ≡ self.old ++ byte ∷ [] }
    {
        write_byte(&mut self.room, self.filled, byte);
        self.filled += 1;
    }

    /// Adds a number in decimal at the end.
    pub fn add_number(&mut self, n: u64)
        requires { length self.old + MAX_DIGITS ≤ ROOM }
        ensures added { self.new ≡ self.old ++ decimal n }
        ensures short { length self.new ≤ length self.old + MAX_DIGITS }
    {
        self.filled = write_number(&mut self.room, self.filled, n);
    }

    /// Adds the end of a line: two numbers in decimal, each after a space, and a line feed.
    pub fn add_last_two_numbers(&mut self, first: u64, second: u64)
        requires { length self.old < MAX_PIECE }
        ensures { self.new ≡ self.old ++ last_two_numbers first second }
    {
        self.add_byte(b' ');
        self.add_number(first);
        self.add_byte(b' ');
        self.add_number(second);
        self.add_byte(b'\n');
    }

    /// The first piece.
    pub fn piece(&self) -> &[u8]
        requires { MAX_PIECE ≤ length self.now }
        ensures bytes { result.now ≡ take MAX_PIECE self.now }
        ensures size { length result.now ≡ MAX_PIECE }
    {
        &self.room.as_slice()[..MAX_PIECE]
    }

    /// Takes the first piece away.
    pub fn remove_piece(&mut self)
        requires { MAX_PIECE ≤ length self.old }
        ensures rest { self.new ≡ drop MAX_PIECE self.old }
        ensures short { length self.new < MAX_PIECE }
    {
        self.filled = move_over(&mut self.room, self.filled);
    }

    /// All that waits.
    pub fn bytes(&self) -> &[u8]
        ensures { result.now ≡ self.now }
    {
        &self.room.as_slice()[..self.filled]
    }

    /// Takes all away.
    pub fn clear(&mut self)
        ensures { self.new ≡ [] }
    {
        self.filled = 0;
    }
}
