//! A writer with a buffer of fixed size.

ghost use Rattle.std.specs.Prelude.{◌≡◌, ◌+◌, ◌≤◌, ◌++◌, ◌↔◌, [], length, IsTrue, OnOk};
ghost use Rattle.text_lines.specs.Writing.{Puts};

use mcf_base::{Sink, WriteFault, write_all_of};
use std::marker::Model;

const SIZE: usize = 4096;

/// Bytes that wait to be written.
#[derive(Drop)]
pub struct Buffer {
    bytes: [u8; SIZE],
    used: usize,
}

impl Model for Buffer {
    ghost use Rattle.std.specs.Prelude.{List, ℕ, ◌≤◌, take};
    ghost use Rattle.text_lines.specs.declared.buffer.TheConstants.{SIZE};

    ghost Value = { List ℕ };

    ghost view = { λ s. take s.used s.bytes };

    ghost invariant = { λ s. s.used ≤ SIZE };
}

impl Buffer {
    /// Nothing waits.
    pub fn new() -> Self
        ensures { result ≡ [] }
    {
        Buffer {
            bytes: [0; SIZE],
            used: 0,
        }
    }

    fn has_room(&self, count: usize) -> bool
        ensures { IsTrue result ↔ (length self.now + count ≤ SIZE) }
    {
        count <= SIZE - self.used
    }

    fn append(&mut self, piece: &[u8])
        requires { length self.old + length piece.now ≤ SIZE }
        ensures { self.new ≡ self.old ++ piece.now }
    {
        let end = self.used + piece.len();
        self.bytes[self.used..end].copy_from_slice(piece);
        self.used = end;
    }

    /// Writes what waits. After a fault some front of it was written.
    pub fn flush<K: Sink>(&mut self, out: &mut K) -> Result<(), WriteFault>
        ensures puts { Puts (K.seen out.old) (K.seen out.new) self.old self.new result [] }
        ensures empty { OnOk result (self.new ≡ []) }
    {
        match write_all_of(out, &self.bytes[..self.used]) {
            Ok(()) => {}
            Err(fault) => return Err(fault),
        }
        self.used = 0;
        Ok(())
    }

    // Puts a piece where nothing waits: one that is longer than the buffer goes by it.
    fn put_first<K: Sink>(&mut self, out: &mut K, piece: &[u8]) -> Result<(), WriteFault>
        requires { self.old ≡ [] }
        ensures { Puts (K.seen out.old) (K.seen out.new) self.old self.new result piece.now }
    {
        if !self.has_room(piece.len()) {
            return write_all_of(out, piece);
        }
        self.append(piece);
        Ok(())
    }

    /// Puts the piece behind what waits. After a fault some front of both was written.
    pub fn put<K: Sink>(&mut self, out: &mut K, piece: &[u8]) -> Result<(), WriteFault>
        ensures { Puts (K.seen out.old) (K.seen out.new) self.old self.new result piece.now }
    {
        if self.has_room(piece.len()) {
            self.append(piece);
            return Ok(());
        }
        match self.flush(out) {
            Ok(()) => {}
            Err(fault) => return Err(fault),
        }
        self.put_first(out, piece)
    }
}
