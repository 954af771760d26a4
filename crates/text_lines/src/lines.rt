//! Words and lines, put into a buffer.

ghost use Rattle.std.specs.Prelude.{◌∷◌, [], map};
ghost use Rattle.text_lines.specs.Lines.{spelled};
ghost use Rattle.mcf_base.specs.Sink.{Wrote};
ghost use Rattle.text_lines.specs.Writing.{Puts};
ghost use Rattle.text_lines.specs.Spelling.{behind};

use crate::buffer::Buffer;
use mcf_base::{Sink, WriteFault};

impl Buffer {
    /// Puts a space and a word.
    pub fn put_word<K: Sink>(&mut self, out: &mut K, word: &[u8]) -> Result<(), WriteFault>
        ensures { Puts (K.seen out.old) (K.seen out.new) self.old self.new result (32 ∷ word.now) }
    {
        match self.put(out, b" ") {
            Ok(()) => {}
            Err(fault) => return Err(fault),
        }
        self.put(out, word)
    }

    /// Puts the words, a space before each of them.
    pub fn put_words<K: Sink>(&mut self, out: &mut K, words: &[&[u8]]) -> Result<(), WriteFault>
        ensures { Puts (K.seen out.old) (K.seen out.new) self.old self.new result
            (behind (map (λ w. w.now) words.now)) }
    {
        for word in words {
            match self.put_word(out, *word) {
                Ok(()) => {}
                Err(fault) => return Err(fault),
            }
        }
        Ok(())
    }

    /// Puts a line of words, with one space between each two.
    pub fn put_line<K: Sink>(
        &mut self,
        out: &mut K,
        first: &[u8],
        words: &[&[u8]],
    ) -> Result<(), WriteFault>
        ensures { Puts (K.seen out.old) (K.seen out.new) self.old self.new result
            (spelled (first.now ∷ map (λ w. w.now) words.now)) }
    {
        match self.put(out, first) {
            Ok(()) => {}
            Err(fault) => return Err(fault),
        }
        match self.put_words(out, words) {
            Ok(()) => {}
            Err(fault) => return Err(fault),
        }
        self.put(out, b"\n")
    }
}

/// Writes a line of words, with one space between each two. It takes no memory.
pub fn write_line<K: Sink>(out: &mut K, first: &[u8], words: &[&[u8]]) -> Result<(), WriteFault>
    ensures { Wrote (K.seen out.old) (K.seen out.new) result (spelled (first.now ∷ map (λ w. w.now) words.now)) }
{
    let mut buffer = Buffer::new();
    match buffer.put_line(out, first, words) {
        Ok(()) => {}
        Err(fault) => return Err(fault),
    }
    buffer.flush(out)
}
