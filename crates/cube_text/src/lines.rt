//! Lines of numbers.
ghost use Rattle.std.specs.Prelude.{◌++◌};
ghost use Rattle.cube_text.specs.Buffered.{HandsIn};
ghost use Rattle.dimacs_tokens.specs.Texts.{ended};
ghost use Rattle.cube_text.specs.Lines.{number_word, zero_ended};

use crate::Buffered;
use fault_io::Sink;

/// Hands in a number and the space behind it.
fn put_number<K: Sink>(number: i32, buffer: &mut Buffered, out: &mut K)
    ensures { HandsIn K.shows out.old buffer.old out.new buffer.new (number_word number) }
{
    let mut digits = itoa::Buffer::new();
    buffer.put(digits.format(number).as_bytes(), out);
    buffer.put(b" ", out);
}

/// Hands in one line: the front, each number with a space behind, 0 and byte 10.
pub fn put_line<K: Sink>(front: &[u8], numbers: &[i32], buffer: &mut Buffered, out: &mut K)
    ensures { HandsIn K.shows out.old buffer.old out.new buffer.new
        (ended (front.now ++ zero_ended numbers.now)) }
{
    buffer.put(front, out);
    for number in numbers {
        put_number(*number, buffer, out);
    }
    buffer.put(b"0\n", out);
}
