//! The listing of cubes.
ghost use Rattle.cube_text.specs.Buffered.{HandsIn};
ghost use Rattle.cube_text.specs.Fronts.{IsFrontOf};
ghost use Rattle.cube_text.specs.Listing.{cube_line, listing};
ghost use Rattle.dimacs_tokens.specs.Texts.{ended};
ghost use Rattle.fault_io.specs.Sinks.{TakesWhole};

use crate::line_front::LineFront;
use crate::{Buffered, put_line};
use fault_io::{Sink, WriteFault};
use sat_terms::CubeList;

/// Hands in the line of a cube, of which the front that the last cube shares is kept.
fn put_cube<K: Sink>(
    front: &mut LineFront,
    last: &[i32],
    cube: &[i32],
    buffer: &mut Buffered,
    out: &mut K,
)
    requires { IsFrontOf last.now front.old }
    ensures front { IsFrontOf cube.now front.new }
    ensures hands { HandsIn K.shows out.old buffer.old out.new buffer.new
        (ended (cube_line cube.now)) }
{
    front.turn_to(last, cube);
    put_line(front.text(), &cube[front.count()..], buffer, out);
}

/// Writes the line of each cube in order, and then the line `s ALL`. It does not finish the sink.
pub fn write_listing<L: CubeList, K: Sink>(cubes: &L, out: &mut K) -> Result<(), WriteFault>
    ensures { TakesWhole (K.shows out.old) (K.shows out.new) (listing (L.cubes cubes.now)) result }
{
    let mut buffer = Buffered::make();
    let mut line = LineFront::make();
    for i in 0..cubes.count() {
        let cube = cubes.at(i);
        let last = cubes.at(i.saturating_sub(1));
        put_cube(&mut line, last, cube, &mut buffer, out);
        if buffer.failed() {
            return Err(WriteFault);
        }
    }
    buffer.put(b"s ALL\n", out);
    buffer.close(out)
}
