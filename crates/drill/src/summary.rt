//! The summary of a listing: the literals that all of its cubes hold.
ghost use Rattle.std.specs.Prelude.{◌≡◌, ◌∷◌, [], flat_map};
ghost use Rattle.std.specs.List.{list_all};
ghost use Rattle.sat_terms.specs.Cubes.{has_literal};
ghost use Rattle.fault_io.specs.Sinks.{TakesWhole};
ghost use Rattle.cube_text.specs.Buffered.{HandsIn};
ghost use Rattle.cube_text.specs.Lines.{number_word};
ghost use Rattle.drill.specs.Summaries.{fixed_literals, chosen, summary};

use cube_text::Buffered;
use fault_io::{Sink, WriteFault};
use sat_terms::CubeList;

/// Writes the literals that each cube holds, in one line, and then the line `s ALL`. It takes no
/// memory, and does not finish the sink. For each literal of the first cube it walks over the
/// others, up to the first that lacks it.
pub fn write_summary<L: CubeList, K: Sink>(cubes: &L, out: &mut K) -> Result<(), WriteFault>
    ensures { TakesWhole (K.shows out.old) (K.shows out.new)
        (summary (fixed_literals (L.cubes cubes.now))) result }
{
    let mut buffer = Buffered::make();
    buffer.put(b"f ", out);
    put_fixed(cubes, &mut buffer, out);
    buffer.put(b"0\ns ALL\n", out);
    buffer.close(out)
}

/// Hands in the literals that each cube holds.
fn put_fixed<L: CubeList, K: Sink>(cubes: &L, buffer: &mut Buffered, out: &mut K)
    ensures { HandsIn K.shows out.old buffer.old out.new buffer.new
        (flat_map number_word (fixed_literals (L.cubes cubes.now))) }
{
    if cubes.count() > 0 {
        put_chosen(cubes, cubes.at(0), buffer, out);
    }
}

/// Hands in those of the literals that each cube holds.
fn put_chosen<L: CubeList, K: Sink>(cubes: &L, lits: &[i32], buffer: &mut Buffered, out: &mut K)
    ensures { HandsIn K.shows out.old buffer.old out.new buffer.new
        (flat_map number_word (chosen (L.cubes cubes.now) lits.now)) }
{
    for lit in lits {
        put_if_fixed(cubes, *lit, buffer, out);
    }
}

/// Hands in the literal, if each cube holds it.
fn put_if_fixed<L: CubeList, K: Sink>(cubes: &L, lit: i32, buffer: &mut Buffered, out: &mut K)
    ensures { HandsIn K.shows out.old buffer.old out.new buffer.new
        (flat_map number_word (chosen (L.cubes cubes.now) (lit ∷ []))) }
{
    if is_in_each(cubes, lit) {
        let mut digits = itoa::Buffer::new();
        buffer.put(digits.format(lit).as_bytes(), out);
        buffer.put(b" ", out);
    }
}

/// Whether each cube holds the literal.
fn is_in_each<L: CubeList>(cubes: &L, lit: i32) -> bool
    ensures { result ≡ list_all (λ d. has_literal d lit) (L.cubes cubes.now) }
{
    for i in 0..cubes.count() {
        if !holds(cubes.at(i), lit) {
            return false;
        }
    }
    true
}

/// Whether the cube holds the literal.
fn holds(cube: &[i32], lit: i32) -> bool
    ensures { result ≡ has_literal cube.now lit }
{
    for other in cube {
        if *other == lit {
            return true;
        }
    }
    false
}
