//! The text from which a stopped run is resumed.
ghost use Rattle.std.specs.Prelude.{◌≡◌, map, pos};
ghost use Rattle.std.specs.Fmt.{decimal};
ghost use Rattle.checkpoint.specs.SavedText.{clause_line, formula_line, found_line, open_line};
ghost use Rattle.checkpoint.specs.SavedText.{saved_text, shown_line, subject_lines};
ghost use Rattle.cube_text.specs.Buffered.{HandsIn};
ghost use Rattle.dimacs_tokens.specs.Texts.{ended, text_of};
ghost use Rattle.fault_io.specs.Sinks.{TakesWhole};

use crate::SavedView;
use cube_text::{Buffered, put_line};
use fault_io::{Sink, WriteFault};
use sat_terms::{Clause, CubeList, Formula, Subject};

/// Writes the saved text, through a buffer, and takes no memory. It does not finish the sink.
pub fn write_saved<V: SavedView, K: Sink>(view: &mut V, out: &mut K) -> Result<(), WriteFault>
    ensures written { TakesWhole (K.shows out.old) (K.shows out.new)
        (saved_text (V.subject_of view.old) (V.cubes view.old) (V.pending view.old)) result }
    ensures same { view.new ≡ view.old }
{
    let mut buffer = Buffered::make();
    buffer.put(b"c allsat saved 2\n", out);
    put_subject(view.subject(), &mut buffer, out);
    put_found(view, &mut buffer, out);
    put_pending(view, &mut buffer, out);
    buffer.put(b"c p end\n", out);
    buffer.close(out)
}

/// Hands in the lines of the subject.
fn put_subject<K: Sink>(subject: &Subject, buffer: &mut Buffered, out: &mut K)
    ensures { HandsIn K.shows out.old buffer.old out.new buffer.new
        (text_of (subject_lines subject.now)) }
{
    put_formula_line(&subject.formula, buffer, out);
    put_clauses(subject.formula.clauses.as_slice(), buffer, out);
    put_shown(subject.shown.as_slice(), buffer, out);
    put_line(b"c p under ", subject.under.lits(), buffer, out);
}

/// Hands in a number.
fn put_number<K: Sink>(number: u64, buffer: &mut Buffered, out: &mut K)
    ensures { HandsIn K.shows out.old buffer.old out.new buffer.new (decimal number) }
{
    let mut digits = itoa::Buffer::new();
    buffer.put(digits.format(number).as_bytes(), out);
}

/// Hands in the line of the numbers of variables and of clauses.
fn put_formula_line<K: Sink>(formula: &Formula, buffer: &mut Buffered, out: &mut K)
    ensures { HandsIn K.shows out.old buffer.old out.new buffer.new
        (ended (formula_line formula.now)) }
{
    buffer.put(b"p cnf ", out);
    put_number(u64::from(formula.variables), buffer, out);
    buffer.put(b" ", out);
    put_number(formula.clauses.as_slice().len() as u64, buffer, out);
    buffer.put(b"\n", out);
}

/// Hands in the line of each clause.
fn put_clauses<K: Sink>(clauses: &[Clause], buffer: &mut Buffered, out: &mut K)
    ensures { HandsIn K.shows out.old buffer.old out.new buffer.new
        (text_of (map clause_line clauses.now)) }
{
    for clause in clauses {
        put_line(b"", clause.lits(), buffer, out);
    }
}

/// Hands in the line of the shown variables.
fn put_shown<K: Sink>(shown: &[u32], buffer: &mut Buffered, out: &mut K)
    ensures { HandsIn K.shows out.old buffer.old out.new buffer.new
        (ended (shown_line shown.now)) }
{
    buffer.put(b"c p show ", out);
    for variable in shown {
        put_number(u64::from(*variable), buffer, out);
        buffer.put(b" ", out);
    }
    buffer.put(b"0\n", out);
}

/// Hands in the line of each cube that was found.
fn put_found<L: CubeList, K: Sink>(found: &L, buffer: &mut Buffered, out: &mut K)
    ensures { HandsIn K.shows out.old buffer.old out.new buffer.new
        (text_of (map found_line (L.cubes found.now))) }
{
    for i in 0..found.count() {
        put_line(b"c p cube ", found.at(i), buffer, out);
    }
}

/// Hands in the line of each pending prefix.
fn put_pending<V: SavedView, K: Sink>(view: &mut V, buffer: &mut Buffered, out: &mut K)
    ensures lines { HandsIn K.shows out.old buffer.old out.new buffer.new
        (text_of (map open_line (V.pending view.old))) }
    ensures same { view.new ≡ view.old }
{
    for i in 0..view.pending_count() {
        put_line(b"c p open ", view.pending_at(i), buffer, out);
    }
}
