//! Which lines and texts are refused, and why: each function is the statement that it ensures, and
//! does nothing.
ghost use Rattle.dimacs_front.specs.RefusalLaws.{LinesAboveTheHeaderAreRefused};
ghost use Rattle.dimacs_front.specs.RefusalLaws.{LinesBelowTheHeaderAreRefused};
ghost use Rattle.dimacs_front.specs.RefusalLaws.{ListsAreRefused, UnderLinesAreLists};
ghost use Rattle.dimacs_front.specs.RefusalLaws.{SavedLinesAreRefused, MetLinesAreRefused};
ghost use Rattle.dimacs_front.specs.EndLaws.{TextsAreRefusedAtTheEnd};

/// Above the header a line is refused that is neither a comment nor a header, and a header that is
/// none or is too large. Else the header says its numbers.
pub fn lines_above_the_header_are_refused()
    ensures { LinesAboveTheHeaderAreRefused }
{}

/// Below the header a second one is refused, and a line of numbers for the first number that is
/// none, is too large or is one too many.
pub fn lines_below_the_header_are_refused()
    ensures { LinesBelowTheHeaderAreRefused }
{}

/// A list of numbers is refused for the first value that its line may not hold, for a token behind
/// its 0, and where it has no 0.
pub fn lists_are_refused()
    ensures { ListsAreRefused }
{}

/// An under line gives the literals of its list, and is refused where its list is.
pub fn under_lines_are_lists()
    ensures { UnderLinesAreLists }
{}

/// In a saved text a cube line and an open line are refused where their lists are or do not rise,
/// an end line where a token follows, each of them behind the end line, and the first line for its
/// version.
pub fn saved_lines_are_refused()
    ensures { SavedLinesAreRefused }
{}

/// In a met text a met line is refused where one of its lists is, each of its own lines behind the
/// end line, and the first line for its version.
pub fn met_lines_are_refused()
    ensures { MetLinesAreRefused }
{}

/// At its end a text is refused that has no header, a clause without a 0, no end line where it is a
/// saved or a met one, another number of clauses than was said, a show line with too large a
/// variable, too many shown variables, a misplaced given literal, a line whose cube cannot be
/// saved, or a met line that shows no cube.
pub fn texts_are_refused_at_the_end()
    ensures { TextsAreRefusedAtTheEnd }
{}
