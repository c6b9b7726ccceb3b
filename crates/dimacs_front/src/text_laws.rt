//! What the definitions of lines and texts do not show by themselves: each function is the
//! statement that it ensures, and does nothing.
ghost use Rattle.dimacs_front.specs.TextLaws.{ALineOfNumbersSaysThese, TheFirstRefusedNumberCounts};
ghost use Rattle.dimacs_front.specs.TextLaws.{AShowLineShowsItsVariables, ShowLinesAreRefused};
ghost use Rattle.dimacs_front.specs.TextLaws.{ShowLinesRise, ALineWithoutTokensChangesNothing};
ghost use Rattle.dimacs_front.specs.TextLaws.{TheFormulaEndsAtAPercent, TheLowestRefusedLineCounts};
ghost use Rattle.dimacs_front.specs.TextLaws.{FewVariablesAreKept, SavedLinesRise};
ghost use Rattle.dimacs_front.specs.SavedLaws.{SavedTextReadsBack};

/// A line of number tokens below the header says just these numbers, where the limits have room for
/// them.
pub fn a_line_of_numbers_says_these()
    ensures { ALineOfNumbersSaysThese }
{}

/// A number that is refused by what those before it say is the refusal of its line, whatever stands
/// behind it.
pub fn the_first_refused_number_counts()
    ensures { TheFirstRefusedNumberCounts }
{}

/// A show line of variables, which a 0 ends, shows just these.
pub fn a_show_line_shows_its_variables()
    ensures { AShowLineShowsItsVariables }
{}

/// A show line is refused for the first value that is no variable, for a token behind its 0, and
/// where it has no 0.
pub fn show_lines_are_refused()
    ensures { ShowLinesAreRefused }
{}

/// The show lines are kept with rising numbers, so that the first one found is the lowest.
pub fn show_lines_rise()
    ensures { ShowLinesRise }
{}

/// The cube lines and the open lines of a saved text are kept with rising numbers.
pub fn saved_lines_rise()
    ensures { SavedLinesRise }
{}

/// A line without tokens changes nothing.
pub fn a_line_without_tokens_changes_nothing()
    ensures { ALineWithoutTokensChangesNothing }
{}

/// The formula ends at a line below the header that begins with `%`; no line behind it changes
/// anything.
pub fn the_formula_ends_at_a_percent()
    ensures { TheFormulaEndsAtAPercent }
{}

/// Lines behind a refused line change nothing.
pub fn the_lowest_refused_line_counts()
    ensures { TheLowestRefusedLineCounts }
{}

/// However long a text is, no more variables of show lines are kept than `MOST_VARIABLES`.
pub fn few_variables_are_kept()
    ensures { FewVariablesAreKept }
{}

/// A saved text within the limit of bytes says the subject, the cubes and the prefixes that were
/// saved.
pub fn a_saved_text_reads_back()
    ensures { SavedTextReadsBack }
{}
