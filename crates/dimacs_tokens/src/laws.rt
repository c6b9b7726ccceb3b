//! What holds of lines, tokens and numbers, said without the way in which they are cut: each
//! function is the statement that it ensures, and does nothing.
ghost use Rattle.dimacs_tokens.specs.Laws.{EndedLinesAreLines, ALastLineNeedsNoEnd, OnlyTokensAreCut, NoByteIsLost, PartedTokensAreCut, JoinedTokensAreCut, WrittenNumbersHaveTheirValue, LeadingZerosChangeNothing, WordsAreToldByHead};

/// The lines of a text that ends each line by byte 10 are just these lines.
pub fn ended_lines_are_lines()
    ensures { EndedLinesAreLines }
{}

/// A last line of at least one byte is a line without byte 10 behind it.
pub fn a_last_line_needs_no_end()
    ensures { ALastLineNeedsNoEnd }
{}

/// A token has at least one byte, no white space and no byte 10.
pub fn only_tokens_are_cut()
    ensures { OnlyTokensAreCut }
{}

/// The tokens of a line hold all its bytes that are no white space, in order.
pub fn no_byte_is_lost()
    ensures { NoByteIsLost }
{}

/// Tokens that are written with white space behind each are read back.
pub fn parted_tokens_are_cut()
    ensures { PartedTokensAreCut }
{}

/// Tokens that are written with white space between them are read back.
pub fn joined_tokens_are_cut()
    ensures { JoinedTokensAreCut }
{}

/// A number that is written in decimal is read back.
pub fn written_numbers_have_their_value()
    ensures { WrittenNumbersHaveTheirValue }
{}

/// A zero before the digits changes nothing.
pub fn leading_zeros_change_nothing()
    ensures { LeadingZerosChangeNothing }
{}

/// The first eight bytes of a token tell it from each word of fewer.
pub fn words_are_told_by_head()
    ensures { WordsAreToldByHead }
{}
