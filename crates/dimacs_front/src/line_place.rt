//! Where in a line a reader stands between two tokens.
ghost use Rattle.std.specs.Prelude.{◌≡◌};
ghost use Rattle.dimacs_front.specs.MachinePlaces.{above_begun, own_place, in_comment};
ghost use Rattle.dimacs_front.specs.MachinePlaces.{place_closed, refusal_at};

use crate::TextRefused;
use crate::comment_place::CommentPlace;
use crate::header_place::HeaderPlace;
use crate::saved_lines::{SavedLines, SavedList};
use crate::saved_place::{OpenList, SavedPlace};
use dimacs_tokens::Seen;

/// The place in a line, with what its tokens said so far.
#[derive(Clone, Copy)]
pub enum LinePlace {
    /// Before the first token of the line.
    Beginning,
    /// In the header.
    Header(HeaderPlace),
    /// Behind a token of a clause.
    Numbers,
    /// In a comment.
    Comment(CommentPlace),
    /// Behind the words `c p show`, and variables.
    Show,
    /// Behind the 0 of a show line.
    ShowEnd,
    /// Behind the words `c p under`, and literals.
    Under,
    /// Behind the 0 of an under line.
    UnderEnd,
    /// In a line that a saved or a met text has of its own.
    Saved(SavedPlace),
    /// In or below the line that ends the formula.
    Over,
    /// Behind a refusal.
    Refused(TextRefused),
}

impl LinePlace {
    /// The place behind the first token of a line above the header, which begins no comment.
    pub fn above_begun(line: u64, token: &Seen) -> LinePlace
        ensures { result ≡ above_begun line token.now }
    {
        if token.begins_with(b'p') {
            LinePlace::Header(HeaderPlace::first(token))
        } else {
            LinePlace::Refused(TextRefused::BadStart { line })
        }
    }

    /// The place in a comment with these words, behind these lines of the text's own.
    pub fn in_comment(saved: &SavedLines, line: u64, place: CommentPlace) -> LinePlace
        ensures { result ≡ in_comment saved.now line place }
    {
        match place {
            CommentPlace::Show => LinePlace::Show,
            CommentPlace::Under => LinePlace::Under,
            CommentPlace::Cube => {
                let place = SavedPlace::Listed(OpenList::Line(SavedList::Cubes));
                LinePlace::own(saved.is_named(), saved, line, place)
            }
            CommentPlace::Open => {
                let place = SavedPlace::Listed(OpenList::Line(SavedList::Pending));
                LinePlace::own(saved.is_named(), saved, line, place)
            }
            CommentPlace::End => {
                LinePlace::own(saved.has_end_line(), saved, line, SavedPlace::End)
            }
            CommentPlace::MetLine => {
                let place = SavedPlace::Listed(OpenList::Shown);
                LinePlace::own(saved.is_met(), saved, line, place)
            }
            CommentPlace::Saved => LinePlace::Saved(SavedPlace::First),
            CommentPlace::Met => LinePlace::Saved(SavedPlace::MetFirst),
            words => LinePlace::Comment(words),
        }
    }

    /// The place in a line that some texts have of their own, as this one has or not: others pass
    /// over it, and none stands behind the end line.
    fn own(has: bool, saved: &SavedLines, line: u64, place: SavedPlace) -> LinePlace
        ensures { result ≡ own_place has saved.now line place }
    {
        if !has {
            LinePlace::Comment(CommentPlace::Passed)
        } else if saved.is_ended() {
            LinePlace::Refused(TextRefused::SavedBad { line })
        } else {
            LinePlace::Saved(place)
        }
    }

    /// The place behind the end of the line, where it ends no header and no saved or met text.
    pub fn closed(self, line: u64) -> LinePlace
        ensures { result ≡ place_closed self line }
    {
        match self {
            LinePlace::Show => LinePlace::Refused(TextRefused::ShowUnended { line }),
            LinePlace::Under => LinePlace::Refused(TextRefused::UnderUnended { line }),
            LinePlace::Saved(SavedPlace::First | SavedPlace::MetFirst | SavedPlace::Listed(_)) => {
                LinePlace::Refused(TextRefused::SavedBad { line })
            }
            LinePlace::Over => LinePlace::Over,
            LinePlace::Refused(refusal) => LinePlace::Refused(refusal),
            _ => LinePlace::Beginning,
        }
    }

    /// The refusal of the line, if there is one.
    pub fn refusal(&self) -> Option<TextRefused>
        ensures { result ≡ refusal_at self.now }
    {
        match self {
            LinePlace::Refused(refusal) => Some(*refusal),
            _ => None,
        }
    }
}
