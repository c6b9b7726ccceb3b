//! A text read byte by byte. A line costs no memory, however long it is: only what is seen of its
//! open token is kept.
ghost use Rattle.std.specs.Prelude.{◌≡◌, ◌+◌, ◌^◌, ◌<◌, ◌≤◌, false, [], length, fold, OnOk};
ghost use Rattle.dimacs_tokens.specs.Seen.{seen_token};
ghost use Rattle.dimacs_tokens.specs.Reading.{reading_at, read_byte, token_ends, text_ends};
ghost use Rattle.dimacs_front.specs.MachineText.{text_at_start, eat_token, close_line, answer};
ghost use Rattle.dimacs_front.specs.Pieces.{Answered};

use crate::text_state::TextState;
use crate::{Input, ReadRefused, TextRefused};
use dimacs_tokens::Seen;
use dimacs_tokens::bytes::{is_newline, is_white};
use std::alloc::{AllocError, Global};
use std::marker::Model;

/// How many lines are complete, what the closed tokens say, the refusal of the lowest refused line,
/// what is seen of the open token, and whether the open line has bytes.
#[derive(Drop)]
pub struct TextReader {
    lines: u64,
    state: TextState,
    stopped: Option<TextRefused>,
    token: Seen,
    in_line: bool,
}

impl Model for TextReader {
    ghost use Rattle.dimacs_tokens.specs.Reading.{Reading, reading_at};
    ghost use Rattle.dimacs_front.specs.MachineText.{TextView, text_at};

    ghost Value = { Reading TextView };

    ghost view = { λ r. reading_at (text_at r.lines r.state r.stopped) r.token r.in_line };
}

impl TextReader {
    /// Before the first byte. Takes no memory.
    pub fn make(alloc: Global) -> Self
        ensures { result ≡ reading_at text_at_start (seen_token []) false }
    {
        TextReader {
            lines: 0,
            state: TextState::make(alloc),
            stopped: None,
            token: Seen::make(),
            in_line: false,
        }
    }

    /// How many lines are complete.
    pub fn lines(&self) -> u64
        ensures { result ≡ self.now.state.lines }
    {
        self.lines
    }

    /// The refusal of the lowest refused line among the complete ones.
    pub fn stopped(&self) -> Option<TextRefused>
        ensures { result ≡ self.now.state.stopped }
    {
        self.stopped
    }

    /// Takes the next bytes. After want of memory the reader is of no use.
    pub fn feed(&mut self, piece: &[u8]) -> Result<(), AllocError>
        requires { self.old.state.lines + length piece.now + 1 < 2 ^ 64 }
        ensures steps { OnOk result
            (self.new ≡ fold (read_byte eat_token close_line) self.old piece.now) }
        ensures lines { OnOk result
            (self.new.state.lines ≤ self.old.state.lines + length piece.now) }
    {
        for byte in piece {
            self.take(*byte)?;
        }
        Ok(())
    }

    /// Takes the next byte.
    #[tactic(auto, unfolding(dimacs_tokens::specs::Reading::read_byte))]
    fn take(&mut self, byte: u8) -> Result<(), AllocError>
        requires { self.old.state.lines + 1 < 2 ^ 64 }
        ensures step { OnOk result (self.new ≡ read_byte eat_token close_line self.old byte) }
        ensures lines { OnOk result (self.new.state.lines ≤ self.old.state.lines + 1) }
    {
        if is_newline(byte) {
            self.end_token()?;
            self.end_line();
            self.in_line = false;
        } else if is_white(byte) {
            self.end_token()?;
            self.in_line = true;
        } else {
            self.token.push(byte);
            self.in_line = true;
        }
        Ok(())
    }

    /// Ends the open token, if there is one.
    fn end_token(&mut self) -> Result<(), AllocError>
        requires { self.old.state.lines + 1 < 2 ^ 64 }
        ensures { OnOk result (self.new ≡ reading_at
            (token_ends eat_token self.old.state self.old.token) (seen_token []) self.old.in_line) }
    {
        if !self.token.is_empty() {
            self.state.eat(self.lines + 1, &self.token)?;
        }
        self.token.begin();
        Ok(())
    }

    /// Ends the line, behind its last token.
    fn end_line(&mut self)
        requires { self.old.state.lines + 1 < 2 ^ 64 }
        ensures { self.new ≡
            reading_at (close_line self.old.state) self.old.token self.old.in_line }
    {
        self.lines += 1;
        self.state.close(self.lines);
        if self.stopped.is_none() {
            self.stopped = self.state.refusal();
        }
    }

    /// The answer of the text that ends here.
    #[tactic(auto, unfolding(dimacs_tokens::specs::Reading::text_ends))]
    pub fn finish(mut self) -> Result<Input, ReadRefused>
        requires { self.state.lines + 1 < 2 ^ 64 }
        ensures { Answered (answer (text_ends eat_token close_line self)) result }
    {
        if self.in_line {
            self.end_token()?;
            self.end_line();
        }
        self.answer()
    }

    /// The answer behind the last line.
    fn answer(self) -> Result<Input, ReadRefused>
        ensures { Answered (answer self.state) result }
    {
        if let Some(refusal) = self.stopped {
            return Err(ReadRefused::Text(refusal));
        }
        self.state.finish(self.lines.max(1))
    }
}
