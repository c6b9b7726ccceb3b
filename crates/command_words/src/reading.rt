//! The options of a command, read word by word.
ghost use Rattle.std.specs.Prelude.{◌≡◌, Some, IfSome};
ghost use Rattle.command_words.specs.declared.reading.Setting.TheVariants.{Workers, Budget, Size};
ghost use Rattle.command_words.specs.Commands.{nothing_read, with_word, with_name, with_both};
ghost use Rattle.command_words.specs.Commands.{with_value, HasRanges};

use crate::number::number_upto;

/// As many workers at most.
const MOST_WORKERS: u64 = 16;

/// The greatest budget.
const MOST_BUDGET: u64 = 1 << 62;

/// The greatest size of a drill.
const MOST_SIZE: u64 = 48;

/// An option, each of which has a number.
#[derive(Clone, Copy, Debug, PartialEq, Eq)]
pub(crate) enum Setting {
    /// How many workers there are.
    Workers,
    /// After how many leaves the run stops.
    Budget,
    /// The size of a drill.
    Size,
}

/// What the words so far say.
#[derive(Clone, Copy, Debug, PartialEq, Eq)]
pub(crate) struct Reading {
    /// The option whose number is to be the next word.
    pub(crate) waiting: Option<Setting>,
    pub(crate) workers: Option<u32>,
    pub(crate) budget: Option<u64>,
    pub(crate) size: Option<u32>,
}

impl Reading {
    /// No word was read.
    pub(crate) fn nothing() -> Reading
        ensures { result ≡ nothing_read }
    {
        Reading {
            waiting: None,
            workers: None,
            budget: None,
            size: None,
        }
    }

    /// One word more. None where no command has it here.
    pub(crate) fn with_word(self, word: &[u8]) -> Option<Reading>
        requires { HasRanges self }
        ensures word { result ≡ with_word word.now self }
        ensures ranges { IfSome result HasRanges }
    {
        match self.waiting {
            Some(setting) => self.with_value(setting, word),
            None => self.with_name(word),
        }
    }

    /// The word is an option, or an option with its number.
    fn with_name(self, word: &[u8]) -> Option<Reading>
        requires { HasRanges self }
        ensures word { result ≡ with_name word.now self }
        ensures ranges { IfSome result HasRanges }
    {
        if word == b"--workers".as_slice() {
            return Some(self.waiting_for(Setting::Workers));
        }
        if word == b"--budget".as_slice() {
            return Some(self.waiting_for(Setting::Budget));
        }
        if word == b"--size".as_slice() {
            return Some(self.waiting_for(Setting::Size));
        }
        self.with_both(word)
    }

    /// The word is an option with its number.
    fn with_both(self, word: &[u8]) -> Option<Reading>
        requires { HasRanges self }
        ensures word { result ≡ with_both word.now self }
        ensures ranges { IfSome result HasRanges }
    {
        if let Some(value) = word.strip_prefix(b"--workers=") {
            return self.with_value(Setting::Workers, value);
        }
        if let Some(value) = word.strip_prefix(b"--budget=") {
            return self.with_value(Setting::Budget, value);
        }
        if let Some(value) = word.strip_prefix(b"--size=") {
            return self.with_value(Setting::Size, value);
        }
        None
    }

    fn waiting_for(self, setting: Setting) -> Reading
        ensures { result ≡ record self { waiting = Some setting } }
    {
        Reading {
            waiting: Some(setting),
            workers: self.workers,
            budget: self.budget,
            size: self.size,
        }
    }

    /// The option has this number. None where it has one already, or the text is none in its range.
    fn with_value(self, setting: Setting, text: &[u8]) -> Option<Reading>
        requires { HasRanges self }
        ensures value { result ≡ with_value setting text.now self }
        ensures ranges { IfSome result HasRanges }
    {
        match setting {
            Setting::Workers => self.with_workers(text),
            Setting::Budget => self.with_budget(text),
            Setting::Size => self.with_size(text),
        }
    }

    fn with_workers(self, text: &[u8]) -> Option<Reading>
        requires { HasRanges self }
        ensures value { result ≡ with_value Workers text.now self }
        ensures ranges { IfSome result HasRanges }
    {
        if self.workers.is_some() {
            return None;
        }
        let workers = number_upto(MOST_WORKERS, text)? as u32;
        Some(Reading {
            waiting: None,
            workers: Some(workers),
            budget: self.budget,
            size: self.size,
        })
    }

    fn with_budget(self, text: &[u8]) -> Option<Reading>
        requires { HasRanges self }
        ensures value { result ≡ with_value Budget text.now self }
        ensures ranges { IfSome result HasRanges }
    {
        if self.budget.is_some() {
            return None;
        }
        let budget = number_upto(MOST_BUDGET, text)?;
        Some(Reading {
            waiting: None,
            workers: self.workers,
            budget: Some(budget),
            size: self.size,
        })
    }

    fn with_size(self, text: &[u8]) -> Option<Reading>
        requires { HasRanges self }
        ensures value { result ≡ with_value Size text.now self }
        ensures ranges { IfSome result HasRanges }
    {
        if self.size.is_some() {
            return None;
        }
        let size = number_upto(MOST_SIZE, text)? as u32;
        Some(Reading {
            waiting: None,
            workers: self.workers,
            budget: self.budget,
            size: Some(size),
        })
    }
}
