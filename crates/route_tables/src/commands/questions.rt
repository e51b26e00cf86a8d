//! The lines or words that a table is asked, and those among them that are no questions.
ghost use Rattle.std.specs.Prelude.{◌≡◌};

use crate::load::BadLines;
use crate::messages::QuestionMessage;
use crate::messages::excerpt::ByteExcerpt;
use crate::messages::warnings::LineNumbers;
use crate::questions::QuestionError;
use std::error::Error;
use std::fmt::{self, Display, Formatter};
use std::io;

/// The lines or words that were read so far.
#[derive(Debug, Drop)]
pub struct Seen {
    /// How many there are, or `usize::MAX` if there are more.
    pub count: usize,
    /// Those that were skipped, since they are no questions.
    pub skipped: LineNumbers,
}

impl Seen {
    ghost use Rattle.std.specs.Prelude.{IfErr, OnOk};
    ghost use Rattle.route_tables.specs.Checks.{NamesText, counted};

    /// Returns that none was read.
    pub fn new() -> Seen
        ensures none { result.count ≡ 0 }
    {
        Seen {
            count: 0,
            skipped: LineNumbers::new(),
        }
    }

    // Counts one more.
    pub(super) fn count_one(&mut self)
        ensures { self.new.count ≡ counted self.old.count 1 }
    {
        self.count = self.count.saturating_add(1);
    }

    // Skips the line or word that was counted last, which is no question, or returns it as an error.
    pub(super) fn skip_or_refuse<'a>(
        &mut self,
        text: &'a [u8],
        error: QuestionError,
        bad_questions: BadLines,
    ) -> Result<(), QuestionsError<'a>>
        ensures count { self.new.count ≡ self.old.count }
        ensures skipped { OnOk result (bad_questions ≡ BadLines.Skipped) }
        ensures named { IfErr result (NamesText ⊥ bad_questions text.now self.new.count) }
    {
        let number = self.count;
        match bad_questions {
            BadLines::Refused => Err(QuestionsError::Question(BadQuestion {
                number,
                text,
                error,
            })),
            BadLines::Skipped => {
                self.skipped.push(number);
                Ok(())
            }
        }
    }
}

/// A line or a word that is no question.
#[derive(Clone, Copy, Debug, PartialEq, Eq)]
pub struct BadQuestion<'a> {
    /// Its number, from 1 on.
    pub number: usize,
    /// Its bytes.
    pub text: &'a [u8],
    /// Why it is none.
    pub error: QuestionError,
}

impl BadQuestion<'_> {
    /// Returns what is said of the text.
    pub fn message(&self) -> QuestionMessage<'_> {
        QuestionMessage {
            text: self.text,
            error: self.error,
        }
    }
}

impl Display for BadQuestion<'_> {
    fn fmt<W: fmt::Write>(&self, f: &mut Formatter<W>) -> fmt::Result {
        let (number, message, text) = (
            self.number,
            self.message(),
            ByteExcerpt(self.text.trim_ascii()),
        );
        write!(f, "line {number}: {message}: \"{text}\"")
    }
}

/// Why a list of questions ends early.
#[derive(Debug, Drop)]
pub enum QuestionsError<'a> {
    /// The line or word is the first that is no question, and these are refused.
    Question(BadQuestion<'a>),
    /// A result could not be printed.
    Output(io::Error),
}

impl Display for QuestionsError<'_> {
    fn fmt<W: fmt::Write>(&self, f: &mut Formatter<W>) -> fmt::Result {
        match self {
            QuestionsError::Question(bad) => Display::fmt(bad, f),
            QuestionsError::Output(error) => Display::fmt(error, f),
        }
    }
}

impl Error for QuestionsError<'_> {}
