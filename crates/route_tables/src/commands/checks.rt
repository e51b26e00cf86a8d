//! What `check` prints for questions.
ghost use Rattle.std.specs.Prelude.{◌≡◌, ◌↔◌, [], ◌∷◌, All, IfErr, OnOk, false, map, true};
ghost use Rattle.std.specs.Io.KnownBytes.{Appends};
ghost use Rattle.prefix_trie_joint.specs.Networks.{ip_path};
ghost use Rattle.route_tables.specs.Access.{IsAllowed};
ghost use Rattle.route_tables.specs.Checks.{EndsCheck, HasChecked, IsAllowedLine, IsAllowedWord, IsGoodLine, IsGoodWord, IsOutput, NamesText, asking_of};
ghost use Rattle.route_tables.specs.Lines.{lines};
ghost use Rattle.route_tables.specs.Printed.{PrintsAnswers, decision_text};
ghost use Rattle.route_tables.specs.Questions.{IsQuestionLine, IsQuestionWord};

use crate::access::{AccessList, Precedence};
use crate::commands::printer::Printer;
use crate::commands::questions::{QuestionsError, Seen};
use crate::lines::split_line;
use crate::load::BadLines;
use crate::questions::{Asked, Asking, Mapped, QuestionError, parse_question, read_question};
use prefix_trie_joint::IpPrefix;
use std::io::Write;

/// How questions are checked.
#[derive(Clone, Copy, Debug, PartialEq, Eq)]
pub struct Checking {
    /// Which of the networks that contain an address decides.
    pub precedence: Precedence,
    /// What is done with lines and words that are no addresses.
    pub bad_questions: BadLines,
    /// What is done with IPv6 addresses that are IPv4 addresses.
    pub mapped: Mapped,
}

impl Checking {
    // Returns which texts are questions: addresses.
    fn asking(&self) -> Asking
        ensures { result ≡ asking_of self.now }
    {
        Asking {
            asked: Asked::Addresses,
            mapped: self.mapped,
        }
    }
}

/// What the lines or words that were checked so far show.
#[derive(Debug, Drop)]
pub struct Checked {
    /// Which were read.
    pub seen: Seen,
    /// Whether each is blank, a comment, or an address that the list allows.
    pub are_all_allowed: bool,
}

impl Checked {
    /// Returns what no lines show.
    pub fn new() -> Checked
        ensures none { result.seen.count ≡ 0 }
        ensures all { result.are_all_allowed ≡ true }
    {
        Checked {
            seen: Seen::new(),
            are_all_allowed: true,
        }
    }
}

/// Prints what a list says of each address of a text of whole lines, and adds to `checked` what the lines show.
///
/// A text that is read piece by piece is checked piece by piece, with one `checked` for all of them.
///
/// # Errors
///
/// Returns the first line that is no address, if these are refused, or the writer's error. The lines before were checked then.
/// `checked` has what they and this line show.
pub fn check_lines<'a, W: Write + Drop>(
    list: &AccessList,
    text: &'a [u8],
    checking: Checking,
    checked: &mut Checked,
    out: &mut Printer<W>,
) -> Result<(), QuestionsError<'a>>
    ensures all { OnOk result (HasChecked (IsAllowedLine checking list.now) (lines text.now)
        checked.old checked.new) }
    ensures good { OnOk result (checking.bad_questions ≡ BadLines.Refused
        → All (IsGoodLine checking) (lines text.now)) }
    ensures printed { OnOk result (PrintsAnswers (IsQuestionLine (asking_of checking))
        (decision_text checking.precedence list.now) (lines text.now) out.old out.new) }
    ensures ends { IfErr result (EndsCheck (IsGoodLine checking)
        (IsAllowedLine checking list.now) checking (lines text.now) checked.old checked.new) }
{
    // The proof learns from it that the count is a `usize`.
    let _count = checked.seen.count;
    let mut rest = text;
    while !rest.is_empty() {
        let (line, later) = split_line(rest);
        rest = later;
        check_line(list, line, checking, checked, out)?;
    }
    Ok(())
}

/// Prints what a list says of each address among words, and adds to `checked` what the words show.
///
/// # Errors
///
/// Returns an error as `check_lines` does. The number of a word is its place among the words.
pub fn check_words<'a, W: Write + Drop>(
    list: &AccessList,
    words: &[&'a str],
    checking: Checking,
    checked: &mut Checked,
    out: &mut Printer<W>,
) -> Result<(), QuestionsError<'a>>
    ensures all { OnOk result (HasChecked (IsAllowedWord checking list.now)
        (map (λ word. word.now) words.now) checked.old checked.new) }
    ensures good { OnOk result (checking.bad_questions ≡ BadLines.Refused
        → All (IsGoodWord checking) (map (λ word. word.now) words.now)) }
    ensures printed { OnOk result (PrintsAnswers (IsQuestionWord (asking_of checking))
        (decision_text checking.precedence list.now) (map (λ word. word.now) words.now)
        out.old out.new) }
    ensures ends { IfErr result (EndsCheck (IsGoodWord checking)
        (IsAllowedWord checking list.now) checking (map (λ word. word.now) words.now)
        checked.old checked.new) }
{
    // The proof learns from it that the count is a `usize`.
    let _count = checked.seen.count;
    for word in words {
        check_word(list, word, checking, checked, out)?;
    }
    Ok(())
}

// Prints what a list says of the address of a line.
fn check_line<'a, W: Write + Drop>(
    list: &AccessList,
    line: &'a [u8],
    checking: Checking,
    checked: &mut Checked,
    out: &mut Printer<W>,
) -> Result<(), QuestionsError<'a>>
    ensures checked { HasChecked (IsAllowedLine checking list.now) (line.now ∷ [])
        checked.old checked.new }
    ensures good { OnOk result
        (checking.bad_questions ≡ BadLines.Refused → IsGoodLine checking line.now) }
    ensures named { IfErr result
        (NamesText (IsGoodLine checking line.now) checking.bad_questions line.now
        checked.new.seen.count) }
    ensures printed { OnOk result (PrintsAnswers (IsQuestionLine (asking_of checking))
        (decision_text checking.precedence list.now) (line.now ∷ []) out.old out.new) }
{
    checked.seen.count_one();
    match read_question(line, checking.asking()) {
        Ok(Some(question)) => {
            let precedence = checking.precedence;
            answer(
                list,
                question.text,
                question.network,
                precedence,
                checked,
                out,
            )
        }
        Ok(None) => Ok(()),
        Err(error) => skip_or_refuse(line, error, checking.bad_questions, checked),
    }
}

// Prints what a list says of the address of a word.
fn check_word<'a, W: Write + Drop>(
    list: &AccessList,
    word: &'a str,
    checking: Checking,
    checked: &mut Checked,
    out: &mut Printer<W>,
) -> Result<(), QuestionsError<'a>>
    ensures checked { HasChecked (IsAllowedWord checking list.now) (word.now ∷ [])
        checked.old checked.new }
    ensures good { OnOk result
        (checking.bad_questions ≡ BadLines.Refused → IsGoodWord checking word.now) }
    ensures named { IfErr result
        (NamesText (IsGoodWord checking word.now) checking.bad_questions word.now
        checked.new.seen.count) }
    ensures printed { OnOk result (PrintsAnswers (IsQuestionWord (asking_of checking))
        (decision_text checking.precedence list.now) (word.now ∷ []) out.old out.new) }
{
    checked.seen.count_one();
    match parse_question(word, checking.asking()) {
        Ok(question) => {
            let precedence = checking.precedence;
            answer(
                list,
                question.text,
                question.network,
                precedence,
                checked,
                out,
            )
        }
        Err(error) => {
            let text = word.as_bytes();
            skip_or_refuse(text, error, checking.bad_questions, checked)
        }
    }
}

// Prints what a list says of an address.
fn answer<'a, W: Write + Drop>(
    list: &AccessList,
    text: &str,
    network: IpPrefix,
    precedence: Precedence,
    checked: &mut Checked,
    out: &mut Printer<W>,
) -> Result<(), QuestionsError<'a>>
    ensures all { (checked.new.are_all_allowed ≡ true) ↔ ((checked.old.are_all_allowed ≡ true)
        × IsAllowed precedence list.now (ip_path network)) }
    ensures count { checked.new.seen.count ≡ checked.old.seen.count }
    ensures output { IfErr result IsOutput }
    ensures printed { OnOk result (Appends out.old out.new
        (decision_text precedence list.now text.now network)) }
{
    let decision = list.decide(&network, precedence);
    checked.are_all_allowed &= decision.is_allowed();
    match out.decision(text, decision) {
        Ok(()) => Ok(()),
        Err(error) => Err(QuestionsError::Output(error)),
    }
}

// Skips a text that is no address, or returns it as an error.
fn skip_or_refuse<'a>(
    text: &'a [u8],
    error: QuestionError,
    bad_questions: BadLines,
    checked: &mut Checked,
) -> Result<(), QuestionsError<'a>>
    ensures none { checked.new.are_all_allowed ≡ false }
    ensures count { checked.new.seen.count ≡ checked.old.seen.count }
    ensures skipped { OnOk result (bad_questions ≡ BadLines.Skipped) }
    ensures named { IfErr result (NamesText ⊥ bad_questions text.now checked.new.seen.count) }
{
    checked.are_all_allowed = false;
    checked.seen.skip_or_refuse(text, error, bad_questions)
}
