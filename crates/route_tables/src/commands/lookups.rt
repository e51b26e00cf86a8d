//! What a table says of addresses and networks.
ghost use Rattle.std.specs.Prelude.{◌≡◌, ◌≤◌, ◌<◌, [], ◌∷◌, IfOk, List, is_ok, OnOk, length, map, ℕ};
ghost use Rattle.std.specs.Borrow.{Bor};
ghost use Rattle.std.specs.Io.KnownBytes.{Appends};
ghost use Rattle.std.specs.Iterator.{Drains, IsFinite};
ghost use Rattle.prefix_trie.specs.Terms.{lent_item};
ghost use Rattle.prefix_trie_joint.specs.Joined.{entries_of};
ghost use Rattle.prefix_trie_joint.specs.declared.prefix.IpPrefix.{IpPrefix};
ghost use Rattle.route_tables.specs.Groups.{PrintsFirstAnswers, answers_text, questions_of};
ghost use Rattle.route_tables.specs.Lines.{lines};
ghost use Rattle.route_tables.specs.Printed.{PrintsAnswers, answer_lines, lookup_text};
ghost use Rattle.route_tables.specs.Questions.{IsQuestionLine, IsQuestionWord};

use crate::commands::groups::{MOST, answer_together, read_group};
use crate::commands::printer::Printer;
use crate::commands::questions::{QuestionsError, Seen};
use crate::load::BadLines;
use crate::lookup::{Relation, longest};
use crate::questions::{Asking, parse_question};
use crate::table::Table;
use crate::value::Value;
use prefix_trie::Ipv4Prefix;
use prefix_trie_joint::IpPrefix;
use std::io::{self, Write};

/// How questions are looked up.
#[derive(Clone, Copy, Debug, PartialEq, Eq)]
pub struct Looking {
    /// Which networks are printed for each.
    pub relation: Relation,
    /// Which texts are questions.
    pub asking: Asking,
    /// What is done with lines and words that are no questions.
    pub bad_questions: BadLines,
}

/// Prints what a table has for each question of a text of whole lines, and adds to `seen` which lines were read.
///
/// A text that is read piece by piece is looked up piece by piece, with one `seen` for all of them.
///
/// # Errors
///
/// Returns the first line that is no question, if these are refused, or the printer's error. The results of the lines before it
/// are printed then.
pub fn look_up_lines<'a, W: Write + Drop>(
    table: &Table,
    text: &'a [u8],
    looking: Looking,
    seen: &mut Seen,
    out: &mut Printer<W>,
) -> Result<(), QuestionsError<'a>>
    ensures { OnOk result (PrintsAnswers (IsQuestionLine looking.asking)
        (lookup_text looking.relation (entries_of table.now)) (lines text.now) out.old out.new) }
{
    let mut rest = text;
    while !rest.is_empty() {
        rest = look_up_some(table, rest, looking, seen, out)?;
    }
    Ok(())
}

/// Prints what a table has for each question among the words of a command line, as `look_up_lines` does for lines.
///
/// # Errors
///
/// Returns an error as `look_up_lines` does. The number of a word is its place among the words.
pub fn look_up_words<'a, W: Write + Drop>(
    table: &Table,
    words: &[&'a str],
    looking: Looking,
    seen: &mut Seen,
    out: &mut Printer<W>,
) -> Result<(), QuestionsError<'a>>
    ensures { OnOk result (PrintsAnswers (IsQuestionWord looking.asking)
        (lookup_text looking.relation (entries_of table.now))
        (map (λ word. word.now) words.now) out.old out.new) }
{
    for word in words {
        look_up_word(table, word, looking, seen, out)?;
    }
    Ok(())
}

// Prints what a table has for the questions of the first lines of a text. Returns the lines after them.
fn look_up_some<'a, W: Write + Drop>(
    table: &Table,
    text: &'a [u8],
    looking: Looking,
    seen: &mut Seen,
    out: &mut Printer<W>,
) -> Result<&'a [u8], QuestionsError<'a>>
    requires { 0 < length text.now }
    ensures shorter { IfOk result (λ rest. length rest.now < length text.now) }
    ensures printed { IfOk result (λ rest. PrintsFirstAnswers (IsQuestionLine looking.asking)
        (lookup_text looking.relation (entries_of table.now)) text.now rest.now out.old out.new) }
{
    let mut texts = [""; MOST];
    let mut networks = [IpPrefix::V4(Ipv4Prefix::host(0)); MOST];
    let group = read_group(text, looking.asking, seen, &mut texts, &mut networks);
    let (texts, networks) = (&texts[..group.count], &networks[..group.count]);
    answer_all(table, texts, networks, looking.relation, out)?;
    if let Some((line, error)) = group.bad {
        seen.skip_or_refuse(line, error, looking.bad_questions)?;
    }
    Ok(group.rest)
}

// Prints what a table has for questions with these texts, in order.
fn answer_all<'a, W: Write + Drop>(
    table: &Table,
    texts: &[&str],
    networks: &[IpPrefix],
    relation: Relation,
    out: &mut Printer<W>,
) -> Result<(), QuestionsError<'a>>
    requires few { length networks.now ≤ 32 }
    requires same_length { length texts.now ≡ length networks.now }
    ensures { OnOk result (Appends out.old out.new
        (answers_text (lookup_text relation (entries_of table.now))
        (questions_of texts.now networks.now))) }
{
    if relation == Relation::Longest {
        return printed(answer_together(table, texts, networks, out));
    }
    for i in 0..networks.len() {
        printed(print_found(table, texts[i], networks[i], relation, out))?;
    }
    Ok(())
}

// Prints what a table has for the question of a word.
fn look_up_word<'a, W: Write + Drop>(
    table: &Table,
    word: &'a str,
    looking: Looking,
    seen: &mut Seen,
    out: &mut Printer<W>,
) -> Result<(), QuestionsError<'a>>
    ensures { OnOk result (PrintsAnswers (IsQuestionWord looking.asking)
        (lookup_text looking.relation (entries_of table.now)) (word.now ∷ []) out.old out.new) }
{
    seen.count_one();
    match parse_question(word, looking.asking) {
        Ok(question) => {
            let (text, network) = (question.text, question.network);
            printed(print_found(table, text, network, looking.relation, out))
        }
        Err(error) => seen.skip_or_refuse(word.as_bytes(), error, looking.bad_questions),
    }
}

// Returns the printer's error as that of a question.
fn printed<'a>(printing: io::Result<()>) -> Result<(), QuestionsError<'a>>
    ensures { is_ok result ≡ is_ok printing }
{
    match printing {
        Ok(()) => Ok(()),
        Err(error) => Err(QuestionsError::Output(error)),
    }
}

// Prints the networks that have a relation to a network, a line for each, or that there is none.
fn print_found<W: Write + Drop>(
    table: &Table,
    text: &str,
    network: IpPrefix,
    relation: Relation,
    out: &mut Printer<W>,
) -> io::Result<()>
    ensures { OnOk result (Appends out.old out.new
        (lookup_text relation (entries_of table.now) text.now network)) }
{
    match relation {
        Relation::Longest => out.answer(text, &longest(table, &network)),
        Relation::Exact => out.answer(text, &table.get_key_value(&network)),
        Relation::Covering => print_each(text, table.cover(&network), out),
        Relation::Contained => print_each(text, table.children(&network), out),
    }
}

// Prints a line for each network, or one line if there is none.
fn print_each<'a, Found: Iterator<Item = (IpPrefix, &'a Value)> + Drop, W: Write + Drop>(
    question: &str,
    found: Found,
    out: &mut Printer<W>,
) -> io::Result<()>
    requires can { Found.Iterator.can_next found }
    requires ends { IsFinite (Found.Iterator.remaining found) }
    ensures { OnOk result ((lent : List (IpPrefix × Bor (List ℕ)))
        × Drains Found.Iterator.next_gives found lent
        × Appends out.old out.new (answer_lines question.now (map lent_item lent))) }
{
    let mut is_any = false;
    for (network, value) in found {
        is_any = true;
        out.answer(question, &Some((network, value)))?;
    }
    if is_any {
        return Ok(());
    }
    out.answer(question, &None)
}
