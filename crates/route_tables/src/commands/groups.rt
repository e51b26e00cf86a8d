//! Questions that are looked up together, which takes less time than one after another.
ghost use Rattle.std.specs.Prelude.{◌≡◌, ◌≤◌, ◌<◌, ◌^◌, All, OnOk, length, take};
ghost use Rattle.std.specs.Io.KnownBytes.{Appends};
ghost use Rattle.std.specs.Option.{option_map};
ghost use Rattle.prefix_trie.specs.Terms.{lent_item, longest_match, prefix_pair};
ghost use Rattle.prefix_trie_joint.specs.Joined.{entries_of};
ghost use Rattle.prefix_trie_joint.specs.Networks.{ip_back, ip_path};
ghost use Rattle.route_tables.specs.Groups.{AreIpv4Of, AreMatchValues, BeginsWithQuestions, IsMatchValue, answers_text, questions_of};
ghost use Rattle.route_tables.specs.Printed.{lookup_text};
ghost use Rattle.route_tables.specs.declared.lookup.Relation.TheVariants.{Longest};

use crate::commands::printer::Printer;
use crate::commands::questions::Seen;
use crate::lines::split_line;
use crate::lookup::{Found, longest};
use crate::questions::{Asking, QuestionError, read_question};
use crate::table::Table;
use crate::value::Value;
use prefix_trie::{Ipv4Prefix, Prefix};
use prefix_trie_joint::IpPrefix;
use std::io::{self, Write};

/// The most questions that are looked up together.
pub const MOST: usize = 32;

/// The first lines of a text, whose questions are looked up together.
#[derive(Clone, Copy)]
pub struct Group<'a> {
    /// The number of questions.
    pub count: usize,
    /// The text after these lines.
    pub rest: &'a [u8],
    /// The last of these lines and its error, if it is no question.
    pub bad: Option<(&'a [u8], QuestionError)>,
}

/// Reads the first lines of a text, up to `MOST` questions or a line that is none, and counts the lines in `seen`.
///
/// The text and the network of each question are written to the start of `texts` and of `networks`.
pub fn read_group<'a>(
    text: &'a [u8],
    asking: Asking,
    seen: &mut Seen,
    texts: &mut [&'a str],
    networks: &mut [IpPrefix],
) -> Group<'a>
    requires some { 0 < length text.now }
    requires texts { length texts.old ≡ 32 }
    requires networks { length networks.old ≡ 32 }
    ensures few { result.count ≤ 32 }
    ensures shorter { length result.rest.now < length text.now }
    ensures read { BeginsWithQuestions asking text.now result.rest.now
        (questions_of (take result.count texts.new) (take result.count networks.new)) }
{
    let mut count = 0;
    let mut rest = text;
    while count < MOST && !rest.is_empty() {
        let (line, later) = split_line(rest);
        rest = later;
        seen.count_one();
        match read_question(line, asking) {
            Ok(Some(question)) => {
                texts[count] = question.text;
                networks[count] = question.network;
                count += 1;
            }
            Ok(None) => {}
            Err(error) => {
                let bad = Some((line, error));
                return Group { count, rest, bad };
            }
        }
    }
    Group {
        count,
        rest,
        bad: None,
    }
}

/// Prints the longest network that contains each of these, or that there is none. `texts` are the questions.
///
/// The nodes that IPv4 lookups read are fetched together.
pub fn answer_together<W: Write + Drop>(
    table: &Table,
    texts: &[&str],
    networks: &[IpPrefix],
    out: &mut Printer<W>,
) -> io::Result<()>
    requires few { length networks.now ≤ 32 }
    requires same_length { length texts.now ≡ length networks.now }
    ensures { OnOk result (Appends out.old out.new
        (answers_text (lookup_text Longest (entries_of table.now))
        (questions_of texts.now networks.now))) }
{
    let count = networks.len();
    let mut asked = [Ipv4Prefix::host(0); MOST];
    let mut found = [None; MOST];
    copy_ipv4(networks, &mut asked);
    table
        .ipv4
        .get_lpm_value_bulk(&asked[..count], &mut found[..count]);
    answer_each(table, texts, networks, &found[..count], out)
}

// Prints the same, where the values of IPv4 networks were found before.
fn answer_each<W: Write + Drop>(
    table: &Table,
    texts: &[&str],
    networks: &[IpPrefix],
    values: &[Option<&Value>],
    out: &mut Printer<W>,
) -> io::Result<()>
    requires texts { length texts.now ≡ length networks.now }
    requires values { length values.now ≡ length networks.now }
    requires found { AreMatchValues (entries_of table.now) networks.now values.now }
    ensures { OnOk result (Appends out.old out.new
        (answers_text (lookup_text Longest (entries_of table.now))
        (questions_of texts.now networks.now))) }
{
    for i in 0..networks.len() {
        let answer = longest_if_any(table, &networks[i], values[i]);
        out.answer(texts[i], &answer)?;
    }
    Ok(())
}

// Writes the IPv4 networks to the places that they have in the list.
fn copy_ipv4(networks: &[IpPrefix], asked: &mut [Ipv4Prefix])
    requires space { length networks.now ≤ length asked.old }
    requires fit { All (λ p. (p.0 < 2 ^ 32) × (p.1 ≤ 32)) asked.old }
    ensures copied { AreIpv4Of networks.now asked.new }
    ensures fit { All (λ p. (p.0 < 2 ^ 32) × (p.1 ≤ 32)) asked.new }
    ensures length { length asked.new ≡ length asked.old }
{
    for i in 0..networks.len() {
        if let IpPrefix::V4(network) = networks[i] {
            let _ = network.fits();
            asked[i] = network;
        }
    }
}

// Returns the longest network that contains one, unless its value was looked for and not found.
fn longest_if_any<'a>(table: &'a Table, network: &IpPrefix, value: Option<&Value>) -> Found<'a>
    requires { IsMatchValue (entries_of table.now) network.now value }
    ensures { option_map lent_item result
        ≡ prefix_pair ip_back (longest_match (entries_of table.now) (ip_path network.now)) }
{
    match (network, value) {
        (IpPrefix::V4(_), None) => None,
        _ => longest(table, network),
    }
}
