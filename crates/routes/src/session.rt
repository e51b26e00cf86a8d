//! What all commands share: the runtime and the options, files, and messages.

use crate::failure::Failure;
use crate::progress::Watched;
use address_ranges::JointAddressSet;
use origin_validation::Vrps;
use prefix_trie_joint::JointPrefixMap;
use route_tables::access::{AccessList, Precedence, Rule, idle_rules};
use route_tables::address_list::AddressList;
use route_tables::arguments::Options;
use route_tables::commands::questions::QuestionsError;
use route_tables::load::{
    BadLine, BadLines, LoadError, Reading, Replaced, TableKind, Warnings, load_into,
};
use route_tables::messages::bad_lines::find_bad_lines;
use route_tables::messages::excerpt::{ByteExcerpt, Shown};
use route_tables::messages::warnings::{
    LineNumbers, write_bad_lines, write_idle, write_refused, write_replaced, write_skipped_lines,
    write_skipped_words,
};
use route_tables::pieces::Pieces;
use route_tables::plain_lists::{FewestNetworks, fewest_of_plain};
use route_tables::table::Table;
use route_tables::vrp_lines::{BadVrp, add_vrps};
use std::alloc::Global;
use std::fmt::Display;
use std::fs::File;
use std::io::{self, BufWriter, IsTerminal, Read, StdinLock, Write};

/// What a file holds that is read piece by piece.
#[derive(Clone, Copy, Debug, PartialEq, Eq)]
pub enum Input {
    /// Addresses or networks to ask a table for.
    Questions,
    /// Lines to search for addresses.
    Lines,
    /// Routes to validate.
    Routes,
}

/// Whether the values of a table are used, so that a line that replaces one is worth a warning.
#[derive(Clone, Copy, Debug, PartialEq, Eq)]
pub enum Values {
    /// They are used.
    Used,
    /// Only addresses are.
    Ignored,
}

/// A file or standard input.
#[derive(Drop)]
pub enum Source {
    /// Standard input.
    Input(StdinLock<'static>),
    /// A file.
    File(File),
}

impl Read for Source {
    fn read(&mut self, buf: &mut [u8]) -> io::Result<usize> {
        match self {
            Source::Input(input) => input.read(buf),
            Source::File(file) => file.read(buf),
        }
    }
}

/// The runtime, and the options of the command line.
#[derive(Clone, Copy)]
pub struct Session<'a> {
    pub rt: &'a HostRuntime,
    pub options: Options,
}

impl<'a> Session<'a> {
    /// Returns the allocator.
    pub fn alloc(&self) -> Global {
        self.rt.alloc()
    }

    /// Writes an error, and returns that it is reported.
    pub fn report(&self, path: &str, error: &impl Display) -> Failure {
        let path = Shown(path);
        let _ = eprintln!(self.rt; "routes: {path}: {error}");
        Failure::Reported
    }

    // Opens a file, or standard input if its name is `-`.
    fn open(&self, path: &'a str, is_shown: bool) -> io::Result<Watched<'a>> {
        let source = if path == "-" {
            Source::Input(self.rt.reader())
        } else {
            Source::File(File::open(self.rt, path)?)
        };
        Watched::new(self.rt, path, source, is_shown)
    }

    // Returns whether progress is shown: on a terminal, unless the command is to be quiet or the text is typed there.
    fn shows_progress(&self, path: &str) -> bool {
        !self.options.is_quiet && self.rt.stderr().is_terminal() && !self.is_typed(path)
    }

    // Returns whether a text is typed on a terminal.
    fn is_typed(&self, path: &str) -> bool {
        path == "-" && self.rt.stdin().is_terminal()
    }

    /// Reads a file, or standard input if its name is `-`.
    pub fn read_file(&self, path: &'a str) -> Result<Vec<u8>, Failure> {
        let text = self
            .open(path, self.shows_progress(path))
            .and_then(|source| self.read_all(source));
        match text {
            Ok(text) if text.starts_with(GZIP) => Err(self.report(path, &COMPRESSED)),
            Ok(text) => Ok(text),
            Err(error) => Err(self.report(path, &error)),
        }
    }

    // Reads to the end.
    fn read_all(&self, mut source: Watched<'_>) -> io::Result<Vec<u8>> {
        let mut text = Vec::new(self.alloc());
        source.read_to_end(&mut text)?;
        Ok(text)
    }

    /// Opens a file, or standard input if its name is `-`, to read it piece by piece.
    pub fn pieces(&self, path: &'a str, input: Input) -> Result<Pieces<Watched<'a>>, Failure> {
        if self.is_typed(path) {
            self.prompt(input);
        }
        let is_shown = self.shows_progress(path) && !self.rt.stdout().is_terminal();
        match self.open(path, is_shown) {
            Ok(source) => Ok(Pieces::new(source, self.alloc())),
            Err(error) => Err(self.report(path, &error)),
        }
    }

    // Says on a terminal what is read, unless the command is to be quiet.
    fn prompt(&self, input: Input) {
        if self.options.is_quiet || !self.rt.stderr().is_terminal() {
            return;
        }
        let what = match input {
            Input::Questions => "addresses, one a line",
            Input::Lines => "lines",
            Input::Routes => "routes, one a line",
        };
        let _ = eprintln!(self.rt; "routes: reading {what}, until Ctrl-D");
    }

    /// Reads the table of files, and warns of lines that are skipped or replace a value that is used.
    pub fn read_tables(&self, files: &[&'a str], values: Values) -> Result<Table, Failure> {
        let mut table = JointPrefixMap::new(self.alloc())?;
        for file in files {
            let text = self.read_file(file)?;
            self.read_text(file, text.as_slice(), values, &mut table)?;
        }
        Ok(table)
    }

    /// Returns the table of the text of a file, and warns as `read_tables` does.
    pub fn table_of(&self, path: &str, text: &[u8]) -> Result<Table, Failure> {
        let mut table = JointPrefixMap::new(self.alloc())?;
        self.read_text(path, text, Values::Used, &mut table)?;
        Ok(table)
    }

    /// Reads the addresses of files, and warns of lines that are skipped.
    ///
    /// Each file is a set by itself, since a list in order takes no more memory than its ranges.
    pub fn read_addresses(&self, files: &[&'a str]) -> Result<JointAddressSet<Global>, Failure> {
        let mut all = None;
        for file in files {
            let own = self.read_address_list(file)?;
            all = Some(match all {
                None => own,
                Some(others) => own.union(&others, self.alloc())?,
            });
        }
        match all {
            Some(all) => Ok(all),
            None => Ok(JointAddressSet::new(self.alloc())?),
        }
    }

    // Reads the addresses of one file.
    fn read_address_list(&self, file: &'a str) -> Result<JointAddressSet<Global>, Failure> {
        let text = self.read_file(file)?;
        let mut list = AddressList::new(self.alloc())?;
        match list.add(text.as_slice(), self.options.reading, self.alloc()) {
            Ok(skipped) => self.warn_of_bad_lines(file, skipped.as_slice()),
            Err(error) => return Err(self.report_unread(file, text.as_slice(), error)),
        }
        Ok(list.finish()?)
    }

    /// Reads a text whose networks have no values, and warns of lines that are skipped. Returns `None` if a line has one.
    pub fn read_plain<'t>(
        &self,
        path: &str,
        text: &'t [u8],
    ) -> Result<Option<FewestNetworks<'t>>, Failure> {
        match fewest_of_plain(text, self.options.reading, self.alloc()) {
            Ok(Some(fewest)) => {
                self.warn_of_bad_lines(path, fewest.skipped.as_slice());
                Ok(Some(fewest))
            }
            Ok(None) => Ok(None),
            Err(error) => Err(self.report_unread(path, text, error)),
        }
    }

    // Warns of lines of a file that are skipped. A warning that cannot be written stops no command.
    fn warn_of_bad_lines(&self, path: &str, skipped: &[BadLine<'_>]) {
        if !self.options.is_quiet {
            let _ = self.write_bad_lines(path, skipped);
        }
    }

    // Writes which lines of a file are skipped.
    fn write_bad_lines(&self, path: &str, skipped: &[BadLine<'_>]) -> io::Result<()> {
        let mut err = BufWriter::new(self.alloc(), self.rt.stderr())?;
        write_bad_lines(path, skipped, &mut err)?;
        err.flush()
    }

    // Reports why a file is not read: its bad lines, or another error.
    fn report_unread(&self, path: &str, text: &[u8], error: LoadError<'_>) -> Failure {
        match error {
            LoadError::Line(_) => {
                let _ = self.write_refused(path, text, self.options.reading);
                Failure::Reported
            }
            error => self.report(path, &error),
        }
    }

    // Reads the text of a file into a table.
    fn read_text(
        &self,
        path: &str,
        text: &[u8],
        values: Values,
        table: &mut Table,
    ) -> Result<(), Failure> {
        let reading = self.options.reading;
        match load_into(table, text, reading, self.alloc()) {
            Ok(warnings) => {
                if !self.options.is_quiet {
                    // a warning that cannot be written stops no command
                    let _ = self.warn(path, &warnings, values);
                }
                Ok(())
            }
            Err(error) => Err(self.report_unread(path, text, error)),
        }
    }

    // Warns of lines of a file that are skipped, or replace a value that is used.
    fn warn(&self, path: &str, warnings: &Warnings<'_>, values: Values) -> io::Result<()> {
        let mut err = BufWriter::new(self.alloc(), self.rt.stderr())?;
        write_bad_lines(path, warnings.skipped.as_slice(), &mut err)?;
        if values == Values::Used {
            write_replaced(path, warnings.replaced.as_slice(), &mut err)?;
        }
        err.flush()
    }

    // Writes the bad lines of a table that is refused.
    fn write_refused(&self, path: &str, text: &[u8], reading: Reading) -> io::Result<()> {
        let bad = find_bad_lines(text, reading, self.alloc())?;
        let mut err = BufWriter::new(self.alloc(), self.rt.stderr())?;
        write_refused(path, bad.first.as_slice(), bad.count, &mut err)?;
        err.flush()
    }

    /// Reads the access list of files, each line of each, and warns of lines that replace a rule.
    pub fn read_access_list(&self, files: &[&'a str]) -> Result<AccessList, Failure> {
        let mut list = AccessList::new(self.alloc())?;
        for file in files {
            list = self.add_rules(list, file)?;
        }
        Ok(list)
    }

    // Adds the rules of a file.
    fn add_rules(&self, list: AccessList, path: &'a str) -> Result<AccessList, Failure> {
        let text = self.read_file(path)?;
        let reading = Reading {
            kind: TableKind::AccessList,
            ..self.options.reading
        };
        match list.add(text.as_slice(), reading.host_bits, self.alloc()) {
            Ok((list, replaced)) => {
                if !self.options.is_quiet {
                    let _ = self.warn_of_replaced(path, replaced.as_slice());
                }
                Ok(list)
            }
            Err(LoadError::Line(_)) => {
                let _ = self.write_refused(path, text.as_slice(), reading);
                Err(Failure::Reported)
            }
            Err(error) => Err(self.report(path, &error)),
        }
    }

    // Warns of lines of a file that replace a value.
    fn warn_of_replaced(&self, path: &str, replaced: &[Replaced]) -> io::Result<()> {
        let mut err = BufWriter::new(self.alloc(), self.rt.stderr())?;
        write_replaced(path, replaced, &mut err)?;
        err.flush()
    }

    /// Warns of the rules of an access list that decide no address: of ten, or of all.
    pub fn warn_of_idle(
        &self,
        list: &AccessList,
        precedence: Precedence,
        are_all_named: bool,
    ) -> Result<(), Failure> {
        if self.options.is_quiet {
            return Ok(());
        }
        let rules = idle_rules(list, precedence, self.alloc())?;
        let _ = self.write_idle_rules(rules.as_slice(), are_all_named);
        Ok(())
    }

    // Writes which rules decide no address.
    fn write_idle_rules(&self, rules: &[Rule], are_all_named: bool) -> io::Result<()> {
        let mut err = BufWriter::new(self.alloc(), self.rt.stderr())?;
        write_idle(rules, are_all_named, &mut err)?;
        err.flush()
    }

    /// Reads the VRPs of files, and warns of lines that are skipped.
    pub fn read_vrps(&self, files: &[&'a str]) -> Result<Vrps<Global>, Failure> {
        let mut vrps = Vec::new(self.alloc());
        for file in files {
            let text = self.read_file(file)?;
            let host_bits = self.options.reading.host_bits;
            let bad = add_vrps(&mut vrps, text.as_slice(), host_bits, self.alloc())?;
            if self.options.reading.bad_lines == BadLines::Skipped {
                self.warn_of_bad_vrps(file, bad.as_slice());
            } else if !bad.is_empty() {
                let _ = self.write_refused_vrps(file, bad.as_slice());
                return Err(Failure::Reported);
            }
        }
        Ok(Vrps::new(vrps, self.alloc())?)
    }

    // Writes the bad lines of a file of VRPs that is refused.
    fn write_refused_vrps(&self, path: &str, bad: &[BadVrp<'_>]) -> io::Result<()> {
        let mut err = BufWriter::new(self.alloc(), self.rt.stderr())?;
        write_refused(path, bad, bad.len(), &mut err)?;
        err.flush()
    }

    // Warns of lines of a file of VRPs that are skipped.
    fn warn_of_bad_vrps(&self, path: &str, skipped: &[BadVrp<'_>]) {
        if !self.options.is_quiet {
            let _ = self.write_bad_vrps(path, skipped);
        }
    }

    // Writes which lines of a file of VRPs are skipped.
    fn write_bad_vrps(&self, path: &str, skipped: &[BadVrp<'_>]) -> io::Result<()> {
        let mut err = BufWriter::new(self.alloc(), self.rt.stderr())?;
        write_bad_lines(path, skipped, &mut err)?;
        err.flush()
    }

    /// Reports why the routes of a file end early.
    pub fn report_routes(&self, path: &str, error: QuestionsError<'_>) -> Failure {
        match error {
            QuestionsError::Question(bad) => self.report(path, &bad),
            QuestionsError::Output(error) => Failure::from(error),
        }
    }

    /// Warns of the lines of a file of routes that are skipped.
    pub fn warn_of_skipped_routes(&self, path: &str, skipped: &LineNumbers) {
        if !self.options.is_quiet {
            let _ = self.write_skipped_routes(path, skipped);
        }
    }

    // Writes which lines of a file of routes are skipped.
    fn write_skipped_routes(&self, path: &str, skipped: &LineNumbers) -> io::Result<()> {
        let mut err = BufWriter::new(self.alloc(), self.rt.stderr())?;
        write_skipped_lines(path, "a route", skipped, &mut err)?;
        err.flush()
    }

    /// Warns of the words that are skipped, or of the lines of standard input if there are no words.
    pub fn warn_of_skipped(&self, wanted: &str, words: &[&str], skipped: &LineNumbers) {
        if !self.options.is_quiet {
            let _ = self.write_skipped(wanted, words, skipped);
        }
    }

    // Writes which words are skipped, or which lines of standard input.
    fn write_skipped(&self, wanted: &str, words: &[&str], skipped: &LineNumbers) -> io::Result<()> {
        let mut err = BufWriter::new(self.alloc(), self.rt.stderr())?;
        if words.is_empty() {
            write_skipped_lines("-", wanted, skipped, &mut err)?;
        } else {
            write_skipped_words(wanted, words, skipped, &mut err)?;
        }
        err.flush()
    }

    /// Reports why the words, or the lines of standard input, end early.
    pub fn report_questions(&self, words: &[&str], error: QuestionsError<'_>) -> Failure {
        match error {
            QuestionsError::Question(bad) if words.is_empty() => self.report("-", &bad),
            QuestionsError::Question(bad) => {
                let (word, message) = (ByteExcerpt(bad.text), bad.message());
                let _ = eprintln!(self.rt; "routes: {word}: {message}");
                Failure::Reported
            }
            QuestionsError::Output(error) => Failure::from(error),
        }
    }

    /// Returns the next piece of a file.
    pub fn next_piece<'p>(
        &self,
        path: &str,
        pieces: &'p mut Pieces<Watched<'_>>,
    ) -> Result<Option<&'p [u8]>, Failure> {
        match pieces.next() {
            Ok(piece) => Ok(piece),
            Err(error) => Err(self.report(path, &error)),
        }
    }
}

// The first bytes of a file that gzip wrote.
const GZIP: &[u8] = b"\x1f\x8b";

// What is said of such a file.
const COMPRESSED: &str = "compressed by gzip: use zcat, and - as the name of the file";
