// The answers of both makes, a line for each call.
use crate::makes::{Counts, compare};
use dictionary::{Answer, Call};
use search_tree::TreeRow;
use std::{fmt, io};
use trie::TrieRow;

// Calls and answers are another crate's types, and only here is a key a letter: so `Display` stands on a struct of this crate, with a function for each of the two.
/// A call and the answer to it, as they are printed.
#[derive(Drop)]
struct Shown<'a> {
    call: &'a Call<u8>,
    answer: &'a Answer<u8>,
}

impl<'a> fmt::Display for Shown<'a> {
    fn fmt<W: fmt::Write>(&self, f: &mut fmt::Formatter<W>) -> fmt::Result {
        show_call(self.call, f)?;
        show_answer(self.answer, f)
    }
}

impl fmt::Display for Counts {
    fn fmt<W: fmt::Write>(&self, f: &mut fmt::Formatter<W>) -> fmt::Result {
        write!(f, "size {}, asks {}", self.size, self.asks)
    }
}

fn show_call<W: fmt::Write>(call: &Call<u8>, f: &mut fmt::Formatter<W>) -> fmt::Result {
    match call {
        Call::Size => write!(f, "size: "),
        Call::Capacity => write!(f, "capacity: "),
        Call::Asks => write!(f, "asks: "),
        Call::Find(b) => write!(f, "find {}: ", char::from(*b)),
        Call::Name(b) => write!(f, "name {}: ", char::from(*b)),
        Call::Key(n) => write!(f, "key {n}: "),
    }
}

fn show_answer<W: fmt::Write>(answer: &Answer<u8>, f: &mut fmt::Formatter<W>) -> fmt::Result {
    match answer {
        Answer::Size(n) | Answer::Capacity(n) => write!(f, "{n}"),
        Answer::Asks(n) => write!(f, "{n}"),
        Answer::Find(Some(n)) | Answer::Name(Ok(n)) => write!(f, "{n}"),
        Answer::Find(None) => write!(f, "nothing"),
        Answer::Name(Err(full)) => write!(f, "Full, size {}", full.size),
        Answer::Key(Ok(b)) => write!(f, "{}", char::from(*b)),
        Answer::Key(Err(_)) => write!(f, "Absent"),
    }
}

/// Carries out the calls over so many rows, and prints what both makes answered: one line where they agree.
pub fn print_run(rt: &HostRuntime, rows: usize, calls: &[Call<u8>]) -> io::Result<()> {
    if calls.is_empty() {
        return Ok(());
    }
    let mut tree_rows = vec![in rt.alloc(); TreeRow::blank(0u8); rows]?;
    let mut trie_rows = vec![in rt.alloc(); TrieRow::blank(0u8); rows]?;
    let mut tree_answers: Vec<Answer<u8>> = vec![in rt.alloc(); Answer::Size(0); calls.len()]?;
    let mut trie_answers: Vec<Answer<u8>> = vec![in rt.alloc(); Answer::Size(0); calls.len()]?;
    let totals = compare(
        &mut tree_rows[..],
        &mut trie_rows[..],
        calls,
        &mut tree_answers[..],
        &mut trie_answers[..],
    );
    println!(rt; "{rows} rows")?;
    for ((call, tree), trie) in calls
        .iter()
        .zip(tree_answers.iter())
        .zip(trie_answers.iter())
    {
        if tree == trie {
            println!(rt; "{}", Shown { call, answer: tree })?;
        } else {
            println!(rt;
                "THE MAKES DIFFER: tree {}, trie {}",
                Shown { call, answer: tree },
                Shown { call, answer: trie }
            )?;
        }
    }
    println!(rt; "tree: {}", totals.tree)?;
    println!(rt; "trie: {}", totals.trie)
}
