//! Replays a list of file lengths and of what Apache Iceberg's Rust answers for each: the proved function has to answer
//! the same. The list comes on standard input; `tools/compare-lengths` makes it.
#![tactic(auto)]

ghost use Rattle.std.specs.Prelude.{◌≡◌, ◌^◌, ◌<◌, IfOk, Some, not, count_by, decimal, Decides};
ghost use Rattle.replay_lengths.specs.declared.ListError.TheVariants.{OutOfMemory};
ghost use Rattle.replay_lengths.specs.Listed.{Reads, AnswerFits, CaseFits, answer_text, case_text, list_text, answer_for, same_answer, is_plaintext, agreed};

use anyhow::anyhow;
use code::report::Reported;
use layout::lengths;
use std::alloc::{AllocError, AllocFailed, Global};
use std::error::Error;
use std::{fmt, io};

/// The plaintext bytes of a full block, in each file of the list.
const BLOCK_SIZE: u32 = 1_048_576;

/// What is answered for a file length: the plaintext bytes, or the code of the refusal. A type of its own, and no `Result`, since it is printed.
#[derive(Clone, Copy, PartialEq, Eq)]
pub enum Answer {
    Plaintext(u64),
    Refused(u8),
}

impl Answer {
    fn is_plaintext(self) -> bool
        ensures { result ≡ is_plaintext self }
    {
        matches!(self, Answer::Plaintext(_))
    }
}

impl fmt::Display for Answer {
    ghost output = { λ a. Some (answer_text a) };

    fn fmt<W: fmt::Write>(&self, f: &mut fmt::Formatter<W>) -> fmt::Result {
        match self {
            Answer::Plaintext(length) => write!(f, "{length}"),
            Answer::Refused(code) => write!(f, "refused {code}"),
        }
    }
}

/// A line of the list.
#[derive(Clone, Copy)]
pub struct Case {
    pub file_length: u64,
    pub answer: Answer,
}

/// Why a list is not read.
#[derive(Clone, Copy, Debug)]
pub enum ListError {
    /// The line after so many cases is no case, or has no end.
    NoCase { after: usize },
    OutOfMemory,
}

// `Display` and `From` are written out, since a derive promises neither the text nor which variant an error becomes; and `?` needs an impl for
// each of the allocator's two errors, since Rust admits none for both.
impl fmt::Display for ListError {
    fn fmt<W: fmt::Write>(&self, f: &mut fmt::Formatter<W>) -> fmt::Result {
        match self {
            ListError::NoCase { after } => write!(
                f,
                "the line after {after} cases is no case, or has no end"
            ),
            ListError::OutOfMemory => write!(f, "out of memory"),
        }
    }
}

impl Error for ListError {}

impl From<AllocError> for ListError {
    ghost from_gives = { λ _ r. r ≡ OutOfMemory };

    fn from(_error: AllocError) -> ListError {
        ListError::OutOfMemory
    }
}

impl<T: Drop> From<AllocFailed<T>> for ListError {
    ghost from_gives = { λ _ r. r ≡ OutOfMemory };

    fn from(_refused: AllocFailed<T>) -> ListError {
        ListError::OutOfMemory
    }
}

/// The number that a text writes in the way that numbers are printed: no sign, and no zero before other digits.
fn read_number(text: &str) -> Option<u64>
    ensures { Reads (λ n. n < 2 ^ 64) decimal text.now result }
{
    if text.starts_with('+') || (text.starts_with('0') && text.len() > 1) {
        return None;
    }
    text.parse::<u64>().ok()
}

/// The answer that the end of a line states.
fn read_answer(text: &str) -> Option<Answer>
    ensures { Reads AnswerFits answer_text text.now result }
{
    match text.strip_prefix("refused ") {
        Some(code) => Some(Answer::Refused(u8::try_from(read_number(code)?).ok()?)),
        None => Some(Answer::Plaintext(read_number(text)?)),
    }
}

/// The case that a line states.
fn read_case(line: &str) -> Option<Case>
    ensures { Reads CaseFits case_text line.now result }
{
    let (file_length, answer) = line.split_once(' ')?;
    Some(Case {
        file_length: read_number(file_length)?,
        answer: read_answer(answer)?,
    })
}

/// What the proved function answers for a file length.
fn proved(file_length: u64) -> Answer
    ensures { result ≡ answer_for file_length }
{
    match lengths::plaintext_length(file_length, BLOCK_SIZE) {
        Ok(length) => Answer::Plaintext(length),
        Err(e) => Answer::Refused(e.code().number()),
    }
}

/// Whether the proved function answers what the line states.
fn agrees(case: &Case) -> bool
    ensures value { result ≡ same_answer (answer_for case.now.file_length) case.now.answer }
    ensures law { Decides result (answer_for case.now.file_length ≡ case.now.answer) }
{
    proved(case.file_length) == case.answer
}

/// The cases of a list: one to a line, and each line with its end.
fn read_list(heap: Global, text: &str) -> Result<Vec<Case>, ListError>
    ensures { IfOk result (λ v. text.now ≡ list_text v.items) }
{
    let mut cases = Vec::new(heap);
    let mut rest = text;
    while let Some((line, after)) = rest.split_once('\n') {
        let no_case = ListError::NoCase { after: cases.len() };
        cases.push(read_case(line).ok_or(no_case)?)?;
        rest = after;
    }
    if !rest.is_empty() {
        return Err(ListError::NoCase { after: cases.len() });
    }
    Ok(cases)
}

/// How many cases state a plaintext.
fn answered(cases: &[Case]) -> usize
    ensures { result ≡ count_by (λ c. is_plaintext c.answer) cases.now }
{
    cases
        .iter()
        .filter(|case| case.answer.is_plaintext())
        .count()
}

/// How many cases state a refusal.
fn refused(cases: &[Case]) -> usize
    ensures { result ≡ count_by (λ c. not (is_plaintext c.answer)) cases.now }
{
    cases
        .iter()
        .filter(|case| !case.answer.is_plaintext())
        .count()
}

/// How many cases state another answer than the proved function's.
fn differing(cases: &[Case]) -> usize
    ensures { result ≡ count_by (λ c. not (agreed c)) cases.now }
{
    cases.iter().filter(|case| !agrees(case)).count()
}

/// Reads the list, compares each line, and prints what differs and how many lines there were.
fn replay(rt: &HostRuntime) -> anyhow::Result<()> {
    let text = io::read_to_string(rt.alloc(), rt.stdin())?;
    let cases = read_list(rt.alloc(), text.as_str())?;
    for case in cases.iter() {
        if !agrees(case) {
            let file_length = case.file_length;
            let listed = case.answer;
            let answer = proved(file_length);
            println!(rt;
                "{file_length}: the list has {listed}, the proved function answers {answer}"
            )?;
        }
    }
    let count = cases.len();
    let answered = answered(&cases);
    let refused = refused(&cases);
    let differing = differing(&cases);
    println!(rt;
        "{count} lengths replayed: {answered} answered, {refused} refused, {differing} differ"
    )?;
    if differing > 0 {
        return Err(anyhow!("some lengths differ"));
    }
    Ok(())
}

fn main(rt: HostRuntime) -> anyhow::Result<()> {
    replay(&rt)
}
