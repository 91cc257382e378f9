// What people ask a program first: its version, and what it does.
ghost use Rattle.std.specs.Prelude.{◌≡◌, IfOk, true};
ghost use Rattle.std.specs.String.{string_bytes};
ghost use Rattle.site_sentences.specs.Lines.{is_sentence};
ghost use Rattle.site_sentences.specs.Questions.{AnswerSays, answer_line, asked, asked_by};
ghost use Rattle.site_sentences.specs.declared.questions.Question.TheVariants as question;

use crate::lines::COMMANDS;
use site_base::Words;
use std::alloc::{AllocError, Global};

/// What a command line may ask in place of giving a command.
#[derive(Clone, Copy, Debug, PartialEq, Eq)]
pub enum Question {
    /// Which version of the program this is.
    Version,
    /// What the program does, and by which commands.
    Help,
}

/// The question that the words of a command line ask: they are one word, and it is that of a question.
pub fn asked(words: &Words) -> Option<Question>
    ensures { result ≡ asked words.now }
{
    if words.len() == 1 {
        asked_by(words.at(0))
    } else {
        None
    }
}

fn asked_by(word: &str) -> Option<Question>
    ensures { result ≡ asked_by word.now }
{
    if word == "--version" || word == "-V" {
        Some(Question::Version)
    } else if word == "--help" || word == "-h" || word == "help" {
        Some(Question::Help)
    } else {
        None
    }
}

/// The answer to a question: a line with the version; or a line that says what the program does, with the commands below it.
pub fn answer(alloc: Global, question: Question) -> Result<String, AllocError>
    ensures { IfOk result (λ text. AnswerSays question (string_bytes text)) }
{
    match question {
        Question::Version => told_version(alloc),
        Question::Help => help(alloc),
    }
}

fn version() -> &'static str
    ensures { is_sentence result.now ≡ true }
{
    "0.6.1"
}

fn told_version(alloc: Global) -> Result<String, AllocError>
    ensures { IfOk result (λ text. AnswerSays question.Version (string_bytes text)) }
{
    answer_line(alloc, version())
}

fn purpose() -> &'static str
    ensures { is_sentence result.now ≡ true }
{
    "builds the Jekyll site in the current folder into the folder _site, and is proved to build it right"
}

fn help(alloc: Global) -> Result<String, AllocError>
    ensures { IfOk result (λ text. AnswerSays question.Help (string_bytes text)) }
{
    let mut text = answer_line(alloc, purpose())?;
    text.push_str(COMMANDS)?;
    Ok(text)
}

fn answer_line(alloc: Global, sentence: &str) -> Result<String, AllocError>
    ensures { IfOk result (λ text. string_bytes text ≡ answer_line sentence.now) }
{
    format!(in alloc; "sitebuild {sentence}\n")
}
