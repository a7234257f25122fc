//! The lines that only a script that is played has.
ghost use Rattle.std.specs.Prelude.{◌≡◌, IfOk};
ghost use Rattle.scmgc.specs.Questions.{IsAnswerTo, question_of, questions};
ghost use Rattle.scm_lines.specs.Keywords.{meaning};

use crate::play::help::HELP;
use crate::play::who::holders;
use af_report::graph;
use af_steps::Engine;
use scm_lines::only_word;
use std::alloc::{AllocError, Global};

/// A line that asks about the world, or about the language. It changes nothing.
#[derive(Clone, Copy)]
pub enum Question {
    /// `who`: what holds each file?
    Who,
    /// `graph`: what is the picture of the world?
    Graph,
    /// `help`: which lines are there?
    Help,
}

/// Returns the question that a word asks, if it asks one.
fn question_named(word: &[u8]) -> Option<Question>
    ensures { result ≡ meaning questions word.now }
{
    match word {
        b"who" => Some(Question::Who),
        b"graph" => Some(Question::Graph),
        b"help" => Some(Question::Help),
        _ => None,
    }
}

/// Returns the question of a line, if it asks one. Blanks may surround the word.
pub fn question_of(bytes: &[u8]) -> Option<Question>
    ensures { result ≡ question_of bytes.now }
{
    question_named(only_word(bytes)?)
}

/// Makes the answer to a question.
pub fn answer_to(alloc: Global, engine: &Engine, question: Question) -> Result<Vec<u8>, AllocError>
    ensures { IfOk result (λ text. IsAnswerTo engine.now.world question text.items) }
{
    match question {
        Question::Who => holders(alloc, engine),
        Question::Graph => graph(alloc, engine),
        Question::Help => HELP.as_bytes().to_vec(alloc),
    }
}
