// Questions, which change nothing.
use crate::answer::Answer;
use crate::operation::{Child, Question};
use paths::Facts;

pub fn ask(facts: &Facts, question: Question, child: Child) -> Answer {
    let Child { parent, key } = child;
    if parent < 1 || facts.used < parent {
        return Answer::Skipped;
    }
    match question {
        Question::FindChild => Answer::Number(facts.links().find_child(parent, key).unwrap_or(0)),
        Question::Missing => Answer::Number(facts.links().missing(parent, key)),
        Question::HasRangeHint => Answer::Truth(marks::has_range_hint(facts, parent, key)),
    }
}
