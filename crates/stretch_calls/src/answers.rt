// The number of an answer; and the answers of a stretch on a book that is not well kept.
ghost use Rattle.std.specs.Prelude.{◌≡◌, ◌++◌, ◌≤◌, length, drop, replicate};
ghost use Rattle.stretch_rules.specs.Stretch.{number};

use premise::Refusal;
use stretch_rules::StretchAnswer;

// The number of an answer.
pub fn number_of(answer: StretchAnswer) -> u8
    ensures { result ≡ number answer }
{
    match answer {
        StretchAnswer::Taken => 0,
        StretchAnswer::FewAnswers => 19,
    }
}

// Answers so many records 2.
pub fn answer_unkept(records: usize, answers: &mut [u8])
    requires { records ≤ length answers.old }
    ensures { answers.new ≡ replicate records 2 ++ drop records answers.old }
{
    let unkept = premise_rows::number_of(Err(Refusal::NotWellKept));
    answers[..records].fill(unkept);
}
