// Many records in one call, a stretch of tape: its types. Document 02, change 5. What such a call gives stands in specs/, with the theorem
// that it is the single calls; the proofs in proofs/. The code stands in `stretch_calls`.
#![tactic(auto)]

use book::Book;

// What a call of many records answers.
#[derive(Clone, Copy)]
pub enum StretchAnswer {
    // 0: whole records were played as far as the notice bytes go, also where a single call would get 1 or 2.
    Taken,
    // 19: the answer buffer is shorter than the number of whole records in the stretch; nothing was played.
    FewAnswers,
}

// What such a call returns: the answer, how many records were played, how many notices stand in the buffer, and the book afterwards.
#[derive(Clone, Copy)]
pub struct Replies {
    pub answer: StretchAnswer,
    pub played: usize,
    pub sent: usize,
    pub book: Book,
}
