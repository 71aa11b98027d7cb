//! What events give: each function's contract is a law.
ghost use Rattle.run_laws.specs.Answers.{CallsAnswerAlike, EventsAnswerAlike};

/// A call is answered alike by the bytes of a written member and by the symbols of its program: it
/// reaches the same address and leaves states that agree, or it is refused for the same reason.
pub fn calls_answer_alike()
    ensures { CallsAnswerAlike }
{}

/// Each event is answered alike: a call, a store, the resident segments, and a dump.
pub fn events_answer_alike()
    ensures { EventsAnswerAlike }
{}
