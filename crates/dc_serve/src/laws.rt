//! Laws of the plain server and of runs: functions with no body whose contracts are theorems.

ghost use Rattle.dc_lang.specs.Phases.{in_order};
ghost use Rattle.dc_serve.specs.Serving.{AnswersAreOfARun, TreeIsOfARun, opening, replies_in};
ghost use Rattle.dc_serve.specs.Turns.{OneSessionIsPlain};

/// What the plain server answers to orders, one after the other, is a run of the plain tree.
pub fn replies_are_those_of_a_run()
    ensures answers { AnswersAreOfARun }
    ensures tree { TreeIsOfARun }
{}

/// If one session alone has commands, each run of them tells what the plain server answers.
pub fn one_session_is_answered_plainly()
    ensures { OneSessionIsPlain (λ phases limit. replies_in (opening limit) (in_order phases)) }
{}
