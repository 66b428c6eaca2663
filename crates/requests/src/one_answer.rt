// That a request has one answer: each function has a theorem as its contract, and does nothing.
#![tactic(auto, using(crate::proofs::OneAnswer::one_answer))]

ghost use Rattle.requests.specs.OneAnswer.{NamingHasOneAnswer, TellingApartHasOneAnswer};

/// A request to name spots has one answer.
pub fn naming_has_one_answer()
    ensures { NamingHasOneAnswer }
{}

/// A request to tell groups apart has one answer.
pub fn telling_apart_has_one_answer()
    ensures { TellingApartHasOneAnswer }
{}
