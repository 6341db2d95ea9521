//! Rules with a closure that answers for them, and what is known of its answers.
ghost use Rattle.std.specs.Prelude.{◌≡◌};
ghost use Rattle.suppress.specs.Rules as held;
ghost use Rattle.suppress.specs.Hold.{MayBeAsked, AnswersFor, answers_once};

use crate::case::Case;
use crate::rules::Rules;

/// A closure that is handed a case, and answers whether it is held.
pub type Holder = Box<dyn Fn(Case) -> bool + Drop>;

/// Rules, and a closure that may be called for each case and answers whether they hold it.
#[derive(Drop)]
pub struct Hold {
    rules: Rules,
    holder: Holder,
    ghost asked: { MayBeAsked (Holder.pre holder) },
    ghost answers: { AnswersFor rules (Holder.post holder) } by { answers_once rules _ },
}

impl Hold {
    /// These rules, with a closure that answers for each case whether they hold it.
    pub fn new(rules: Rules, holder: Holder) -> Hold
        requires asked { MayBeAsked (Holder.pre holder) }
        requires answers { AnswersFor rules (Holder.post holder) }
        ensures { result.rules ≡ rules }
    {
        Hold { rules, holder }
    }

    /// The rules.
    pub fn rules(&self) -> &Rules
        ensures { result.now ≡ self.now.rules }
    {
        &self.rules
    }

    /// Whether the rules hold the case, as the closure answers.
    pub fn asks(&self, case: Case) -> bool
        ensures { result ≡ held.holds self.now.rules case }
    {
        (self.holder)(case)
    }
}
