//! The law over the pasts of a tree, and the worked examples: functions that only stand for their contracts.
#![tactic(auto)]

ghost use Rattle.law.specs.Examples.{AllExamples};
ghost use Rattle.law.specs.GoingOn.{CallsHaveOutcomes, PastsGoOn};
ghost use Rattle.law.specs.Law.{Law};

/// The law over pasts: a running server has its power on and zeros in its free slots, the chain is the cover, a number opens
/// once and as its own, and servers that agree answer alike.
pub fn law_stands()
    ensures { Law }
{}

/// Each call has an outcome without a cut wherever the power is on, so each past can go on.
pub fn pasts_go_on()
    ensures calls { CallsHaveOutcomes }
    ensures pasts { PastsGoOn }
{}

/// Widths, covers, lifetimes and a puncture on a narrow device, worked out by the definitions.
pub fn examples_stand()
    ensures { AllExamples }
{}
