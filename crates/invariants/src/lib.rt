// What every admitted call keeps, proved of the rules themselves. No code calls these functions: the contract of each is a theorem,
// which the check so asks a proof of. The lemmas are there for the proofs of other crates.
#![tactic(auto)]

ghost use Rattle.rules.specs.Earliest.{OneEarliest};
ghost use Rattle.rules.specs.Fit.{StaysFit, SendsLawful, EachStaysFit};
ghost use Rattle.rules.specs.Sound.{StaysSound};

// What fire carries out is the one due item that nothing due comes before.
fn one_earliest()
    ensures { OneEarliest }
{}

// No admitted call lets a connection's numbers outgrow their types.
fn stays_sound()
    ensures { StaysSound }
{}

// A new engine is fit, and no admitted call leaves a connection that is not.
fn stays_fit()
    ensures { StaysFit }
{}

// What an admitted call sends from a fit engine is within the frame's rules, and a place is free for it.
fn sends_lawful()
    ensures { SendsLawful }
{}

// The same of each connection by itself.
fn each_stays_fit()
    ensures { EachStaysFit }
{}
