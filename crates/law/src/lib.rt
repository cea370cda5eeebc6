// The law of whole runs, proved of the rules themselves. No code calls these functions: the contract of each is a theorem, which
// the check so asks a proof of. The lemmas are there for the proofs of other crates.
#![tactic(auto)]

ghost use Rattle.law.specs.AboutRuns.{NeverStuck, Beginnings, Appends, FiringsStop};
ghost use Rattle.law.specs.Runs.{KnownRuns};
ghost use Rattle.law.specs.Law.{EveryRun};

// Whatever the wait, the calls and the link: the reports are accounted for, an ended connection's account makes up its whole
// answered time, and the give-up limit is kept.
fn law_stands()
    ensures { EveryRun }
{}

// The law speaks of something: from a fit engine, every list of calls has a run.
fn never_stuck()
    ensures { NeverStuck }
{}

// Every beginning of a run is a run, so the law holds at each call of one.
fn beginnings_are_runs()
    ensures { Beginnings }
{}

// By the rules, what a timed call sends is appended to what waits.
fn sends_are_appended()
    ensures { Appends }
{}

// No more firings at one tick are admitted in a row than there can be timers.
fn firings_stop()
    ensures { FiringsStop }
{}

// The sample runs are runs by the rules, and their accounts show what the journal has.
fn known_runs_stand()
    ensures { KnownRuns }
{}
