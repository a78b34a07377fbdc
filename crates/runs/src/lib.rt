// Laws over whole runs. Each is the contract of a function, so that the check asks for its proof.
#![tactic(auto)]

ghost use Rattle.runs.specs.Chains.{AllChainsDecide, CountWithin, LargerAgree};
ghost use Rattle.runs.specs.Ending.{CodesDiffer, EndsLeave};
ghost use Rattle.runs.specs.Keeping.{FilesKeep, RunsKeep};
ghost use Rattle.runs.specs.Stack.{CallsReturn, PopsReturn};

// How a run ends, and with which count, is decided by chains of instructions of which none ends the run.
pub fn chains_decide()
    ensures { AllChainsDecide }
{}

// A run that ends by itself is the same under every larger budget.
pub fn larger_budgets_agree()
    ensures { LargerAgree }
{}

pub fn count_is_within_budget()
    ensures { CountWithin }
{}

// Where P stands at each end, and that all else is as before the instruction; no two ends have one code.
pub fn ends_leave()
    ensures leave { EndsLeave }
    ensures codes { CodesDiffer }
{}

// Lengths stay, bytes stay bytes, and registers stay below 2 ^ 64.
pub fn runs_keep()
    ensures { RunsKeep }
{}

// A compartment's run keeps both lengths, and the entries of registers that are not saved.
pub fn files_keep()
    ensures { FilesKeep }
{}

// A pop gives back what was pushed, and a ret what a call pushed.
pub fn stack_returns()
    ensures pops { PopsReturn }
    ensures calls { CallsReturn }
{}
