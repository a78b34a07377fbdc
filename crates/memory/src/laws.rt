// Laws of the definitions, each the contract of a function so that the check asks for its proof.
ghost use Rattle.memory.specs.Laws.{AccessesStand};

// What is stored is loaded again, and nothing else changes.
pub fn accesses_stand()
    ensures { AccessesStand }
{}
