ghost use Rattle.machine.specs.WorkedRuns.{WorkedRuns};

// The worked runs come out of the definitions as they are written down. It is a theorem: what it ensures is all.
#[tactic(auto, unfolding(promise::specs::Maps::put))]
pub fn worked_runs()
    ensures { WorkedRuns }
{}
