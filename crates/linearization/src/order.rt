ghost use Rattle.linearization.specs.Transcripts.{MachineKeepsOrder};

// Whatever calls are given to a run of the machine, and whatever workers its pickers name, what is told is well told and
// in order by points, and closing leaves what the points leave. It is a theorem: what it ensures is all.
pub fn machine_keeps_order<T>()
    ensures { MachineKeepsOrder T }
{}
