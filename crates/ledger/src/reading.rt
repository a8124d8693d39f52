ghost use Rattle.ledger.specs.Reading.{ReadsBack};

// Numbers, elements and a sheet's lines are read back as they were written. It is a theorem: what it ensures is all.
pub fn reads_back()
    ensures { ReadsBack }
{}
