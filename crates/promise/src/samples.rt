ghost use Rattle.promise.specs.Samples.{StatementIsSane};

// What is promised tells lawful samples from wrong ones: lawful transcripts keep it, and each wrong one breaks the part that
// is wrong and no other. It is a theorem: what it ensures is all.
pub fn statement_is_sane()
    ensures { StatementIsSane }
{}
