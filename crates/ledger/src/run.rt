ghost use Rattle.ledger.specs.Runs.{RunLaws};

// What is proved of every run of planned writes.
pub fn run_laws()
    ensures { RunLaws }
{}
