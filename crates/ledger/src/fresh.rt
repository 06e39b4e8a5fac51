ghost use Rattle.ledger.specs.Formats.{NewPackExamples, WorkedExamples};

// What is proved of a new pack of one cylinder.
pub fn new_pack_examples()
    ensures { NewPackExamples }
{}

// What is proved of addresses and of a new pack of one cylinder, number by number.
pub fn worked_examples()
    ensures { WorkedExamples }
{}
