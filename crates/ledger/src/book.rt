ghost use Rattle.ledger.specs.Examples.{BookExamples};

// What is proved of calls, cuts, traces and books on a pack of one cylinder.
pub fn book_examples()
    ensures { BookExamples }
{}
