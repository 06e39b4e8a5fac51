ghost use Rattle.ledger.specs.Frames.{Frames};

// What is proved of writes that change no chain, on every pack.
pub fn frame_laws()
    ensures { Frames }
{}
