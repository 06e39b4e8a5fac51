ghost use Rattle.std.specs.Prelude.{Some};
ghost use Rattle.disk.specs.Sizes.{Sized, no_such_size};

use crate::cylinders::Cylinders;
use std::fmt;

// A number of cylinders that no pack has.
#[derive(Clone, Copy, PartialEq, Eq, Debug)]
pub struct NoSuchSize(pub u16);

impl TryFrom<u16> for Cylinders {
    type Error = NoSuchSize;

    ghost try_from_gives = { Sized };

    fn try_from(count: u16) -> Result<Cylinders, NoSuchSize> {
        Cylinders::new(count).ok_or(NoSuchSize(count))
    }
}

impl fmt::Display for NoSuchSize {
    ghost output = { λ x. Some (no_such_size x) };

    fn fmt<W: fmt::Write>(&self, f: &mut fmt::Formatter<W>) -> fmt::Result {
        let count = self.0;
        write!(f, "a pack has 1 to 406 cylinders, not {count}")
    }
}
