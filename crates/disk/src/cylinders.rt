ghost use Rattle.std.specs.Prelude.{◌≡◌, ◌*◌, ◌≤◌, MatchOption};

// How many cylinders a pack has: 1 to 406, and no other number.
#[derive(Clone, Copy, PartialEq, Eq, Debug)]
pub struct Cylinders {
    count: u16,
    ghost fits: { (1 ≤ count) × (count ≤ 406) },
}

impl Cylinders {
    // None for a number that no pack has; `try_from` says which one it was.
    pub fn new(count: u16) -> Option<Cylinders>
        ensures { MatchOption result (1 ≤ count → count ≤ 406 → ⊥) (λ c. c.count ≡ count) }
    {
        if 1 <= count && count <= 406 {
            Some(Cylinders { count })
        } else {
            None
        }
    }

    pub fn count(self) -> u16
        ensures { result ≡ self.count }
    {
        self.count
    }

    // How many pages that makes: two heads of 12 sectors a cylinder.
    pub fn pages(self) -> u16
        ensures { result ≡ 24 * self.count }
    {
        24 * self.count()
    }
}
