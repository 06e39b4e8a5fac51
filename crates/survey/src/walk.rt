ghost use Rattle.std.specs.Prelude.{◌≡◌, ◌≤◌, true, length, Some, All};
ghost use Rattle.disk.specs.Addresses.{page_named};
ghost use Rattle.survey.specs.Chains.{is_leader, joins, rivalled};
ghost use Rattle.survey.specs.Steps.{Linked, Marked, MarkedAll};

use crate::table::{Record, Verdict};
use crate::trace::Link;
use disk::{Cylinders, Label, PageAddress, Reader};

// Whether a page with label `m` goes on where one with label `l` ends.
fn is_joined(l: Label, m: Label) -> bool
    ensures { result ≡ joins (Some l) (Some m) }
{
    m.is_file() && l.id() == m.id() && l.number.checked_add(1) == Some(m.number)
}

// The page that follows one with that label.
pub fn next_link<R: Reader>(reader: &mut R, cylinders: Cylinders, label: Label) -> Option<Link>
    ensures answer { Linked (page_named cylinders.count) (R.Reader.medium reader.old).pages label result }
    ensures same { R.Reader.medium reader.new ≡ R.Reader.medium reader.old }
{
    if label.characters != 512 {
        return None;
    }
    let page = label.next.page(cylinders)?;
    if page.page == 0 {
        return None;
    }
    let behind = reader.read_label(page)?;
    is_joined(label, behind).then_some(Link {
        page,
        label: behind,
    })
}

// Marks the pages of the chain of a leader with it, page after page. A reader and a table stay two
// parameters, and the room in the table a clause of both walks: a struct of two borrows for them would be
// made once, and taken apart at its first use.
fn walk<R: Reader>(reader: &mut R, table: &mut [Record], leader: PageAddress)
    requires room { length (R.Reader.medium reader.old).pages ≤ length table.old }
    requires leads { is_leader (R.Reader.medium reader.old).pages leader.page ≡ true }
    ensures same { R.Reader.medium reader.new ≡ R.Reader.medium reader.old }
    ensures marked { Marked (page_named (R.Reader.medium reader.old).cylinders) (R.Reader.medium reader.old).pages leader.page table.old table.new }
{
    let cylinders = reader.cylinders();
    let label = reader.read_label(leader);
    let mut next = label.map(|label| Link {
        page: leader,
        label,
    });
    while let Some(at) = next {
        table[at.page.page as usize] = Record::filed(Verdict::Chained, leader, at.label);
        next = next_link(reader, cylinders, at.label);
    }
}

// Marks the chains of these leaders, on a pack without rivals.
pub(crate) fn walk_all<R: Reader>(reader: &mut R, table: &mut [Record], leaders: &[PageAddress])
    requires room { length (R.Reader.medium reader.old).pages ≤ length table.old }
    requires leaders { All (λ a. is_leader (R.Reader.medium reader.old).pages a.page ≡ true) leaders.now }
    requires no_rivals { rivalled (R.Reader.medium reader.old).pages ≡ 0 }
    ensures same { R.Reader.medium reader.new ≡ R.Reader.medium reader.old }
    ensures marked { MarkedAll (page_named (R.Reader.medium reader.old).cylinders) (R.Reader.medium reader.old).pages leaders.now table.old table.new }
{
    for leader in leaders {
        walk(reader, table, *leader);
    }
}
