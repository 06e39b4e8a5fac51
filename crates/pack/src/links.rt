ghost use Rattle.std.specs.Prelude.{◌≡◌, ◌*◌, ◌<◌, ◌≤◌, length};
ghost use Rattle.disk.specs.Addresses.{page_named, real_address};
ghost use Rattle.survey.specs.Chains.{follower};
ghost use Rattle.pack.specs.Linking.{Surveyed, noted, LinksFound};

use disk::{Cylinders, PageAddress, Reader, RealAddress};
use survey::{Record, Verdict, next_link};

// The links of a page to those behind and before it in its chain; the word 0 where there is none, as labels
// have it.
#[derive(Clone, Copy, Default)]
pub(crate) struct Links {
    pub(crate) next: RealAddress,
    pub(crate) previous: RealAddress,
}

// The address by which labels name a page of the pack; no page of it lacks one.
fn address_of(page: PageAddress, cylinders: Cylinders) -> RealAddress
    requires { page.page < 24 * cylinders.count }
    ensures { result.word ≡ real_address page.page }
{
    page.real(cylinders).unwrap_or(RealAddress { word: 0 })
}

// Notes the links between a page and the one that follows it, if one does.
fn note<R: Reader>(links: &mut [Links; 9744], reader: &mut R, at: PageAddress)
    requires inside { at.page < length (R.Reader.medium reader.old).pages }
    ensures same { R.Reader.medium reader.new ≡ R.Reader.medium reader.old }
    ensures noted { links.new ≡ noted (follower (page_named (R.Reader.medium reader.old).cylinders) (R.Reader.medium reader.old).pages at.page) at.page links.old }
{
    let cylinders = reader.cylinders();
    let Some(label) = reader.read_label(at) else {
        return;
    };
    let Some(link) = next_link(reader, cylinders, label) else {
        return;
    };
    let here = at.page as usize;
    let there = link.page.page as usize;
    links[here] = Links {
        next: address_of(link.page, cylinders),
        ..links[here]
    };
    links[there] = Links {
        previous: address_of(at, cylinders),
        ..links[there]
    };
}

// The links of every chained page, by the table of a survey, in an array of fixed size, since no library
// crate allocates.
pub(crate) fn find_links<R: Reader>(reader: &mut R, table: &[Record]) -> [Links; 9744]
    requires surveyed { Surveyed (page_named (R.Reader.medium reader.old).cylinders) (R.Reader.medium reader.old).pages table.now }
    ensures same { R.Reader.medium reader.new ≡ R.Reader.medium reader.old }
    ensures found { LinksFound (page_named (R.Reader.medium reader.old).cylinders) (R.Reader.medium reader.old).pages result }
{
    let mut links = [Links::default(); 9744];
    for (page, record) in table.iter().enumerate() {
        if record.verdict == Verdict::Chained {
            note(&mut links, reader, PageAddress { page: page as u16 });
        }
    }
    links
}
