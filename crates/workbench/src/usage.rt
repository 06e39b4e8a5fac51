pub const USAGE: &str = "workbench: images of Alto disk packs

  workbench pages IMAGE             a line for each page: its label, whether its data can be read,
                                    and which file it belongs to
  workbench survey IMAGE            how many pages are reserved, free, chained, stray and aside
  workbench table IMAGE             the survey in plain numbers, a line a page:
                                    PAGE VERDICT LEADER VERSION SERIAL1 SERIAL2 NUMBER
  workbench map IMAGE               a row of 24 characters a cylinder
  workbench map IMAGE --file PAGE   the same, with the pages of the file that PAGE is in, in order
  workbench format CYLINDERS OUT    writes the image of a new pack, with all pages free but those of
                                    its directory SYSDIR
  workbench scavenge IMAGE OUT      mends the pack in a copy and writes that: chained pages are linked
                                    both ways, and stray pages are free. It tells what it found and
                                    did; with --dry-run behind it writes nothing, and OUT may be left out
  workbench help                    this text

IMAGE is the file of a pack image. No command alters it. OUT is written whole or not at all: to OUT.new,
which then takes its name. An OUT or OUT.new that is there already is replaced only with --force behind.
A command that fails says why in one line on standard error and ends with status 1; a refusal is shown
as refused NUMBER PLACE PAGE.
";
