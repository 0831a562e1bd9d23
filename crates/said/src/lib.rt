// What the compiler says of a sheet's book, in words on a page.
#![tactic(auto)]

ghost use Rattle.std.specs.Prelude.{◌≡◌, ◌<◌};
ghost use Rattle.prints.specs.Pages.{Added};
ghost use Rattle.told.specs.Told.{KindIn};
ghost use Rattle.said.specs.Said.{passes_line, where_text, clash_name, clash_names, clash_text, more_text};
ghost use Rattle.said.specs.Said.{refused_lines, said_lines};

use book::DONE;
use compiler::Compiled;
use kinds::has;
use marks::{add_mark, add_place};
use prints::Page;
use told::Named;
use verdict::CONFLICT;

// What the compiler answered for a sheet's book, a record of the C interface whose refusals are numbers, and the place
// on the sheet of the answer's node.
#[derive(Drop)]
pub struct Said<'a> {
    pub sheet: &'a [u8],
    pub book: Named<'a>,
    pub answer: Compiled,
    pub place: usize,
}

impl<'a> Said<'a> {
    // Adds the line of a book that passes.
    fn add_passes(&self, page: &mut Page)
        ensures { Added page.old page.new (passes_line self.now.answer.size) }
    {
        page.add(b"passes, a plan of");
        page.add_spaced(self.answer.size as u64);
        page.add(b" bytes\n");
    }

    // Adds the name of a kind, where it is one of those that clash.
    fn add_clash_name(&self, page: &mut Page, kind: usize)
        requires { KindIn self.now.book kind × (kind < 64) }
        ensures { Added page.old page.new
            (clash_name self.now.book self.now.answer.clash kind) }
    {
        if has(self.answer.clash, kind) {
            self.book.add_name(page, kind);
        }
    }

    // Adds the names of the kinds that clash.
    fn add_clash_names(&self, page: &mut Page)
        ensures { Added page.old page.new
            (clash_names self.now.book self.now.answer.clash) }
    {
        page.add_each(
            self.book.kinds(),
            |page, kind| self.add_clash_name(page, kind),
        );
    }

    // Adds what clashes.
    fn add_clash(&self, page: &mut Page, both: bool)
        ensures { Added page.old page.new
            (clash_text self.now.book both self.now.answer.clash) }
    {
        page.add(b":");
        page.add_where(both, b" both sides can take nothing");
        page.add_where(both & (self.answer.clash != 0), b",");
        self.add_clash_names(page);
    }

    // Adds what more is said of a refusal.
    fn add_more(&self, page: &mut Page)
        ensures { Added page.old page.new (more_text self.now.book self.now.answer) }
    {
        if self.answer.number == CONFLICT {
            self.add_clash(page, self.answer.both == 1);
        }
    }

    // Adds number and node of a refusal, and line and column of the node's place.
    fn add_where(&self, page: &mut Page)
        ensures { Added page.old page.new
            (where_text self.now.sheet.now self.now.answer self.now.place) }
    {
        page.add(b"refused");
        page.add_spaced(self.answer.number as u64);
        page.add(b" node");
        page.add_spaced(self.answer.place as u64);
        add_place(page, self.sheet, self.place);
    }

    // Adds the lines of a refusal.
    fn add_refused(&self, page: &mut Page)
        ensures { Added page.old page.new
            (refused_lines self.now.book self.now.sheet.now self.now.answer self.now.place) }
    {
        self.add_where(page);
        self.add_more(page);
        page.add(b"\n");
        add_mark(page, self.sheet, self.place);
    }

    // Adds all that is said.
    pub fn add_lines(&self, page: &mut Page)
        ensures { Added page.old page.new
            (said_lines self.now.book self.now.sheet.now self.now.answer self.now.place) }
    {
        if self.answer.number == DONE {
            self.add_passes(page);
        } else {
            self.add_refused(page);
        }
    }
}
