// The lines.
ghost use Rattle.std.specs.Prelude.{ℕ, List, ◌++◌, codes};
ghost use Rattle.fields.specs.Refusals.{code};
ghost use Rattle.lines.specs.Lines.{header_line, refusal_line, spaced};
ghost use Rattle.lines.specs.Cursors.{Put};

use crate::cursor::Cursor;
use fields::refusal::Refusal;

// What is printed as a line. It is no `Display`, whose clauses let `fmt` fail where its writer does not.
pub(crate) trait Line {
    ghost text: { Self → List ℕ };

    fn print(&self, cursor: &mut Cursor<'_>)
        ensures { Put cursor.old (text self.now) cursor.new };
}

#[derive(Clone, Copy)]
pub(crate) struct HeaderLine<'a> {
    pub(crate) index: usize,
    pub(crate) rules: &'a [u8],
    pub(crate) hits: usize,
}

impl HeaderLine<'_> {
    // The rules' numbers with a space before each, or a space and a dash where there is none.
    fn print_rules(&self, cursor: &mut Cursor<'_>)
        ensures { Put cursor.old (codes " " ++ spaced self.now.rules.now) cursor.new }
    {
        if self.rules.is_empty() {
            return cursor.put(b" -");
        }
        for rule in self.rules {
            cursor.put(b" ");
            cursor.put_number(usize::from(*rule));
        }
    }
}

impl Line for HeaderLine<'_> {
    ghost text = { λ l. header_line l.index l.rules.now l.hits };

    fn print(&self, cursor: &mut Cursor<'_>) {
        cursor.put_number(self.index);
        cursor.put(b":");
        self.print_rules(cursor);
        cursor.put(b" / ");
        cursor.put_number(self.hits);
        cursor.put(b"\n");
    }
}

impl Line for Refusal {
    ghost text = { λ e. refusal_line (code e) };

    fn print(&self, cursor: &mut Cursor<'_>) {
        cursor.put(b"refused ");
        cursor.put_number(usize::from(self.number()));
        cursor.put(b"\n");
    }
}
