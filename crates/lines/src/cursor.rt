// Text into an output.
ghost use Rattle.std.specs.Prelude.{◌≡◌, decimal};
ghost use Rattle.lines.specs.Cursors.{Put};

use itoa::Buffer;

// A place in an output. All text is counted, and what fits is written.
#[derive(Drop)]
pub(crate) struct Cursor<'a> {
    out: &'a mut [u8],
    // How many bytes came so far. It stands beside the output, whose length stays, since what does not fit is counted too.
    pub(crate) count: usize,
}

impl<'a> Cursor<'a> {
    pub(crate) fn new(out: &'a mut [u8]) -> Cursor<'a>
        ensures same_reference { result.out.ghost_name ≡ out.entry.ghost_name }
        ensures out { result.out.now ≡ out.old }
        ensures count { result.count ≡ 0 }
    {
        Cursor { out, count: 0 }
    }

    pub(crate) fn put(&mut self, text: &[u8])
        ensures { Put self.old text.now self.new }
    {
        let start = self.count;
        let end = start.saturating_add(text.len());
        let out = &mut *self.out;
        if end <= out.len() {
            out[start..end].copy_from_slice(text);
        }
        self.count = end;
    }

    // Puts a number in decimal. Many have one digit, which is put as it is.
    pub(crate) fn put_number(&mut self, n: usize)
        ensures { Put self.old (decimal n) self.new }
    {
        if n < 10 {
            return self.put(&[b'0' + n as u8]);
        }
        let mut digits = Buffer::new();
        self.put(digits.format(n).as_bytes());
    }
}
