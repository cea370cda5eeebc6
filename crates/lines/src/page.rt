// A page of lent bytes that a text is put on.
ghost use Rattle.std.specs.Prelude.{◌≡◌, ℕ, ◌≤◌, length};

// The first `end` bytes are the text. Those behind it are as they were lent. No Model: clauses name the bytes behind the
// text and the lender too.
#[derive(Drop)]
pub struct Page<'a> {
    pub(crate) bytes: &'a mut [u8],
    pub(crate) end: usize,
    ghost inside: { end ≤ length bytes.now },
}

// No longest line fits behind the text.
#[derive(Clone, Copy, PartialEq, Eq, Debug)]
pub struct NoRoom;

impl<'a> Page<'a> {
    ghost use Rattle.lines.specs.Page.{text, room, StartsIn};

    // A page with no text.
    pub fn new(bytes: &'a mut [u8]) -> Page<'a>
        ensures starts { StartsIn bytes.old result }
        ensures lender { result.bytes.ghost_name ≡ bytes.entry.ghost_name }
    {
        Page { bytes, end: 0 }
    }

    // How long the text is.
    pub fn len(&self) -> usize
        ensures { result ≡ length (text self.now) }
    {
        self.end
    }

    // How many bytes stand behind the text.
    pub(crate) fn room(&self) -> usize
        ensures { result ≡ room self.now }
    {
        self.bytes.len() - self.end
    }
}
