// Bytes put behind the text of a page.
ghost use Rattle.std.specs.Prelude.{◌≡◌, ℕ, ◌≤◌, [], ◌∷◌, length};
ghost use Rattle.lines.specs.Page.{HasRoom, Adds};

use crate::page::Page;

impl Page<'_> {
    #[inline(always)]
    pub(crate) fn put_byte(&mut self, byte: u8)
        requires { HasRoom self.old (byte ∷ []) }
        ensures { Adds self.old (byte ∷ []) self.new }
    {
        self.bytes[self.end] = byte;
        self.end += 1;
    }

    #[inline(always)]
    pub(crate) fn put_text(&mut self, text: &[u8])
        requires { HasRoom self.old text.now }
        ensures { Adds self.old text.now self.new }
    {
        let end = self.end + text.len();
        let bytes = &mut *self.bytes;
        bytes[self.end..end].copy_from_slice(text);
        self.end = end;
    }
}
