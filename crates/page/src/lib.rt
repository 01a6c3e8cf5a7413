// A page: a lent buffer that a text is put into, piece behind piece.
#![tactic(auto)]

ghost use Rattle.std.specs.Prelude.{◌≡◌, [], ◌∷◌, ◌≤◌, leb, length, take};
ghost use Rattle.paper.specs.Decimal.{last_digits};

// The buffer, and how many of its bytes are written. What a page shows stands in specs/.
#[derive(Drop)]
pub struct Page<'a> {
    bytes: &'a mut [u8],
    end: usize,
    pub ghost inside: { end ≤ length bytes.now },
}

// The last digits of a number, as many as there are bytes, from the last one back.
fn fill_digits(bytes: &mut [u8], number: usize)
    ensures { bytes.new ≡ last_digits (length bytes.old) number }
{
    let mut front = number;
    for left in (0..bytes.len()).rev() {
        bytes[left] = b'0' + (front % 10) as u8;
        front /= 10;
    }
}

impl<'a> Page<'a> {
    ghost use Rattle.page.specs.Page.{shown, blank, with_text};

    // A page with nothing on it.
    #[inline]
    pub fn on(bytes: &'a mut [u8]) -> Page<'a>
        ensures { shown result ≡ blank (length bytes.old) bytes.entry.ghost_name }
    {
        Page { bytes, end: 0 }
    }

    // What was put on it.
    #[inline]
    pub fn text(&self) -> &[u8]
        ensures { result.now ≡ (shown self.now).text }
    {
        &self.bytes[..self.end]
    }

    // How many bytes more it takes.
    #[inline]
    pub fn room(&self) -> usize
        ensures { result ≡ (shown self.now).room }
    {
        self.bytes.len() - self.end
    }

    // Whether it takes so many.
    #[inline]
    pub fn takes(&self, more: usize) -> bool
        ensures { result ≡ leb more (shown self.now).room }
    {
        more <= self.room()
    }

    // The text goes, and the page is as it began.
    #[inline]
    pub fn clear(&mut self)
        ensures { shown self.new ≡ blank (shown self.old).capacity (shown self.old).lent }
    {
        self.end = 0;
    }

    // One byte more.
    #[inline]
    pub fn push(&mut self, byte: u8)
        requires { 1 ≤ (shown self.old).room }
        ensures { shown self.new ≡ with_text (byte ∷ []) (shown self.old) }
    {
        self.bytes[self.end] = byte;
        self.end += 1;
    }

    // A text more.
    #[inline]
    pub fn put_text(&mut self, text: &[u8])
        requires { length text.now ≤ (shown self.old).room }
        ensures { shown self.new ≡ with_text text.now (shown self.old) }
    {
        let end = self.end + text.len();
        self.bytes[self.end..end].copy_from_slice(text);
        self.end = end;
    }

    // The last of so many digits of a number.
    #[tactic(auto, using(crate::proofs::Digits::length_digits))]
    pub fn put_digits(&mut self, count: usize, number: usize)
        requires { count ≤ (shown self.old).room }
        ensures { shown self.new ≡ with_text (last_digits count number) (shown self.old) }
    {
        let end = self.end + count;
        fill_digits(&mut self.bytes[self.end..end], number);
        self.end = end;
    }
}

// A text at the front of a lent buffer, by a page that is gone when it returns: what was put on the page is there. Answers how many bytes that is.
pub fn put_front(bytes: &mut [u8], text: &[u8]) -> usize
    requires { length text.now ≤ length bytes.old }
    ensures value { result ≡ length text.now }
    ensures front { take result bytes.new ≡ text.now }
    ensures same_length { length bytes.new ≡ length bytes.old }
{
    let mut page = Page::on(bytes);
    page.put_text(text);
    page.text().len()
}
