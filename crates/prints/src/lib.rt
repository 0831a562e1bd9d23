// A page: a lent buffer on which bytes and numbers are written one after the other, as far as there is room.
#![tactic(auto)]

ghost use Rattle.std.specs.Prelude.{◌≡◌, ℕ, List, cond, []};
ghost use Rattle.prints.specs.Digits.{digits_of, spaced};
ghost use Rattle.words.specs.Lists.{lists_from};
ghost use Rattle.prints.specs.Prints.{spaces};
ghost use Rattle.prints.specs.Pages.{Added, CallableBelow, AddsBelow};

// A lent buffer, and how much of it is written, from its start on.
#[derive(Drop)]
pub struct Page<'a> {
    out: &'a mut [u8],
    at: usize,
}

impl<'a> Page<'a> {
    // A page on which nothing is written.
    pub fn new(out: &'a mut [u8]) -> Page<'a>
        ensures same { result.out.ghost_name ≡ out.entry.ghost_name }
        ensures was { result.out.now ≡ out.old }
        ensures blank { result.at ≡ 0 }
    {
        Page::from(out, 0)
    }

    // A page of which so much is written; beyond the buffer's end nothing can be added.
    pub fn from(out: &'a mut [u8], at: usize) -> Page<'a>
        ensures same { result.out.ghost_name ≡ out.entry.ghost_name }
        ensures was { result.out.now ≡ out.old }
        ensures written { result.at ≡ at }
    {
        Page { out, at }
    }

    // How much is written.
    pub fn len(&self) -> usize
        ensures { result ≡ self.now.at }
    {
        self.at
    }

    // Adds bytes. Where all have room they are copied by their own length: a short text then takes no call.
    #[inline(always)]
    pub fn add(&mut self, bytes: &[u8])
        ensures { Added self.old self.new bytes.now }
    {
        let Page { out, at } = self;
        let from = (*at).min(out.len());
        let room = out.len() - from;
        if bytes.len() <= room {
            out[from..from + bytes.len()].copy_from_slice(bytes);
            *at = from + bytes.len();
        } else {
            out[from..from + room].copy_from_slice(&bytes[..room]);
            *at = from + room;
        }
    }

    // Adds bytes where a test holds, else none.
    pub fn add_where(&mut self, test: bool, bytes: &[u8])
        ensures { Added self.old self.new (cond test bytes.now []) }
    {
        if test {
            self.add(bytes);
        }
    }

    // Adds a number's decimal digits.
    pub fn add_number(&mut self, value: u64)
        ensures { Added self.old self.new (digits_of value) }
    {
        if value >= 10 {
            self.add_number(value / 10);
        }
        self.add(&[b'0' + (value % 10) as u8]);
    }

    // Adds a space and a number.
    pub fn add_spaced(&mut self, value: u64)
        ensures { Added self.old self.new (spaced value) }
    {
        self.add(b" ");
        self.add_number(value);
    }

    // Adds so many spaces.
    pub fn add_spaces(&mut self, count: usize)
        ensures { Added self.old self.new (spaces count) }
    {
        let Page { out, at } = self;
        let from = (*at).min(out.len());
        let end = from + count.min(out.len() - from);
        out[from..end].fill(b' ');
        *at = end;
    }

    // Adds something for each number below a count.
    pub fn add_each<F: Fn(&mut Page, usize)>(&mut self, count: usize, add: F)
        requires { CallableBelow (F.pre add) count }
        ensures { (list : ℕ → List ℕ)
            → AddsBelow (F.post add) count list
            → Added self.old self.new (lists_from list count 0) }
    {
        for n in 0..count {
            add(self, n);
        }
    }
}
