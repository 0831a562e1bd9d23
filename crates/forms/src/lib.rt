// Forms: contents first, then sections one after the other. A form is the list of its sections' sizes.
#![tactic(auto)]

ghost use Rattle.std.specs.Prelude.{◌≡◌, [], ◌∷◌, ◌+◌, ◌≤◌, ◌<◌, length};
ghost use Rattle.std.proofs.lemmas.List.Edits.{sets};
ghost use Rattle.words.specs.Words.{word_bytes};
ghost use Rattle.forms.specs.Forms.{contents_size, contents_of, contents_are, form_size, words_are};

use words::{put_u16, u16_at};

// The size of the contents of so many sections.
pub fn contents_size(sections: usize) -> usize
    requires { sections < 65536 }
    ensures { result ≡ contents_size sections }
{
    2 + 6 * sections
}

// A contents entry: a section's number, its offset and its size.
#[derive(Clone, Copy)]
struct Entry {
    section: usize,
    offset: usize,
    size: usize,
}

impl Entry {
    // Whether it stands in bytes at a place.
    fn stands(self, bytes: &[u8], at: usize) -> bool
        requires { at + 6 ≤ length bytes.now }
        ensures { result ≡ words_are bytes.now at (self.section ∷ self.offset ∷ self.size ∷ []) }
    {
        u16_at(bytes, at) == self.section
            && u16_at(bytes, at + 2) == self.offset
            && u16_at(bytes, at + 4) == self.size
    }

    // Writes it into bytes at a place.
    #[tactic(auto, using(crate::proofs::Entries::entry_stored))]
    fn put(self, bytes: &mut [u8], at: usize)
        requires { (at + 6 ≤ length bytes.old) × (self.section < 65536) × (self.offset < 65536) × (self.size < 65536) }
        ensures { bytes.new ≡ sets bytes.old at (word_bytes (self.section ∷ self.offset ∷ self.size ∷ [])) }
    {
        put_u16(bytes, at, self.section);
        put_u16(bytes, at + 2, self.offset);
        put_u16(bytes, at + 4, self.size);
    }
}

// Whether bytes begin with the contents of a form.
#[tactic(auto, using(crate::proofs::Contents::contents_within, crate::proofs::Entries::section_within, crate::proofs::Entries::entry_within))]
pub fn contents_are(bytes: &[u8], sizes: &[usize]) -> bool
    requires { form_size sizes.now ≤ length bytes.now }
    ensures { result ≡ contents_are bytes.now sizes.now }
{
    if u16_at(bytes, 0) != sizes.len() {
        return false;
    }
    let mut offset = 2 + 6 * sizes.len();
    for (i, size) in sizes.iter().enumerate() {
        let entry = Entry {
            section: i + 1,
            offset,
            size: *size,
        };
        if !entry.stands(bytes, 2 + 6 * i) {
            return false;
        }
        offset += *size;
    }
    true
}

// Writes the contents of a form.
#[tactic(auto, using(crate::proofs::Contents::contents_within, crate::proofs::Entries::section_within, crate::proofs::Entries::entry_within, crate::proofs::Entries::entered_all))]
pub fn put_contents(bytes: &mut [u8], sizes: &[usize])
    requires { (form_size sizes.now ≤ length bytes.old) × (form_size sizes.now < 65536) }
    ensures { bytes.new ≡ sets bytes.old 0 (word_bytes (contents_of sizes.now)) }
{
    put_u16(bytes, 0, sizes.len());
    let mut offset = 2 + 6 * sizes.len();
    for (i, size) in sizes.iter().enumerate() {
        let entry = Entry {
            section: i + 1,
            offset,
            size: *size,
        };
        entry.put(bytes, 2 + 6 * i);
        offset += *size;
    }
}
