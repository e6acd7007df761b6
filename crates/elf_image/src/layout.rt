ghost use Rattle.std.specs.Prelude.{◌≡◌, ◌+◌, ◌-◌, ◌*◌, ◌<◌, ◌≤◌, ◌^◌, length};
ghost use Rattle.elf_image.specs.Image.{image_of};
ghost use Rattle.elf_image.specs.Places.{IsValid, round_page, dynamic_count, descriptors_place, rodata_place, rodata_end, code_place};
ghost use Rattle.elf_image.specs.Places.{code_end, dynamic_place, dynamic_end, filled_place, file_end, memory_end};

use crate::parts::ImageParts;
use mt_base::round16;

// The place of the symbol table, with the string table at its end.
pub(crate) const SYMBOLS_PLACE: u64 = 0x120;

// The place of the byte that is the string table.
pub(crate) const STRINGS_PLACE: u64 = 0x138;

// The place of the Rela records.
pub(crate) const RELOCS_PLACE: u64 = 0x140;

fn round_page(place: u64) -> u64
    requires { place < 2 ^ 32 }
    ensures { result ≡ round_page place }
{
    (place + 4095) / 4096 * 4096
}

// Where the parts of a valid image lie, in the file as in the image.
impl ImageParts {
    #[tactic(auto, unfolding(crate::specs::Places::descriptors_place))]
    pub(crate) fn descriptors_place(&self) -> u64
        requires { IsValid (image_of self.now) }
        ensures { result ≡ descriptors_place (image_of self.now) }
    {
        RELOCS_PLACE + self.reloc_bytes()
    }

    pub(crate) fn reloc_bytes(&self) -> u64
        requires { IsValid (image_of self.now) }
        ensures { result ≡ 24 * length self.now.relocs.items }
    {
        24 * self.relocs.len() as u64
    }

    #[tactic(auto, unfolding(crate::specs::Places::rodata_place))]
    pub(crate) fn rodata_place(&self) -> u64
        requires { IsValid (image_of self.now) }
        ensures { result ≡ rodata_place (image_of self.now) }
    {
        round16(self.descriptors_place() + self.descriptors.as_slice().len() as u64)
    }

    #[tactic(auto, unfolding(crate::specs::Places::rodata_end))]
    pub fn rodata_end(&self) -> u64
        requires { IsValid (image_of self.now) }
        ensures { result ≡ rodata_end (image_of self.now) }
    {
        self.rodata_place() + self.rodata.as_slice().len() as u64
    }

    #[tactic(auto, unfolding(crate::specs::Places::code_place))]
    pub fn code_place(&self) -> u64
        requires { IsValid (image_of self.now) }
        ensures { result ≡ code_place (image_of self.now) }
    {
        round_page(self.rodata_end())
    }

    pub(crate) fn code_bytes(&self) -> u64
        requires { IsValid (image_of self.now) }
        ensures { result ≡ 4 * length self.now.words.items }
    {
        4 * self.words.len() as u64
    }

    #[tactic(auto, unfolding(crate::specs::Places::code_end))]
    pub fn code_end(&self) -> u64
        requires { IsValid (image_of self.now) }
        ensures { result ≡ code_end (image_of self.now) }
    {
        self.code_place() + self.code_bytes()
    }

    #[tactic(auto, unfolding(crate::specs::Places::dynamic_place))]
    pub fn dynamic_place(&self) -> u64
        requires { IsValid (image_of self.now) }
        ensures { result ≡ dynamic_place (image_of self.now) }
    {
        round_page(self.code_end())
    }

    pub(crate) fn dynamic_bytes(&self) -> u64
        ensures { result ≡ 16 * dynamic_count self.now.descriptors }
    {
        match self.descriptors.as_slice() {
            [] => 16 * 11,
            _ => 16 * 13,
        }
    }

    #[tactic(auto, unfolding(crate::specs::Places::dynamic_end))]
    pub(crate) fn dynamic_end(&self) -> u64
        requires { IsValid (image_of self.now) }
        ensures { result ≡ dynamic_end (image_of self.now) }
    {
        self.dynamic_place() + self.dynamic_bytes()
    }

    #[tactic(auto, unfolding(crate::specs::Places::filled_place))]
    pub(crate) fn filled_place(&self) -> u64
        requires { IsValid (image_of self.now) }
        ensures { result ≡ filled_place (image_of self.now) }
    {
        round16(self.dynamic_end())
    }

    #[tactic(auto, unfolding(crate::specs::Places::file_end))]
    pub(crate) fn file_end(&self) -> u64
        requires { IsValid (image_of self.now) }
        ensures { result ≡ file_end (image_of self.now) }
    {
        self.filled_place() + self.filled.as_slice().len() as u64
    }

    #[tactic(auto, unfolding(crate::specs::Places::memory_end))]
    pub fn memory_end(&self) -> u64
        requires { IsValid (image_of self.now) }
        ensures { result ≡ memory_end (image_of self.now) }
    {
        self.file_end() + self.zero_bytes
    }
}
