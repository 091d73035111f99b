// A sound image, to be read: one value carries its bytes and what is known of them.

ghost use Rattle.std.specs.Prelude.{◌≡◌, true, false, ◌≤◌, ◌<◌, length, MatchOption};
ghost use Rattle.skiplist.specs.Limits.{most_blocks, most_height};
ghost use Rattle.archive.specs.Form.{image_bytes};
ghost use Rattle.archive.specs.Reading.{layout_of, count_of, height_at, tag_at, sound};

use crate::{HEADER, Layout, RECORD};

// Bytes that begin with an image, and its count. Such a value is made only where refusal 1 is not due.
#[derive(Clone, Copy)]
pub struct Image<'a> {
    bytes: &'a [u8],
    count: usize,
    pub ghost good: { sound bytes.now ≡ true },
    pub ghost counted: { count ≡ count_of bytes.now },
    pub ghost few: { count_of bytes.now ≤ most_blocks },
    pub ghost room: { image_bytes (count_of bytes.now) ≤ length bytes.now },
}

impl<'a> Image<'a> {
    // The image that the buffer begins with; none where refusal 1 is due.
    #[tactic(auto, using(crate::proofs::SoundLaws::sound_is))]
    pub fn new(b: &'a [u8]) -> Option<Image<'a>>
        ensures { MatchOption result (sound b.now ≡ false) (λ x. x.bytes.now ≡ b.now) }
    {
        if !crate::is_sound(b) {
            return None;
        }
        Some(Image::known(b))
    }

    // The same where it is known already that refusal 1 is not due.
    #[tactic(auto, using(crate::proofs::SoundLaws::sound_is))]
    pub fn known(b: &'a [u8]) -> Image<'a>
        requires { sound b.now ≡ true }
        ensures { result.bytes.now ≡ b.now }
    {
        Image {
            bytes: b,
            count: crate::header(b).count,
        }
    }

    // Where its records stand.
    pub fn layout(self) -> Layout
        ensures { result ≡ layout_of self.entry.bytes.now }
    {
        Layout {
            first: HEADER,
            size: RECORD,
            count: self.count,
        }
    }

    pub fn count(self) -> usize
        ensures { result ≡ count_of self.entry.bytes.now }
    {
        self.count
    }

    // The height of the block that has i others before it.
    #[tactic(auto, using(crate::proofs::SoundLaws::sound_is, crate::proofs::SoundLaws::low_at))]
    pub fn height(self, i: usize) -> u64
        requires { i < count_of self.bytes.now }
        ensures { (result ≡ height_at self.entry.bytes.now i) × (result ≤ most_height) }
    {
        octets::number_at::<1>(self.bytes, HEADER + RECORD * i)
    }

    // The tag of the block that has i others before it.
    pub fn tag(self, i: usize) -> [u8; 32]
        requires { i < count_of self.bytes.now }
        ensures { result ≡ tag_at self.entry.bytes.now i }
    {
        octets::bytes_at(self.bytes, HEADER + RECORD * i + 1)
    }
}
