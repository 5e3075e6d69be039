//! The bytes of an image, as a file holds them: its words one after another, eight bytes each, little-endian.

ghost use Rattle.std.specs.Prelude.{◌≡◌, ◌/◌, ◌<◌, ◌⊎◌, length, slice_index, IfOk, IfErr, IsErrOf};
ghost use Rattle.pm_words.specs.Bytes.{bytes_of, words_in, layout_in, image_in, HasLayout, IsFault, HasNoFault};
ghost use Rattle.pm_words.specs.declared.bytes.ImageFault.{ImageFault as Fault};
ghost use Rattle.pm_words.specs.declared.bytes.ImageFault.TheVariants.{Layout as OutOfRange, NoMemory as WantsMemory};

use crate::NoMemory;
use crate::image::{FORMAT, Image, MAGIC};
use crate::layout::{Field, Layout, LayoutFault};
use crate::offsets::header;
use std::alloc::{AllocError, Global};

/// How many bytes a header line has.
const HEADER_BYTES: usize = 64;

/// Why bytes are no image.
#[derive(Clone, Copy, PartialEq, Eq, Debug)]
pub enum ImageFault {
    /// There are fewer bytes than a header has, or not as many as the layout says: so many were found.
    Length { found: u64 },
    /// They don't begin with the text of all images.
    Magic,
    /// They are of another format, with this number.
    Format { found: u64 },
    /// This number of the layout is out of its range.
    Layout { field: Field },
    /// There was no memory for the words.
    NoMemory,
}

impl From<LayoutFault> for ImageFault {
    ghost from_gives = { λ range fault. fault ≡ OutOfRange range.field };

    fn from(range: LayoutFault) -> ImageFault {
        ImageFault::Layout { field: range.field }
    }
}

impl From<AllocError> for ImageFault {
    ghost from_gives = { λ _ fault. fault ≡ WantsMemory };

    fn from(_error: AllocError) -> ImageFault {
        ImageFault::NoMemory
    }
}

impl Image {
    /// Reads an image from its bytes, in one pass. The first fault is told, in the order of `ImageFault`, where a
    /// length that the layout doesn't say comes behind the layout. `NoMemory` comes only for bytes without a fault.
    pub fn read(alloc: Global, bytes: &[u8]) -> Result<Image, ImageFault>
        ensures image { IfOk result (λ i. i ≡ image_in bytes.now) }
        ensures same_bytes { IfOk result (λ i. bytes_of i.words ≡ bytes.now) }
        ensures fault { (f : Fault) → IsFault bytes.now f → IsErrOf result f }
        ensures refused { IfErr result (λ f. IsFault bytes.now f ⊎ (f ≡ ImageFault.NoMemory)) }
    {
        let layout = read_header(bytes)?;
        if bytes.len() as u64 != 8 * layout.image_words() {
            return Err(ImageFault::Length {
                found: bytes.len() as u64,
            });
        }
        let (chunks, _) = bytes.as_chunks::<8>();
        let words = chunks
            .iter()
            .map(|chunk| u64::from_le_bytes(*chunk))
            .collect(alloc)?;
        Ok(Image::of_words(layout, words))
    }

    /// Its bytes, in one pass. They read as this very image.
    pub fn write(&self, alloc: Global) -> Result<Vec<u8>, NoMemory>
        ensures bytes { IfOk result (λ bytes. bytes.items ≡ bytes_of self.now.words) }
        ensures reads_back { IfOk result (λ bytes. image_in bytes.items ≡ self.now) }
        ensures no_fault { IfOk result (λ bytes. HasNoFault bytes.items) }
    {
        let words = self.words();
        let mut bytes = Vec::with_capacity(alloc, 8 * self.layout().image_words() as usize)?;
        for word in words {
            bytes.extend_from_slice(&word.to_le_bytes())?;
        }
        Ok(bytes)
    }
}

/// The layout that the header tells, or the first fault of the bytes up to there.
fn read_header(bytes: &[u8]) -> Result<Layout, ImageFault>
    ensures layout { IfOk result (λ l. HasLayout bytes.now × (l ≡ layout_in bytes.now)) }
    ensures fault { IfErr result (IsFault bytes.now) }
{
    if bytes.len() < HEADER_BYTES {
        return Err(ImageFault::Length {
            found: bytes.len() as u64,
        });
    }
    if word_in(bytes, header::MAGIC) != u64::from_le_bytes(*MAGIC) {
        return Err(ImageFault::Magic);
    }
    let format = word_in(bytes, header::FORMAT);
    if format != FORMAT {
        return Err(ImageFault::Format { found: format });
    }
    let nodes = word_in(bytes, header::NODES);
    let slots = word_in(bytes, header::SLOTS);
    let callers = word_in(bytes, header::CALLERS);
    Ok(Layout::new(nodes, slots, callers)?)
}

/// One of the words that the bytes spell.
fn word_in(bytes: &[u8], at: u64) -> u64
    requires { at < length bytes.now / 8 }
    ensures { result ≡ slice_index (words_in bytes.now) at }
{
    let (chunks, _) = bytes.as_chunks::<8>();
    u64::from_le_bytes(chunks[at as usize])
}
