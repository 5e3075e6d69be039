//! The commands on files: a fresh image, and the words of one.

ghost use Rattle.std.specs.Prelude.{◌≡◌, ◌≤◌, ℕ, List, IfErr, IfOk, OnOk, map};
ghost use Rattle.std.specs.String.{string_bytes};
ghost use Rattle.cat_text.specs.Shelves.{KeepsFiles};
ghost use Rattle.pm_words.specs.Bytes.{bytes_of, words_in, HasNoFault};
ghost use Rattle.pm_words.specs.Images.{fresh_words};
ghost use Rattle.pm_words.specs.Layouts.{IsLayout};
ghost use Rattle.catalog_cli.specs.Files.{HasBytes, HasNoFile, IsFormatRefused, IsLoadRefused, MakesFile};
ghost use Rattle.catalog_cli.specs.Files.{HasImage, IsSaveRefused, SavesImage, file_of, formatted_line, lines_told};

use crate::status::{ImageRefusal, Status};
use cat_text::{Shelf, add_word};
use pm_words::{Image, Layout};
use std::alloc::{AllocError, Global};

/// The name of a command's file, which is its second word.
pub(crate) fn file_of(words: &[String]) -> &str
    ensures { result.now ≡ file_of (map string_bytes words.now) }
{
    match words {
        [_, file, ..] => file.as_str(),
        _ => "",
    }
}

/// Saves the image of an empty catalogue of this layout as a file that isn't there yet. The answer is the line that
/// tells of it.
pub(crate) fn format_file<H: Shelf>(
    alloc: Global,
    shelf: &mut H,
    name: &str,
    layout: Layout,
) -> Result<Vec<u8>, Status>
    requires { IsLayout layout }
    ensures line { IfOk result (λ text. HasNoFile (H.files shelf.old) name.now × (text.items ≡ formatted_line layout)) }
    ensures made { IfOk result (λ _. MakesFile (H.files shelf.old) (H.files shelf.new) name.now
        (bytes_of (fresh_words layout))) }
    ensures refused { IfErr result (IsFormatRefused (H.files shelf.old) (H.files shelf.new) (H.faults shelf.old)
        (H.faults shelf.new) name.now layout) }
    ensures never_falls { H.faults shelf.old ≤ H.faults shelf.new }
    ensures stays_steady { H.steady shelf.old → H.steady shelf.new × (H.faults shelf.new ≡ H.faults shelf.old) }
{
    let line = print_formatted(alloc, layout)?;
    let bytes = Image::fresh(alloc, layout)?.write(alloc)?;
    if shelf.load(name)?.is_some() {
        return Err(Status::Image(ImageRefusal::Exists));
    }
    shelf.save(name, &bytes)?;
    Ok(line)
}

/// The lines of so many words of a file, from one on.
pub(crate) fn list_words<H: Shelf>(
    alloc: Global,
    shelf: &mut H,
    name: &str,
    from: u64,
    count: u64,
) -> Result<Vec<u8>, Status>
    ensures lines { IfOk result (λ text. (bytes : List ℕ) × HasBytes (H.files shelf.old) name.now bytes ×
        HasNoFault bytes × (text.items ≡ lines_told from count (words_in bytes))) }
    ensures refused { IfErr result (IsLoadRefused (H.files shelf.old) (H.faults shelf.old) (H.faults shelf.new)
        name.now) }
    ensures keeps { KeepsFiles (H.files shelf.old) (H.files shelf.new) }
    ensures never_falls { H.faults shelf.old ≤ H.faults shelf.new }
    ensures stays_steady { H.steady shelf.old → H.steady shelf.new × (H.faults shelf.new ≡ H.faults shelf.old) }
{
    let image = load_image(alloc, shelf, name)?;
    let text = print_words(alloc, &image, from, count)?;
    Ok(text)
}

/// The image in the file of this name.
pub(crate) fn load_image<H: Shelf>(
    alloc: Global,
    shelf: &mut H,
    name: &str,
) -> Result<Image, Status>
    ensures image { IfOk result (HasImage (H.files shelf.old) name.now) }
    ensures refused { IfErr result (IsLoadRefused (H.files shelf.old) (H.faults shelf.old) (H.faults shelf.new)
        name.now) }
    ensures keeps { KeepsFiles (H.files shelf.old) (H.files shelf.new) }
    ensures never_falls { H.faults shelf.old ≤ H.faults shelf.new }
    ensures stays_steady { H.steady shelf.old → H.steady shelf.new × (H.faults shelf.new ≡ H.faults shelf.old) }
{
    let Some(bytes) = shelf.load(name)? else {
        return Err(Status::Image(ImageRefusal::Missing));
    };
    let image = Image::read(alloc, &bytes)?;
    Ok(image)
}

/// Makes this image the file of this name. The error is a shelf fault, or that there is no memory.
pub(crate) fn save_image<H: Shelf>(
    alloc: Global,
    shelf: &mut H,
    name: &str,
    image: &Image,
) -> Result<(), Status>
    ensures saved { OnOk result (SavesImage (H.files shelf.old) (H.files shelf.new) name.now image.now) }
    ensures refused { IfErr result (IsSaveRefused (H.files shelf.old) (H.files shelf.new) (H.faults shelf.old)
        (H.faults shelf.new) name.now image.now) }
    ensures never_falls { H.faults shelf.old ≤ H.faults shelf.new }
    ensures stays_steady { H.steady shelf.old → H.steady shelf.new × (H.faults shelf.new ≡ H.faults shelf.old) }
{
    let bytes = image.write(alloc)?;
    shelf.save(name, &bytes)?;
    Ok(())
}

/// The line that tells of a fresh image.
fn print_formatted(alloc: Global, layout: Layout) -> Result<Vec<u8>, AllocError>
    requires { IsLayout layout }
    ensures { IfOk result (λ text. text.items ≡ formatted_line layout) }
{
    let line = format!(in alloc;
        "formatted {} {} {} words {}\n",
        layout.nodes(),
        layout.slots(),
        layout.callers(),
        layout.image_words()
    )?;
    Ok(line.into_bytes())
}

/// A line for each of so many words of an image, from one on, as far as there are any.
fn print_words(alloc: Global, image: &Image, from: u64, count: u64) -> Result<Vec<u8>, AllocError>
    ensures { IfOk result (λ text. text.items ≡ lines_told from count image.now.words) }
{
    let end = from.saturating_add(count).min(image.layout().image_words());
    let mut text = Vec::new(alloc);
    for at in from..end {
        add_word(&mut text, at, image.word(at))?;
    }
    Ok(text)
}
