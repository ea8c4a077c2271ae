ghost use Rattle.std.specs.Prelude.{◌≡◌, ◌++◌, ◌∷◌, [], IfOk, IfSome};
ghost use Rattle.ira_web.specs.Files.{AreFiles, bytes_of, lengths_of};

use ira_event::OutOfMemory;
use ira_view_page::NamedText;
use std::alloc::Allocator;

/// The file whose name and text are the first bytes, of these lengths, and the bytes after it.
fn next_file<'t>(name: usize, text: usize, bytes: &'t [u8]) -> Option<(NamedText<'t>, &'t [u8])>
    ensures { IfSome result (λ next. (lengths_of next.0 ≡ name ∷ text ∷ [])
        × (bytes_of next.0 ++ next.1.now ≡ bytes.now)) }
{
    let (name, rest) = bytes.split_at_checked(name)?;
    let (text, rest) = rest.split_at_checked(text)?;
    match str::from_utf8(name) {
        Ok(name) => Some((NamedText { name, text }, rest)),
        Err(_) => None,
    }
}

/// The files of a request. Of each its name and its text stand in `bytes`, one after another, and how many bytes each
/// is in `lengths`. None where they don't, or a name isn't UTF-8.
pub(crate) fn read_files<'t, A: Allocator>(
    alloc: A,
    lengths: &[usize],
    bytes: &'t [u8],
) -> Result<Option<Vec<NamedText<'t>, A>>, OutOfMemory>
    ensures { IfOk result (λ found. IfSome found (λ files. AreFiles lengths.now bytes.now files.items)) }
{
    let mut files = Vec::with_capacity(alloc, lengths.len() / 2)?;
    let (mut left, mut rest) = (lengths, bytes);
    while let [name, text, others @ ..] = left {
        let Some((file, after)) = next_file(*name, *text, rest) else {
            return Ok(None);
        };
        files.push(file)?;
        left = others;
        rest = after;
    }
    if !left.is_empty() || !rest.is_empty() {
        return Ok(None);
    }
    Ok(Some(files))
}
