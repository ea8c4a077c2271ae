use crate::page::Page;
use ira_event::OutOfMemory;
use std::alloc::Allocator;

/// A usual cause.
pub trait Hint {
    /// Adds its sentence.
    fn print<A: Allocator>(&self, text: &mut Page<A>);
}

/// The sentence of a hint, where there is one.
pub fn hints_of<A: Allocator + Clone, H: Hint>(
    alloc: &A,
    hint: Option<&H>,
) -> Result<Vec<String<A>, A>, OutOfMemory> {
    let mut hints = Vec::new(alloc.clone()?);
    if let Some(hint) = hint {
        let mut text = Page::new(alloc.clone()?);
        hint.print(&mut text);
        hints.push(text.finish()?.into_string())?;
    }
    Ok(hints)
}
