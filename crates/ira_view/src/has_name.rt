ghost use Rattle.std.specs.Prelude.{◌≡◌, ℕ, List};

use ira_view_page::NamedText;
use std::alloc::Allocator;

/// What has the name of a file, or is it.
pub(crate) trait HasName {
    // the name
    ghost name: { Self → List ℕ };

    fn name(&self) -> &str
        ensures { result.now ≡ name self.now };
}

impl HasName for NamedText<'_> {
    ghost name = { λ file. file.name.now };

    fn name(&self) -> &str {
        self.name
    }
}

impl<A: Allocator> HasName for String<A> {
    ghost use Rattle.std.specs.Prelude.{string_bytes};

    ghost name = { λ name. string_bytes name };

    fn name(&self) -> &str {
        self.as_str()
    }
}
