ghost use Rattle.std.specs.Prelude.{◌≡◌, ◌≤◌, IfOk, length};
ghost use Rattle.ira_main_files.specs.FileName.{log_name, name_in, slash_after};

use std::alloc::{AllocError, Allocator};
use std::marker::Model;

/// The name of a file; `-` stands for standard input.
#[derive(Drop)]
pub struct FileName<A: Allocator> {
    text: String<A>,
}

impl<A: Allocator> Model for FileName<A> {
    ghost use Rattle.std.specs.Prelude.{List, ℕ, string_bytes};

    ghost Value = { List ℕ };

    ghost view = { λ n. string_bytes n.text };
}

/// What comes between the name of a folder and that of a file in it.
pub fn slash_after(folder: &str) -> &'static str
    ensures value { result.now ≡ slash_after folder.now }
    ensures short { length result.now ≤ 1 }
{
    if folder.as_bytes().ends_with(b"/") {
        ""
    } else {
        "/"
    }
}

impl<A: Allocator> FileName<A> {
    /// One that a word gives.
    pub fn given(alloc: A, name: &str) -> Result<FileName<A>, AllocError>
        ensures { IfOk result (λ it. it ≡ name.now) }
    {
        Ok(FileName {
            text: String::from_str(alloc, name)?,
        })
    }

    /// That of the log of the node at this place, in this folder.
    pub fn log(alloc: A, folder: &str, place: u8) -> Result<FileName<A>, AllocError>
        ensures { IfOk result (λ it. it ≡ log_name folder.now place) }
    {
        let slash = slash_after(folder);
        Ok(FileName {
            text: format!(in alloc; "{folder}{slash}{place}.log")?,
        })
    }

    /// One in this folder.
    pub fn in_folder(alloc: A, folder: &str, name: &str) -> Result<FileName<A>, AllocError>
        ensures { IfOk result (λ it. it ≡ name_in folder.now name.now) }
    {
        let slash = slash_after(folder);
        Ok(FileName {
            text: format!(in alloc; "{folder}{slash}{name}")?,
        })
    }

    pub fn as_str(&self) -> &str
        ensures { result.now ≡ self.now }
    {
        self.text.as_str()
    }
}
