use std::alloc::Allocator;
use std::fs::{self, Files, Metadata, OpenFile};
use std::io;
use std::os::unix::fs::{MetadataExt, chown};

/// A file beside the one whose name it is to get. It is removed where it is let go before that.
pub struct Draft<'a, R: Files, A: Allocator> {
    rt: &'a R,
    path: String<A>,
    name: String<A>,
    /// The file that has the name until then, if there is one.
    old: Option<Metadata>,
}

impl<'a, R: Files, A: Allocator> Draft<'a, R, A> {
    /// The file that was just made at this path. Where it is to take the place of another, who may read and write it, and
    /// whose it is, is taken over from that, as far as the system lets this program do so.
    pub(crate) fn new(
        rt: &'a R,
        path: String<A>,
        name: String<A>,
        old: Option<Metadata>,
    ) -> Draft<'a, R, A> {
        if let Some(old) = &old {
            let _ = chown(rt, path.as_str(), Some(old.uid()), Some(old.gid()));
            let _ = fs::set_permissions(rt, path.as_str(), old.permissions());
        }
        Draft {
            rt,
            path,
            name,
            old,
        }
    }

    /// Sees that what was written is on the disk, where it is to take the place of another file.
    pub(crate) fn settle(&self) -> io::Result<()> {
        if self.old.is_some() {
            fs::open(self.rt, self.path.as_str())?.sync_all()?;
        }
        Ok(())
    }

    /// Gives it the name.
    pub(crate) fn keep(self) -> io::Result<()> {
        fs::rename(self.rt, self.path.as_str(), self.name.as_str())?;
        let Draft {
            rt: _,
            path: _,
            name: _,
            old: _,
        } = self;
        Ok(())
    }
}

impl<R: Files, A: Allocator> Drop for Draft<'_, R, A> {
    fn drop(self) {
        let _ = fs::remove_file(self.rt, self.path.as_str());
        let Draft {
            rt: _,
            path: _,
            name: _,
            old: _,
        } = self;
    }
}
