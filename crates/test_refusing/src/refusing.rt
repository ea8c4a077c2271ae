use std::alloc::{AllocError, Allocator, Global};
use std::sync::Arc;
use std::sync::atomic::{AtomicU64, Ordering};

/// How many growths were asked, and the number of the one to be refused.
#[derive(Drop)]
struct Counts {
    asked: AtomicU64,
    refused: AtomicU64,
}

/// The counts that all copies of an allocator share.
#[derive(Clone, Drop)]
struct Plan {
    counts: Arc<Counts>,
}

impl Plan {
    /// Counts a growth that is asked, and answers whether it is the one to be refused.
    fn refuses(&self) -> bool {
        let number = self
            .counts
            .asked
            .fetch_add(1, Ordering::SeqCst)
            .wrapping_add(1);
        number == self.counts.refused.load(Ordering::SeqCst)
    }
}

/// A heap that serves all growths but the one that it was told to refuse. Its copies, which may be in
/// several threads, are one: what is asked of them counts together.
#[derive(Clone, Drop)]
pub struct Refusing<B: Allocator> {
    plan: Plan,
    heap: B,
}

impl Refusing<Global> {
    /// Takes its blocks from `heap`, and serves all growths until it is told otherwise.
    pub fn new(heap: Global) -> Result<Refusing<Global>, AllocError> {
        let counts = Arc::new(
            heap,
            Counts {
                asked: AtomicU64::new(0),
                refused: AtomicU64::new(0),
            },
        )?;
        Ok(Refusing {
            plan: Plan { counts },
            heap,
        })
    }
}

impl<B: Allocator> Refusing<B> {
    /// From now on the growth of this number is refused, where the next one is number 1, and all others are
    /// served.
    pub fn refuse(&self, number: u64) {
        self.plan.counts.asked.store(0, Ordering::SeqCst);
        self.plan.counts.refused.store(number, Ordering::SeqCst);
    }

    /// From now on all growths are served.
    pub fn serve_all(&self) {
        self.refuse(0);
    }

    /// How many growths were asked since it was last told what to refuse, the refused one included.
    pub fn asked(&self) -> u64 {
        self.plan.counts.asked.load(Ordering::SeqCst)
    }
}

unsafe impl<B: Allocator> Allocator for Refusing<B> {
    ghost dealloc_token = { λ it ty ptr. B.dealloc_token it.heap ty ptr };

    fn allocate(&self, size: usize, align: usize) -> Result<*mut u8, AllocError> {
        if self.plan.refuses() {
            return Err(AllocError);
        }
        self.heap.allocate(size, align)
    }

    unsafe fn deallocate(&self, ptr: *mut u8, size: usize, align: usize) {
        self.heap.deallocate(ptr, size, align);
    }
}
