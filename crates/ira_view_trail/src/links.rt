use ira_event::OutOfMemory;
use std::alloc::Allocator;
use std::collections::VecDeque;

/// A number for each load that is on its way, link by link, the next to be received first.
#[derive(Drop)]
pub(crate) struct Links<A: Allocator> {
    loads: Vec<VecDeque<u32, A>, A>,
}

impl<A: Allocator + Clone> Links<A> {
    pub(crate) fn new(alloc: A, nodes: u8) -> Result<Links<A>, OutOfMemory> {
        let mut loads = Vec::with_capacity(alloc.clone()?, usize::from(nodes))?;
        for _link in 0..nodes {
            loads.push(VecDeque::new(alloc.clone()?))?;
        }
        Ok(Links { loads })
    }

    pub(crate) fn send(&mut self, link: u8, number: u32) -> Result<(), OutOfMemory> {
        if let Some(loads) = self.loads.get_mut(usize::from(link)) {
            loads.push_back(number)?;
        }
        Ok(())
    }

    pub(crate) fn receive(&mut self, link: u8) -> Option<u32> {
        self.loads.get_mut(usize::from(link))?.pop_front()
    }
}
