use crate::worked::logs_of;
use ira_event::Logs;
use std::alloc::{AllocError, Global};

/// The texts of the logs of an election of so many nodes of which the first alone initiates, as `LONE_INITIATOR`, in version
/// 2.
pub fn lone_initiator_texts(alloc: Global, nodes: u8) -> Result<Vec<String>, AllocError> {
    lone_initiator_texts_in(alloc, 2, nodes)
}

/// The same in this version.
fn lone_initiator_texts_in(
    alloc: Global,
    version: u8,
    nodes: u8,
) -> Result<Vec<String>, AllocError> {
    let mut texts = Vec::new(alloc);
    let first = format!(in alloc;
        "irlog {version}\nnodes {nodes}\nplace 0\nstart initiator\n\
         draw 1\nsend 1 1 1 clean\nrecv 1 1 {nodes} clean\nend 3\n"
    )?;
    texts.push(first)?;
    for place in 1..nodes {
        let next = place + 1;
        let text = format!(in alloc;
            "irlog {version}\nnodes {nodes}\nplace {place}\nstart passive\n\
             recv 1 1 {place} clean\nsend 1 1 {next} clean\nend 2\n"
        )?;
        texts.push(text)?;
    }
    Ok(texts)
}

/// The bytes of these texts.
pub fn bytes_of(alloc: Global, texts: &[String]) -> Result<Vec<&[u8]>, AllocError> {
    texts.iter().map(|text| text.as_bytes()).collect(alloc)
}

/// The logs of these texts in this version.
pub fn lone_initiator_logs(alloc: Global, version: u8, nodes: u8) -> Option<Logs<Global>> {
    let texts = lone_initiator_texts_in(alloc, version, nodes).ok()?;
    let texts = bytes_of(alloc, &texts).ok()?;
    logs_of(alloc, &texts)
}
