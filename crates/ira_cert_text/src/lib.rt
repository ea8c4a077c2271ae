//! Certificates: why no consistent cut meets a case, written down step by step, and the text of one.
#![tactic(auto)]

mod cert_draft;
mod cert_fault;
mod cert_head;
mod cert_line;
mod cert_lines;
mod cert_reader;
mod cert_step;
mod cert_writer;
mod certificate;
mod laws;
mod limits;
mod section;
mod text_len;

pub use cert_draft::CertDraft;
pub use cert_fault::CertFault;
pub use cert_reader::read_cert;
pub use cert_step::CertStep;
pub use cert_writer::write_cert;
pub use certificate::Certificate;
pub use laws::{
    a_certificate_text_has_one_answer, each_certificate_has_one_text, no_text_is_two_certificates,
};
pub use limits::{MAX_SECTIONS, MAX_STEPS};
pub use section::Section;
