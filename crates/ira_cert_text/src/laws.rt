//! Laws over the definitions: each is the contract of a function that does nothing.
ghost use Rattle.ira_cert_text.specs.CertLaws.{EachCertificateHasOneText, NoTextIsTwoCertificates, EachTextHasAnAnswer, NoCertTextHasFaults, NoTextHasTwoFaults, NoTextIsOutOfMemory};

/// Each certificate within the limits has exactly one text.
pub fn each_certificate_has_one_text()
    ensures { EachCertificateHasOneText }
{}

/// A text is the text of one certificate at the most.
pub fn no_text_is_two_certificates()
    ensures { NoTextIsTwoCertificates }
{}

/// A text has exactly one answer: it is a certificate's, or it has one fault.
pub fn a_certificate_text_has_one_answer()
    ensures answered { EachTextHasAnAnswer }
    ensures certificate_or_fault { NoCertTextHasFaults }
    ensures one_fault { NoTextHasTwoFaults }
    ensures memory { NoTextIsOutOfMemory }
{}
