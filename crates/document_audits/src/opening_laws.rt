//! What the definitions promise, each the contract of a function with an empty body.
ghost use Rattle.document_audits.specs.Openings.{DocumentsAreReadOneWay, KindsStay, TellingStays};

/// The kind of a document depends on its first line that isn't blank alone: bytes in which a line
/// feed ends that line have the kind of every text that begins with them, and each such text shows
/// its kind.
pub fn kinds_stay()
    ensures kind { KindsStay }
    ensures telling { TellingStays }
{}

/// Each document is read line by line or held whole, and not both.
pub fn documents_are_read_one_way()
    ensures { DocumentsAreReadOneWay }
{}
