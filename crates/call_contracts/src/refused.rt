//! Layout in which an allocation may fail.

ghost use Rattle.kdl.specs.Layout.{DocumentKeepsReading};
ghost use Rattle.kdl.specs.ReadsBack.{DocumentReadsBack};
ghost use Rattle.kdl_layout.specs.Config.{defaults};

use kdl::KdlDocument;
use std::alloc::AllocError;

/// `KdlDocument::autoformat`: a document that reads back still does, also with an error.
pub fn autoformat(document: &mut KdlDocument) -> Result<(), AllocError>
    ensures { DocumentKeepsReading defaults document.old
        → DocumentReadsBack document.old → DocumentReadsBack document.new }
{
    document.autoformat()
}
