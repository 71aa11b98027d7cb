//! The law of images.
ghost use Rattle.pds_image.specs.Laws.{WrittenLibrariesAreRead};

/// The image of a sound library is read as that library, where it has no more than 67,108,864 bytes.
#[tactic(auto, using(crate::proofs::WholeAgain::written_again))]
pub fn written_libraries_are_read()
    ensures { WrittenLibrariesAreRead }
{}
