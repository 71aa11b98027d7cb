//! What relocation means for a program: a law for all programs.
ghost use Rattle.relocate.specs.Agreeing.{StoredTextIsLinked};

/// Where the text is what the program stores, it is the linked text once every constant has its
/// number, at the placement that the addresses make.
#[tactic(auto, using(crate::proofs::Agreeing::stored_text_is_linked))]
pub fn stored_text_is_linked()
    ensures { StoredTextIsLinked }
{}
