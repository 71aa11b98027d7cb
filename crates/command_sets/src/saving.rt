//! The answer that puts a library.
ghost use Rattle.std.specs.Prelude.{◌≡◌, true, IfOk};
ghost use Rattle.command_sets.specs.Causes.{IsOwn};
ghost use Rattle.command_sets.specs.Libraries.{PutsOutput, PutsReadable, library_answer, put_answer};

use crate::answer::{Answer, Put};
use crate::refusing::refused;
use crate::status::Status;
use command_words::keys::SYSLMOD;
use le_bytes::{Bytes, Counted, Memory, Refusal};
use le_io::SET_LIMIT;
use pds_image::{image, image_length};
use pds_lib::Library;
use std::alloc::Global;

/// The answer for a library, which is put if the words name it: with this status and text, or the refusal of an
/// image that is too long to be put.
///
/// # Errors
/// Want of memory.
pub fn library_answer(
    alloc: Global,
    library: &Library,
    named: bool,
    status: Status,
    text: Vec<u8>,
) -> Result<Answer, Memory>
    requires { IsOwn status }
    ensures answer { IfOk result (λ answer. answer ≡ library_answer named status text.items library.now) }
    ensures own { IfOk result (λ answer. IsOwn answer.status) }
    ensures again { IfOk result (PutsReadable library.now) }
    ensures put { IfOk result (PutsOutput named) }
{
    if named {
        put_answer(alloc, library, status, text)
    } else {
        Ok(Answer {
            status,
            text: Bytes::from_vec(text),
            put: None,
        })
    }
}

/// The answer that puts a library, where its image is no longer than a data set may be.
#[tactic(auto, unfolding(crate::specs::Libraries::put_answer))]
fn put_answer(
    alloc: Global,
    library: &Library,
    status: Status,
    text: Vec<u8>,
) -> Result<Answer, Memory>
    requires { IsOwn status }
    ensures answer { IfOk result (λ answer. answer ≡ put_answer status text.items library.now) }
    ensures own { IfOk result (λ answer. IsOwn answer.status) }
    ensures again { IfOk result (PutsReadable library.now) }
    ensures put { IfOk result (PutsOutput true) }
{
    let size = image_length(library);
    if size > SET_LIMIT {
        return refused(alloc, Refusal::Limit(Counted::ImageLength, size));
    }
    let image = image(library, alloc)?;
    Ok(Answer {
        status,
        text: Bytes::from_vec(text),
        put: Some(Put {
            dd: SYSLMOD,
            image: Bytes::from_vec(image),
        }),
    })
}
