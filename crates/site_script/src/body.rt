// The bytes that follow a put.
ghost use Rattle.std.specs.Prelude.{◌≡◌, ◌≤◌, ◌<◌, ◌+◌, ℕ, List, Some, IfErr, IfOk, length};
ghost use Rattle.std.specs.Option.{option_map};
ghost use Rattle.site_base.specs.Ends.{HasCauseOf};
ghost use Rattle.site_script.specs.Reading.{AddsFrom, IsBody, IsPartOfBody, IsPartOfRead};

use site_base::{ByteSource, Failed, ReadError};
use std::alloc::Global;

// As many bytes as one read of standard input gives; a larger block costs more to clear than it saves.
const BLOCK: usize = 8192;

/// So many bytes; None where the input ends before.
pub(crate) fn read_body<I: ByteSource>(
    alloc: Global,
    count: usize,
    input: &mut I,
) -> Result<Option<Vec<u8>>, ReadError>
    ensures ok { (text : List ℕ) → I.left input.old ≡ Some text →
        IfOk result (λ body. IsBody count text (option_map (λ bytes. bytes.items) body) (I.left input.new)) }
    ensures part { (text : List ℕ) → I.left input.old ≡ Some text →
        IfErr result (λ error. IsPartOfBody count text error (I.left input.new)) }
    ensures cause { HasCauseOf ReadError.Failed (I.failures input.old) (I.failures input.new) result }
{
    let mut block = [0u8; BLOCK];
    let mut bytes = Vec::new(alloc);
    while bytes.len() < count {
        let wanted = BLOCK.min(count - bytes.len());
        match read_more(&mut bytes, &mut block[..wanted], input) {
            Ok(0) => return Ok(None),
            Ok(_) => {}
            Err(error) => return Err(error),
        }
    }
    Ok(Some(bytes))
}

// Adds bytes that one read gives, through a block, and answers how many; 0 at the input's end.
fn read_more<I: ByteSource>(
    bytes: &mut Vec<u8>,
    block: &mut [u8],
    input: &mut I,
) -> Result<usize, ReadError>
    requires { 0 < length block.old }
    ensures ok { (text : List ℕ) → I.left input.old ≡ Some text →
        IfOk result (λ count. AddsFrom text bytes.old.items bytes.new.items count (I.left input.new)) }
    ensures part { (text : List ℕ) → I.left input.old ≡ Some text →
        IfErr result (λ error. IsPartOfRead (length block.old) text error (I.left input.new)) }
    ensures longer { IfOk result (λ count. length bytes.new.items ≡ length bytes.old.items + count) }
    ensures within { IfOk result (λ count. count ≤ length block.old) }
    ensures cause { HasCauseOf ReadError.Failed (I.failures input.old) (I.failures input.new) result }
{
    let count = match input.read(block) {
        Ok(count) => count,
        Err(Failed) => return Err(ReadError::Failed),
    };
    match bytes.extend_from_slice(&block[..count]) {
        Ok(()) => Ok(count),
        Err(_) => Err(ReadError::Memory),
    }
}
