// Texts that grow.
ghost use Rattle.std.specs.Prelude.{◌≡◌, ◌++◌, ◌∷◌, [], OnOk, IfOk};
ghost use Rattle.site_base.specs.Plain.{set};
ghost use Rattle.site_base.specs.View.{plain};
ghost use Rattle.front_yaml.specs.Bytes.{repeated};

use site_base::{Hash, Memory, Text, Value};
use std::alloc::Global;

/// Adds bytes at the end.
pub(crate) fn append(out: &mut Vec<u8>, bytes: &[u8]) -> Result<(), Memory>
    ensures { OnOk result (out.new.items ≡ out.old.items ++ bytes.now) }
{
    match out.extend_from_slice(bytes) {
        Ok(()) => Ok(()),
        Err(_) => Err(Memory),
    }
}

/// Adds a byte some times at the end.
#[tactic(auto, using(crate::proofs::Growing::repeated_more))]
pub(crate) fn append_repeated(out: &mut Vec<u8>, times: usize, byte: u8) -> Result<(), Memory>
    ensures { OnOk result (out.new.items ≡ out.old.items ++ repeated times byte) }
{
    for _ in 0..times {
        out.push(byte)?;
    }
    Ok(())
}

/// Gives a key this value, in place of one that it has.
pub(crate) fn put(pairs: &mut Hash, key: Text, value: Value) -> Result<(), Memory>
    ensures { OnOk result (pairs.new ≡ set key (plain value) pairs.old) }
{
    pairs.set(key, value)
}

/// The text of bytes, which are UTF-8 as they were cut out of one at ASCII bytes.
pub(crate) fn text_of(bytes: Vec<u8>) -> Result<Text, Memory>
    ensures { IfOk result (λ text. text ≡ bytes.items) }
{
    match String::from_utf8(bytes) {
        Ok(text) => Text::from_string(text),
        Err(_) => Err(Memory),
    }
}
