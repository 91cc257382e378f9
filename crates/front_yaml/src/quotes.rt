// Quoted scalars.
ghost use Rattle.std.specs.Prelude.{◌≡◌, ◌≤◌, ◌<◌, ◌+◌, length, false, option_map, IfOk, IfSome, OnOk, ◌++◌, ◌∷◌, [], if◌then◌else◌};
ghost use Rattle.front_yaml.specs.Quotes.{halved, quote_fault, quote_text, quoted_in, quoted};
ghost use Rattle.front_yaml.specs.Given.{ReadsAt, Fits, as_pair};

use crate::escapes::bad_escape;
use crate::faults::{PlaceError, PlaceFault};
use crate::folding::{first_tab, folded};
use crate::growth::text_of;
use crate::quote_ends::quote_len;
use crate::scans::front;
use site_base::{Memory, Text, YamlKind};
use std::alloc::Global;

// Adds a byte, unless it is the second of two quotes.
fn push_unless(second: bool, out: &mut Vec<u8>, c: u8) -> Result<(), Memory>
    ensures { OnOk result (out.new.items ≡ (if second then out.old.items else out.old.items ++ c ∷ [])) }
{
    if !second {
        out.push(c)?;
    }
    Ok(())
}

// One quote for each two.
#[tactic(auto, using(crate::proofs::Halving::one_more))]
fn halved(alloc: Global, text: &[u8]) -> Result<Vec<u8>, Memory>
    ensures { IfOk result (λ bytes. bytes.items ≡ halved false text.now) }
{
    let mut out = Vec::new(alloc);
    let mut second = false;
    for c in text {
        push_unless(second, &mut out, *c)?;
        second = !second && *c == b'\'';
    }
    Ok(out)
}

fn quote_fault(quote: u8, text: &[u8]) -> Option<PlaceFault>
    ensures value { option_map as_pair result ≡ quote_fault quote text.now }
    ensures within { IfSome result (λ fault. fault.place < length text.now) }
{
    let tab = PlaceFault::at(YamlKind::Tab, first_tab(text));
    if quote == b'\'' {
        return PlaceFault::earlier(tab, None);
    }
    PlaceFault::earlier(tab, PlaceFault::at(YamlKind::Quote, bad_escape(text)))
}

// The bytes for which those between two quotes stand.
fn quote_text(alloc: Global, quote: u8, text: &[u8]) -> Result<Vec<u8>, Memory>
    ensures { IfOk result (λ bytes. bytes.items ≡ quote_text quote text.now) }
{
    if quote == b'\'' {
        let single = halved(alloc, text)?;
        folded(alloc, false, single.as_slice())
    } else {
        folded(alloc, true, text)
    }
}

// The text behind an opening quote that is closed after some bytes.
fn quoted_in(alloc: Global, quote: u8, text: &[u8], len: usize) -> Result<(Text, usize), PlaceError>
    requires { len < length text.now }
    ensures value { ReadsAt result (quoted_in quote text.now len) }
    ensures within { Fits (1 + length text.now) result }
{
    let inner = front(text, len);
    if let Some(fault) = quote_fault(quote, inner) {
        return Err(PlaceError::Fault(PlaceFault {
            place: 1 + fault.place,
            kind: fault.kind,
        }));
    }
    let text = text_of(quote_text(alloc, quote, inner)?)?;
    Ok((text, len + 2))
}

const NO_END: PlaceError = PlaceError::Fault(PlaceFault {
    place: 0,
    kind: YamlKind::Quote,
});

/// The text of the quoted scalar at the front, and its bytes with the quotes.
pub(crate) fn quoted(alloc: Global, text: &[u8]) -> Result<(Text, usize), PlaceError>
    ensures value { ReadsAt result (quoted text.now) }
    ensures within { Fits (length text.now) result }
{
    match text {
        [] => Err(NO_END),
        [quote, rest @ ..] => match quote_len(*quote, rest) {
            Some(len) => quoted_in(alloc, *quote, rest, len),
            None => Err(NO_END),
        },
    }
}
