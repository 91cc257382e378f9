// Texts without the stretches that HTML's marks begin and end.
ghost use Rattle.std.specs.Prelude.{◌≡◌, ◌≤◌, ◌++◌, ◌∷◌, IfOk, OnOk, MatchOption, None, Some, length, option_map};
ghost use Rattle.std.specs.String.{string_bytes};
ghost use Rattle.text_filters.specs.Stretches.{behind_stretch, begun, end_of, name_of, stripped, without};
ghost use Rattle.text_filters.specs.MissingEnds.{LackEnds};

use std::alloc::{AllocError, Global};

/// What is dropped of a text: `<` with a name behind it, and all up to the next end.
#[derive(Clone, Copy, Debug, PartialEq, Eq)]
enum Stretch {
    Script,
    Comment,
    Style,
    Tag,
}

/// A text without scripts, comments and styles, and then without tags.
pub(crate) fn stripped(alloc: Global, text: &str) -> Result<String, AllocError>
    ensures { IfOk result (λ made. string_bytes made ≡ stripped text.now) }
{
    let blocks = [Stretch::Script, Stretch::Comment, Stretch::Style];
    let without_blocks = without(alloc, &blocks, text)?;
    without(alloc, &[Stretch::Tag], without_blocks.as_str())
}

// A text without its stretches of these kinds.
fn without(alloc: Global, kinds: &[Stretch], text: &str) -> Result<String, AllocError>
    ensures { IfOk result (λ made. string_bytes made ≡ without kinds.now text.now) }
{
    let mut made = String::new(alloc);
    let mut missing = Vec::new(alloc);
    let mut rest = text;
    while let Some((before, behind)) = rest.split_once('<') {
        made.push_str(before)?;
        rest = push_next(&mut made, &mut missing, kinds, behind)?;
    }
    made.push_str(rest)?;
    Ok(made)
}

// Adds the `<` before a text, unless it begins a stretch; what follows it, or the stretch, is left.
fn push_next<'a>(
    made: &mut String,
    missing: &mut Vec<Stretch>,
    kinds: &[Stretch],
    text: &'a str,
) -> Result<&'a str, AllocError>
    requires { LackEnds missing.old.items text.now }
    ensures made { IfOk result (λ rest. string_bytes made.new ++ without kinds.now rest.now ≡ string_bytes made.old ++ without kinds.now (60 ∷ text.now)) }
    ensures shorter { IfOk result (λ rest. length rest.now ≤ length text.now) }
    ensures missing { IfOk result (λ rest. LackEnds missing.new.items rest.now) }
{
    match behind_stretch(missing, kinds, text)? {
        Some(rest) => Ok(rest),
        None => {
            made.push('<')?;
            Ok(text)
        }
    }
}

// What follows the stretch that a `<` before this text begins. A kind whose end is not found is noted, and its end is not
// looked for again.
fn behind_stretch<'a>(
    missing: &mut Vec<Stretch>,
    kinds: &[Stretch],
    text: &'a str,
) -> Result<Option<&'a str>, AllocError>
    requires { LackEnds missing.old.items text.now }
    ensures behind { IfOk result (λ rest. option_map (λ x. x.now) rest ≡ behind_stretch kinds.now text.now) }
    ensures missing { OnOk result (LackEnds missing.new.items text.now) }
{
    let Some((kind, inside)) = begun(kinds, text) else {
        return Ok(None);
    };
    if missing.contains(&kind) {
        return Ok(None);
    }
    match inside.split_once(kind.end()) {
        Some((_, rest)) => Ok(Some(rest)),
        None => {
            missing.push(kind)?;
            Ok(None)
        }
    }
}

// The first kind whose name begins a text, and what follows the name.
fn begun<'a>(mut kinds: &[Stretch], text: &'a str) -> Option<(Stretch, &'a str)>
    ensures { MatchOption result (begun kinds.entry.now text.now ≡ None) (λ x. begun kinds.entry.now text.now ≡ Some (x.0, x.1.now)) }
{
    while let [kind, others @ ..] = kinds {
        if let Some(inside) = text.strip_prefix(kind.name()) {
            return Some((*kind, inside));
        }
        kinds = others;
    }
    None
}

impl Stretch {
    fn name(self) -> &'static str
        ensures { result.now ≡ name_of self }
    {
        match self {
            Stretch::Script => "script",
            Stretch::Comment => "!--",
            Stretch::Style => "style",
            Stretch::Tag => "",
        }
    }

    fn end(self) -> &'static str
        ensures { result.now ≡ end_of self }
    {
        match self {
            Stretch::Script => "</script>",
            Stretch::Comment => "-->",
            Stretch::Style => "</style>",
            Stretch::Tag => ">",
        }
    }
}
