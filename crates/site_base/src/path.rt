// Paths of a site.
ghost use Rattle.std.specs.Prelude.{◌≡◌, ◌⊎◌, List, ℕ, MatchResult, Some, None, IfOk};
ghost use Rattle.std.specs.Prelude.{nat_eq};
ghost use Rattle.std.specs.Arc.{arc_value};
ghost use Rattle.std.specs.Ordering.{nat_cmp};
ghost use Rattle.std.specs.String.{string_bytes};
ghost use Rattle.std.specs.Cmp.{partial_equiv_from_equiv};
ghost use Rattle.std.specs.Cmp.Lexicographic.{pointwise, slice_cmp, nat_list_eq_equiv, nat_list_cmp_total, texts_ties, texts_po};
ghost use Rattle.std.proofs.Common.{rules};
ghost use Rattle.site_base.specs.Path.{path_refusal, IsSitePath, is_dots, has_dots, has_empty_segment, has_control};

use crate::{Memory, Text};
use std::alloc::Global;
use std::cmp::Ordering;
use std::marker::Model;
use std::sync::Arc;
use thiserror::Error;

/// Why a text is no path. The reasons are tested in this order.
#[derive(Clone, Copy, Debug, PartialEq, Eq, Error)]
pub enum PathError {
    #[error("Empty")]
    Empty,
    #[error("Absolute")]
    Absolute,
    #[error("DotSegment")]
    DotSegment,
    #[error("EmptySegment")]
    EmptySegment,
    #[error("Control")]
    Control,
    #[error("Long")]
    Long,
    #[error("Memory")]
    Memory,
}

/// A relative path of segments between `/`, which clauses see as its bytes. It has eight bytes; its holders share what it points to.
#[derive(Drop)]
pub struct SitePath {
    text: Arc<String>,
}

const _: () = prove!(size_of::<SitePath>() == 8);

impl Model for SitePath {
    ghost use Rattle.std.specs.Arc.{arc_value};
    ghost use Rattle.std.specs.Prelude.{List, ℕ};
    ghost use Rattle.std.specs.String.{string_bytes};
    ghost use Rattle.site_base.specs.Path.{IsSitePath};

    ghost Value = { List ℕ };

    ghost view = { λ a. string_bytes (arc_value a.text) };

    ghost invariant = { λ a. IsSitePath (string_bytes (arc_value a.text)) };
}

impl SitePath {
    /// Reads a path: relative, with no segment that is empty, `.` or `..`, no control character, and at most
    /// 1,024 bytes long. Want of memory aside, the refusal is the first in the order of `PathError`.
    pub fn read(alloc: Global, text: &str) -> Result<SitePath, PathError>
        ensures { MatchResult result
            (λ path. (path ≡ text.now) × (path_refusal text.now ≡ None))
            (λ e. (e ≡ PathError.Memory) ⊎ (path_refusal text.now ≡ Some e)) }
    {
        if let Some(refusal) = refusal(text.as_bytes()) {
            return Err(refusal);
        }
        match shared(alloc, text) {
            Ok(text) => Ok(SitePath { text }),
            Err(Memory) => Err(PathError::Memory),
        }
    }

    /// The path as a text, which is a further holder of it.
    pub fn to_text(&self, alloc: Global) -> Result<Text, Memory>
        ensures { IfOk result (λ text. text ≡ self.now) }
    {
        Ok(Text::from_holder(alloc, self.text.clone()?))
    }

    pub fn text(&self) -> &str
        ensures text { result.now ≡ self.now }
        ensures path { IsSitePath result.now }
    {
        self.text.as_str()
    }

    pub fn as_bytes(&self) -> &[u8]
        ensures bytes { result.now ≡ self.now }
    {
        self.text.as_bytes()
    }

    /// A further holder of the path. Nothing is copied.
    pub fn copy(&self, _alloc: Global) -> Result<SitePath, Memory>
        ensures { IfOk result (λ path. path ≡ self.now) }
    {
        Ok(SitePath {
            text: self.text.clone()?,
        })
    }
}

impl PartialEq for SitePath {
    ghost eq = { pointwise nat_eq };

    ghost laws = { partial_equiv_from_equiv nat_list_eq_equiv };

    fn eq(&self, other: &Self) -> bool {
        self.as_bytes() == other.as_bytes()
    }
}

impl Eq for SitePath {
    ghost laws = { nat_list_eq_equiv };
}

impl PartialOrd for SitePath {
    ghost partial_cmp = { λ x y. Some (slice_cmp nat_cmp x y) };

    ghost laws = { texts_po };

    fn partial_cmp(&self, other: &Self) -> Option<Ordering> {
        Some(self.cmp(other))
    }
}

impl Ord for SitePath {
    ghost cmp = { slice_cmp nat_cmp };

    ghost total = { nat_list_cmp_total };

    ghost matches_partial_cmp = { Prim.search rules };

    ghost matches_eq = { texts_ties };

    fn cmp(&self, other: &Self) -> Ordering {
        self.as_bytes().cmp(other.as_bytes())
    }
}

// A text that can have further holders.
fn shared(alloc: Global, text: &str) -> Result<Arc<String>, Memory>
    ensures { IfOk result (λ shared. string_bytes (arc_value shared) ≡ text.now) }
{
    Ok(Arc::new(alloc, String::from_str(alloc, text)?)?)
}

fn refusal(text: &[u8]) -> Option<PathError>
    ensures { result ≡ path_refusal text.now }
{
    if text.is_empty() {
        return Some(PathError::Empty);
    }
    if text[0] == b'/' {
        return Some(PathError::Absolute);
    }
    if has_dots(text) {
        return Some(PathError::DotSegment);
    }
    if has_empty_segment(text) {
        return Some(PathError::EmptySegment);
    }
    if has_control(text) {
        return Some(PathError::Control);
    }
    if text.len() > 1024 {
        return Some(PathError::Long);
    }
    None
}

fn has_dots(text: &[u8]) -> bool
    ensures { result ≡ has_dots text.now }
{
    text.split(|b| *b == b'/').any(is_dots)
}

fn is_dots(segment: &[u8]) -> bool
    ensures { result ≡ is_dots segment.now }
{
    segment == b".".as_slice() || segment == b"..".as_slice()
}

fn has_empty_segment(text: &[u8]) -> bool
    ensures { result ≡ has_empty_segment text.now }
{
    text.split(|b| *b == b'/').any(|s| s.is_empty())
}

fn has_control(text: &[u8]) -> bool
    ensures { result ≡ has_control text.now }
{
    text.iter().any(|b| *b < 0x20 || *b == 0x7f)
}
