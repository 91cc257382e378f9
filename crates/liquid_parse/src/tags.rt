// What tags are, by their words.
ghost use Rattle.std.specs.Prelude.{◌≡◌, map};
ghost use Rattle.liquid_grammar.specs.Items.{kind_in, tag_words};

use liquid_grammar::{BlockName, LeafName, PartName, TagKind};

/// Every tag, with its word.
const TAGS: [(&str, TagKind); 31] = [
    ("if", TagKind::Opens(BlockName::If)),
    ("endif", TagKind::Ends(BlockName::If)),
    ("unless", TagKind::Opens(BlockName::Unless)),
    ("endunless", TagKind::Ends(BlockName::Unless)),
    ("case", TagKind::Opens(BlockName::Case)),
    ("endcase", TagKind::Ends(BlockName::Case)),
    ("for", TagKind::Opens(BlockName::For)),
    ("endfor", TagKind::Ends(BlockName::For)),
    ("tablerow", TagKind::Opens(BlockName::TableRow)),
    ("endtablerow", TagKind::Ends(BlockName::TableRow)),
    ("capture", TagKind::Opens(BlockName::Capture)),
    ("endcapture", TagKind::Ends(BlockName::Capture)),
    ("highlight", TagKind::Opens(BlockName::Highlight)),
    ("endhighlight", TagKind::Ends(BlockName::Highlight)),
    ("raw", TagKind::Opens(BlockName::Raw)),
    ("endraw", TagKind::Ends(BlockName::Raw)),
    ("comment", TagKind::Opens(BlockName::Comment)),
    ("endcomment", TagKind::Ends(BlockName::Comment)),
    ("else", TagKind::Turns(PartName::Else)),
    ("elsif", TagKind::Turns(PartName::ElsIf)),
    ("when", TagKind::Turns(PartName::When)),
    ("assign", TagKind::Leaf(LeafName::Assign)),
    ("cycle", TagKind::Leaf(LeafName::Cycle)),
    ("increment", TagKind::Leaf(LeafName::Increment)),
    ("decrement", TagKind::Leaf(LeafName::Decrement)),
    ("break", TagKind::Leaf(LeafName::Break)),
    ("continue", TagKind::Leaf(LeafName::Continue)),
    ("include", TagKind::Leaf(LeafName::Include)),
    ("include_relative", TagKind::Leaf(LeafName::IncludeRelative)),
    ("link", TagKind::Leaf(LeafName::Link)),
    ("post_url", TagKind::Leaf(LeafName::PostUrl)),
];

/// What a tag of this name is, if it is known.
pub(crate) fn tag_kind(name: &str) -> Option<TagKind>
    ensures { result ≡ kind_in tag_words name.now }
{
    look_up(&TAGS, name)
}

fn look_up(mut table: &[(&str, TagKind)], name: &str) -> Option<TagKind>
    ensures { result ≡ kind_in (map (λ row. (row.0.now, row.1)) table.entry.now) name.now }
{
    while let [(word, kind), rest @ ..] = table {
        if name == *word {
            return Some(*kind);
        }
        table = rest;
    }
    None
}
