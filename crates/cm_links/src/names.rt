// Character references that have a name.
ghost use Rattle.std.specs.Prelude.{◌≡◌, map};
ghost use Rattle.markdown_grammar.specs.CharacterNames.{character_names};
ghost use Rattle.markdown_grammar.specs.Fronts.{same_bytes};
ghost use Rattle.markdown_grammar.specs.References.{named_in};

/// The names, each with its character.
const NAMES: [(&[u8], char); 113] = [
    (b"amp", '&'),
    (b"lt", '<'),
    (b"gt", '>'),
    (b"quot", '"'),
    (b"nbsp", '\u{a0}'),
    (b"iexcl", '\u{a1}'),
    (b"cent", '\u{a2}'),
    (b"pound", '\u{a3}'),
    (b"curren", '\u{a4}'),
    (b"yen", '\u{a5}'),
    (b"brvbar", '\u{a6}'),
    (b"sect", '\u{a7}'),
    (b"uml", '\u{a8}'),
    (b"copy", '\u{a9}'),
    (b"ordf", '\u{aa}'),
    (b"laquo", '\u{ab}'),
    (b"not", '\u{ac}'),
    (b"shy", '\u{ad}'),
    (b"reg", '\u{ae}'),
    (b"macr", '\u{af}'),
    (b"deg", '\u{b0}'),
    (b"plusmn", '\u{b1}'),
    (b"sup2", '\u{b2}'),
    (b"sup3", '\u{b3}'),
    (b"acute", '\u{b4}'),
    (b"micro", '\u{b5}'),
    (b"para", '\u{b6}'),
    (b"middot", '\u{b7}'),
    (b"cedil", '\u{b8}'),
    (b"sup1", '\u{b9}'),
    (b"ordm", '\u{ba}'),
    (b"raquo", '\u{bb}'),
    (b"frac14", '\u{bc}'),
    (b"frac12", '\u{bd}'),
    (b"frac34", '\u{be}'),
    (b"iquest", '\u{bf}'),
    (b"Agrave", '\u{c0}'),
    (b"Aacute", '\u{c1}'),
    (b"Acirc", '\u{c2}'),
    (b"Atilde", '\u{c3}'),
    (b"Auml", '\u{c4}'),
    (b"Aring", '\u{c5}'),
    (b"AElig", '\u{c6}'),
    (b"Ccedil", '\u{c7}'),
    (b"Egrave", '\u{c8}'),
    (b"Eacute", '\u{c9}'),
    (b"Ecirc", '\u{ca}'),
    (b"Euml", '\u{cb}'),
    (b"Igrave", '\u{cc}'),
    (b"Iacute", '\u{cd}'),
    (b"Icirc", '\u{ce}'),
    (b"Iuml", '\u{cf}'),
    (b"ETH", '\u{d0}'),
    (b"Ntilde", '\u{d1}'),
    (b"Ograve", '\u{d2}'),
    (b"Oacute", '\u{d3}'),
    (b"Ocirc", '\u{d4}'),
    (b"Otilde", '\u{d5}'),
    (b"Ouml", '\u{d6}'),
    (b"times", '\u{d7}'),
    (b"Oslash", '\u{d8}'),
    (b"Ugrave", '\u{d9}'),
    (b"Uacute", '\u{da}'),
    (b"Ucirc", '\u{db}'),
    (b"Uuml", '\u{dc}'),
    (b"Yacute", '\u{dd}'),
    (b"THORN", '\u{de}'),
    (b"szlig", '\u{df}'),
    (b"agrave", '\u{e0}'),
    (b"aacute", '\u{e1}'),
    (b"acirc", '\u{e2}'),
    (b"atilde", '\u{e3}'),
    (b"auml", '\u{e4}'),
    (b"aring", '\u{e5}'),
    (b"aelig", '\u{e6}'),
    (b"ccedil", '\u{e7}'),
    (b"egrave", '\u{e8}'),
    (b"eacute", '\u{e9}'),
    (b"ecirc", '\u{ea}'),
    (b"euml", '\u{eb}'),
    (b"igrave", '\u{ec}'),
    (b"iacute", '\u{ed}'),
    (b"icirc", '\u{ee}'),
    (b"iuml", '\u{ef}'),
    (b"eth", '\u{f0}'),
    (b"ntilde", '\u{f1}'),
    (b"ograve", '\u{f2}'),
    (b"oacute", '\u{f3}'),
    (b"ocirc", '\u{f4}'),
    (b"otilde", '\u{f5}'),
    (b"ouml", '\u{f6}'),
    (b"divide", '\u{f7}'),
    (b"oslash", '\u{f8}'),
    (b"ugrave", '\u{f9}'),
    (b"uacute", '\u{fa}'),
    (b"ucirc", '\u{fb}'),
    (b"uuml", '\u{fc}'),
    (b"yacute", '\u{fd}'),
    (b"thorn", '\u{fe}'),
    (b"yuml", '\u{ff}'),
    (b"ndash", '\u{2013}'),
    (b"mdash", '\u{2014}'),
    (b"lsquo", '\u{2018}'),
    (b"rsquo", '\u{2019}'),
    (b"ldquo", '\u{201c}'),
    (b"rdquo", '\u{201d}'),
    (b"bull", '\u{2022}'),
    (b"hellip", '\u{2026}'),
    (b"prime", '\u{2032}'),
    (b"euro", '\u{20ac}'),
    (b"trade", '\u{2122}'),
    (b"larr", '\u{2190}'),
    (b"rarr", '\u{2192}'),
];

/// The character of a name, if it is known.
pub(crate) fn named(name: &[u8]) -> Option<char>
    ensures { result ≡ named_in character_names name.now }
{
    look_up(&NAMES, name)
}

fn look_up(mut table: &[(&[u8], char)], name: &[u8]) -> Option<char>
    ensures { result ≡ named_in (map (λ row. (row.0.now, row.1)) table.entry.now) name.now }
{
    while let [(known, c), rest @ ..] = table {
        if same_name(known, name) {
            return Some(*c);
        }
        table = rest;
    }
    None
}

fn same_name(a: &[u8], b: &[u8]) -> bool
    ensures { result ≡ same_bytes a.now b.now }
{
    a == b
}
