// Tokens of texts, by the standard's rules.
use cm_blocks::{Leaf, Node, Token, block_tokens, read_blocks};
use cm_containers::Container;
use std::alloc::Global;
use std::test::Fail;

fn sign(token: &Token) -> char {
    match token {
        Token::Opens(Container::Quote) => '>',
        Token::Opens(Container::Item { mark, .. }) => *mark,
        Token::Closes(_) => '/',
        Token::Blank => '_',
        Token::Holds(Leaf::Paragraph { .. }) => 'p',
        Token::Holds(Leaf::Underlined { .. }) => 'u',
        Token::Holds(Leaf::Heading { .. }) => 'h',
        Token::Holds(Leaf::Break) => 'b',
        Token::Holds(Leaf::Indented { .. }) => 'i',
        Token::Holds(Leaf::Fenced { .. }) => 'f',
        Token::Holds(Leaf::Html { .. }) => 'x',
    }
}

fn signs(alloc: Global, text: &str) -> Result<String, Fail> {
    let mut out = String::new(alloc);
    for token in &block_tokens(alloc, text)? {
        out.push(sign(token))?;
    }
    Ok(out)
}

#[test]
fn blocks_stand_in_their_containers(rt: HostRuntime) -> Result<(), Fail> {
    let rows = [
        ("", ""),
        ("> a\nb\n\n1. c\n\n   d\n", ">p/_.p_p/"),
        ("> ```\na\n", ">f/p"),
        ("> a\n===\n", ">p/"),
        ("a\n2. b\n", "p"),
        ("a\n1. b\n", "p.p/"),
        ("a\n-\n", "u"),
        ("-\n\n  a\n", "-_/_p"),
        ("- a\n\n\n      b\n", "-p__i/"),
        ("[a]: b\n===\n", "p"),
        ("a\n<b>\n", "p"),
        ("<b>\n\na\r\n# b\rc\0", "x_php"),
        ("- - a\n\n \n  b\n", "--p__/p/"),
        ("- - a\n\n\n    b\n", "--p__p//"),
        ("- -\n\n\n  a\n", "--_/__p/"),
        ("> - - a\n\nb\n", ">--p///_p"),
        ("- > - a\n\n\n  b\n", "->-p//__p/"),
        ("- > a\n  - b\n\n\n    c\n", "->p/-p__p//"),
        ("- > - > a\n  > - b\n\n  c\n", "->->p//-p//_p/"),
    ];
    for (text, wanted) in rows {
        assert_eq!(rt; signs(rt.alloc(), text)?.as_str(), wanted, "{text}");
    }
    Ok(())
}

#[test]
fn blocks_are_read(rt: HostRuntime) -> Result<(), Fail> {
    let found = read_blocks(rt.alloc(), "> a\nb\n\n1. c\n\n   d\n")?;
    assert_eq!(rt; found.nodes.len(), 6);
    assert!(rt; matches!(&found.nodes[0], Node::Quote { len: 1 }));
    assert!(rt; is_paragraph(&found.nodes[1], "a\nb"));
    assert!(rt;
        matches!(
            &found.nodes[2],
            Node::List {
                mark: '.',
                number: 1,
                is_loose: true,
                len: 3
            }
        )
    );
    assert!(rt; matches!(&found.nodes[3], Node::Item { len: 2 }));
    assert!(rt; is_paragraph(&found.nodes[4], "c"));
    assert!(rt; is_paragraph(&found.nodes[5], "d"));
    Ok(())
}

fn is_paragraph(node: &Node, wanted: &str) -> bool {
    match node {
        Node::Paragraph { text } => text.as_str() == wanted,
        _ => false,
    }
}

fn push_times(text: &mut String, piece: &str, times: usize) -> Result<(), Fail> {
    for _ in 0..times {
        text.push_str(piece)?;
    }
    Ok(())
}

fn count(alloc: Global, front: &str, times: usize, behind: &str) -> Result<usize, Fail> {
    let mut text = String::new(alloc);
    push_times(&mut text, front, times)?;
    text.push_str(behind)?;
    Ok(read_blocks(alloc, text.as_str())?.nodes.len())
}

// Items in one another, and as many blank lines.
fn count_behind_items(alloc: Global, times: usize) -> Result<usize, Fail> {
    let mut blank_lines = String::new(alloc);
    push_times(&mut blank_lines, "\n", times)?;
    let behind = format!(in alloc; "a{}b", blank_lines.as_str())?;
    count(alloc, "- ", times, behind.as_str())
}

#[test]
fn large_texts_are_read_in_seconds(rt: HostRuntime) -> Result<(), Fail> {
    let alloc = rt.alloc();
    assert_eq!(rt; count(alloc, "", 0, "")?, 0);
    assert_eq!(rt; count(alloc, "> ", 10_000, "a")?, 10_001);
    assert_eq!(rt; count(alloc, "- ", 10_000, "a")?, 20_001);
    assert_eq!(rt; count(alloc, "* ", 50_000, "a *")?, 100_001);
    assert_eq!(rt; count(alloc, "* ", 50_000, "*")?, 1);
    assert_eq!(rt; count(alloc, "a\n", 100_000, "")?, 1);
    assert_eq!(rt; count(alloc, "- a\n", 100_000, "")?, 200_001);
    assert_eq!(rt; count(alloc, "[a]: b\n", 10_000, "")?, 0);
    assert_eq!(rt; count_behind_items(alloc, 200_000)?, 400_002);
    Ok(())
}
