// What a template is made of; tests/liquid has the rows of texts that can be read, and of faults.
use liquid_grammar::Leaf;
use liquid_parse::{Node, ParseError, Templates, first_of, parse};
use site_base::Text;
use std::alloc::Global;
use std::test::*;

// The line and the number of the fault, or None for a template.
fn fault(alloc: Global, text: &str) -> Result<Option<(u64, u8)>, Fail> {
    match parse(alloc, text) {
        Ok(_) => Ok(None),
        Err(ParseError::Fault(line, kind)) => Ok(Some((line, kind.number()))),
        Err(ParseError::Memory) => Err("no memory")?,
    }
}

#[test]
fn names_the_first_fault(rt: HostRuntime) -> Result<(), Fail> {
    assert!(rt; fault(rt.alloc(), "{{ a | f: 1 }}{% if b %}{% endif %}")? == None);
    assert!(rt; fault(rt.alloc(), "\n{% foo %}")? == Some((2, 11)));
    Ok(())
}

// Whether these are the texts of a template without blocks.
fn are_texts(nodes: &[Node], wanted: &[&str]) -> bool {
    let mut same = nodes.len() == wanted.len();
    for (node, text) in nodes.iter().zip(wanted) {
        same = same
            && match node {
                Node::Leaf(_, Leaf::Text(found)) => found.as_str() == *text,
                _ => false,
            };
    }
    same
}

#[test]
fn keeps_texts_as_they_are(rt: HostRuntime) -> Result<(), Fail> {
    let template = parse(rt.alloc(), "{% raw %}{{ a }}{% endraw %}b")
        .ok()
        .ok_or("a template")?;
    assert!(rt; are_texts(template.nodes(), &["{{ a }}", "b"]));
    let template = parse(rt.alloc(), "é{% comment %}ü{% endcomment %} ö")
        .ok()
        .ok_or("a template")?;
    assert!(rt; are_texts(template.nodes(), &["é", " ö"]));
    Ok(())
}

// Whether a text is the template of these texts.
fn has_texts(
    alloc: Global,
    templates: &mut Templates,
    text: &str,
    wanted: &[&str],
) -> Result<bool, Fail> {
    let text = Text::copy(alloc, text)?;
    match templates.template(alloc, &text) {
        Ok(template) => Ok(are_texts(template.nodes(), wanted)),
        Err(_) => Ok(false),
    }
}

#[test]
fn finds_templates_again(rt: HostRuntime) -> Result<(), Fail> {
    let mut templates = Templates::new(rt.alloc());
    for _ in 0..3 {
        assert!(rt;
            has_texts(
                rt.alloc(),
                &mut templates,
                "a{% comment %}b{% endcomment %}c",
                &["a", "c"]
            )?
        );
        assert!(rt;
            has_texts(
                rt.alloc(),
                &mut templates,
                "{% raw %}{{ b{% endraw %}",
                &["{{ b"]
            )?
        );
        assert!(rt; !has_texts(rt.alloc(), &mut templates, "{{ b", &["{{ b"])?);
    }
    Ok(())
}

#[test]
fn walks_over_nodes(rt: HostRuntime) -> Result<(), Fail> {
    let template = parse(
        rt.alloc(),
        "{% if a %}b{{ c }}{% else %}d{% endif %}\n{{ e }}",
    )
    .ok()
    .ok_or("a template")?;
    let first = first_of(template.nodes()).ok_or("a block")?;
    assert!(rt; matches!(first.node, Node::Block(1, _, 5)));
    assert!(rt; first.inside.len() == 5 && first.rest.len() == 2);
    let part = first_of(first.inside).ok_or("its first part")?;
    assert!(rt; matches!(part.node, Node::Part(1, _, 2)));
    let other = first_of(part.rest).ok_or("its second part")?;
    assert!(rt; other.inside.len() == 1 && other.rest.is_empty());
    let text = first_of(first.rest).ok_or("a text")?;
    assert!(rt; text.inside.is_empty());
    let output = first_of(text.rest).ok_or("an output")?;
    assert!(rt; matches!(output.node, Node::Leaf(2, Leaf::Output(_))));
    assert!(rt; first_of(output.rest).is_none());
    Ok(())
}
