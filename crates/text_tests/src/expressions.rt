// What expressions and the texts of tags are made of; tests/liquid has the rows of what is read and what is not.
use liquid_expr::{
    ReadExprError, read_assign, read_condition, read_cycle, read_expr, read_include, read_language,
    read_loop, read_name, read_nothing, read_params, read_path, read_values,
};
use liquid_grammar::{
    Comparison, Condition, Expr, Joint, Literal, LoopKey, LoopKind, LoopPart, NamePart, Step, Test,
};
use std::alloc::Global;

// What a text is not read for.
fn expr_error(alloc: Global, text: &str) -> Option<ReadExprError> {
    read_expr(alloc, text).err()
}

fn condition_error(alloc: Global, text: &str) -> Option<ReadExprError> {
    read_condition(alloc, text).err()
}

fn params_error(alloc: Global, text: &str) -> Option<ReadExprError> {
    read_params(alloc, text).err()
}

#[test]
fn tells_why_a_text_is_not_read(rt: HostRuntime) {
    let alloc = rt.alloc();
    assert!(rt; expr_error(alloc, "a |") == Some(ReadExprError::Syntax));
    assert!(rt; expr_error(alloc, "9223372036854775808") == Some(ReadExprError::Overflow));
    assert!(rt; condition_error(alloc, "a and") == Some(ReadExprError::Syntax));
    assert!(rt; params_error(alloc, "x=") == Some(ReadExprError::Syntax));
}

fn has_steps(expr: &Expr) -> bool {
    matches!(
        expr.operand.steps(),
        [
            Step::Variable(_),
            Step::Member(_),
            Step::Literal(Literal::Int(1)),
            Step::Index
        ]
    )
}

fn has_filter(expr: &Expr, place: usize, name: &str, arguments: usize) -> bool {
    match expr.filters.as_slice().get(place) {
        Some(filter) => {
            filter.name.as_str() == name && filter.arguments.as_slice().len() == arguments
        }
        None => false,
    }
}

fn keeps_the_expression(alloc: Global) -> bool {
    match read_expr(alloc, "a.b[1] | f: c, 'd' | g") {
        Ok(expr) => {
            has_steps(&expr)
                && expr.filters.as_slice().len() == 2
                && has_filter(&expr, 0, "f", 2)
                && has_filter(&expr, 1, "g", 0)
        }
        Err(_) => false,
    }
}

// Whether the conditions behind the first are joined by `and` and `or`, and the first of them compares.
fn has_rest(condition: &Condition) -> bool {
    match condition.rest.as_slice() {
        [first, second] => {
            first.joint == Joint::And
                && second.joint == Joint::Or
                && matches!(&first.test, Test::Compares(_, Comparison::Unequal, _))
        }
        _ => false,
    }
}

fn keeps_the_condition(alloc: Global) -> bool {
    match read_condition(alloc, "a and b <> 1 or c") {
        Ok(condition) => matches!(&condition.first, Test::Holds(_)) && has_rest(&condition),
        Err(_) => false,
    }
}

fn keeps_the_parameters(alloc: Global) -> bool {
    match read_params(alloc, "x=1 y=2") {
        Ok(params) => match params.as_slice() {
            [_, second] => second.name.as_str() == "y",
            _ => false,
        },
        Err(_) => false,
    }
}

#[test]
fn keeps_the_parts(rt: HostRuntime) {
    assert!(rt; keeps_the_expression(rt.alloc()));
    assert!(rt; keeps_the_condition(rt.alloc()));
    assert!(rt; keeps_the_parameters(rt.alloc()));
}

fn names(alloc: Global, text: &str, want: &str) -> bool {
    match read_name(alloc, text) {
        Ok(name) => name.as_str() == want,
        Err(_) => false,
    }
}

fn assigns(alloc: Global, text: &str, name: &str, filters: usize) -> bool {
    match read_assign(alloc, text) {
        Ok(assign) => {
            assign.name.as_str() == name && assign.value.filters.as_slice().len() == filters
        }
        Err(_) => false,
    }
}

fn has_values(alloc: Global, text: &str, count: usize) -> bool {
    match read_values(alloc, text) {
        Ok(values) => values.as_slice().len() == count,
        Err(_) => false,
    }
}

// Whether the group of a cycle is named, and it has so many values.
fn cycles(alloc: Global, text: &str, count: usize) -> bool {
    match read_cycle(alloc, text) {
        Ok(cycle) => cycle.group.is_some() && cycle.values.as_slice().len() == count,
        Err(_) => false,
    }
}

fn loops(alloc: Global) -> bool {
    match read_loop(alloc, LoopKind::For, "x in y limit:2 reversed") {
        Ok(found) => matches!(
            found.parts.as_slice(),
            [LoopPart::Number(LoopKey::Limit, _), LoopPart::Reversed]
        ),
        Err(_) => false,
    }
}

fn includes(alloc: Global) -> bool {
    match read_include(alloc, " a{{ b }}.html x=1 ") {
        Ok(include) => {
            matches!(
                include.file.as_slice(),
                [NamePart::Text(_), NamePart::Output(_), NamePart::Text(_)]
            ) && include.params.as_slice().len() == 1
        }
        Err(_) => false,
    }
}

fn has_path(alloc: Global, text: &str, parts: usize) -> bool {
    match read_path(alloc, text) {
        Ok(path) => path.as_slice().len() == parts,
        Err(_) => false,
    }
}

fn has_language(alloc: Global, text: &str, want: &str) -> bool {
    match read_language(alloc, text) {
        Ok(language) => language.as_str() == want,
        Err(_) => false,
    }
}

#[test]
fn reads_what_stands_in_tags(rt: HostRuntime) {
    let alloc = rt.alloc();
    assert!(rt; read_nothing(alloc, " ").is_ok());
    assert!(rt; names(alloc, " a-b ", "a-b"));
    assert!(rt; assigns(alloc, "a = b | f", "a", 1));
    assert!(rt; has_values(alloc, "1, 2 or 3", 3));
    assert!(rt; cycles(alloc, "g: 1, 2", 2));
    assert!(rt; loops(alloc));
    assert!(rt; includes(alloc));
    assert!(rt; has_path(alloc, " my page.md ", 1));
    assert!(rt; has_language(alloc, " c++ linenos", "c++"));
}
