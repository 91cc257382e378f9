// Each call over a text or two; tests/yaml has the rows of values and faults.
use front_yaml::{YamlError, YamlFault, read_mapping, read_yaml};
use site_base::{YamlKind, same_code};
use std::alloc::Global;

fn has_code(alloc: Global, text: &str, written: &str) -> bool {
    match read_yaml(alloc, text) {
        Ok(value) => same_code(&value, written.as_bytes()),
        Err(_) => false,
    }
}

fn value_fault(alloc: Global, text: &str) -> Option<YamlFault> {
    match read_yaml(alloc, text) {
        Err(YamlError::Fault(fault)) => Some(fault),
        _ => None,
    }
}

#[test]
fn reads_values(rt: HostRuntime) {
    let alloc = rt.alloc();
    assert!(rt; has_code(alloc, "b: [1, yes]\na: ~\n", "h2:s1:bl2:i1;ts1:an"));
    let quote = YamlFault {
        line: 2,
        kind: YamlKind::Quote,
    };
    assert!(rt; value_fault(alloc, "a: 1\nb: 'x") == Some(quote));
}

// How many pairs a text has.
fn pairs(alloc: Global, text: &str) -> Option<u64> {
    match read_mapping(alloc, text) {
        Ok(pairs) => Some(pairs.len()),
        Err(_) => None,
    }
}

fn mapping_fault(alloc: Global, text: &str) -> Option<YamlFault> {
    match read_mapping(alloc, text) {
        Err(YamlError::Fault(fault)) => Some(fault),
        _ => None,
    }
}

#[test]
fn wants_a_mapping(rt: HostRuntime) {
    let alloc = rt.alloc();
    assert!(rt; pairs(alloc, "a: 1\nb: 2\n") == Some(2));
    assert!(rt; pairs(alloc, "# nothing\n") == Some(0));
    let list = YamlFault {
        line: 1,
        kind: YamlKind::NotMapping,
    };
    assert!(rt; mapping_fault(alloc, "\n- a\n") == Some(list));
}
