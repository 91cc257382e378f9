// Each call over a text or two; tests/data has the rows.
use data_files::{DataError, Refusal, read_csv, read_data, read_json, read_tsv};
use front_yaml::YamlFault;
use site_base::{SitePath, Value, YamlKind, same_code};
use std::alloc::Global;

// Whether a value was read, and has this code.
fn has_code(read: Result<Value, Refusal>, written: &str) -> bool {
    match read {
        Ok(value) => same_code(&value, written.as_bytes()),
        Err(_) => false,
    }
}

fn is_refused(read: Result<Value, Refusal>) -> bool {
    match read {
        Ok(_) => false,
        Err(refusal) => match refusal {
            Refusal::Refused => true,
            Refusal::Memory => false,
        },
    }
}

#[test]
fn reads_texts(rt: HostRuntime) {
    let alloc = rt.alloc();
    assert!(rt; has_code(read_json(alloc, "{\"b\": [1]}"), "h1:s1:bl1:i1;"));
    assert!(rt; has_code(read_csv(alloc, "a,b\n1,\n"), "l1:h2:s1:as1:1s1:bs0:"));
    assert!(rt; has_code(read_tsv(alloc, "a\tb\n1\t\n"), "l1:h2:s1:as1:1s1:bs0:"));
    assert!(rt; is_refused(read_json(alloc, "1.5")));
    assert!(rt; is_refused(read_csv(alloc, "a,b\n1\n")));
}

fn data_at(alloc: Global, path: &str, text: &str) -> Result<Option<Value>, DataError> {
    match SitePath::read(alloc, path) {
        Ok(path) => read_data(alloc, &path, text),
        Err(_) => Err(DataError::Memory),
    }
}

// Whether the file has data, with this code.
fn has_data(alloc: Global, path: &str, text: &str, written: &str) -> bool {
    match data_at(alloc, path, text) {
        Ok(Some(value)) => same_code(&value, written.as_bytes()),
        _ => false,
    }
}

const FILES: &[(&str, &str, &str)] = &[
    ("_data/a.json", "{\"b\": [1]}", "h1:s1:bl1:i1;"),
    ("_data/a.yml", "b: [1]\n", "h1:s1:bl1:i1;"),
    ("_data/a.yaml", "b:\n- 1\n", "h1:s1:bl1:i1;"),
    ("_data/a.csv", "b\n1\n", "l1:h1:s1:bs1:1"),
    ("_data/a.tsv", "b\n1\n", "l1:h1:s1:bs1:1"),
];

#[test]
fn reads_by_the_end_of_a_path(rt: HostRuntime) {
    for (path, text, written) in FILES {
        assert!(rt; has_data(rt.alloc(), path, text, written), "at {path}");
    }
}

/// What a file that has no data is refused for.
#[derive(Clone, Copy)]
enum Other {
    NoData,
    Refused,
    Yaml(YamlFault),
}

// Whether the file has no data for this reason.
fn is_other(alloc: Global, path: &str, text: &str, want: Other) -> bool {
    match (data_at(alloc, path, text), want) {
        (Ok(None), Other::NoData) => true,
        (Err(DataError::Refused), Other::Refused) => true,
        (Err(DataError::Yaml(fault)), Other::Yaml(wanted)) => fault == wanted,
        _ => false,
    }
}

const OTHERS: &[(&str, &str, Other)] = &[
    ("_data/a.json", "1.5", Other::Refused),
    ("_data/a.txt", "1", Other::NoData),
    (
        "_data/a.yml",
        "a: 1\nb: 'x\n",
        Other::Yaml(YamlFault {
            line: 2,
            kind: YamlKind::Quote,
        }),
    ),
];

#[test]
fn refuses_by_the_end_of_a_path(rt: HostRuntime) {
    for (path, text, want) in OTHERS {
        assert!(rt; is_other(rt.alloc(), path, text, *want), "at {path}");
    }
}
