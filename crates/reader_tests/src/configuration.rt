// Configurations of texts and values, which are written in YAML: each call once where it is done, and the key that a configuration is refused for, which no reply names.
use front_yaml::{YamlFault, read_yaml};
use site_base::{Text, Value, YamlKind};
use site_config::{Config, ConfigError, ValueError, config_of, read_config};
use std::alloc::Global;

fn made(alloc: Global, yaml: &str) -> Option<Config> {
    let value = read_yaml(alloc, yaml).ok()?;
    config_of(alloc, value).ok()
}

// What a value is refused for, if it is.
fn refusal(alloc: Global, value: Value) -> Option<Text> {
    match config_of(alloc, value) {
        Ok(_) => None,
        Err(error) => match error {
            ValueError::Key(key) => Some(key),
            ValueError::NotMapping => Text::copy(alloc, "not a mapping").ok(),
            ValueError::Memory => None,
        },
    }
}

fn is_refused(alloc: Global, yaml: &str, want: &str) -> bool {
    let Ok(value) = read_yaml(alloc, yaml) else {
        return false;
    };
    match refusal(alloc, value) {
        Some(key) => key.as_str() == want,
        None => false,
    }
}

fn has_default_texts(config: &Config) -> bool {
    config.permalink.as_str() == "date"
        && config.markdown_ext.as_str() == "markdown,mkdown,mkdn,mkd,md"
        && config.paginate_path.as_str() == "/page:num"
        && config.excerpt_separator.as_str() == "\n\n"
}

fn has_default_values(config: &Config) -> bool {
    config.paginate.is_none()
        && config.timezone == 0
        && !config.future
        && !config.unpublished
        && !config.show_drafts
        && config.defaults.as_slice().is_empty()
        && config.all.is_empty()
        && config.make_archives.as_slice().is_empty()
        && config.archive_layout.is_none()
        && !config.make_feed
        && !config.make_sitemap
}

#[test]
fn takes_defaults(rt: HostRuntime) {
    let Some(config) = made(rt.alloc(), "") else {
        return assert!(rt; false, "it is refused");
    };
    assert!(rt; has_default_texts(&config));
    assert!(rt; has_default_values(&config));
}

const WRONG: &[(&str, &str)] = &[
    ("paginate: x", "paginate"),
    ("timezone: Europe/Paris\npaginate: 0\n", "paginate"),
    ("paginate_path: /page", "paginate_path"),
    ("collections: [a b]", "collections"),
    ("exclude: 1", "exclude"),
    ("make_archives: [years]", "make_archives"),
    ("make_archives: [tags, 1]", "make_archives"),
    ("make_archives: x", "make_archives"),
    ("make_archives: {tags: true}", "make_archives"),
    ("archive_layout: [a]", "archive_layout"),
    ("make_feed: 1", "make_feed"),
    ("make_sitemap: \"yes\"", "make_sitemap"),
    ("make_sitemap: 1\nmake_feed: [a]", "make_feed"),
    ("- a", "not a mapping"),
];

#[test]
fn names_the_first_wrong_key(rt: HostRuntime) {
    for (yaml, want) in WRONG {
        assert!(rt; is_refused(rt.alloc(), yaml, want), "at {yaml}");
    }
}

// The key that a configuration is refused for, if it is for one.
fn wrong_key(alloc: Global, text: &str) -> Option<Text> {
    match read_config(alloc, Some(text)) {
        Ok(_config) => None,
        Err(error) => match error {
            ConfigError::Key(key) => Some(key),
            ConfigError::Yaml(_fault) => None,
            ConfigError::Memory => None,
        },
    }
}

fn names_key(alloc: Global, text: &str, want: &str) -> bool {
    match wrong_key(alloc, text) {
        Some(key) => key.as_str() == want,
        None => false,
    }
}

// The fault of YAML that a configuration is refused for, if it is for one.
fn yaml_fault(alloc: Global, text: &str) -> Option<YamlFault> {
    match read_config(alloc, Some(text)) {
        Ok(_config) => None,
        Err(error) => match error {
            ConfigError::Key(_key) => None,
            ConfigError::Yaml(fault) => Some(fault),
            ConfigError::Memory => None,
        },
    }
}

fn has_fault(alloc: Global, text: &str, line: u64, kind: YamlKind) -> bool {
    match yaml_fault(alloc, text) {
        Some(fault) => fault.line == line && fault.kind == kind,
        None => false,
    }
}

// Whether the configuration builds the future, and has so many collections.
fn is_read(alloc: Global, text: &str, future: bool, collections: usize) -> bool {
    match read_config(alloc, Some(text)) {
        Ok(config) => {
            config.future == future && config.collections.as_slice().len() == collections
        }
        Err(_error) => false,
    }
}

#[test]
fn reads_texts(rt: HostRuntime) {
    let alloc = rt.alloc();
    assert!(rt; names_key(alloc, "paginate: x\n", "paginate"));
    assert!(rt; has_fault(alloc, "title: a\nurl: 'x\n", 2, YamlKind::Quote));
    assert!(rt; has_fault(alloc, "- a\n", 1, YamlKind::NotMapping));
    assert!(rt; is_read(alloc, "collections: [films]\nfuture: yes\n", true, 2));
}
